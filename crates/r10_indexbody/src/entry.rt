//! Entries of index packets.

ghost use Rattle.std.specs.Prelude.{◌≡◌, ◌-◌, ◌≤◌, ◌++◌, length, take};
ghost use Rattle.r10_count.specs.Append.{Appends};
ghost use Rattle.r10_indexbody.specs.Index.{node_entry, packet_word};

use r10_count::{BodyEntry, Count, append_all, split_u32, split_u64};
use std::alloc::{AllocError, Global};

/// What a node says of a packet.
#[derive(Clone, Copy)]
pub struct NodeEntry {
    /// The counter of its header, in units of 100 ns.
    pub counter: Count,
    /// Its data type.
    pub data_type: u8,
    /// Its channel ID.
    pub channel: u16,
    /// Where it begins, in bytes from the start of the file.
    pub offset: u64,
}

/// What a root says of a node, or of a root.
#[derive(Clone, Copy)]
pub struct RootEntry {
    /// The counter of its header, in units of 100 ns.
    pub counter: Count,
    /// Where it begins, in bytes from the start of the file.
    pub offset: u64,
}

/// Puts twenty bytes in place of the last twenty.
#[inline(always)]
fn put_last(bytes: &mut [u8], row: [u8; 20])
    requires { 20 ≤ length bytes.old }
    ensures { bytes.new ≡ take (length bytes.old - 20) bytes.old ++ row }
{
    if let Some(last) = bytes.last_chunk_mut::<20>() {
        *last = row;
    }
}

/// Adds twenty bytes. They are stored where they are to stand: a copy of them would wait for each of its stores.
#[inline(always)]
fn append_row(out: &mut Vec<u8>, row: [u8; 20]) -> Result<(), AllocError>
    ensures { Appends row out.old out.new result }
{
    out.resize(out.len() + 20, 0)?;
    put_last(out.as_mut_slice(), row);
    Ok(())
}

impl NodeEntry {
    /// The word that names the packet: its data type above its channel ID.
    #[inline(always)]
    pub fn packet_word(&self) -> u32
        ensures { result ≡ packet_word self.now }
    {
        let (data_type, channel) = (self.data_type, self.channel);
        0x1_0000 * u32::from(data_type) + u32::from(channel)
    }

    /// Its 20 bytes.
    #[inline(always)]
    fn row(&self) -> [u8; 20]
        ensures { result ≡ node_entry self.now }
    {
        let [s0, s1, s2, s3, s4, s5, s6, s7] = self.counter.stamp();
        let [p0, p1, p2, p3] = self.packet_word().to_le_bytes();
        let [o0, o1, o2, o3, o4, o5, o6, o7] = self.offset.to_le_bytes();
        [
            s0, s1, s2, s3, s4, s5, s6, s7, p0, p1, p2, p3, o0, o1, o2, o3, o4, o5, o6, o7,
        ]
    }
}

impl BodyEntry for NodeEntry {
    ghost use Rattle.r10_indexbody.specs.Entry.{node_form};

    ghost form = { node_form };

    fn front() -> usize {
        20
    }

    fn entry_length(front: &[u8]) -> Option<usize> {
        let _ = front;
        Some(20)
    }

    fn word(setting: u32, count: usize) -> u32 {
        let _ = setting;
        0x8000_0000 + (count % 0x1_0000) as u32
    }

    fn agrees(word: u32, count: usize) -> bool {
        word / 0x8000_0000 == 1 && (word % 0x1_0000) as usize == count
    }

    fn count(&self) -> u64 {
        self.counter.get()
    }

    fn opens(&self, counter: u64) -> bool {
        let _ = counter;
        true
    }

    fn suits(&self, setting: u32) -> bool {
        let _ = setting;
        true
    }

    fn size(&self, before: u64) -> usize {
        let _ = before;
        20
    }

    fn encode_into(&self, before: u64, out: &mut Vec<u8>) -> Result<(), AllocError> {
        let _ = before;
        append_row(out, self.row())
    }

    fn read(alloc: Global, before: u64, bytes: &[u8]) -> Result<Option<NodeEntry>, AllocError> {
        let _ = (alloc, before);
        let Some((counter, rest)) = Count::of_stamp(bytes) else {
            return Ok(None);
        };
        let Some((packet, rest)) = split_u32(rest) else {
            return Ok(None);
        };
        let Some((offset, rest)) = split_u64(rest) else {
            return Ok(None);
        };
        if packet >= 0x100_0000 || !rest.is_empty() {
            return Ok(None);
        }
        Ok(Some(NodeEntry {
            counter,
            data_type: (packet / 0x1_0000) as u8,
            channel: (packet % 0x1_0000) as u16,
            offset,
        }))
    }
}

impl BodyEntry for RootEntry {
    ghost use Rattle.r10_indexbody.specs.Entry.{root_form};

    ghost form = { root_form };

    fn front() -> usize {
        16
    }

    fn entry_length(front: &[u8]) -> Option<usize> {
        let _ = front;
        Some(16)
    }

    fn word(setting: u32, count: usize) -> u32 {
        let _ = setting;
        (count % 0x1_0000) as u32
    }

    fn agrees(word: u32, count: usize) -> bool {
        let reported = (word % 0x1_0000) as usize;
        word / 0x8000_0000 == 0 && (reported == count || reported + 1 == count)
    }

    fn count(&self) -> u64 {
        self.counter.get()
    }

    fn opens(&self, counter: u64) -> bool {
        let _ = counter;
        true
    }

    fn suits(&self, setting: u32) -> bool {
        let _ = setting;
        true
    }

    fn size(&self, before: u64) -> usize {
        let _ = before;
        16
    }

    fn encode_into(&self, before: u64, out: &mut Vec<u8>) -> Result<(), AllocError> {
        let _ = before;
        let stamp = self.counter.stamp();
        let offset = self.offset.to_le_bytes();
        append_all(out, &[&stamp, &offset])
    }

    fn read(alloc: Global, before: u64, bytes: &[u8]) -> Result<Option<RootEntry>, AllocError> {
        let _ = (alloc, before);
        let Some((counter, rest)) = Count::of_stamp(bytes) else {
            return Ok(None);
        };
        let Some((offset, rest)) = split_u64(rest) else {
            return Ok(None);
        };
        if !rest.is_empty() {
            return Ok(None);
        }
        Ok(Some(RootEntry { counter, offset }))
    }
}
