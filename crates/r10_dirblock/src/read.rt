// Reading a directory block.
ghost use Rattle.std.specs.Prelude.{◌≡◌, ◌+◌, ◌≤◌, length, map, All, IfOk, IfErr};
ghost use Rattle.std.specs.List.{range_with_len};
ghost use Rattle.r10_count.specs.Checks.{first_broken};
ghost use Rattle.r10_dirblock.specs.Block.{part, big_endian_u64_at, entry_count, directory_entry_of, directory_entry_at, block_of};
ghost use Rattle.r10_dirblock.specs.Block.{block_rules, read_block, IsBlock, FitsEntry, FitsHead};
ghost use Rattle.r10_dirblock.specs.declared.block.DirBlock.{DirBlock};

use crate::{DirBlock, Entries, Entry};
use thiserror::Error;

/// What is wrong in a directory block, in the order in which it is looked for.
#[derive(Clone, Copy, Debug, Error)]
pub enum DirFault {
    /// It does not begin with the format's name.
    #[error("the block does not begin with FORTYtwo")]
    Magic,
    /// It counts over four entries.
    #[error("the block counts more than four entries")]
    Count,
    /// Its block size is not 512.
    #[error("the block size is not 512")]
    BlockSize,
    /// The entry at this place, from 0 on, has a size over its blocks' bytes.
    #[error("the size in entry {0} is over its blocks' bytes")]
    Entry(u8),
}

/// Reads a directory block, of which the revision, the names, the dates, the times, the reserved
/// bytes and what stands in place of unused entries are not judged. The answer is the block with
/// its fields, or the first fault, in the order of `DirFault`.
#[tactic(auto, unfolding(crate::specs::Block::read_block))]
pub fn decode(bytes: &[u8; 512]) -> Result<DirBlock, DirFault>
    ensures read { result ≡ read_block bytes.now }
    ensures found { IfOk result (IsBlock bytes.now) }
    ensures only { (d : DirBlock) → IsBlock bytes.now d → result ≡ Ok d }
    ensures fault { IfErr result (λ fault. first_broken (block_rules bytes.now) ≡ Some fault) }
{
    match first_fault(bytes) {
        Some(fault) => Err(fault),
        None => Ok(fields(bytes)),
    }
}

fn first_fault(bytes: &[u8; 512]) -> Option<DirFault>
    ensures { result ≡ first_broken (block_rules bytes.now) }
{
    if field::<8>(bytes, 0) != *b"FORTYtwo" {
        return Some(DirFault::Magic);
    }
    let count = count(bytes);
    if count > 4 {
        return Some(DirFault::Count);
    }
    if u32::from_be_bytes(field(bytes, 12)) != 512 {
        return Some(DirFault::BlockSize);
    }
    for i in 0..count {
        if !entry(&bytes[64 + 112 * i..]).has_room() {
            return Some(DirFault::Entry(i as u8));
        }
    }
    None
}

fn fields(bytes: &[u8; 512]) -> DirBlock
    requires { entry_count bytes.now ≤ 4 }
    ensures fields { result ≡ block_of bytes.now }
    ensures head { FitsHead result }
    ensures entries { All FitsEntry result.entries }
{
    DirBlock {
        shutdown: bytes[9],
        volume: field(bytes, 16),
        forward: number(bytes, 48),
        reverse: number(bytes, 56),
        entries: entries(bytes),
    }
}

fn entries(bytes: &[u8; 512]) -> Entries
    requires { entry_count bytes.now ≤ 4 }
    ensures entries { result ≡ map (directory_entry_at bytes.now) (range_with_len 0 (entry_count bytes.now)) }
    ensures fits { All FitsEntry result }
    ensures few { length result ≤ 4 }
{
    let mut entries = Entries::new();
    for i in 0..count(bytes) {
        entries.push(entry(&bytes[64 + 112 * i..]));
    }
    entries
}

#[tactic(auto, unfolding(crate::specs::Block::directory_entry_of))]
fn entry(bytes: &[u8]) -> Entry
    requires { 112 ≤ length bytes.now }
    ensures fields { result ≡ directory_entry_of bytes.now }
    ensures fits { FitsEntry result }
{
    Entry {
        name: field(bytes, 0),
        first_block: number(bytes, 56),
        block_count: number(bytes, 64),
        size: number(bytes, 72),
        create_date: field(bytes, 80),
        create_time: field(bytes, 88),
        time_type: bytes[96],
        reserved: field(bytes, 97),
        close_time: field(bytes, 104),
    }
}

fn count(bytes: &[u8; 512]) -> usize
    ensures { result ≡ entry_count bytes.now }
{
    usize::from(u16::from_be_bytes(field(bytes, 10)))
}

fn number(bytes: &[u8], at: usize) -> u64
    requires { at + 8 ≤ length bytes.now }
    ensures { result ≡ big_endian_u64_at at bytes.now }
{
    u64::from_be_bytes(field(bytes, at))
}

fn field<const N: usize>(bytes: &[u8], at: usize) -> [u8; N]
    requires { at + N ≤ length bytes.now }
    ensures { result ≡ part at N bytes.now }
{
    let mut field = [0; N];
    field.copy_from_slice(&bytes[at..at + N]);
    field
}
