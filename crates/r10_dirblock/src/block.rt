// A directory block, and writing it.
ghost use Rattle.std.specs.Prelude.{◌≡◌, ◌+◌, ◌≤◌, ◌++◌, length, Ok};
ghost use Rattle.r10_dirblock.specs.Block.{block_bytes, entry_bytes, read_block};
ghost use Rattle.r10_dirblock.specs.Block.{HasRooms, IsBlock, FitsEntry};

use crate::page::Page;
use crate::{Entries, Entry};

/// A block of the directory of a recording medium (IRIG 106-17, chapter 10).
#[derive(Drop)]
pub struct DirBlock {
    /// 0xFF: properly dismounted, 0x00: not. Only the first block's has a meaning.
    pub shutdown: u8,
    /// the name of the volume, padded with zero bytes
    pub volume: [u8; 32],
    /// the number of the next block; in the last block of the directory its own
    pub forward: u64,
    /// the number of the block before; in the first block of the directory its own
    pub reverse: u64,
    pub entries: Entries,
}

/// The 512 bytes of a directory block: numbers with their highest byte first, the revision 0x0F
/// (this recorder's own choice), and zeros in place of unused entries.
pub fn encode(block: &DirBlock) -> [u8; 512]
    ensures bytes { result ≡ block_bytes block.now }
    ensures block { HasRooms block.now → IsBlock result block.now }
    // What is written is read again.
    ensures again { HasRooms block.now → read_block result ≡ Ok block.now }
{
    let mut page = Page::new();
    page.push(b"FORTYtwo");
    page.push(&[0x0F, block.shutdown]);
    page.push(&(block.entries.len() as u16).to_be_bytes());
    page.push(&512_u32.to_be_bytes());
    page.push(&block.volume);
    page.push(&block.forward.to_be_bytes());
    page.push(&block.reverse.to_be_bytes());
    for entry in block.entries.as_slice() {
        push_entry(&mut page, entry);
    }
    page.into_bytes()
}

#[tactic(auto, unfolding(crate::specs::Block::entry_bytes))]
fn push_entry(page: &mut Page, entry: &Entry)
    requires { length page.old + 112 ≤ 512 }
    ensures bytes { page.new ≡ page.old ++ entry_bytes entry.now }
    ensures len { length page.new ≡ length page.old + 112 }
    ensures fits { FitsEntry entry.now }
{
    page.push(&entry.name);
    page.push(&entry.first_block.to_be_bytes());
    page.push(&entry.block_count.to_be_bytes());
    page.push(&entry.size.to_be_bytes());
    page.push(&entry.create_date);
    page.push(&entry.create_time);
    page.push(&[entry.time_type]);
    page.push(&entry.reserved);
    page.push(&entry.close_time);
}

impl DirBlock {
    /// The same block once more.
    pub fn duplicate(&self) -> DirBlock
        ensures { result ≡ self.now }
    {
        let mut entries = Entries::new();
        for entry in self.entries.as_slice() {
            entries.push(*entry);
        }
        DirBlock {
            shutdown: self.shutdown,
            volume: self.volume,
            forward: self.forward,
            reverse: self.reverse,
            entries,
        }
    }
}
