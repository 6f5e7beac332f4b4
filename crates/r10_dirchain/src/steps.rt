// The steps of the directory. Each changes one block that the chain has.
ghost use Rattle.std.specs.Prelude.{◌≡◌, ◌⊎◌, ◌≤◌, ◌<◌, ◌+◌, ◌-◌, [], ◌∷◌, List, length, nat_le, true, false, OnOk, OnErr, IfOk};
ghost use Rattle.std.specs.List.{All};
ghost use Rattle.r10_medium.specs.Disk.{Counts, IsSynced};
ghost use Rattle.r10_medium.specs.PowerLoss.{Settled, Leaves};
ghost use Rattle.r10_dirblock.specs.Block.{HasRooms, has_room_for_size};
ghost use Rattle.r10_dirchain.specs.declared.chain.ChainBlock.{ChainBlock};
ghost use Rattle.r10_dirchain.specs.Chain.{IsDirectory, listed_files, at};
ghost use Rattle.r10_dirchain.specs.OnMedium.{HasNext, Turns};
ghost use Rattle.r10_dirchain.specs.Rooms.{block_room};
ghost use Rattle.r10_dirchain.specs.Steps.{added, blocks_with_one_more, emptied, extended, with_entry_more, last_block};
ghost use Rattle.r10_dirchain.specs.Steps.{last_is_full, last_listing, last_place, next_directory_block, next_number};
ghost use Rattle.r10_dirchain.specs.Steps.{replaced, spare, updated, with_shutdown};

use crate::put::{put_block, put_linked};
use crate::{ChainBlock, Directory, Room};
use r10_dirblock::{DirBlock, Entries, Entry};
use r10_medium::{BlockMedium, MediumFault};
use std::alloc::{AllocError, Global};

impl Directory {
    /// Writes the shutdown byte: 0xFF for properly dismounted, 0x00 for not. This syncs what is read, also where a power loss
    /// could have left either of two directories.
    pub fn set_shutdown<M: BlockMedium>(
        &mut self,
        medium: &mut M,
        shutdown: u8,
    ) -> Result<(), MediumFault>
        requires { IsDirectory (M.disk medium.old).blocks self.old }
        ensures done { OnOk result (self.new ≡ with_shutdown shutdown self.old) }
        ensures kept { OnErr result (self.new ≡ self.old) }
        ensures turns { Turns self.old (with_shutdown shutdown self.old) [] ((at self.old 0).number ∷ [])
            (M.disk medium.old) (M.disk medium.new) result }
        // After a failed call a power loss may leave either of two directories: it leaves one of them, or the new one.
        ensures either { (one other : List ChainBlock)
            → Settled (λ image. IsDirectory image one ⊎ IsDirectory image other) (M.disk medium.old)
            → Leaves (λ image. (IsDirectory image one ⊎ IsDirectory image other)
            ⊎ IsDirectory image (with_shutdown shutdown self.old)) (M.disk medium.old) (M.disk medium.new) }
        ensures durable { OnOk result (IsSynced (M.disk medium.new)) }
        ensures counts { Counts (M.disk medium.old) (M.disk medium.new) result }
    {
        let mut block = self.block(0);
        block.shutdown = shutdown;
        self.rewrite(medium, 0, block)
    }

    /// Lists no files: writes block 1 once, without entries and with a forward link to itself.
    pub fn erase<M: BlockMedium>(&mut self, medium: &mut M) -> Result<(), MediumFault>
        requires { IsDirectory (M.disk medium.old).blocks self.old }
        ensures done { OnOk result (self.new ≡ emptied self.old) }
        ensures kept { OnErr result (self.new ≡ self.old) }
        ensures turns { Turns self.old (emptied self.old) [] (1 ∷ []) (M.disk medium.old) (M.disk medium.new) result }
        ensures durable { OnOk result (IsSynced (M.disk medium.new)) }
        ensures counts { Counts (M.disk medium.old) (M.disk medium.new) result }
    {
        let mut block = self.block(0);
        block.forward = 1;
        block.reverse = 1;
        block.entries = Entries::new();
        let first = ChainBlock { number: 1, block };
        if let Err(fault) = put_block(medium, &first) {
            return Err(fault);
        }
        self.chain.truncate(1);
        self.chain[0] = first;
        Ok(())
    }

    /// Writes the last file's entry again.
    pub fn update<M: BlockMedium>(
        &mut self,
        medium: &mut M,
        entry: Entry,
    ) -> Result<(), MediumFault>
        requires stands { IsDirectory (M.disk medium.old).blocks self.old }
        requires some { 0 < length (listed_files self.old) }
        requires room { has_room_for_size entry ≡ true }
        ensures done { OnOk result (self.new ≡ updated entry self.old) }
        ensures kept { OnErr result (self.new ≡ self.old) }
        ensures turns { Turns self.old (updated entry self.old) [] ((at self.old (last_listing self.old)).number ∷ [])
            (M.disk medium.old) (M.disk medium.new) result }
        ensures durable { OnOk result (IsSynced (M.disk medium.new)) }
        ensures counts { Counts (M.disk medium.old) (M.disk medium.new) result }
    {
        let i = self.last_listing();
        let mut block = self.block(i);
        block.entries.pop();
        block.entries.push(entry);
        self.rewrite(medium, i, block)
    }

    /// Asks for the memory that adding a file takes, before what the file lists is written.
    pub fn ready(&self, alloc: Global) -> Result<Room, AllocError>
        ensures { IfOk result (λ room. length self.now < block_room room) }
    {
        Room::of(alloc, self.chain.len() + 1)
    }

    /// Whether one file more has a place in so many reserved blocks.
    pub fn has_place(&self, reserved: usize) -> bool
        ensures { result ≡ nat_le (blocks_with_one_more self.now) reserved }
    {
        match self.chain.last() {
            Some(last) if last.block.entries.is_full() => self.chain.len() < reserved,
            _ => self.chain.len() <= reserved,
        }
    }

    /// Lists one file more: in the last block, or in a new block where that is full. A new block is
    /// written and synced before the block that links to it.
    ///
    /// `has_place` tells whether there is a place for it in the reserved blocks: no block after
    /// them is written. The memory was asked for by `ready`: nothing but the medium can fail.
    pub fn add<M: BlockMedium>(
        &mut self,
        medium: &mut M,
        entry: Entry,
        ready: Room,
        reserved: usize,
    ) -> Result<(), MediumFault>
        requires stands { IsDirectory (M.disk medium.old).blocks self.old }
        requires next { HasNext (M.disk medium.old).blocks self.old }
        requires place { blocks_with_one_more self.old ≤ reserved }
        requires room { has_room_for_size entry ≡ true }
        requires ready { length self.old < block_room ready }
        ensures done { OnOk result (self.new ≡ added entry self.old) }
        ensures kept { OnErr result (self.new ≡ self.old) }
        ensures turns { Turns self.old (added entry self.old) (spare self.old) ((last_block self.old).number ∷ spare self.old)
            (M.disk medium.old) (M.disk medium.new) result }
        // The blocks that it writes are reserved ones.
        ensures within { All (λ n. n ≤ reserved) ((last_block self.old).number ∷ spare self.old) }
        ensures durable { OnOk result (IsSynced (M.disk medium.new)) }
        ensures counts { Counts (M.disk medium.old) (M.disk medium.new) result }
    {
        if self.last_is_full() {
            return self.add_block(medium, entry, ready);
        }
        self.add_entry(medium, entry)
    }

    // Writes a new last entry into the last block.
    fn add_entry<M: BlockMedium>(&mut self, medium: &mut M, entry: Entry) -> Result<(), MediumFault>
        requires stands { IsDirectory (M.disk medium.old).blocks self.old }
        requires place { last_is_full self.old ≡ false }
        requires room { has_room_for_size entry ≡ true }
        ensures done { OnOk result (self.new ≡ with_entry_more entry self.old) }
        ensures kept { OnErr result (self.new ≡ self.old) }
        ensures turns { Turns self.old (with_entry_more entry self.old) [] ((last_block self.old).number ∷ [])
            (M.disk medium.old) (M.disk medium.new) result }
        ensures durable { OnOk result (IsSynced (M.disk medium.new)) }
        ensures counts { Counts (M.disk medium.old) (M.disk medium.new) result }
    {
        let last = self.last();
        let mut block = self.block(last);
        block.entries.push(entry);
        self.rewrite(medium, last, block)
    }

    // Writes a new last block, and then the block that links to it.
    fn add_block<M: BlockMedium>(
        &mut self,
        medium: &mut M,
        entry: Entry,
        ready: Room,
    ) -> Result<(), MediumFault>
        requires stands { IsDirectory (M.disk medium.old).blocks self.old }
        requires next { HasNext (M.disk medium.old).blocks self.old }
        requires room { has_room_for_size entry ≡ true }
        requires ready { length self.old < block_room ready }
        ensures done { OnOk result (self.new ≡ extended entry self.old) }
        ensures kept { OnErr result (self.new ≡ self.old) }
        ensures turns { Turns self.old (extended entry self.old) (next_number self.old ∷ [])
            ((last_block self.old).number ∷ next_number self.old ∷ []) (M.disk medium.old) (M.disk medium.new) result }
        ensures durable { OnOk result (IsSynced (M.disk medium.new)) }
        ensures counts { Counts (M.disk medium.old) (M.disk medium.new) result }
    {
        let next = self.next_block(entry);
        let linking = self.linking(next.number);
        if let Err(fault) = put_linked(medium, &next, &linking) {
            return Err(fault);
        }
        let last = self.chain.len() - 1;
        ready.take_in(&mut self.chain);
        self.chain[last] = linking;
        self.chain.push_reserved(next);
        Ok(())
    }

    // The last block with a forward link to this block.
    fn linking(&self, number: u64) -> ChainBlock
        requires { 0 < length self.now }
        ensures { result ≡ record (last_block self.now) { block = record (last_block self.now).block { forward = number } } }
    {
        let last = self.last();
        let mut block = self.block(last);
        block.forward = number;
        ChainBlock {
            number: self.chain[last].number,
            block,
        }
    }

    // A block after the last one, which lists one file.
    fn next_block(&self, entry: Entry) -> ChainBlock
        requires { 0 < length self.now }
        ensures { result ≡ next_directory_block entry self.now }
    {
        let last = self.last();
        let number = self.chain.len() as u64 + 1;
        let mut entries = Entries::new();
        entries.push(entry);
        ChainBlock {
            number,
            block: DirBlock {
                shutdown: 0xFF,
                volume: self.chain[last].block.volume,
                forward: number,
                reverse: self.chain[last].number,
                entries,
            },
        }
    }

    // Whether the last block has no place for one entry more.
    fn last_is_full(&self) -> bool
        requires { 0 < length self.now }
        ensures { result ≡ last_is_full self.now }
    {
        self.chain[self.last()].block.entries.is_full()
    }

    // The place of the last block.
    fn last(&self) -> usize
        requires { 0 < length self.now }
        ensures place { result ≡ last_place self.now }
        ensures within { result < length self.now }
    {
        self.chain.len() - 1
    }

    // The place of the last block that lists a file.
    fn last_listing(&self) -> usize
        requires { 0 < length (listed_files self.now) }
        ensures within { result < length self.now }
        ensures place { result ≡ last_listing self.now }
        ensures lists { 0 < length (at self.now result).block.entries }
    {
        let mut end = self.chain.len();
        while end > 0 && self.chain[end - 1].block.entries.len() == 0 {
            end -= 1;
        }
        end - 1
    }

    // Writes block `i` of the chain with another content and the same links.
    fn rewrite<M: BlockMedium>(
        &mut self,
        medium: &mut M,
        i: usize,
        block: DirBlock,
    ) -> Result<(), MediumFault>
        requires stands { IsDirectory (M.disk medium.old).blocks self.old }
        requires within { i < length self.old }
        requires forward { block.forward ≡ (at self.old i).block.forward }
        requires back { block.reverse ≡ (at self.old i).block.reverse }
        requires rooms { HasRooms block }
        ensures done { OnOk result (self.new ≡ replaced self.old i block) }
        ensures kept { OnErr result (self.new ≡ self.old) }
        ensures turns { Turns self.old (replaced self.old i block) [] ((at self.old i).number ∷ [])
            (M.disk medium.old) (M.disk medium.new) result }
        ensures durable { OnOk result (IsSynced (M.disk medium.new)) }
        ensures counts { Counts (M.disk medium.old) (M.disk medium.new) result }
    {
        let link = ChainBlock {
            number: self.chain[i].number,
            block,
        };
        if let Err(fault) = put_block(medium, &link) {
            return Err(fault);
        }
        self.chain[i] = link;
        Ok(())
    }
}
