// What a recorder needs of a directory to take it into use.
ghost use Rattle.std.specs.Prelude.{◌≡◌, ◌≤◌, ◌+◌, ◌++◌, ◌^◌, None, IfOk, OnOk, IfErr, map};
ghost use Rattle.r10_count.specs.Checks.{first_broken};
ghost use Rattle.r10_dirchain.specs.Checked.{IsCheckError};
ghost use Rattle.r10_dirchain.specs.Mount.{listed, listed_in, stands, place_rules};
ghost use Rattle.r10_dirchain.specs.Mount.{full_rules, stand_rules, closed_rules, mount_rules};

use crate::{ChainBlock, ChainError, Directory, ListedFile};
use r10_dirblock::Entry;
use std::alloc::{AllocError, Global};

impl Directory {
    /// The files in order, each with the number of the directory block that lists it.
    pub fn listing(&self, alloc: Global) -> Result<Vec<ListedFile>, AllocError>
        ensures { IfOk result (λ v. v.items ≡ listed self.now) }
    {
        let mut files = Vec::new(alloc);
        for link in &self.chain {
            list_block(&mut files, link)?;
        }
        Ok(files)
    }

    /// Whether a recorder can take the directory into use, with so many reserved blocks on a medium
    /// of so many blocks. `BadDirectory` names the block at fault, by the first of these that is not
    /// so (this recorder's own choice):
    ///
    /// 1. The directory's blocks are those from 1 on, and none is above the reserved ones.
    /// 2. Every block but the last has four entries.
    /// 3. The files stand back to back from the first block after the reserved ones, inside the
    ///    medium; none is empty, and each has the number of blocks that its size needs.
    /// 4. Every file but the last is closed.
    pub fn check(&self, alloc: Global, reserved: usize, blocks: usize) -> Result<(), ChainError>
        ensures usable { OnOk result (first_broken (mount_rules reserved blocks self.now) ≡ None) }
        ensures fault { IfErr result (IsCheckError (mount_rules reserved blocks self.now)) }
    {
        let Ok(files) = self.listing(alloc) else {
            return Err(ChainError::OutOfMemory);
        };
        if let Some(number) = misplaced_block(&self.chain, reserved) {
            return Err(ChainError::BadDirectory(number));
        }
        if let Some(number) = unfilled_block(&self.chain) {
            return Err(ChainError::BadDirectory(number));
        }
        if let Some(number) = misplaced_file(&files, reserved as u128 + 1, blocks) {
            return Err(ChainError::BadDirectory(number));
        }
        if let Some(number) = unclosed_file(&files) {
            return Err(ChainError::BadDirectory(number));
        }
        Ok(())
    }
}

// Adds the files that one block lists.
fn list_block(files: &mut Vec<ListedFile>, link: &ChainBlock) -> Result<(), AllocError>
    ensures { OnOk result (files.new.items ≡ files.old.items ++ map (listed_in link.now.number) link.now.block.entries) }
{
    for entry in link.block.entries.as_slice() {
        files.push(ListedFile {
            entry: *entry,
            number: link.number,
        })?;
    }
    Ok(())
}

// The first block that is not at its place among the reserved ones.
fn misplaced_block(chain: &[ChainBlock], reserved: usize) -> Option<u64>
    ensures { result ≡ first_broken (place_rules reserved 1 chain.now) }
{
    for (i, link) in chain.iter().enumerate() {
        let number = i as u64 + 1;
        if link.number != number || number > reserved as u64 {
            return Some(link.number);
        }
    }
    None
}

// The first block but the last that has not four entries.
fn unfilled_block(chain: &[ChainBlock]) -> Option<u64>
    ensures { result ≡ first_broken (full_rules chain.now) }
{
    for link in &chain[..chain.len().saturating_sub(1)] {
        if link.block.entries.len() != 4 {
            return Some(link.number);
        }
    }
    None
}

// The block of the first file that does not stand right after those before it.
fn misplaced_file(files: &[ListedFile], first: u128, blocks: usize) -> Option<u64>
    requires { first ≤ 2 ^ 64 }
    ensures { result ≡ first_broken (stand_rules blocks first files.now) }
{
    let mut n = first;
    for file in files {
        if !stands(&file.entry, n, blocks) {
            return Some(file.number);
        }
        n += u128::from(file.entry.block_count);
    }
    None
}

// Whether a file stands at block `n`, inside the medium.
fn stands(entry: &Entry, n: u128, blocks: usize) -> bool
    requires { n ≤ 2 ^ 64 }
    ensures { result ≡ stands blocks n entry.now }
{
    u128::from(entry.first_block) == n
        && entry.size > 0
        && entry.block_count == entry.size.div_ceil(512)
        && n + u128::from(entry.block_count) <= blocks as u128
}

// The block of the first file but the last that is not closed.
fn unclosed_file(files: &[ListedFile]) -> Option<u64>
    ensures { result ≡ first_broken (closed_rules files.now) }
{
    for file in &files[..files.len().saturating_sub(1)] {
        if !file.entry.is_closed() {
            return Some(file.number);
        }
    }
    None
}
