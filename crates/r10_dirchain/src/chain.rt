// The directory in memory.
ghost use Rattle.std.specs.Prelude.{◌≡◌, ◌<◌, length, IfOk, IsTrue, ◌↔◌};
ghost use Rattle.r10_dirchain.specs.Chain.{listed_files, at};
ghost use Rattle.r10_dirchain.specs.Mount.{listed};

use r10_dirblock::{DirBlock, Entry};
use std::alloc::{AllocError, Global};
use std::marker::Model;

/// A directory block and its number on the medium.
#[derive(Drop)]
pub struct ChainBlock {
    pub number: u64,
    pub block: DirBlock,
}

/// A file and the number of the directory block that lists it.
#[derive(Clone, Copy)]
pub struct ListedFile {
    pub entry: Entry,
    pub number: u64,
}

/// The blocks of a directory, in order.
#[derive(Drop)]
pub struct Directory {
    pub(crate) chain: Vec<ChainBlock>,
}

impl Model for Directory {
    ghost use Rattle.std.specs.Prelude.{List};
    ghost use Rattle.r10_dirchain.specs.declared.chain.ChainBlock.{ChainBlock};

    ghost Value = { List ChainBlock };

    ghost view = { λ d. d.chain.items };
}

impl Directory {
    /// The blocks.
    pub fn blocks(&self) -> &[ChainBlock]
        ensures { result.now ≡ self.now }
    {
        self.chain.as_slice()
    }

    /// The entries of all files, in order.
    pub fn files(&self, alloc: Global) -> Result<Vec<Entry>, AllocError>
        ensures { IfOk result (λ v. v.items ≡ listed_files self.now) }
    {
        let mut entries = Vec::new(alloc);
        for link in &self.chain {
            entries.extend_from_slice(link.block.entries.as_slice())?;
        }
        Ok(entries)
    }

    // The content of one block.
    pub(crate) fn block(&self, i: usize) -> DirBlock
        requires { i < length self.now }
        ensures { result ≡ (at self.now i).block }
    {
        self.chain[i].block.duplicate()
    }
}
