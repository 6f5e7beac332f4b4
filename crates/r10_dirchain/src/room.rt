// Memory for a directory that grows.
ghost use Rattle.std.specs.Prelude.{◌≡◌, ◌<◌, ◌≤◌, [], IfOk, length, vec_len, vec_capacity};

use crate::ChainBlock;
use std::alloc::{AllocError, Global};

/// The memory for a directory with one block more.
#[derive(Drop)]
pub struct Room {
    blocks: Vec<ChainBlock>,
    ghost empty: { blocks.items ≡ [] },
}

impl Room {
    ghost use Rattle.r10_dirchain.specs.Rooms.{block_room};

    // Memory for so many blocks.
    pub(crate) fn of(alloc: Global, blocks: usize) -> Result<Self, AllocError>
        ensures { IfOk result (λ room. blocks ≤ block_room room) }
    {
        let blocks = Vec::with_capacity(alloc, blocks)?;
        Ok(Room { blocks })
    }

    // Moves these blocks into this memory, where one more can be put after them.
    pub(crate) fn take_in(self, chain: &mut Vec<ChainBlock>)
        requires { length chain.old.items < block_room self }
        ensures same { chain.new.items ≡ chain.old.items }
        ensures room { vec_len chain.new < vec_capacity chain.new }
    {
        let Room { mut blocks } = self;
        // there is room for them
        let _ = blocks.append(chain);
        *chain = blocks;
    }
}
