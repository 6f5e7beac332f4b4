// Reading the chain.
ghost use Rattle.std.specs.Prelude.{◌≡◌, ◌≤◌, List, IfOk, IfErr, IsErrOf, MatchResult};
ghost use Rattle.r10_medium.specs.Disk.{Unchanged, Rose};
ghost use Rattle.r10_dirchain.specs.declared.chain.ChainBlock.{ChainBlock};
ghost use Rattle.r10_dirchain.specs.Chain.{IsDirectory};
ghost use Rattle.r10_dirchain.specs.Bad.{LinksBack, IsTakeError, IsChainError, IsNoFault};

use crate::{ChainBlock, Directory};
use r10_dirblock::{DirBlock, decode};
use r10_medium::{BlockMedium, MediumFault};
use std::alloc::{AllocError, Global};
use thiserror::Error;

/// Why a directory was not read.
#[derive(Clone, Copy, Debug, Drop, Error)]
pub enum ChainError {
    /// The first block that the chain reaches and can't take, or that a recorder can't use.
    #[error("directory block {0} can't be used")]
    BadDirectory(u64),
    /// A call of the medium failed.
    #[error("a call of the medium failed")]
    Medium,
    /// The memory for the blocks was refused.
    #[error("out of memory")]
    OutOfMemory,
}

impl From<AllocError> for ChainError {
    ghost use Rattle.std.specs.Prelude.{◌≡◌};
    ghost use Rattle.r10_dirchain.specs.declared.read.ChainError.TheVariants.{OutOfMemory};

    ghost from_gives = { λ _ e. e ≡ OutOfMemory };

    fn from(_: AllocError) -> Self {
        ChainError::OutOfMemory
    }
}

impl From<MediumFault> for ChainError {
    ghost use Rattle.std.specs.Prelude.{◌≡◌};
    ghost use Rattle.r10_dirchain.specs.declared.read.ChainError.TheVariants.{Medium};

    ghost from_gives = { λ _ e. e ≡ Medium };

    fn from(_: MediumFault) -> Self {
        ChainError::Medium
    }
}

/// Reads the directory of a medium (IRIG 106-17, chapter 10, in the manner of STANAG 4575): the
/// chain of blocks from block 1 on. It follows at most as many blocks as the medium has.
///
/// `BadDirectory` names the first block that the chain reaches and can't take: one that is outside
/// the medium, was passed already, is no directory block, or does not link back to the block before
/// it (block 1: to itself).
pub fn read_chain<M: BlockMedium>(alloc: Global, medium: &mut M) -> Result<Directory, ChainError>
    ensures read { IfOk result (λ directory. IsDirectory (M.disk medium.old).blocks directory) }
    ensures bad { IfErr result (IsChainError (M.disk medium.old).blocks) }
    // Where there is a chain, it is read: then only the medium or memory can fail.
    ensures only { (chain : List ChainBlock) → IsDirectory (M.disk medium.old).blocks chain
        → MatchResult result (λ directory. directory ≡ chain) IsNoFault }
    ensures same { Unchanged (M.disk medium.old) (M.disk medium.new) }
    ensures no_fewer { (M.disk medium.old).failures ≤ (M.disk medium.new).failures }
    ensures cause { IsErrOf result ChainError.Medium → Rose (M.disk medium.old).failures (M.disk medium.new).failures }
{
    let mut chain = Vec::new(alloc);
    let mut back = 1;
    let mut number = 1;
    for _ in 0..medium.blocks() {
        let block = match take_block(medium, back, number) {
            Ok(block) => block,
            Err(error) => return Err(error),
        };
        let next = block.forward;
        if chain.push(ChainBlock { number, block }).is_err() {
            return Err(ChainError::OutOfMemory);
        }
        if next == number {
            return Ok(Directory { chain });
        }
        back = number;
        number = next;
    }
    Err(ChainError::BadDirectory(number))
}

// The block of this number, which must link back to block `back`.
fn take_block<M: BlockMedium>(
    medium: &mut M,
    back: u64,
    number: u64,
) -> Result<DirBlock, ChainError>
    ensures taken { IfOk result (LinksBack (M.disk medium.old).blocks back number) }
    ensures bad { IfErr result (IsTakeError (M.disk medium.old).blocks back number) }
    ensures same { Unchanged (M.disk medium.old) (M.disk medium.new) }
    ensures no_fewer { (M.disk medium.old).failures ≤ (M.disk medium.new).failures }
    ensures cause { IsErrOf result ChainError.Medium → Rose (M.disk medium.old).failures (M.disk medium.new).failures }
{
    if number >= medium.blocks() as u64 {
        return Err(ChainError::BadDirectory(number));
    }
    let mut bytes = [0; 512];
    medium.read(number as usize, &mut bytes)?;
    match decode(&bytes) {
        Ok(block) if block.reverse == back => Ok(block),
        _ => Err(ChainError::BadDirectory(number)),
    }
}
