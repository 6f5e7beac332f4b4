//! Reading an input whole.

ghost use Rattle.std.specs.Prelude.{◌≡◌, IfErr, IfOk, IfSome};
ghost use Rattle.r10_images.specs.Faults.{IsInputFault};

use crate::fault::StreamFault;
use std::alloc::{AllocError, Global};
use std::io::{ErrorKind, Read};

/// How often a command calls its reader at most.
const MOST_CALLS: u64 = 1 << 34;

/// Every byte that the reader has left. A call that was interrupted is made again; `Read` is any other failure of the reader, and
/// `Endless` comes where the reader was called 2^34 times.
pub fn read_whole<R: Read>(alloc: Global, reader: &mut R) -> Result<Vec<u8>, StreamFault>
    ensures whole { IfOk result (λ all. IfSome (R.remaining reader.old) (λ left. all.items ≡ left)) }
    ensures fault { IfErr result IsInputFault }
{
    let mut all = Vec::new(alloc);
    let mut piece = [0u8; 4096];
    let mut calls = 0;
    while calls < MOST_CALLS {
        calls += 1;
        match reader.read(&mut piece) {
            Ok(0) => return Ok(all),
            Ok(count) => {
                if all.extend_from_slice(&piece[..count]).is_err() {
                    return Err(StreamFault::Memory(AllocError));
                }
            }
            Err(error) => {
                if error.kind() != ErrorKind::Interrupted {
                    return Err(StreamFault::Read(error));
                }
            }
        }
    }
    Err(StreamFault::Endless { calls })
}
