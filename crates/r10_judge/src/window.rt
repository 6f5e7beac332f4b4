//! A file's bytes, read window by window.

ghost use Rattle.std.specs.Prelude.{◌≡◌, ◌+◌, ◌-◌, ◌*◌, ◌<◌, ◌≤◌, ◌^◌, ℕ, List, length, take, true, None, Some};
ghost use Rattle.std.specs.Prelude.{IfOk, IfSome, IfNone, ◌⊎◌};
ghost use Rattle.r10_medium.specs.Disk.{Unchanged};
ghost use Rattle.r10_blockout.specs.Bytes.{ReadHasCause};
ghost use Rattle.r10_body.specs.declared.fault.FileFault.TheVariants as file_faults;
ghost use Rattle.r10_judge.specs.Files.{file_at};
ghost use Rattle.r10_judge.specs.Walks.{TracksWalked, IsFaultTold, IsWalked};

use crate::extent::Extent;
use crate::walk::{Taken, Walk};
use r10_blockout::{ReadFault, read_bytes};
use r10_body::FileFault;
use r10_medium::BlockMedium;
use r10_packet::LONGEST_PACKET;
use std::alloc::{AllocError, Global};

/// How many bytes are read at once, but where a packet has more: as many as this recorder's longest packet has.
const WINDOW: usize = LONGEST_PACKET as usize;

/// A file that was walked up to its end, or up to the first packet that no recorder wrote.
#[derive(Drop)]
pub struct Walked {
    /// The packets that were taken.
    pub walk: Walk,
    /// The fault of what stands after them; `None` at the file's end.
    pub fault: Option<FileFault>,
    /// Whether that answers the report that stands last, where one does.
    pub answered: bool,
}

/// Walks a file that stands in memory, and whose directory entry is closed or not.
pub fn walk_bytes(alloc: Global, bytes: &[u8], closed: bool) -> Result<Walked, AllocError>
    ensures walked { IfOk result (IsWalked bytes.now) }
    ensures closed { IfOk result (λ walked. walked.walk.judge.closed ≡ closed) }
{
    let mut walk = Walk::new(alloc, closed);
    let taken = walk.take(bytes)?;
    Ok(Walked {
        walk,
        fault: taken.fault,
        answered: taken.answered,
    })
}

/// Walks a file whose directory entry is closed or not, which lies inside the medium. The buffer is used
/// for its bytes: a window of 524,288 at most, and of twice a packet where another recorder's is longer.
pub fn walk_file<M: BlockMedium>(
    alloc: Global,
    medium: &mut M,
    extent: Extent,
    closed: bool,
    buffer: &mut Vec<u8>,
) -> Result<Walked, ReadFault>
    requires within { 512 * extent.first + extent.size ≤ 512 * length (M.disk medium.old).blocks }
    requires size { extent.size ≤ 2 ^ 62 }
    ensures walked { IfOk result (IsWalked (file_at (M.disk medium.old).blocks extent)) }
    ensures closed { IfOk result (λ walked. walked.walk.judge.closed ≡ closed) }
    ensures same { Unchanged (M.disk medium.old) (M.disk medium.new) }
    ensures counts { ReadHasCause (M.disk medium.old) (M.disk medium.new) result }
{
    let mut walk = Walk::new(alloc, closed);
    let mut at = 0;
    let mut window = WINDOW;
    while at < extent.size {
        let taken = match take_window(medium, extent, at, window, &mut walk, buffer) {
            Ok(taken) => taken,
            Err(fault) => return Err(fault),
        };
        at += taken.length;
        let fault = taken.fault;
        if fault.is_some() {
            let answered = taken.answered;
            return Ok(Walked {
                walk,
                fault,
                answered,
            });
        }
        window = next_window(window, taken.length);
    }
    Ok(Walked {
        walk,
        fault: None,
        answered: true,
    })
}

/// The next window after one of which packets of so many bytes were taken: twice as large where there was none.
fn next_window(window: usize, taken: usize) -> usize
    requires { taken ≡ 0 → window < 2 ^ 62 }
    ensures least { window ≤ result }
    ensures more { taken ≡ 0 → 0 < window → window < result }
{
    if taken == 0 { 2 * window } else { window }
}

/// Reads a window of a file from an offset on, and takes its packets. What the window's end cuts off is
/// no fault.
fn take_window<M: BlockMedium>(
    medium: &mut M,
    extent: Extent,
    at: usize,
    window: usize,
    walk: &mut Walk,
    buffer: &mut Vec<u8>,
) -> Result<Taken, ReadFault>
    requires within { 512 * extent.first + extent.size ≤ 512 * length (M.disk medium.old).blocks }
    requires size { extent.size ≤ 2 ^ 62 }
    requires at { at < extent.size }
    requires window { 0 < window }
    requires walked { TracksWalked walk.old (take at (file_at (M.disk medium.old).blocks extent)) }
    ensures stands { IfOk result
        (λ taken. TracksWalked walk.new (take (at + taken.length) (file_at (M.disk medium.old).blocks extent))) }
    ensures inside { IfOk result (λ taken. at + taken.length ≤ extent.size) }
    ensures fault { IfOk result (λ taken. IfSome taken.fault
        (IsFaultTold (file_at (M.disk medium.old).blocks extent) (at + taken.length) taken.answered walk.new.judge.tracks)) }
    ensures cut { IfOk result (λ taken. taken.length ≡ 0 → taken.fault ≡ None → window < extent.size - at) }
    ensures closed { walk.new.judge.closed ≡ walk.old.judge.closed }
    ensures same { Unchanged (M.disk medium.old) (M.disk medium.new) }
    ensures counts { ReadHasCause (M.disk medium.old) (M.disk medium.new) result }
{
    let left = extent.size - at;
    let count = window.min(left);
    let bytes = match read_bytes(medium, extent.first, at, count, buffer) {
        Ok(bytes) => bytes,
        Err(fault) => return Err(fault),
    };
    let Ok(taken) = walk.take(bytes) else {
        return Err(ReadFault::OutOfMemory);
    };
    Ok(Taken {
        length: taken.length,
        fault: fault_of(taken.fault, count < left),
        answered: taken.answered,
    })
}

/// A fault after packets; none where bytes may only be missing because they were cut off.
fn fault_of(fault: Option<FileFault>, cut: bool) -> Option<FileFault>
    ensures some { IfSome result (λ f. (fault ≡ Some f) × (cut ≡ true → f ≡ file_faults.Truncated → ⊥)) }
    ensures none { IfNone result ((fault ≡ None) ⊎ (cut ≡ true)) }
{
    if !cut {
        return fault;
    }
    match fault {
        Some(FileFault::Truncated) => None,
        _ => fault,
    }
}
