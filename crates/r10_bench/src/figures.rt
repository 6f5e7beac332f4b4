//! What is measured, and how it is printed.

ghost use Rattle.std.specs.Prelude.{◌≡◌, ◌+◌, ◌*◌, ◌/◌, max, min};

use crate::fault::BenchFault;
use r10_builder::Closed;
use std::time::CpuClock;

/// A figure: its name, how many there are, of what, and how many nanoseconds they took together: 0 where that was not measured, and
/// the greatest number where the clock failed.
pub(crate) type Figure = (&'static str, u64, &'static str, u64);

/// How many packets were handed out, and their lengths together.
#[derive(Clone, Copy)]
pub struct Packets {
    pub number: u64,
    pub bytes: u64,
}

impl Packets {
    /// Counts a packet in.
    pub fn add(&mut self, closed: &Closed)
        ensures number { self.new.number ≡ min (self.old.number + 1) u64.MAX }
        ensures bytes { self.new.bytes ≡ min (self.old.bytes + closed.now.header.packet_len) u64.MAX }
    {
        self.number = self.number.saturating_add(1);
        self.bytes = self
            .bytes
            .saturating_add(u64::from(closed.header.packet_len));
    }
}

/// How many of these there are in a second, where there are so many, fewer than 2^34, in so many nanoseconds.
pub(crate) fn a_second(amount: u64, nanos: u64) -> u64
    ensures { result ≡ min (amount * 1_000_000_000) u64.MAX / max 1 nanos }
{
    amount.saturating_mul(1_000_000_000) / nanos.max(1)
}

/// The nanoseconds from the last reading to this one, and the greatest number where one of both failed. The last one is then this.
fn since(last: &mut u64, now: u64) -> u64 {
    let before = *last;
    *last = now;
    if before == u64::MAX || now == u64::MAX {
        return u64::MAX;
    }
    now.saturating_sub(before)
}

/// The nanoseconds of processor time since the last reading, and the greatest number where one of both readings failed.
pub(crate) fn lap<R: CpuClock>(rt: &R, last: &mut u64) -> u64 {
    match rt.thread_cpu_time() {
        Ok(time) => since(last, time.as_nanos().min(u128::from(u64::MAX)) as u64),
        Err(_) => since(last, u64::MAX),
    }
}

/// Prints a line `NAME VALUE UNIT` for each figure of a part, of which no message was lost. Where there is a time, the value is how
/// many there are in a second. After it stand how many there were, and in which time.
pub(crate) fn show<R: Print>(rt: &R, complete: bool, figures: &[Figure]) -> Result<(), BenchFault> {
    if !complete {
        return Err(BenchFault::Lost);
    }
    for (name, amount, unit, nanos) in figures {
        if *nanos == u64::MAX {
            return Err(BenchFault::Clock);
        }
        if *nanos == 0 {
            println!(rt; "{name} {amount} {unit}")?;
        } else {
            let rate = a_second(*amount, *nanos);
            println!(rt; "{name} {rate} {unit}/s {amount} in {nanos} ns")?;
        }
    }
    Ok(())
}
