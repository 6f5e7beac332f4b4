//! What a refusal carries, as a caller of another language has it.

ghost use Rattle.std.specs.Prelude.{◌≡◌};
ghost use Rattle.r10_calls.specs.Faults.{fault_in, fault_number, fault_of, no_fault, rule_of};

use r10_body::{FileFault, Refusal};
use r10_machine::Reply;

/// What the last refusal carried, of those that carry something: `BadDirectory` and `BadFile`.
#[repr(C)]
#[derive(Clone, Copy)]
pub struct FaultOut {
    /// of 26 the first block of the directory that can't be taken, of 27 where in the file the first wrong packet is, in bytes
    pub at: u64,
    /// 26 or 27, or 0 where there was none
    pub number: u32,
    /// of 27: 1 Truncated, 2 Sync, 3 HeaderSum, 4 Length, 5 DataSum, 6 Body, 7 a rule
    pub fault: u16,
    /// the number of the rule
    pub rule: u16,
}

impl FaultOut {
    /// Nothing was refused yet that carries something.
    pub(crate) fn none() -> FaultOut
        ensures { result ≡ no_fault }
    {
        FaultOut {
            at: 0,
            number: 0,
            fault: 0,
            rule: 0,
        }
    }
}

fn fault_number(fault: FileFault) -> u16
    ensures { result ≡ fault_number fault }
{
    match fault {
        FileFault::Truncated => 1,
        FileFault::Sync => 2,
        FileFault::HeaderSum => 3,
        FileFault::Length => 4,
        FileFault::DataSum => 5,
        FileFault::Body => 6,
        FileFault::Rule(_) => 7,
    }
}

fn rule_of(fault: FileFault) -> u16
    ensures { result ≡ rule_of fault }
{
    match fault {
        FileFault::Rule(rule) => u16::from(rule),
        _ => 0,
    }
}

fn fault_of(refusal: &Refusal, old: FaultOut) -> FaultOut
    ensures { result ≡ fault_of refusal.now old }
{
    match refusal {
        Refusal::BadDirectory(block) => FaultOut {
            at: *block,
            number: 26,
            fault: 0,
            rule: 0,
        },
        Refusal::BadFile(offset, fault) => FaultOut {
            at: *offset,
            number: 27,
            fault: fault_number(*fault),
            rule: rule_of(*fault),
        },
        _ => old,
    }
}

/// What a reply carries where it is a refusal that carries something, or what was there.
pub(crate) fn fault_in(reply: &Reply, old: FaultOut) -> FaultOut
    ensures { result ≡ fault_in reply.now old }
{
    match reply {
        Reply::Refused(refusal) => fault_of(refusal, old),
        _ => old,
    }
}
