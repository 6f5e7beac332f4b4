//! The words of a refusal.

ghost use Rattle.std.specs.Prelude.{◌≡◌, IfOk, string_bytes};
ghost use Rattle.r10_text.specs.Refusals.{fault_text, refusal_text};

use r10_body::{FileFault, Refusal};
use std::alloc::{AllocError, Global};

/// A refusal: its number, its name, and the values that it carries.
pub(crate) fn refusal_text(alloc: Global, refusal: &Refusal) -> Result<String, AllocError>
    ensures { IfOk result (λ text. string_bytes text ≡ refusal_text refusal.now) }
{
    let (number, name) = (refusal.number(), refusal.name());
    match refusal {
        Refusal::BadDirectory(block) => format!(in alloc; "refused {number} {name} {block}"),
        Refusal::BadFile(offset, fault) => {
            let fault = fault_text(alloc, *fault)?;
            format!(in alloc; "refused {number} {name} {offset} {fault}")
        }
        Refusal::Behind(seen) => {
            let (commits, file, bytes) = (seen.commits, seen.file, seen.bytes);
            format!(in alloc; "refused {number} {name} {commits} {file} {bytes}")
        }
        _ => format!(in alloc; "refused {number} {name}"),
    }
}

/// The word of a fault, and after it the number of a rule.
pub fn fault_text(alloc: Global, fault: FileFault) -> Result<String, AllocError>
    ensures { IfOk result (λ text. string_bytes text ≡ fault_text fault) }
{
    match fault {
        FileFault::Truncated => String::from_str(alloc, "Truncated"),
        FileFault::Sync => String::from_str(alloc, "Sync"),
        FileFault::HeaderSum => String::from_str(alloc, "HeaderSum"),
        FileFault::Length => String::from_str(alloc, "Length"),
        FileFault::DataSum => String::from_str(alloc, "DataSum"),
        FileFault::Body => String::from_str(alloc, "Body"),
        FileFault::Rule(number) => format!(in alloc; "Rule {number}"),
    }
}
