//! The words of verdicts and faults.

ghost use Rattle.std.specs.Prelude.{◌≡◌, IfOk, string_bytes};
ghost use Rattle.r10_playback.specs.Words.{verdict_line};

use r10_checker::Verdict;
use r10_text::fault_text;
use std::alloc::{AllocError, Global};

/// The line of a verdict, with its line feed.
pub(crate) fn verdict_line(alloc: Global, verdict: Verdict) -> Result<String, AllocError>
    ensures { IfOk result (λ line. string_bytes line ≡ verdict_line verdict) }
{
    match verdict {
        Verdict::Strict => String::from_str(alloc, "strict\n"),
        Verdict::Lenient { opaque } => format!(in alloc; "lenient {opaque}\n"),
        Verdict::Faulty { offset, fault } => {
            let word = fault_text(alloc, fault)?;
            format!(in alloc; "faulty {offset} {word}\n")
        }
    }
}
