//! A reader: instalment after instalment, until the writer has ended.

ghost use Rattle.std.specs.Prelude.{◌≡◌, ◌==◌, ◌||◌, ◌&&◌, not, ◌++◌, ℕ, List, [], ◌∷◌};
ghost use Rattle.r10_shared.specs.WorkerCalls.{Asks, goes_on as passes};
ghost use Rattle.r10_shared.specs.Watching.{IsLook, IsWatching, Watched};
ghost use Rattle.r10_shared.specs.Watching.Watched.{Announces, Ended, Reads, Shown, Sleeps};

use crate::rounds::is_end;
use r10_body::Refusal;
use std::sync::Wait;

/// A recorder that is shared, as a reader asks of it. `T` is what a reader writes down. Its contracts see what was asked, in order,
/// with the answers.
pub trait Watching<T> {
    /// An announcement that the reader waits. It is for `sleep`, or is dropped.
    type Key: Drop;

    /// `asked old asks new`: these were asked of `old`, in this order and answered so, and left `new`.
    ghost asked: { Self → List Watched → Self → Type 0 };

    /// The reader is one of this recorder.
    ghost is_of: { Self → T → Type 0 };

    /// A reader has read on.
    ghost reads_on: { T → T → Type 0 };

    /// Announces that the reader waits.
    fn announce(&mut self) -> Self::Key
        ensures { asked self.old (Announces ∷ []) self.new };

    /// Whether the writer has ended.
    fn is_ended(&mut self) -> bool
        ensures { asked self.old (Ended result ∷ []) self.new };

    /// How often the writer has committed.
    fn commit_count(&mut self) -> u64
        ensures { asked self.old (Shown result ∷ []) self.new };

    /// Sleeps until the writer committed, or ended, after the announcement.
    fn sleep(&mut self, key: Self::Key)
        ensures { asked self.old (Sleeps ∷ []) self.new };

    /// Takes an instalment, and writes it down.
    fn read(&mut self, reading: &mut T) -> Result<(), Refusal>
        requires { is_of self.old reading.old }
        ensures asked { asked self.old (Reads result ∷ []) self.new }
        ensures reads { reads_on reading.old reading.new };

    /// A law: where nothing is asked all is as it was.
    ghost stays: { (a : Self) → asked a [] a };

    /// What was asked first and then, was asked in this order.
    ghost joins: { (a b c : Self) (xs ys : List Watched) → asked a xs b → asked b ys c → asked a (xs ++ ys) c };

    /// A reader stays one of this recorder.
    ghost keeps: { (a b : Self) (xs : List Watched) (r s : T) → asked a xs b → reads_on r s → is_of a r → is_of b s };

    /// Where nothing is read all is as it was.
    ghost reads_none: { (r : T) → reads_on r r };

    /// What was read first and then, was read.
    ghost reads_join: { (r s t : T) → reads_on r s → reads_on s t → reads_on r t };
}

/// What a look came to: so many commits were made then, and whether the reader goes on.
#[derive(Clone, Copy)]
pub(crate) struct Looked {
    shown: u64,
    on: bool,
}

/// Whether an instalment is due: the writer has ended, or committed since so many commits were seen.
fn is_due(last: bool, shown: u64, seen: u64) -> bool
    ensures { result ≡ (last || not (shown == seen)) }
{
    last || shown != seen
}

/// Whether a reader goes on after an instalment.
fn goes_on(answer: Result<(), Refusal>, last: bool) -> bool
    ensures { result ≡ (passes answer && not last) }
{
    match answer {
        Ok(()) => !last,
        Err(refusal) => !is_end(refusal) && !last,
    }
}

/// Announces that it waits, and looks. It sleeps if nothing is due, and else takes an instalment.
fn wait_or_read<T, W: Watching<T>>(at: &mut W, reading: &mut T, seen: u64) -> Looked
    requires { W.is_of at.old reading.old }
    ensures asks { Asks W.asked (IsLook seen result.shown result.on) at.old at.new }
    ensures reads { W.reads_on reading.old reading.new }
{
    let wait = at.announce();
    let last = at.is_ended();
    let shown = at.commit_count();
    if !is_due(last, shown, seen) {
        at.sleep(wait);
        return Looked { shown, on: true };
    }
    drop(wait);
    let answer = at.read(reading);
    Looked {
        shown,
        on: goes_on(answer, last),
    }
}

/// Takes an instalment whenever the writer has committed, until it has ended, and then once more. Failed or OutOfMemory ends the
/// reader; other refusals are passed over.
pub fn watch<T, W: Watching<T>, R: Wait>(rt: &R, at: &mut W, reading: &mut T)
    requires { W.is_of at.old reading.old }
    ensures asks { Asks W.asked IsWatching at.old at.new }
    ensures reads { W.reads_on reading.old reading.new }
{
    let mut seen = u64::MAX;
    for _ in rt.forever() {
        let looked = wait_or_read(at, reading, seen);
        if !looked.on {
            return;
        }
        seen = looked.shown;
    }
}
