//! The writer: round after round, until nothing more comes.

ghost use Rattle.std.specs.Prelude.{◌≡◌, ◌++◌, List, [], ◌∷◌};
ghost use Rattle.r10_shared.specs.WorkerCalls.{Asks};
ghost use Rattle.r10_shared.specs.Rounds.{IsWriterStep, IsTurn, IsWait, IsWriterRun, Turned, tells_of, turn_after};
ghost use Rattle.r10_shared.specs.Rounds.Turned.{Announces, Goes, Looks, Sleeps, Tells};

use crate::rounds::{Round, Turn};
use std::sync::Wait;

/// A recorder that is shared, as the writer asks of it. Its contracts see what was asked, in order, with the answers.
pub trait Writing {
    /// `asked old asks new`: these were asked of `old`, in this order and answered so, and left `new`.
    ghost asked: { Self → List Turned → Self → Type 0 };

    /// An announcement that the writer waits. It is for `sleep`, or is dropped.
    type Key: Drop;

    /// Whether all feeds are over, and control.
    fn is_over(&mut self) -> bool
        ensures { asked self.old (Looks result ∷ []) self.new };

    /// Goes round the channels under the lock, and commits there, as `go_round`.
    fn round(&mut self, last: bool) -> Round
        ensures { asked self.old (Goes last result ∷ []) self.new };

    /// Tells the readers of a commit.
    fn tell(&mut self)
        ensures { asked self.old (Tells ∷ []) self.new };

    /// Announces that the writer waits.
    fn announce(&mut self) -> Self::Key
        ensures { asked self.old (Announces ∷ []) self.new };

    /// Sleeps until something came after the announcement.
    fn sleep(&mut self, key: Self::Key)
        ensures { asked self.old (Sleeps ∷ []) self.new };

    /// A law: where nothing is asked all is as it was.
    ghost stays: { (a : Self) → asked a [] a };

    /// What was asked first and then, was asked in this order.
    ghost joins: { (a b c : Self) (xs ys : List Turned) → asked a xs b → asked b ys c → asked a (xs ++ ys) c };
}

/// Tells the readers, if the round committed.
fn tell_of<W: Writing>(at: &mut W, round: Round)
    ensures { W.asked at.old (tells_of round) at.new }
{
    if round.committed {
        at.tell();
    }
}

/// What a turn comes to: a last round that moved nothing ends the writer.
fn after(last: bool, turn: Turn) -> Turn
    ensures { result ≡ turn_after last turn }
{
    match turn {
        Turn::Moved => Turn::Moved,
        Turn::Idle => { if last { Turn::Over } else { Turn::Idle } }
        Turn::Over => Turn::Over,
    }
}

/// A turn of the writer: it goes round, as the last time if all feeds and control were over before.
fn writer_turn<W: Writing>(at: &mut W) -> Turn
    ensures { Asks W.asked (IsTurn result) at.old at.new }
{
    let last = at.is_over();
    let round = at.round(last);
    tell_of(at, round);
    after(last, round.turn)
}

/// Announces that it waits, makes one more turn, and sleeps if that moves nothing. Whether the writer goes on.
fn wait_for_more<W: Writing>(at: &mut W) -> bool
    ensures { Asks W.asked (IsWait result) at.old at.new }
{
    let wait = at.announce();
    match writer_turn(at) {
        Turn::Moved => true,
        Turn::Idle => {
            at.sleep(wait);
            true
        }
        Turn::Over => false,
    }
}

/// A turn, and a wait after one that moved nothing. Whether the writer goes on.
fn step<W: Writing>(at: &mut W) -> bool
    ensures { Asks W.asked (IsWriterStep result) at.old at.new }
{
    match writer_turn(at) {
        Turn::Moved => true,
        Turn::Idle => wait_for_more(at),
        Turn::Over => false,
    }
}

/// Writes until nothing more comes. It goes round and round, and commits after each round that moved something. After one that
/// moved nothing it announces that it waits, goes round once more, and sleeps if that moves nothing either. If all feeds and
/// control were over before a round that moves nothing, that one commits too, and is the last. A round that meets Failed or
/// OutOfMemory is the last as well.
pub fn write<W: Writing, R: Wait>(rt: &R, at: &mut W)
    ensures { Asks W.asked IsWriterRun at.old at.new }
{
    for _ in rt.forever() {
        if !step(at) {
            return;
        }
    }
}
