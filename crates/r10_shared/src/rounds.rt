//! A round of the writer: it goes round the channels of the recorder that it holds.

ghost use Rattle.std.specs.Prelude.{◌≡◌, ◌+◌, ◌<◌, ◌++◌, ℕ, List, [], ◌∷◌, Result};
ghost use Rattle.r10_body.specs.declared.refusal.Refusal.{Refusal as RefusalValue};
ghost use Rattle.r10_shared.specs.WorkerCalls.{Asks, ends};
ghost use Rattle.r10_shared.specs.Rounds.{ArePumps, Asked, IsRound, came_to, committed, pumps_from};
ghost use Rattle.r10_shared.specs.Rounds.Asked.{Commits, Pumps};

use r10_body::Refusal;
use std::sync::Wait;

/// What came of a turn of the writer.
#[derive(Clone, Copy)]
pub enum Turn {
    Moved,
    Idle,
    Over,
}

/// What came of a round, and whether it committed.
#[derive(Clone, Copy)]
pub struct Round {
    pub turn: Turn,
    pub committed: bool,
}

/// A recorder, as the writer asks of it while it holds the lock. Its contracts see what was asked of it, in order, with the
/// answers.
pub trait Recording {
    /// How many channels it has.
    ghost number: { Self → ℕ };

    /// `asked old asks new`: these were asked of `old`, in this order and answered so, and left `new`.
    ghost asked: { Self → List Asked → Self → Type 0 };

    /// How many channels it has.
    fn channel_count(&self) -> usize
        ensures { result ≡ number self.now };

    /// Takes in the messages that wait first for the channel at a place, at most so many.
    fn pump_place(&mut self, place: usize, most: usize) -> Result<usize, Refusal>
        requires { place < number self.old }
        ensures { asked self.old (Pumps place most result ∷ []) self.new };

    /// Shows all that the file has that is recorded.
    fn commit_all<R: Wait>(&mut self, rt: &R) -> Result<(), Refusal>
        ensures { asked self.old (Commits result ∷ []) self.new };

    /// A law: where nothing is asked all is as it was.
    ghost stays: { (a : Self) → asked a [] a };

    /// What was asked first and then, was asked in this order.
    ghost joins: { (a b c : Self) (xs ys : List Asked) → asked a xs b → asked b ys c → asked a (xs ++ ys) c };

    /// The channels stay.
    ghost keeps: { (a b : Self) (xs : List Asked) → asked a xs b → number b ≡ number a };
}

/// Whether a refusal ends the worker that meets it.
pub(crate) fn is_end(refusal: Refusal) -> bool
    ensures { result ≡ ends refusal }
{
    matches!(refusal, Refusal::Failed | Refusal::OutOfMemory)
}

/// What a pump comes to.
fn turn_of(pumped: Result<usize, Refusal>) -> Turn
    ensures { result ≡ came_to pumped }
{
    match pumped {
        Ok(moved) => { if moved > 0 { Turn::Moved } else { Turn::Idle } }
        Err(refusal) => {
            if is_end(refusal) {
                Turn::Over
            } else {
                Turn::Idle
            }
        }
    }
}

/// Pumps the channel at a place of the settings.
fn pump_at<H: Recording>(held: &mut H, place: usize) -> Turn
    requires { place < H.number held.old }
    ensures { (answer : Result ℕ RefusalValue)
        × H.asked held.old (Pumps place 64 answer ∷ []) held.new × (result ≡ came_to answer) }
{
    turn_of(held.pump_place(place, 64))
}

/// Pumps each channel in turn, up to the first pump that ends the writer.
fn pump_each<H: Recording>(held: &mut H) -> Turn
    ensures { (answers : List (Result ℕ RefusalValue)) × H.asked held.old (pumps_from 0 answers) held.new
        × ArePumps (H.number held.old) answers result }
{
    let channels = held.channel_count();
    let mut turn = Turn::Idle;
    for place in 0..channels {
        match pump_at(held, place) {
            Turn::Moved => turn = Turn::Moved,
            Turn::Idle => {}
            Turn::Over => return Turn::Over,
        }
    }
    turn
}

/// Shows what the file has after such a turn.
fn commit<H: Recording, R: Wait>(rt: &R, held: &mut H, turn: Turn) -> Round
    ensures { (answer : Result (Unit {0}) RefusalValue) × H.asked held.old (Commits answer ∷ []) held.new
        × (result ≡ committed turn answer) }
{
    let turn = match held.commit_all(rt) {
        Ok(()) => turn,
        Err(refusal) => { if is_end(refusal) { Turn::Over } else { turn } }
    };
    Round {
        turn,
        committed: true,
    }
}

/// Goes round the channels of a recorder that is held: it pumps each in turn, with 64 messages at most, and then commits if
/// something was moved, or if the round is to be the last. Failed or OutOfMemory ends the round, and the writer; other refusals are
/// passed over.
pub fn go_round<H: Recording, R: Wait>(rt: &R, held: &mut H, last: bool) -> Round
    ensures { Asks H.asked (IsRound (H.number held.old) last result) held.old held.new }
{
    let turn = pump_each(held);
    match turn {
        Turn::Over => Round {
            turn,
            committed: false,
        },
        Turn::Idle => {
            if last {
                commit(rt, held, turn)
            } else {
                Round {
                    turn,
                    committed: false,
                }
            }
        }
        Turn::Moved => commit(rt, held, turn),
    }
}
