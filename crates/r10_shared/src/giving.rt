//! Control: the orders in turn.

ghost use Rattle.std.specs.Prelude.{◌≡◌, ◌++◌, List, [], ◌∷◌, Result};
ghost use Rattle.r10_body.specs.declared.refusal.Refusal.{Refusal as RefusalValue};
ghost use Rattle.r10_machine.specs.declared.reply.Reply.{Reply as ReplyValue};
ghost use Rattle.r10_shared.specs.WorkerCalls.{Asks, goes_on as passes};
ghost use Rattle.r10_shared.specs.Giving.{Given, GivesInTurn};
ghost use Rattle.r10_shared.specs.Giving.Given.{Gives, Wakes};

use crate::order::Order;
use crate::rounds::is_end;
use r10_body::Refusal;
use r10_machine::Reply;

/// A recorder that is shared, as control asks of it. Its contracts see what was asked, in order, with the answers.
pub trait Control {
    /// `asked old asks new`: these were asked of `old`, in this order and answered so, and left `new`.
    ghost asked: { Self → List Given → Self → Type 0 };

    /// Gives an order, under the lock.
    fn ask(&mut self, order: &Order) -> Result<Reply, Refusal>
        ensures { asked self.old (Gives order.now result ∷ []) self.new };

    /// Tells the writer that there is something to do.
    fn wake(&mut self)
        ensures { asked self.old (Wakes ∷ []) self.new };

    /// A law: where nothing is asked all is as it was.
    ghost stays: { (a : Self) → asked a [] a };

    /// What was asked first and then, was asked in this order.
    ghost joins: { (a b c : Self) (xs ys : List Given) → asked a xs b → asked b ys c → asked a (xs ++ ys) c };
}

/// Whether a worker goes on after an answer to an order.
fn goes_on(answer: Result<Reply, Refusal>) -> bool
    ensures { result ≡ passes answer }
{
    match answer {
        Ok(_) => true,
        Err(refusal) => !is_end(refusal),
    }
}

/// Gives an order, and wakes the writer. Whether control goes on.
fn give_one<C: Control>(at: &mut C, order: &Order) -> bool
    ensures { (answer : Result ReplyValue RefusalValue)
        × C.asked at.old (Gives order.now answer ∷ Wakes ∷ []) at.new × (result ≡ passes answer) }
{
    let on = goes_on(at.ask(order));
    at.wake();
    on
}

/// Gives each of the orders once, in turn, up to the first that is refused Failed or OutOfMemory. Other refusals are passed over.
pub fn give<C: Control>(at: &mut C, orders: &[Order])
    ensures { Asks C.asked (GivesInTurn orders.now) at.old at.new }
{
    for order in orders {
        if !give_one(at, order) {
            return;
        }
    }
}
