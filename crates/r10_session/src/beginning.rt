//! Before a session: its steps and its orders.

ghost use Rattle.std.specs.Prelude.{◌≡◌, All, IfOk, IsSome, Some, map};
ghost use Rattle.r10_session.specs.Answered.{Answers, Answered};
ghost use Rattle.r10_shared.specs.Orders.{order_of};

use r10_body::Refusal;
use r10_machine::{Event, Reply};
use r10_medium::BlockMedium;
use r10_shared::{Held, Order, Rings};
use std::alloc::{AllocError, Global};
use std::sync::Wait;

/// The order that an event is.
fn order(event: Event) -> Order
    requires { IsSome (order_of event) }
    ensures { order_of event ≡ Some result }
{
    match Order::of(event) {
        Ok(order) => order,
        Err(_) => unreachable!(),
    }
}

/// The orders that these events are.
pub(crate) fn orders_of(alloc: Global, events: Vec<Event>) -> Result<Vec<Order>, AllocError>
    requires { All (λ event. IsSome (order_of event)) events.items }
    ensures { IfOk result (λ orders. map (λ event. order_of event) events.items ≡ map (λ order. Some order) orders.items) }
{
    let mut orders = Vec::new(alloc);
    for event in events {
        orders.push(order(event))?;
    }
    Ok(orders)
}

/// Asks an order of the recorder under the lock, and answers its reply.
fn ask<M: BlockMedium, N: Rings, T: Wait>(rt: &T, held: &mut Held<M, N>, order: &Order) -> Reply
    ensures { Answers M.disk held.old order.now result held.new }
{
    match order.perform(rt, held) {
        Ok(reply) => reply,
        Err(refusal) => Reply::Refused(refusal),
    }
}

/// Asks these orders of the recorder under the lock in turn, and answers its reply to each.
pub(crate) fn ask_all<M: BlockMedium, N: Rings, T: Wait>(
    rt: &T,
    alloc: Global,
    held: &mut Held<M, N>,
    orders: &[Order],
) -> Result<Vec<Reply>, AllocError>
    ensures { IfOk result (λ replies. Answered M.disk held.old orders.now replies.items held.new) }
{
    let mut replies = Vec::new(alloc);
    for place in 0..orders.len() {
        let reply = ask(rt, held, &orders[place]);
        replies.push(reply)?;
    }
    Ok(replies)
}
