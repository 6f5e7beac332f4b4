// What is asked of a recorder, under a lock or by orders.

use crate::inputs::LEAP_DAY;
use r10_body::Refusal;
use r10_count::Items;
use r10_held::{Cabinet, Held, Rings};
use r10_medium::Memory;
use r10_shared::Order;
use std::alloc::{AllocError, Global};
use std::sync::Wait;

/// A call that changes what is kept. A start has a file's name, and a pump how many messages it takes at most.
pub enum Ask {
    Mount,
    Tick,
    Start(&'static [u8]),
    Pump(usize),
    Event,
    Commit,
    Stop,
    Seal,
    Erase,
    Dismount,
}

/// A setup text.
const SETUP: &[u8] = b"ABCD";

/// None taken, where it was done.
fn none(done: Result<(), Refusal>) -> Result<usize, Refusal> {
    match done {
        Ok(()) => Ok(0),
        Err(refusal) => Err(refusal),
    }
}

/// What it answers: how many messages were taken, of those that take any.
fn answer_to<N: Rings, R: Wait>(
    rt: &R,
    held: &mut Held<Memory, N>,
    ask: &Ask,
) -> Result<usize, Refusal> {
    match ask {
        Ask::Mount => none(held.mount()),
        Ask::Tick => none(held.tick(1000, LEAP_DAY)),
        Ask::Start(name) => none(held.start_file(rt, name, SETUP)),
        Ask::Pump(most) => held.pump(5, *most),
        Ask::Event => none(held.event(3, 1000)),
        Ask::Commit => none(held.commit(rt)),
        Ask::Stop => match held.stop_file(rt) {
            Ok(stopped) => Ok(stopped.taken),
            Err(refusal) => Err(refusal),
        },
        Ask::Seal => none(held.seal()),
        Ask::Erase => none(held.erase(rt)),
        Ask::Dismount => none(held.dismount()),
    }
}

/// How many of the calls, each under the lock, answered otherwise.
pub fn otherwise<N: Rings, R: Wait>(
    rt: &R,
    cabinet: &Cabinet<Memory, N>,
    asks: &[(Ask, Result<usize, Refusal>)],
) -> usize {
    let mut wrong = 0usize;
    for (ask, want) in asks {
        let mut held = cabinet.hold(rt);
        if answer_to(rt, &mut held, ask) != *want {
            wrong = wrong.wrapping_add(1);
        }
    }
    wrong
}

/// The order that it is. A pump is none.
fn order_of(alloc: Global, ask: &Ask) -> Result<Option<Order>, AllocError> {
    let order = match ask {
        Ask::Mount => Order::Mount,
        Ask::Tick => Order::Tick {
            count: 1000,
            parts: LEAP_DAY,
        },
        Ask::Start(name) => Order::Start {
            name: Items::of(Vec::from_slice(alloc, name)?),
            setup: Items::of(Vec::from_slice(alloc, SETUP)?),
        },
        Ask::Pump(_) => return Ok(None),
        Ask::Event => Order::Event {
            number: 3,
            count: 1000,
        },
        Ask::Commit => Order::Commit,
        Ask::Stop => Order::Stop,
        Ask::Seal => Order::Seal,
        Ask::Erase => Order::Erase,
        Ask::Dismount => Order::Dismount,
    };
    Ok(Some(order))
}

/// These as orders.
pub fn orders_of(alloc: Global, asks: &[Ask]) -> Result<Vec<Order>, AllocError> {
    let mut orders = Vec::new(alloc);
    for ask in asks {
        if let Some(order) = order_of(alloc, ask)? {
            orders.push(order)?;
        }
    }
    Ok(orders)
}
