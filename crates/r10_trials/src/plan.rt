//! Which sessions there are.

use crate::apparatus::START;
use r10_count::Items;
use r10_shared::{Gate, Order};
use std::alloc::{AllocError, Global};

/// What control asks for while the feeds run, and how many of the workers pass the gate, the feeds first.
#[derive(Clone, Copy)]
pub struct Plan {
    /// That the file is closed, and another begun.
    pub stops: bool,
    /// That the file is erased before another is begun.
    pub erases: bool,
    /// Whether only the feeds pass the gate, so that all messages are left, and memory is asked for equally often in each run.
    pub is_unwritten: bool,
}

impl Gate for Plan {
    fn pass(&self, worker: usize) -> bool {
        !self.is_unwritten || worker < 2
    }
}

impl Plan {
    /// The session of this name.
    pub fn of(name: &str) -> Option<Plan> {
        let (stops, erases, is_unwritten) = match name {
            "two-feeds" => (false, false, false),
            "a-second-file" => (true, false, false),
            "an-erased-file" => (true, true, false),
            "nothing-written" => (false, false, true),
            _ => return None,
        };
        Some(Plan {
            stops,
            erases,
            is_unwritten,
        })
    }

    /// What control asks for.
    pub fn orders(self, alloc: Global) -> Result<Vec<Order>, AllocError> {
        let mut orders = Vec::new(alloc);
        if self.stops {
            orders.push(Order::Stop)?;
            if self.erases {
                orders.push(Order::Erase)?;
            }
            orders.push(start_of(alloc, b"SECOND")?)?;
        }
        Ok(orders)
    }
}

/// That a file of this name is begun.
fn start_of(alloc: Global, name: &[u8]) -> Result<Order, AllocError> {
    let name = Items::of(Vec::from_slice(alloc, name)?);
    let setup = Items::of(Vec::from_slice(alloc, b"ABCD")?);
    Ok(Order::Start { name, setup })
}

/// What is asked for before the session: that the medium is mounted, and a file begun.
pub fn before(alloc: Global) -> Result<Vec<Order>, AllocError> {
    let mut orders = Vec::with_capacity(alloc, 3)?;
    orders.push_reserved(Order::Mount);
    orders.push_reserved(Order::Tick {
        count: 1000,
        parts: START,
    });
    orders.push_reserved(start_of(alloc, b"FIRST")?);
    Ok(orders)
}
