//! Disruptions, as the orders that they give.

ghost use Rattle.std.specs.Prelude.{◌≡◌, IfOk};

use desk_units::{Airport, Leg, List, Minute, NoMem, Plane};
use std::alloc::Global;

/// One disruption.
#[derive(Clone, Copy)]
pub enum Order {
    /// A leg departs that many minutes late, at most 2,880; or it is off, where the delay is `None`.
    Flight {
        leg: Leg,
        delay: Option<u32>,
    },
    /// An aircraft is out of service from one moment up to but not including the other.
    Aircraft {
        plane: Plane,
        from: Minute,
        to: Minute,
    },
    /// An airport takes so many departures and arrivals in each hour that has a minute from one
    /// moment up to but not including the other.
    Field {
        airport: Airport,
        from: Minute,
        to: Minute,
        /// How many departures, 0 to 100,000 where a file gives them.
        deps: u32,
        /// How many arrivals, 0 to 100,000 where a file gives them.
        arrs: u32,
    },
}

/// Disruptions that become known together, and the moment at which they do, where that is given.
#[derive(Drop)]
pub struct Batch {
    /// The moment at which they become known, in minutes from the start of the year 2000; `None` where none is
    /// told. A day takes one of at most minute 52,480,000 (`can_add` of day_checks), and an earlier one than its
    /// present moment as none.
    pub at: Option<Minute>,
    /// What they order, in the order in which it is taken.
    pub orders: List<Order>,
}

impl Batch {
    /// An equal batch. The only error is out of memory.
    pub fn copy(&self, alloc: Global) -> Result<Batch, NoMem>
        ensures { IfOk result (λ copy. copy ≡ self.now) }
    {
        let orders = Vec::from_slice(alloc, self.orders.as_slice())?;
        Ok(Batch {
            at: self.at,
            orders: List(orders),
        })
    }
}
