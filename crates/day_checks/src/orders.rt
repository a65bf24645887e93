//! Whether a day can take orders.

ghost use Rattle.std.specs.Prelude.{◌↔◌, IsTrue, All};
ghost use Rattle.desk_data.specs.Valid.{IsBatch, IsOrder};

use desk_data::{Batch, Instance, LAST_SCHEDULED, MOST_DELAY, Order, Parts};

fn is_order(parts: &Parts, order: &Order) -> bool
    ensures { IsTrue result ↔ IsOrder parts.now order.now }
{
    match order {
        Order::Flight { leg, delay } => {
            (leg.0 as usize) < parts.legs.as_slice().len()
                && delay.is_none_or(|minutes| minutes <= MOST_DELAY)
        }
        Order::Aircraft { plane, .. } => (plane.0 as usize) < parts.planes.as_slice().len(),
        Order::Field { airport, .. } => (airport.0 as usize) < parts.airports.as_slice().len(),
    }
}

fn are_orders(parts: &Parts, orders: &[Order]) -> bool
    ensures { IsTrue result ↔ All (IsOrder parts.now) orders.now }
{
    orders.iter().all(|order| is_order(parts, order))
}

/// Whether a batch can be taken: its moment, where it tells one, is at most minute 52,480,000, the legs, aircraft
/// and airports of its orders are in range, and their delays at most 2,880.
pub fn can_add(inst: &Instance, batch: &Batch) -> bool
    ensures { IsTrue result ↔ IsBatch inst.now.parts batch.now }
{
    batch.at.is_none_or(|at| at.0 <= LAST_SCHEDULED)
        && are_orders(inst.parts(), batch.orders.as_slice())
}
