//! Disruptions, as the orders that they give, and tables of what the orders say.
//!
//! An `Order` delays a leg or takes it out of the plan, keeps an aircraft on the ground for a span, or
//! sets the caps of an airport for a span. `Batch` is those that become known together, with the moment at
//! which they do where that is given. What an order says is defined over the whole list of orders
//! (`specs/LastOrders`): of a leg and of an airport's hour the last one decides, and the spans of an
//! aircraft add up.
//!
//! `OrderTables` has for each leg, aircraft and airport what the orders taken so far say of it, so that no
//! look-up walks over the orders; `with` makes the tables with some orders more. Proved: each table
//! is what the definitions say of the list. `Instance` of desk_data keeps one.
//!
//! `spans_after` has what is left of spans after a moment. `AirportHours` has how often each hour of each
//! airport is taken, by departures or by arrivals; `count` finds that by two searches by halves. It depends
//! on `desk_units` alone.
#![tactic(auto)]

mod hours;
mod kept;
mod orders;
mod slots;
mod spans;

pub use hours::{CapChange, HourCap, cap_at};
pub use kept::OrderTables;
pub use orders::{Batch, Order};
pub use slots::{AirportHour, AirportHours};
pub use spans::spans_after;
