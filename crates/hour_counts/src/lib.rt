//! The hours of airports: how many legs each counts, and when a leg that is pushed can depart.
//!
//! # How many legs
//!
//! How many legs depart from each airport in each hour, and arrive there, kept up to date while legs change.
//!
//!     let mut counts = HourCounts::of(alloc, &inst, &plan)?;            // one walk over the legs
//!     counts.departures_beside(&inst, leg, row, airport, hour)          // with no walk
//!     counts.arrivals_beside(&inst, leg, row, airport, hour)
//!     counts.place(&inst, leg, was, new)?;                             // a leg has another row
//!     Slot { movement: Movement::Departure, airport, hour }             // what a leg takes, for whoever counts slots
//!
//! Counted are the legs that are flown and whose scheduled aircraft is no surface transport; a look-up
//! leaves the leg out that it is asked for. `KnowsHours` is the trait of all that has these look-ups.
//!
//! Proved: what is counted is `AreCountsOf` a plan, and the look-ups are `departures_beside` and
//! `arrivals_beside` of desk_model.
//!
//! # Push
//!
//! Push: which legs of an aircraft it places, in their order, and the first moment at which each can
//! depart.
//!
//!     let flown = FlownLegs::of(alloc, &inst, &plan)?;                   // one walk over the legs
//!     let mut counts = HourCounts::of(alloc, &inst, &plan)?;             // another
//!     let legs = flown.rotation(alloc, &inst, &plan, plane)?;            // once, at the step's start
//!     let placed = placings(alloc, &inst, &plan, legs.as_slice(), after)?;
//!     for placing in &placed {
//!         first_departure(&inst, &plan, &counts, plane, placing)         // in the plan as it stands then
//!     }
//!
//! Whoever takes the step writes each departure into the plan, and into the counts of its hours, before it
//! asks for the next. A Push leaves each leg to its aircraft, so that `flown` serves the Pushes of all aircraft.
//! The plan is read through `ReadPlan`, and its hours through `KnowsHours`, so that whatever has rows and
//! groups can be pushed: who keeps the legs of each aircraft in their order and the counts of the hours,
//! as an evaluator does, hands in these, and makes no tables.
//!
//! Proved: the legs are `pushed_legs` of desk_model, each with the leg before it at the step's start, and
//! the moment is `first_departure` of desk_model.
//!
//! The search jumps over spans, the maintenance and full hours, and asks the counts of an hour only where
//! it has a cap: it walks over no legs. No clause says so.
#![tactic(auto)]

mod asked;
mod counts;
mod departs;
mod flown;
mod pushed;
mod room;
mod rotation_legs;
mod ruled_out;
mod slot;
mod table;

pub use asked::KnowsHours;
pub use counts::HourCounts;
pub use departs::first_departure;
pub use flown::FlownLegs;
pub use pushed::{Placing, placings};
pub use slot::{Movement, Slot};
