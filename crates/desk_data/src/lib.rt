//! The joined day of an airline: its rows, its disruption orders, and plans for it.
//!
//! `Instance` is a day: the rows of its airports, aircraft, legs and reservations, shared by its
//! copies, the orders taken so far, and what has left. Airports, aircraft, legs and reservations are numbers, by
//! their places among the rows. `Plan` has a row for each leg, and for each reservation its groups
//! of passengers by path.
//!
//!     let inst = Instance::of(alloc, parts)?;            // `are_parts` of day_checks tests the rows
//!     let plan = inst.schedule(alloc)?;                  // each leg as scheduled
//!     let row = plan.read_row(Leg(0));                   // flown, by whom and when, or cancelled
//!     let first = inst.earliest(Leg(0));                 // with the delay that orders give
//!
//! Contracts see a day as its rows, its list of orders and its progress, and a plan as its rows and groups
//! (`specs/Situation`, `specs/PlanRows`). Proved: each look-up is the definition over these, from
//! tables. A batch that tells a later moment freezes the rows that left before it and has passengers
//! tallied; the orders of any are appended; and after an error the day is as before. Crates above use what
//! holds of departures, rows that are due and paths that are bound by the laws alone (`src/laws`, `proofs`),
//! and look inside none of these definitions, but for `near_moves`, which says more of them in words. It
//! depends on `desk_units`, `tariff_prices` and `day_orders`.
#![tactic(auto)]

mod booked;
mod broken;
mod hours;
mod info;
mod instance;
mod laws;
mod left;
mod limits;
mod news;
mod parts;
mod path;
mod plan;
mod room;
mod row;
mod tally;

pub use booked::Booked;
pub use broken::Broken;
pub use day_orders::{Batch, Order};
pub use desk_units::{
    Airport, Cabin, Grains, Haul, Leg, List, Minute, Name, NoMem, Plane, Price, Res, Seats, Steps,
    Tariff, TariffRow, Term, Weight,
};
pub use info::{AirportInfo, Cap, LegInfo, Maint, PlaneInfo, PositionInfo, ResInfo};
pub use instance::Instance;
pub use laws::{
    batches_freeze_what_has_left, batches_keep_days_valid,
    days_of_which_nothing_has_left_are_as_ordered, departures_are_in_time,
    fixed_legs_have_rows_due, later_orders_decide, paths_are_bound_to_what_has_left,
};
pub use limits::{DAY, DEPARTURES_END, LAST_SCHEDULED, MOMENTS_END, MOST_DELAY};
pub use parts::Parts;
pub use path::{Path, path_order, same_path};
pub use plan::Plan;
pub use row::{Group, Row};
pub use tariff_prices::Prices;
