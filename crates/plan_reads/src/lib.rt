//! How a plan is read: its legs in their order, its paths, and what steps make of groups.
//!
//! # Legs and paths
//!
//! How a plan is read: what its rows say of an aircraft's legs in their order, and of the paths that
//! passengers are on.
//!
//!     let before = legs_before(alloc, &plan, legs)?;     // for each leg the one before it, if any
//!     put_lasts(&at, &inst, &plan, &mut lasts);          // for each aircraft its last leg before a moment
//!     let airport = stand_of(&inst, plane, last);        // where that leaves it
//!     let leaves = departure(&plan, leg);                // in minutes since 2000-01-01
//!     is_good_path(&inst, &plan, res, path)              // whether a path keeps C13
//!     c4_range(&inst, leg, row)                          // whether a leg with a row keeps C4
//!     goes_on(&inst, leg, row, next, row_of_next)        // whether passengers can go on with another leg
//!
//! What a rule asks of one leg and its row stands here once, by the rule's number: whoever judges a leg,
//! from scratch or as plans change, asks it with the row at hand. So does what C13 asks of two legs.
//!
//! Paths are read through `ReadPlan`, a small trait with a plan's rows and groups, so that whatever has
//! these is read alike. The rules, the cost, and later steps and the search ask here.
//!
//! Proved: each call is the definition of desk_rules that it is named for, and two laws say in words
//! what the leg before a leg and the last leg before a moment are. The flown legs are sorted once; all
//! other calls walk over what they are asked about.
//!
//! # What steps make of groups
//!
//! What the steps Rebook, Tidy and Refill make of the groups of one reservation.
//!
//!     groups_after_rebook(alloc, &inst, &plan, res, path, to, count)?    // from one path to another
//!     groups_after_tidy(alloc, &inst, &plan, res)?                       // off the paths that break a rule
//!     groups_after_refill(alloc, &inst, &plan, &seats, leg, res)?        // back to the scheduled path
//!     is_fit_path(&inst, &plan, res, &path)                              // whether passengers may go on it
//!
//! Each call answers the groups that the step makes, or `None` where the reservation keeps those that it
//! has; a Tidy takes memory only where groups change. A Tidy is `groups_after_tidy` of each reservation in
//! the plan at its start. A Refill is `groups_after_refill` of one reservation after another, each in the
//! plan as those before it left it. The plan is whatever has its rows and groups, by the trait `ReadPlan`,
//! and how many are aboard its legs is asked of whatever knows it, by the trait `KnowsAboard`: no call walks
//! over other reservations.
//!
//! Proved: the groups are those of which desk_model speaks, they ascend by path, and their passengers are
//! all those of the reservation; the answer is `None` just where nobody goes, or the two paths are one, and
//! of a Tidy where no path breaks a rule, and there it is never out of memory.
#![tactic(auto)]

mod aboard;
mod after_leg;
mod connection;
mod counts;
mod fits;
mod free_seats;
mod last;
mod laws;
mod legs;
mod made;
mod order;
mod path_order;
mod paths;
mod reads;
mod rebook;
mod refill;
mod rotation_leg;
mod row_rules;
mod rules;
mod seats;
mod stand;
mod tidy;

pub use aboard::KnowsAboard;
pub use after_leg::{c5_location, c6_ground_time, ground_time, stand_after, with_departure};
pub use connection::{connects, goes_on};
pub use fits::is_fit_path;
pub use last::{Moments, put_lasts};
pub use laws::{
    the_last_leg_is_the_last_that_departs_before_a_moment, the_leg_before_a_leg_is_followed_by_it,
};
pub use legs::{arrival, departure, row_departure};
pub use order::legs_before;
pub use paths::{all_flown, has_leg, is_carried, is_flown};
pub use reads::ReadPlan;
pub use rebook::groups_after_rebook;
pub use refill::groups_after_refill;
pub use rotation_leg::RotationLeg;
pub use row_rules::{c1_due, c2_in_time, c3_family, c4_range, c7_service, meets_span};
pub use rules::{is_good_path, is_in_time_path, longest_delay};
pub use seats::{same_seats, seats_in};
pub use stand::stand_of;
pub use tidy::groups_after_tidy;
