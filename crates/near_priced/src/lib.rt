//! Moves that save no more than they cost: because nobody on them pays, or less than they cost more.
//!
//! # Aircraft on which nobody pays
//!
//! Moves of legs on whose aircraft nobody pays.
//!
//!     let costs = reservation_costs(alloc, &inst, &plan)?;                 // what each reservation costs
//!     let payers = Payers::of(alloc, &inst, &plan, costs.as_slice())?;
//!     payers.rule_out(&inst, &plan, &m)          // of a feasible plan: whether it is known that the move is not better
//!
//! A move of legs can save at most what flying, the positions and the passengers whom it touches cost. Where nobody who costs
//! anything is on a leg of its aircraft, or is booked on a leg that it refills, and both aircraft cost as much by the hour, it
//! saves nothing but by aircraft that end where they are missing. Where no position wants one of them elsewhere, or a leg that
//! is flown again costs as much as that would save, the move is not better, whatever becomes of its passengers.
//!
//! What each reservation costs is worked out once for a plan, in one walk over its groups, and handed in, since how much each
//! pays is asked too where moves are drafted. By that who pays is looked up once for a plan, in one walk over the
//! paths of those who do and over its legs; a move is then told by its steps, and no row is drafted. Proved: what is ruled out is
//! not better, and the law that says so, a public function with an empty body.
//!
//! # Moves that cost as much more as can be saved
//!
//! Moves that cost at least as much more as those can save whom they touch.
//!
//!     let costs = reservation_costs(alloc, &inst, &plan)?;                   // what each reservation costs
//!     let payments = Payments::of(alloc, &inst, &plan, costs.as_slice())?;
//!     payments.rule_out(alloc, &inst, &plan, &draft, &m)?      // of a feasible plan: whether a move is known not to be better
//!
//! A move of legs can save at most what flying, the positions and the passengers whom it touches cost. Once its rows are
//! drafted (near_draft) it is known what flying costs then, and where its aircraft end, so what the positions cost. Where
//! both together cost at least as much more than before as those whom it touches can save, the move is not better, whatever
//! becomes of its passengers. What these can save is bounded twice, and the second bound is asked where the first one does
//! not say so:
//!
//! - by what they pay: all those who are on a leg that gets another row, or are booked on one that is refilled. That is one
//!   look-up for each such leg.
//! - by what they cost at least by the rows of the draft, where one Tidy is taken and then Refills alone. Passengers whose
//!   path arrives then stay on it or are no longer carried, whichever costs less; those of another path are not carried, as
//!   those are who were not before. What a reservation that has somebody on a leg with another row pays beyond that is what
//!   it can save. Of those who are booked on a leg that is refilled all counts that they pay.
//!
//! How much is paid on each leg and who is on it, where aircraft end and how many are at hand is looked up once for a plan.
//! Proved: what is ruled out is not better, and for each bound the law that says so, a public function with an empty body.
#![tactic(auto)]

mod balance;
mod ends;
mod hands;
mod left;
mod marks;
mod moves;
mod once;
mod paid;
mod payers;
mod payments;
mod pays;
mod priced_laws;
mod rule_out;
mod saved;
mod services;
mod unpaid_laws;

pub use payers::Payers;
pub use payments::Payments;
pub use pays::{cost_of, reservation_costs};
pub use priced_laws::{
    a_move_is_not_better_that_costs_at_least_as_much_more_as_those_can_save_whom_it_touches,
    a_move_is_not_better_that_costs_at_least_as_much_more_as_those_pay_whom_it_touches,
};
pub use services::{end_of, is_at, is_wanted};
pub use unpaid_laws::a_move_on_whose_aircraft_nobody_pays_is_not_better;
