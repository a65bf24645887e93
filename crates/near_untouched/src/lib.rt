//! What a change of the plan leaves untouched, and which notes of units of legs hold after it.
//!
//! # Reservations that are left alone
//!
//! Moves that can save no more than they cost, told by the reservations that they leave alone.
//!
//! A move of legs changes the rows of a few legs. A reservation none of whose paths has one of these, and that is booked
//! on no leg that the move refills, keeps its groups and costs what it did. So a move can save at most what the
//! others cost now. Where flying and the positions come to cost as much more as that, the move is not better, whatever
//! becomes of its passengers.
//!
//! The code of `alone_laws.rt` is laws: each is a public function with an empty body, whose contract is the law.
//!
//! # Units that were not better
//!
//! Units of legs whose moves were not better at one plan, and are not at a later one.
//!
//! What a move of legs costs beside the plan hangs on the rows of its own legs and aircraft, on the groups of the
//! reservations on them, or booked on a leg that it refills, and on the aircraft at hand where its aircraft may end. Where
//! none of that changed, the move changes the cost of both plans by as much. So a move that made a plan no cheaper makes a
//! later one no cheaper, and a search has to look again only at the units that a change of the plan touched.
//!
//! The code of `dearer_laws.rt` is laws: each is a public function with an empty body, whose contract is the law.
//!
//! # What a change touches
//!
//! Legs and aircraft that are untouched between two plans of a day.
//!
//!     let known = Untouched::between(alloc, &inst, &earlier, &hours, &later, &eval)?;
//!     known.planes[p]     // whether something may have been touched that moves of the legs of aircraft p hang on
//!     known.legs[x]       // whether something may have been that has to do with leg x
//!     known.again[x]      // whether something may have been on which it hangs how leg x is flown again
//!
//! A move of legs that was not better at the earlier plan is not better at the later one, where its aircraft are untouched
//! (`dearer_laws.rt`). The two plans are compared place by place, and marked is what may have been touched. A leg is marked if
//!
//! - it has another row;
//! - it leaves an airport, or reaches one, that is tight: some leg is counted there in an hour in one of the plans alone, and
//!   in one of them that hour has no room for more legs than the margin;
//! - somebody is on it, in one of the plans, or is booked on it, whose reservation has other groups, or groups on a leg that
//!   has another row;
//! - or one is booked on it whose scheduled path has a leg with another row, or one on which somebody is whose reservation
//!   has other groups.
//!
//! An aircraft is marked if it flies a leg in one of the plans that is; if more of its legs than half the margin leave one
//! airport, or reach one; or if it is wanted by a position that has other aircraft at hand. So more may be marked than was
//! touched: the hours of an airport are told together, and passengers who change places count as others.
//!
//! A leg that is cancelled, may move and is not called off may be flown again. It may be so as before if it is not marked, nor is
//! any such leg that leads back from it, of which there are few, and if no leg that would lead back has another row.
//!
//! Marks are of two plans, and nothing is said of what is untouched from one plan to a second, and from there to a third.
//! Nobody needs that: what was known of a unit of untouched aircraft at the first is known at the second, so notes are
//! carried from plan to plan, and at each those of touched aircraft are given up.
//!
//! Proved: what is not marked is untouched (`IsUntouchedPlane`, and `IsUntouchedLeg`), and legs that are
//! untouched one by one are so together.
//!
//! # Notes of units at a later plan
//!
//! Notes of units of legs of an earlier plan, brought to the plan as it stands.
//!
//!     let notes = later_unit_notes(alloc, notes, &inst, &plan, &eval)?;     // what still holds at this plan
//!
//! Where it was known of each move of a unit why it was not better, the same is so at a later plan between which and the
//! first nothing was touched that the unit hangs on (`dearer_laws.rt`). The two plans are compared place by place
//! (`Untouched::between`): each aircraft that was touched, or may have been, is given the number of the search before, and so
//! is each leg that may not be flown again as before. So the units of these are not known any more, and no unit is looked at.
//!
//! Where the later plan has the same rows, as after a rebooking, what is out by rows alone stays so; and a unit that refills no
//! leg hangs on the passengers of its aircraft alone, and not on the seats of all on which somebody is booked.
//!
//! Proved: what comes back are notes of the plan as it stands, and each of them is true. The notes are those of near_notes.
#![tactic(auto)]

mod again;
mod alone_laws;
mod carried;
mod changed;
mod counts;
mod dearer_laws;
mod ends;
mod hours;
mod later;
mod later_hours;
mod leg_laws;
mod legs;
mod marks;
mod passengers;
mod places;
mod planes;
mod plans;
mod positions;
mod room;
mod same;
mod untouched;

pub use alone_laws::{
    a_move_that_saves_no_more_than_it_costs_is_not_better,
    a_move_that_touches_nobody_who_costs_anything_is_not_better,
    a_reservation_that_is_left_alone_costs_what_it_did,
};
pub use dearer_laws::{
    a_move_changes_the_cost_of_both_plans_by_as_much, a_unit_of_untouched_aircraft_is_untouched,
    a_unit_that_is_untouched_stays_out,
};
pub use later::later_unit_notes;
pub use leg_laws::legs_that_are_untouched_are_so_together;
pub use untouched::Untouched;
