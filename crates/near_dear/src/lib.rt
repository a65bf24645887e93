//! Moves that are dear, told by the plan before them and without a draft.
//!
//! # Exchanges of two aircraft
//!
//! What an exchange of legs between two aircraft costs, told without making it.
//!
//!     let moments = calm_moments(alloc, &inst, &plan, &eval)?;                         // once for a plan
//!     let times = PlaneTimes::of(&inst, &plan, moments.as_slice(), paid, p, legs);     // once for each aircraft
//!     is_dear_exchange(&inst, &plan, hands, (p, q), (times, others), legs, other_legs, stands, at)
//!
//! Once two aircraft have exchanged their legs from a moment on, and are pushed, flying costs what each pays for the legs of
//! the other, whatever the departures. Where the moved plan meets C5 and all legs of the two depart before the window's
//! end, it is told by the plan before where they end: each where the other did, if both stand at one airport at the
//! moment, and else each where it did itself. So it is known what the positions cost then.
//!
//! That all legs depart before the window's end is known where hours are calm: once all legs of the two have departed by
//! the plan, each hour of their airports has room for all of them and one more beside those of the plan, so a Push finds a moment as
//! soon as the aircraft is ready, and all legs one after another would be over before the window ends.
//!
//! So a move is known to make the plan no cheaper, or to break a rule of a leg of the two, where flying and the positions cost
//! at least as much more as those pay now who are on their legs. Proved: what the code says is so, and the laws, which
//! are public functions with empty bodies.
//!
//! # Legs that are flown again
//!
//! What an aircraft costs that flies cancelled legs again, and what that saves at most, told without making the move.
//!
//!     let saved = payers.saved(&inst, &plan, p, p);                                    // of near_priced
//!     is_dear_restore(&inst, &plan, &payments, saved, p, legs, at, x, None)            // of a feasible plan
//!
//! A move that restores a leg flies it by an aircraft, and perhaps another one that leads back; it pushes the legs of the
//! aircraft, and lets those aboard the restored legs again who are booked on them. That costs what flying these legs costs.
//! It saves at most what the positions cost less where the aircraft ends elsewhere, and what those pay now who are on legs
//! of the aircraft that may move, or are booked on a leg that is flown again: nobody else is touched, since nobody is on a leg
//! that is cancelled. May move are its movable legs, and where a leg is restored alone those of them that depart then or
//! later. Where that is no more than what flying costs, the move makes the plan no cheaper, wherever its legs go.
//!
//! Proved: what the code says is so, and the laws, which are public functions with empty bodies.
//!
//! # Runs that are cancelled
//!
//! Moves that cancel a run of legs, and make the plan no cheaper, told without making them.
//!
//!     let owed = owed_by_leg(alloc, &inst, &plan)?;                 // once for a plan
//!     match dropped_by(steps) {                                     // the aircraft, and the steps that cancel
//!         Some((plane, cancels)) => is_dear_drop(&inst, &plan, &payments, owed, plane, legs, cancels),
//!         None => false,
//!     }
//!
//! Legs of an aircraft that are cancelled save what it costs to fly them, what the aircraft may save by ending where it is
//! missing, and at most what those pay now who are on legs of the aircraft. Whoever is on one of the cancelled legs is not
//! carried afterwards, whatever the Push makes of the others: the Tidy takes them off. So where those on one of the legs
//! come to cost as much as all that could be saved, the move makes the plan no cheaper. No rule need hold after it.
//!
//! What those on each leg come to cost is looked up once for a plan, in one walk over its groups; a move is then told by its
//! steps, and no row is drafted. Proved: what the code says is so, and the laws, which are public functions with empty
//! bodies.
#![tactic(auto)]

mod calm;
mod dear_exchange;
mod dear_restore;
mod drop_laws;
mod drops;
mod exchange_laws;
mod flying;
mod left;
mod owed;
mod places;
mod positions;
mod restore_laws;
mod times;

pub use calm::calm_moments;
pub use dear_exchange::{are_two, is_dear_exchange};
pub use dear_restore::is_dear_restore;
pub use drop_laws::{a_dear_drop_is_out, those_on_a_cancelled_leg_are_not_carried_after_a_tidy};
pub use drops::{dropped_by, is_dear_drop};
pub use exchange_laws::{
    a_dear_exchange_is_out, an_exchange_costs_what_each_pays_for_the_legs_of_the_other,
    an_exchange_is_dear_that_costs_at_least_as_much_more_as_those_pay_on_its_legs,
    exchanged_aircraft_end_where_their_legs_lead,
    exchanged_legs_depart_in_time_where_hours_are_calm,
};
pub use owed::owed_by_leg;
pub use positions::Stands;
pub use restore_laws::{a_dear_restore_is_out, moves_that_restore_legs_fly_them_again};
pub use times::PlaneTimes;
