//! What becomes of a plan, as definitions: steps, answers, states and histories, what they promise, and what viewers are shown.
//!
//! # Steps, states and histories
//!
//! The definitions are in `specs/`: `Steps`, what a move makes of a plan; `States`, what the desk
//! answers to an event, and the state after it; `Fallback`, what it falls back on when a batch of
//! disruptions arrives; `Histories`, lists of entries and which of them are legal; `Promises`, what
//! holds of each legal history; `Batches`, what is answered to a batch. What a plan has to meet and
//! what it costs is in `desk_rules`, and which orders decide in `desk_data`.
//!
//! The code here is the types that the definitions speak of (`Event`, `Answer`, `Entry`, `Fallback`),
//! and laws: each is a public function with an empty body, whose contract is the law.
//! `legal_histories_keep_the_promises` is the heart of what the desk promises: each published plan
//! meets the rules, each stored cost is that of the rows, and between two batches costs only fall.
//!
//! # What viewers are shown
//!
//! What viewers are shown of the desk's history, as definitions, and the view with one entry more.
//!
//! A `View` says how many entries a history has, how many of them changed the state, and what the plan then costs or what the
//! rows break. `specs/Views` has the definitions: the view of a history, and what is reported of views that were seen one
//! after another. Proved: `view_after` gives the view of the longer history. What publishes
//! views is desk_core.
#![tactic(auto)]

mod after;
mod answer;
mod batches;
mod fallbacks;
mod histories;
mod steps;
mod view;

pub use after::view_after;
pub use answer::{Answer, Entry, Event};
pub use batches::a_batch_is_answered_by_the_first_that_is_feasible;
pub use desk_data::{Batch, Broken, Grains};
pub use fallbacks::{
    Fallback, Which, a_ground_plan_flies_no_movable_leg,
    a_settled_plan_has_each_fixed_leg_as_it_is_due,
    a_shift_cancels_legs_from_the_first_called_off_on,
    a_shift_keeps_what_is_due_and_flies_no_leg_called_off, a_shift_pushes_all_aircraft_in_turn,
    fallbacks_make_valid_plans, the_fallback_is_the_first_that_is_feasible,
};
pub use histories::{
    a_state_has_a_plan_exactly_where_its_rows_are_feasible,
    a_states_orders_are_those_of_its_batches, legal_histories_keep_the_promises,
    orders_make_no_difference_to_what_can_be_asked, runs_are_legal,
    the_rows_of_each_state_are_a_plan_for_its_instance, what_has_left_stays_as_it_left,
};
pub use plan_moves::Move;
pub use steps::{
    a_path_stays_bound_where_fewer_are_carried, a_push_places_each_leg_first,
    a_push_places_legs_in_their_order, a_rebook_moves_passengers_between_two_paths,
    a_refill_fills_the_seats_that_are_left, a_set_changes_one_leg, a_swap_exchanges_legs,
    a_tidy_leaves_no_path_that_breaks_a_rule, choices_are_the_first_and_the_greatest,
    steps_make_valid_plans, the_steps_count_and_judge_as_in_words,
};
pub use view::View;
