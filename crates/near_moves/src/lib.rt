//! The moves near a plan that a search tries, what a descent makes of them, and laws by which moves are known not to be better.
//!
//! # Neighbourhoods and descents
//!
//! The definitions are in `specs/`: `MoveParts`, the legs and aircraft that moves are made of; `Units`, of what
//! the moves of a unit are made; `LegMoves` and `PassengerMoves`, the moves of each neighbourhood; `Near`, all
//! of them in their order, and their shards; `Routes`, where passengers may go; `Descent`, what is proposed
//! one after another. The same in words, for the laws: `NeighbourhoodWords`, `Words`, `DropWords`, `StepWords`
//! and `RouteWords`; `Shards`, what is in a shard; `Descents`, what descents and recoveries add to a history.
//! What a move makes of a plan is in `desk_model`.
//!
//! The neighbourhoods, in their order: a leg departs at another time (N1, retimed), two aircraft exchange
//! their legs from a moment on (N2, swapped), legs are cancelled so that the aircraft is again where it was
//! (N3, dropped), a cancelled leg is flown again (N4, restored), a run of legs goes to another aircraft of the
//! family (N5, handed), and passengers leave a path (N6, rebooked).
//!
//! The code of this part is laws: each is a public function with an empty body, whose contract is the law.
//!
//! # Moves that are in vain
//!
//! ## Where legs lead
//!
//! By C5 an aircraft that is no surface transport leaves each airport as often as it reaches it, but for where it
//! begins and where it stands at the end. So the legs of an aircraft alone, whatever their order, may show that it
//! cannot fly them one after another. Of the steps only a Set and a Swap give legs to other aircraft: a move that
//! gives an aircraft legs for which these counts do not come out is not better, whatever their departures are then.
//!
//! The code of `chain_laws.rt` is laws: each is a public function with an empty body, whose contract is the law.
//!
//! ## Rules that rows decide
//!
//! Moves that break a rule before their passengers are looked at.
//!
//!     keeps_rows(step)               // whether a step leaves each leg its row
//!     is_of_rows(&inst, item)        // whether an item is of a rule that asks rows alone
//!
//! A Rebook, a Tidy and a Refill move passengers, and leave each leg its row. The rules of legs, aircraft and
//! hours, C1 to C11, ask rows alone. So once a move's first steps have broken one of them, no such step after
//! them mends it, and the move is not better.
//!
//! Proved: both calls are their definition, and three laws say what they are for. Each law is a public function with
//! an empty body.
//!
//! # What has left
//!
//! What has left, and what the orders still decide, in words: latest departures, spans out of service and the caps of
//! hours, the stems of routes, and a day of which nothing has left.
//!
//! The definitions are those of `desk_data`, of `desk_model` and of the neighbourhoods above. `specs/WhatLeft` and `specs/LineWords` say
//! in words what of them a controller relies on: when an aircraft is out of service once it has flown, how many
//! departures and arrivals an hour takes, and from which legs passengers go on.
//!
//! The code of `left_laws.rt` is laws: each is a public function with an empty body, whose contract is the law. No code
//! cites them.
//!
//! # Units at two plans
//!
//! Of the moves near a plan most are not better, and an accepted move touches a few aircraft. So the moves of a unit, which
//! retime a leg, exchange, drop, restore or hand on legs of one or two aircraft, are the same moves in the next plan, and
//! what their first steps make of those legs is the same, if these aircraft fly the same legs with the same rows, and the
//! hours of their airports have the same room. Then a leg that broke a rule of its aircraft breaks it again, and legs that
//! were given to an aircraft in vain are given in vain.
//! Of a move of a unit it is known why it is not better: it makes the plan no cheaper, it breaks such a rule, or it gives
//! legs in vain.
//!
//! The code of `unit_laws.rt` is laws: each is a public function with an empty body, whose contract is the law.
#![tactic(auto)]

mod chain_laws;
mod descents;
mod drops;
mod ended;
mod left_laws;
mod legs;
mod neighbourhoods;
mod passenger_laws;
mod row_laws;
mod row_rules;
mod shards;
mod unit_laws;

pub use chain_laws::{
    a_leg_that_leaves_elsewhere_is_restored_in_vain,
    a_run_that_leads_elsewhere_is_handed_on_in_vain,
    aircraft_leave_airports_as_often_as_they_reach_them,
    aircraft_that_stand_apart_exchange_legs_in_vain,
    steps_but_set_and_swap_leave_legs_to_their_aircraft,
};
pub use descents::{
    a_descent_adds_the_first_better_moves, a_descent_ends_quiet_or_spent,
    a_proposal_is_accepted_exactly_where_it_is_better,
    a_recovery_takes_the_batches_and_descends_after_each, descents_and_recoveries_are_legal,
};
pub use drops::runs_are_dropped_where_they_come_round;
pub use ended::SearchEnd;
pub use left_laws::{
    hours_have_room_for_what_has_left, latest_departures_are_counted_from_the_order,
    spans_go_on_from_where_the_aircraft_has_landed, stems_stand_in_order,
    where_nothing_has_left_moves_are_as_ordered,
};
pub use legs::{
    legs_from_a_leg_are_in_their_order, moments_of_an_exchange_are_departures_in_order,
    moves_of_legs_fit, runs_are_handed_within_the_family, runs_are_of_movable_legs,
    swaps_are_of_two_aircraft_of_a_family,
};
pub use neighbourhoods::{
    aircraft_exchange_their_legs_at_departures, all_or_a_power_of_two_may_go,
    legs_are_restored_alone_or_with_one_back, legs_are_retimed_to_other_departures,
    passengers_are_rebooked_in_portions, passengers_go_to_routes_or_off_all_paths,
    runs_are_handed_on_at_their_times, units_are_of_six_neighbourhoods,
};
pub use passenger_laws::{
    rebookings_near_a_plan_fit, routes_are_the_paths_that_passengers_may_take,
};
pub use row_laws::{
    a_rule_of_rows_that_first_steps_break_stays_broken,
    rules_of_legs_aircraft_and_hours_ask_rows_alone, steps_of_passengers_leave_each_leg_its_row,
};
pub use row_rules::{is_of_rows, keeps_rows};
pub use shards::{shards_hold_the_moves, shards_part_the_units};
pub use unit_laws::{
    a_leg_that_is_restored_in_vain_stays_so, a_move_begins_with_steps_of_its_own_legs,
    a_move_that_breaks_a_rule_of_its_own_legs_does_so_again,
    a_run_that_is_handed_on_in_vain_stays_so, a_unit_that_is_out_has_no_better_move,
    a_unit_whose_aircraft_fly_the_same_has_the_same_moves,
    aircraft_that_exchange_legs_in_vain_stay_so,
    steps_of_aircraft_on_which_plans_agree_make_the_same_of_them,
};
