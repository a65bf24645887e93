//! The rules that a plan has to meet, and what it costs, as definitions.
//!
//! The definitions are in `specs/`: `Words` has the fifteen rules in words, C1 to C15, with a legend
//! of its letters; `Rules`, `Maintenance`, `Slots` and `Carriage` the same as tests; `Least` the first
//! item that a plan breaks, in the order of `Order`; `Cost` the six terms of its cost. All are lists,
//! quantifiers and sums over the rows of a day and of a plan, and none knows how it is computed.
//!
//! The code here is laws: each is a public function with an empty body, whose contract is the law.
//! `feasible_plans_meet_the_rules` is the one to begin with: a plan breaks no item exactly where it
//! meets the rules as they are written in words. It depends on `desk_data`; the crates that judge a plan
//! depend on it, and `desk_model` does.
#![tactic(auto)]

mod laws;

pub use laws::{
    costs_are_below_ten_to_the_38, feasible_plans_meet_the_rules, legs_are_within_the_hours,
    passengers_are_aboard_where_their_path_has_the_leg, the_first_broken_item_is_reported,
    the_haul_and_the_cabin_are_the_highest_booked, the_items_are_in_order,
    the_least_is_of_rotations_then_slots_then_passengers, the_rules_count_legs_as_in_words,
};
