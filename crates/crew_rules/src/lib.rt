//! Crews, and the rules that their duties have to meet in a plan, as definitions.
//!
//! A crew has a home airport, the longest duty and the shortest rest that it may have, and a list of legs. It
//! works those of its legs that are flown, by departure. The definitions are in `specs/`: `Words` has the rules K1
//! to K4 in words, with what a duty is; `Crews` the same as tests, and the first item that a plan breaks, in the
//! order of `Broken`.
//!
//! The code here is laws: each is a public function with an empty body, whose contract is the law. By them the tests say
//! what the words say, and the item that is reported is the first that is broken. It depends on `desk_data`.
#![tactic(auto)]

mod crew;
mod laws;

pub use crew::{CrewBroken, CrewInfo, WorkedLeg};
pub use desk_units::{Airport, Leg, List, Minute, Name};
pub use laws::{
    a_rest_parts_duties, crew_rules_are_as_in_words, crews_work_their_flown_legs_in_order,
    the_first_broken_item_of_crews_is_reported,
};
