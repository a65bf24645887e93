//! Positioning legs: empty legs that are added to a plan, so that aircraft end the day where they are wanted.
//!
//! # The definitions
//!
//! Added legs, and which of them `ferry` adds to a plan, as definitions.
//!
//! An added leg is an empty leg that takes an aircraft from where it ends to where it is wanted. The definitions are in
//! `specs/`: `Merged` says what an added leg is, and makes of a day, a plan and a list of added legs the merged day and the
//! merged plan, in which an added leg is a leg as the others are; `Added` takes the first broken item and the cost of these,
//! so that no rule and no price is told twice; `Ferried` says which legs are added: as long as there is one, the first
//! candidate that lowers the cost.
//!
//! The code of `laws.rt` is laws: each is a public function with an empty body, whose contract is the law.
//!
//! # Rules and cost of a plan with added legs
//!
//!     let item = least_added(alloc, &inst, &plan, &added)?;    // the first item of C4 to C11 that is broken with them
//!     let cost = cost_added(&inst, &plan, &added);             // the cost with them; takes no memory
//!
//! Both work from scratch. An added leg leaves where its aircraft ends, so the last leg of each aircraft is found first, in one
//! walk over the legs; `flight.rt` then keeps what is asked of added legs, by aircraft. docs/RULES-AND-COST.md says which rules
//! added legs obey and what they cost.
//!
//! Proved: the answers are `least_added` and `cost_added` of `specs/Added`, which take them of the merged day and the merged
//! plan.
#![tactic(auto)]

mod added;
mod cost;
mod extra_leg;
mod flight;
mod laws;
mod least;
mod operating;
mod plan_leg;
mod position;
mod rule;
mod slots;
mod stands;
mod upkeep;

pub use added::{AddBroken, Added};
pub use cost::cost_added;
pub use desk_data::{Airport, Broken, Minute, Plane};
pub use laws::{
    a_list_of_no_added_legs_is_the_plan, added_legs_leave_where_their_aircraft_end,
    each_added_leg_lowers_the_cost_and_breaks_no_rule, nothing_scheduled_is_touched,
    only_one_list_is_ferried,
};
pub use least::least_added;
pub use upkeep::Starts;
