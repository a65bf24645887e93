//! The rules and the cost of a whole plan, each worked out from scratch.
//!
//! # Rules
//!
//! ## Rotations
//!
//! The rules of rotations, C1 to C9: whether each leg of a plan is flown as it may be, and whether
//! each aircraft makes its maintenance.
//!
//! `least_rot(alloc, &inst, &plan)` gives the first item that the plan breaks, by rule and then by leg or
//! aircraft, or `None`. What C1 to C7 ask of a leg and its row is in `plan_reads` by their numbers, as
//! `c6_ground_time`; C8 and C9 have a file each. `rule.rt` applies them to the plan's rows, and has the one
//! loop that looks for the first leg or aircraft that breaks a rule. docs/RULES-AND-COST.md gives the
//! rules. The time is near linear in the legs: they are sorted once, and each rule walks over them once.
//!
//! Proved: the answer is `least_rot` of desk_rules. The leg before each leg is that of plan_reads.
//!
//! ## Hours
//!
//! The rules of an airport's hours, C10 and C11: whether its departures and its arrivals in an hour are
//! at most its caps.
//!
//! `least_slots(alloc, &inst, &plan)` gives the first item that the plan breaks, by rule, then by airport,
//! then by hour, or `None`. The legs in the air are sorted by airport and hour, once by departure and once
//! by arrival, and walked once: so only hours in which a leg is counted are looked at, and the time is near
//! linear in the legs.
//!
//! Proved: the answer is `least_slots` of desk_rules, which looks at every hour of a century. What a slot is stands in
//! hour_counts. The two halves of `least_slots` are there for whoever counts both side by side, as `par_check` of desk_tasks: the first airport and hour that break C10, and those that break C11.
//!
//! ## Passengers
//!
//! The rules of passengers, C12 to C15: whether they have seats, whether the paths on which they are
//! carried are flown and connect, arrive in time, and keep to what has begun and left.
//!
//! `least_pax(alloc, &inst, &plan)` gives the first item that the plan breaks, by rule, then by leg and
//! cabin or by reservation, or `None`. Each of these rules has a file of `src/`, by its number, as `c12_seats.rt`. The
//! passengers are counted in one walk over their groups, and each path is looked at once beside the groups of
//! its reservation, so the time is linear in the legs and the groups of passengers, and at most quadratic in
//! the groups of one reservation.
//!
//! Proved: the answer is `least_pax` of desk_rules. Whether a path keeps C13 and C14 is asked of plan_reads. What `least_pax`
//! is made of is there for whoever looks for the first item in another way, as `par_check` of desk_tasks: the first leg and cabin that break C12, and whether a reservation keeps C13, C14 or C15.
//!
//! # Cost
//!
//! The whole cost of a plan: the sum of its six terms, each with its weight.
//!
//! `full_cost(&inst, &plan)` is in grains, 600,000,000 to one unit of money. The terms are operating,
//! delay, cancellation, downgrade, legal and position, a file of `src/` each; docs/RULES-AND-COST.md
//! gives them. The time is near linear in the legs and the groups of passengers: one walk over each,
//! and for the positions one over the aircraft at each airport that position.csv names.
//!
//! Proved: the result is `cost` of desk_rules, which is below 10^38 for each plan, so no sum overflows.
//! It takes no memory.
#![tactic(auto)]

mod c10_departures;
mod c11_arrivals;
mod c12_seats;
mod c13_connection;
mod c14_arrival;
mod c15_begun;
mod c8_maintenance;
mod c9_minutes;
mod cancellation;
mod carried;
mod cost;
mod delay;
mod downgrade;
mod ended;
mod groups;
mod least_of_passengers;
mod least_of_rotations;
mod least_of_slots;
mod legal;
mod operating;
mod overfull;
mod passenger;
mod position;
mod rule;
mod slots;
mod stands;
mod taken;
mod upkeep;
mod weights;

pub use c10_departures::first_c10;
pub use c11_arrivals::first_c11;
pub use c12_seats::first_c12;
pub use c13_connection::keeps_c13;
pub use c14_arrival::keeps_c14;
pub use c15_begun::keeps_c15;
pub use cost::full_cost;
pub use ended::{path_cost, path_end};
pub use least_of_passengers::least_pax;
pub use least_of_rotations::least_rot;
pub use least_of_slots::least_slots;
pub use operating::flight_cost;
pub use passenger::passenger_cost;
pub use upkeep::{Upkeep, upkeeps_of};
