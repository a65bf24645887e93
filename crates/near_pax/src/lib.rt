//! Moves of passengers near a plan: the network of flights, and the units and moves made from it.
//!
//! # The network of flights
//!
//! The routes of reservations in a plan: the paths to which passengers may be rebooked.
//!
//!     let net = FlightNet::of(alloc, &inst, &pages)?;         // the flown legs, sorted once
//!     let paths = net.routes(alloc, &inst, &pages, res)?;     // the scheduled path first
//!     let paths = routes(alloc, &inst, &pages, res)?;         // both at once
//!
//! Legs are found by the airports between which they go and by departure: the first where passengers stand after
//! a stem, no earlier than they may go, the second from where the first arrives to where they want to go, no earlier
//! than that arrives, and none that arrives too late. Of one stem no path is tried twice, so a path is looked for
//! among the routes of the stems before it alone. What is found is judged as a whole path, by `is_fit_path` of plan_reads.
//! `begun_path`, `is_other_stem`, `start_after` and `due_before` tell a reservation's stems, and from where, from when on and
//! until when its passengers go on after one.
//!
//! Proved: the paths are `routes` of near_moves, in its order.
//!
//! # Units and moves of passengers
//!
//! The moves of passengers near a plan, one by one.
//!
//!     let mut moves = PaxMoves::of(alloc, &inst, &pages, shard, shards)?;
//!     while let Some(m) = moves.next(alloc, &inst, &pages)? { .. }
//!
//! or path by path, where a path can be passed over before its routes are made:
//!
//!     while let Some((res, place)) = moves.next_unit(&inst, &pages) {
//!         let path = &pages.groups(res)[place].path;
//!         while let Some(m) = moves.next_in_unit(alloc, &inst, &pages)? { .. }
//!     }
//!
//! Proved: the moves are those of near_moves for passengers of a shard's reservations, in their order, and
//! where memory runs out those that are left are as before.
#![tactic(auto)]

mod counts;
mod doubles;
mod flights;
mod pax;
mod routes_of;
mod singles;
mod sought;
mod start;
mod tried;
mod unit;
mod units;

pub use flights::{Flight, FlightNet};
pub use pax::PaxMoves;
pub use routes_of::routes;
pub use start::{begun_path, due_before, is_other_stem, start_after};
