//! The moves of legs and aircraft near a plan, one after another.
//!
//!     let mut moves = LegMoves::of(alloc, &inst, &plan, shard, shards)?;
//!     while let Some(m) = moves.next(alloc, &inst, &plan)? { .. }
//!
//! Legs are retimed, exchanged, dropped, restored and handed on; what the moves are and in which order they
//! stand is defined in near_moves. Whoever wants whole units, to pass over some of them before their moves are
//! made, walks over `LegUnits`, which makes the moves of a unit that it gave.
//!
//! What is looked up again and again is worked out once: the leg after each leg, the aircraft of each
//! family, each aircraft's movable legs, and for each pair of airports the legs from the one to the other that
//! may be restored. A walk holds the units of one owner, and the moves of one unit. To work out takes n log n of
//! the legs, 500 lists for each airport, most of which stay empty, and a comparison of each aircraft with the
//! first one of each family, of which it then has a copy of the list.
//!
//! Proved: the moves are those of near_moves, in their order, and after an error a walk is where it was. It
//! depends on `desk_data`, `plan_moves`, `plan_reads`, `plan_pages` and `near_moves`.
#![tactic(auto)]

mod after;
mod choice;
mod choose;
mod families;
mod lists;
mod made;
mod moments;
mod moves;
mod neighbourhood;
mod own;
mod runs;
mod steps;
mod tables;
mod unit;
mod walk;

pub use desk_data::{Instance, Leg, NoMem, Plane};
pub use moves::LegMoves;
pub use plan_moves::Move;
pub use plan_pages::Pages;
pub use unit::LegUnit;
pub use walk::LegUnits;
