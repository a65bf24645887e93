//! Proposed changes of a plan: six kinds of steps, moves of 1 to 16 of them, and which moves can be asked
//! of a day.
//!
//!     let m = Move { steps: List(vec![in alloc; Step::Tidy]?) };
//!     if fits(&inst, &m) { .. }                 // then it can be proposed
//!     let same = m.copy(alloc)?;
//!
//! What a step makes of a plan is defined in `desk_model`, in a file for each kind. Proved: `fits` is exactly the
//! definition of a move whose numbers are in range, whose departures are below 52,500,000, whose paths have
//! at most 8 legs and whose counts are 1 to 1,000; a copy is equal. It depends on `desk_data`.
#![tactic(auto)]

mod moves;

pub use desk_data::{Cabin, Instance, Leg, List, Minute, NoMem, Path, Plane, Res, Row};
pub use moves::{Move, Step, fits};
