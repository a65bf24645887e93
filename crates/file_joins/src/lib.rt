//! The joins of what was read with a day: names become its numbers, of a journal, of crews and of a plan.
//!
//! # Rows by their names
//!
//! The legs, aircraft, reservations and airports of a day, found by their names.
//!
//!     let names = DayNames::of(alloc, &inst)?;
//!     names.leg(b"F1", 2_982)             // the leg of this flight and day, if there is one
//!     names.plane(b"P1")
//!     names.reservation(b"R1", false)     // outbound; true is inbound
//!     names.airport(b"AAA")
//!
//! Files that come after the day is made name legs and the like: journals, solution files, crews. The table
//! is a hash map over the names where they stand in the day's rows, made in one walk over them; a look-up
//! takes constant time. Proved: what is found is the first that has the name, and where nothing is found
//! nothing has it.
//!
//! # Joins
//!
//! The joins of the journal, of crews and of a plan with a day: names become its numbers.
//!
//! ## The journal
//!
//! The journal's rows, joined: names become numbers of an instance, and numbers of batches those batches.
//!
//! `join_journal` gives for each row its caller and its event, in the order of the rows, or the first row
//! that is refused, with its line and the cause. For a batch that is `Batch`, where it is not the next one
//! or there is none of its number. For a move it is `Unknown`, where it names a leg, an aircraft or a
//! reservation that the day does not have, and else `Move`, where it does not have 1 to 16 steps, or departs too
//! late. Names are found in tables that are made once for the day, so the time is linear in the legs, the
//! aircraft, the reservations, the orders and the rows.
//!
//! Proved: the events, and what is refused, are what the definition in `specs/` says of the rows (`exact`);
//! each event can be asked of the day (`asked`), by a caller that there may be (`callers`).
//!
//! ## Crews
//!
//! The crews that crew.csv gives, for a day.
//!
//!     match join_crew(alloc, &inst, rows.as_slice()) {
//!         Ok(crews) => ..,
//!         Err(ReadFault::Refused { line, cause }) => ..,
//!         Err(ReadFault::Memory) => ..,
//!     }
//!
//! Each row is tried, in its order: `Limit` past the 5,000th row or for more than 64 legs, `Twice` for the name of a crew
//! before it, `Unknown` for an airport or a leg that the day does not have, and `Twice` for a leg that it lists twice. Names are
//! found in tables that are made once for the day, so the time is near linear in the day and the rows.
//!
//! Proved: the crews, or the refusal, are those of the definition in `specs/` (`exact`), and they are crews of the day (`facts`).
//!
//! ## A plan
//!
//! The plan that sol_rotations.csv and sol_itineraries.csv give, for a day.
//!
//!     match read_solution(alloc, &inst, &rotations, &itineraries) {
//!         Ok(plan) => ..,
//!         Err(BuildFault::Refused { file, line, cause }) => ..,
//!         Err(BuildFault::Memory) => ..,
//!     }
//!
//! The grammars of both files come first. Then each line is tried, in its order: `Unknown` where it names
//! what the day does not have, `Limit` for more than 8 legs or a departure that is too late, `Twice` where
//! a line before it is about the same leg, or the same reservation and path. After all lines stand `Missing`
//! where no line is about a leg, and `Count` where the passengers of a reservation are more or fewer, both
//! at line 0. Names are found in tables that are made once for the day, and passengers are kept in the order
//! of their paths as they come, so the time is near linear in the day and the lines.
//!
//! Proved: the plan, or the refusal, is that of the definition `solution_of` in `specs/` (`exact`), and the
//! plan is one for the day (`plan`).
#![tactic(auto)]

mod batches;
mod crew;
mod groups;
mod join;
mod journal;
mod legs;
mod name_tables;
mod names;
mod party;
mod places;
mod rows;
mod solution;
mod stated;
mod steps;

pub use crew_rules::CrewInfo;
pub use desk_build::{BuildFault, Built};
pub use desk_data::{Instance, Plan};
pub use desk_text::{Cause, ReadFault};
pub use file_readers::CrewRow;
pub use join::join_crew;
pub use journal::join_journal;
pub use name_tables::DayNames;
pub use solution::read_solution;
