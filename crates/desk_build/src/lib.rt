//! The join: the rows of the input files become an instance, in which names are numbers.
//!
//! # The day and its batches
//!
//! The day of the rows of the input files, in which names are numbers.
//!
//! `day_of(alloc, &tables)` makes the `Instance` of rows that fit together: airports, aircraft, legs and
//! reservations become numbers, by their places in their files; a leg gets the distance and the haul of its
//! two airports, its moments from its flight and date, and its previous leg; two airports get the distance
//! between them. A file of `src/` is a part of the day. `batches_of(alloc, &tables)` makes the batches of the alt
//! files and of the feed, with their orders, and with the moments that the feed tells. The time is linear in the
//! rows and in the pairs of airports.
//!
//! Proved: the day is that of the definition in `specs/Day`, row for row, and its parts are in range, so that
//! it can be made; the batches are those of the definition in `specs/Batches`, and the day can take each.
//!
//! # The join of all files
//!
//!     match build(alloc, &files) {
//!         Ok(built) => ..,                                       // built.inst, built.batches
//!         Err(BuildFault::Refused { file, line, cause }) => ..,
//!         Err(BuildFault::Memory) => ..,
//!     }
//!
//! It asks `build_refusals` for the first row that is refused, and where there is none it makes the
//! day of the rows and the batches of orders that may reach it. Proved: the answer is the day and the batches,
//! or the refusal, of the definition `built_of` (`exact`); a new day is the one before any batch (`fresh`), the batches
//! are at most 1,001 (`few`), and the day can take each (`batches`).
#![tactic(auto)]

mod airports;
mod batches;
mod day;
mod distances;
mod fault;
mod joining;
mod legs;
mod planes;
mod positions;
mod reservations;
mod surface;

pub use batches::batches_of;
pub use build_tables::Files;
pub use day::day_of;
pub use desk_data::{Batch, Instance};
pub use desk_folder::File;
pub use fault::BuildFault;
pub use file_rows::Cause;
pub use joining::{Built, build};
