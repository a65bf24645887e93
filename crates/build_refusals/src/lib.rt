//! Which row of the input files is refused first, and why. Each file has a module of its own.
//!
//! `first_refusal(&tables)` gives the file, the line and the cause: the first in the order of the files,
//! then of their lines, then of the causes; or `None` where the rows fit together. docs/FORMATS.md gives
//! the causes of each file. A cause is a test of a row, by the rows before it and by look-ups; the walk to
//! the first row that has one is proved once for all files (`first.rt`).
//!
//! Proved: the answer is `refusal_of` of its `specs/`, and where there is none the rows fit together
//! (`fit`), which is all that `desk_build` asks of them. It depends on `build_tables`, and on `desk_folder`
//! for the names of files.
#![tactic(auto)]

mod aircraft;
mod airports;
mod before;
mod config;
mod dist;
mod feed;
mod first;
mod flights;
mod itineraries;
mod orders;
mod position;
mod refusals;
mod rotations;
mod tariff;

pub use desk_folder::File;
pub use file_rows::Cause;
pub use refusals::first_refusal;
