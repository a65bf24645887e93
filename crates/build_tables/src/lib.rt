//! The rows of the input files, and what finds them by the names that they have.
//!
//!     let tables = NameTables::of(alloc, &files)?;
//!     tables.flight(&name)                // the first row of flights.csv of this name
//!     tables.rotation_place(&name, day)   // the place of the first row of this flight and date
//!     tables.distance(&origin, &dest)     // the row of the pair, else that of the opposite direction
//!
//! `Files` has the rows of all input files. The tables are hash maps over the names where they stand in
//! the rows, made in one walk over each file. `specs/Fitting` says which rows fit together, so that a day
//! can be made of them.
//!
//! The legs of reservations, of which a day has the most, are looked for when the tables are made, and
//! `tables.leg_places()` has their places in the order of the lines.
//!
//! Proved: each look-up gives the first row that has the name, or none where there is none. It depends on
//! `file_rows` and `tariff_prices`; `build_refusals` and `desk_build` depend on it, side by side.
#![tactic(auto)]

mod files;
mod legs;
mod pairs;
mod places;
mod rows;
mod tables;

pub use files::Files;
pub use legs::cut_legs;
pub use tables::NameTables;
