//! The rows of comma files, one a record.
//!
//! A comma file is the records that `csv` reads with its default settings, without a header row and
//! with records of any length; a record's line is its number from 1. `read_records` makes the rows of
//! a file by its `CommaGrammar`, a small trait that takes the fields of a record in their order from
//! `Columns`, as the `Grammar` of desk_text does for text files. What bytes a field may have is the
//! grammar's to ask: `Columns::are_printed` is the test of a whole record, and `is_field` that of a field.
//!
//! Proved: the rows are those that the definition in `specs/` gives of the records of the bytes
//! (`exact`), with the number and the cause of the first refusal, whatever the grammar. It depends on
//! `desk_text`.
#![tactic(auto)]

mod columns;
mod records;
mod rows;

pub use columns::{Columns, is_field};
pub use desk_text::{Cause, MOST_BYTES, ReadFault, RowFault};
pub use rows::{CommaGrammar, read_records};
