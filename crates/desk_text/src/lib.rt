//! Days, moments and numbers as text; the lines and fields of text files.
//!
//! A text file is lines of fields that are separated by spaces and tabs. A line without fields is
//! passed over, and a line `#` ends the file. `read_rows` makes the rows of a file by its `Grammar`, a
//! small trait that takes the fields of a line in their order; the loop over lines, with the number
//! and the cause of each refusal, is proved once for all files. The values of fields have a call each:
//!
//!     number(b"0064", 0, 64)      // Ok(64); Err(Cause::Number) outside the range
//!     date(b"01/03/08")           // Ok(2982): days since 2000-01-01
//!     price(b"50.5")              // Ok(Price(505_000)): ten-thousandths
//!
//! The calendar is that of `jiff`, and that both count alike is proved. `push_date`, `push_moment` and
//! `push_number` write what the readers read. Proved: each call is its definition by cases on lists of
//! bytes (`specs/`), refusals and their order included. It depends on `file_rows`,
//! for the causes and the limits.
#![tactic(auto)]

mod days;
mod fault;
mod fields;
mod moments;
mod reading;
mod rows;
mod text;
mod texts;
mod values;

pub use days::day_of;
pub use desk_units::{Minute, NoMem};
pub use fault::{ReadFault, RowFault};
pub use fields::Fields;
pub use file_rows::{Cause, MOST_BYTES};
pub use moments::{minute, moment};
pub use reading::{Lines, are_text};
pub use rows::{Grammar, read_rows};
pub use text::lines;
pub use texts::{
    LastDate, cabin_letter, date_text, direction_letter, moment_text, push_all, push_date,
    push_moment, push_number, time_text, two_digits, written_days_read_back,
};
pub use values::{cabin, date, haul, inbound, name, number, price, seats, time, weight};
