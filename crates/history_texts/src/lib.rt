//! The texts of a book's history, and the writing of them.
//!
//! `write_history` makes the texts of the rotations and itineraries of the last plan, of the journal and of the
//! report, and then writes them in their order; `write_with` puts other lines in the report besides, `write_watched` what
//! a viewer saw, `write_opened` how many entries a disk held first in it, and `report_history` makes the report and writes that alone. All texts are made before the
//! first is written.
//!
//! Proved: what is written is the `history_outcome` of desk_tasks of the book's journal, or a beginning of it,
//! with the call that failed.
#![tactic(auto)]

mod texts;
mod write_texts;

pub use desk_core::Book;
pub use desk_model::View;
pub use desk_tasks::{Ending, SearchEnd};
pub use write_texts::{report_history, write_history, write_opened, write_watched, write_with};
