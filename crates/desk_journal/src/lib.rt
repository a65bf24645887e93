//! Journals: the reader of journal.csv, and the records of a journal on a disk.
//!
//! # Rows and steps
//!
//! The rows of a journal, and the reader of a move's steps from its text.
//!
//! A row has its line, its caller and an event: the batch of a number, or a move, in whose steps legs,
//! aircraft and reservations have their names. The join makes numbers of them. What a reader says of its
//! rows is stated in `specs/Facts`, as `IsJournalRow`.
//!
//!     read_steps(alloc, &form, b"push P1 after F3 01/03/08 tidy")    // a push and a tidy
//!
//! A journal has its lines in one form or another, and names, dates and times that are read more
//! narrowly or less. Its steps are the same in each: so the reader of the lines takes a move's text
//! from its line, and hands it on with its form of tokens, a `TokenForm`.
//!
//! Proved: `read_steps` gives the steps, or the first cause from the left, that the definition in
//! `specs/Steps` gives for the tokens (`exact`), and the ranges that the join relies on (`facts`). The
//! definition counts down from the number of tokens, so that it ends; `steps_are_read_in_turn` says that
//! this leaves nothing out.
//!
//! # Records of a comma file
//!
//! The reader of journal.csv: batches and moves, one a record.
//!
//! journal.csv is a comma file. A record is `CALLER,EVENT,DETAIL`, and perhaps a fourth field, the
//! reply of the run that wrote it, which is passed over unread. The event is `batch`, with the number of
//! a batch as its detail, or `move`, with its steps, in which everything has its name.
//!
//!     0,batch,0
//!     1,move,push P1 after F1 01/03/08 tidy,breaks C5 F2 01/03/08
//!
//! The steps are read by `read_steps`, with names, dates and times as the text files have them. What
//! `journal_text` writes is such a file. Proved: `read_journal` gives the rows, or the first record that
//! is refused with its cause, that the definition in `specs/` gives of the bytes (`exact`), and the rows
//! are as the join relies on (`facts`).
//!
//! # The journal on a disk
//!
//! Each entry is a record of one file.
//!
//!     let (tail, payloads) = open_records(alloc, &mut disk, &inst, batches)?;    // those of the file's records
//!     let tail = append(alloc, &mut disk, tail, &entry, number)?;                // the entry is on the disk
//!
//! A payload spells who asked, and a batch by its number or a move; how records lie in the file, and what a crash
//! may leave, is said by `desk_disk`. Proved: whatever moment the disk
//! crashes at, in a call or between two, the file opens as the records that it had before the call, or with
//! that of the one entry more that the call adds; once `append` has answered Ok each crash leaves that entry;
//! and a file is called damaged exactly where a record is none that may stand there. A record that the journal
//! has no room for is read, and adds no entry. docs/FORMATS.md has the file byte by byte.
#![tactic(auto)]

mod add;
mod checker;
mod journal;
mod journal_tokens;
mod kind;
mod laws;
mod next;
mod parts;
mod payload;
mod reading;
mod records;
mod rows;
mod spelling_laws;
mod steps;
mod tokens;
mod writing;

pub use add::{append, event_payload};
pub use comma_rows::ReadFault;
pub use desk_disk::{AppendFault, OpenFault, Tail};
pub use desk_text::{Cause, RowFault};
pub use desk_units::{Cabin, List, Minute, Name};
pub use journal::read_journal;
pub use laws::{
    a_run_enters_what_finds_room, an_entry_adds_its_payload, payloads_that_may_stand_are_of_events,
    stopped_runs_leave_a_beginning_of_the_history,
};
pub use payload::{StoredEvent, read_payload};
pub use records::open_records;
pub use rows::{JournalRow, NamedEvent, NamedLeg, NamedPath, NamedRes, NamedRow, NamedStep};
pub use spelling_laws::what_is_spelled_is_read;
pub use steps::{read_steps, steps_are_read_in_turn};
pub use tokens::TokenForm;
pub use writing::{batch_payload, move_payload};
