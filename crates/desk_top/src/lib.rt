//! The top call, and the laws of the files that it reads and writes.
//!
//! # Laws of files
//!
//! What is written is read as it was, and what an input gives may stand in a journal on a disk.
//!
//! ## Tokens and names
//!
//! What written files are made of is read: numbers, dates, times and the names of a day.
//!
//! Three functions say what the laws of written files need. `tokens_read_back`: a number, a date, a time and
//! a name are read as they were written. `names_lead_back`: the name of a row of a day leads back to
//! the row, since no two are named alike. Both have no code: their clauses are the laws. `walk_names`: each
//! name of a day has 1 to 32 bytes. The type of names holds that, but no clause says it of a day's
//! definition, so this call walks over all names, and ends with it.
//!
//! ## Journals
//!
//! A written journal reads back.
//!
//! What `journal_text` writes of a history, `desk_journal` reads, and `file_joins` makes the history's
//! events of: by `written_journals_read_back`, a public function with an empty body, whose contract is the
//! law. On the way stands another: a line is what the crate `csv` writes of its fields.
//!
//! The law asks that each name of the day has 1 to 32 bytes, with which `walk_names` ends.
//!
//! ## Plans
//!
//! A plan that is written is read as it was: what `rotations_text` and `itineraries_text` write, `read_solution` reads.
//!
//! `written_plans_read_back` has no code: its clause is the law. Names have to be plain, since a line that
//! begins with `#` ends a file, and neither file may be longer than a file may be. The law asks that each
//! name of the day has 1 to 32 bytes, with which `walk_names` ends.
//!
//! ## Journals on a disk
//!
//! The events of an accepted input may stand in a journal on a disk.
//!
//! The reader of journal.csv and the join look at each row by itself and at the batch that is due. The law says what
//! follows for the whole history: its batches are those of the day in their order, its moves fit, and its callers are
//! numbers of four bytes; and the day has at most 1,001 batches. So what story_commands says of a story whose events may stand in a journal holds of each
//! story that an input gives. The law is a public function with an empty body.
//!
//! # The top call
//!
//! What the words of the program ask for, over a folder and a sink.
//!
//!     let status = desk_main(rt, alloc, words, &mut folder, &mut out, &FreeGate, &mut disk);
//!
//! answers the status of the program, from 0 to 8. Its contract is what the desk promises of each run of each
//! command: the headline, the cause of each status, and what stands outside after it, clause by clause;
//! docs/PROMISES.md says them in plain words. `desk_main_heard` has the same clauses, and tells a listener how far a recovery
//! has come. The body takes the words apart, names the directories, and has
//! `run_plain` do the command, `run_workers` where it asks for workers, or `run_store` where it asks for a journal on the disk;
//! these put the line that says why a run was
//! not done.
//!
//! Its runs are in `desk_rows`, as files.
#![tactic(auto)]

mod day;
mod desk;
mod journal_law;
mod kept_law;
mod laws;
mod names;
mod plain;
mod plan_law;
mod store;
mod token_law;
mod workers;

pub use desk::{desk_main, desk_main_heard};
pub use desk_words::Command;
pub use journal_law::{lines_are_records, written_journals_read_back};
pub use kept_law::an_accepted_story_can_be_stored;
pub use laws::{what_a_run_accepted_the_next_one_opens, what_a_run_leaves_the_next_one_opens};
pub use names::walk_names;
pub use plain::run_plain;
pub use plan_law::written_plans_read_back;
pub use store::run_store;
pub use token_law::{names_lead_back, tokens_read_back};
pub use workers::run_workers;
