//! The commands that play a story: replay and store.
//!
//! Stories of events: played, or kept on a disk while they are played.
//!
//! # Playing
//!
//! Playing a story: its events are taken one after another, and what came of them is written.
//!
//! `play_events` opens the book of a day, has it answer each event, and writes what came of its history. `run_events` gives
//! the book alone, and `take_event` has a book answer one event more. `play_beside_crews` plays a story beside the crews of
//! its day, of which it keeps a board.
//!
//! Proved: what is written is what that day and these events come to, `played` of desk_tasks: the journal of
//! their history and, where there is one, the rotations and itineraries of its last plan; or a beginning of
//! it, with the call that failed.
//!
//! # Keeping
//!
//! Keeping a story: its events are taken one after another, each answered one is kept in a journal on a disk before the
//! next one is answered, and what came of them is written.
//!
//! `keep_events` opens the journal on the disk and compares what it holds with the events. Where these go on from there, a
//! book answers all of them; the answers that the disk does not have yet are added one by one; and then what came of them is
//! written, with how many entries the disk held first in the report.
//!
//! Proved: whatever moment the disk crashes at, it leaves a beginning of the history, with all that it held; until the
//! comparison has passed no byte is changed but the one that opening sets; and before a file or the report has got a byte, the
//! whole history is on the disk. What is written is what a replay writes (`kept` of desk_tasks). What one run leaves the next one
//! opens, in however many runs (`what_one_run_leaves_the_next_one_opens`, and of files that another program wrote
//! `what_passed_the_comparison_the_next_run_opens`).
#![tactic(auto)]

mod compare;
mod crews;
mod held;
mod journal_laws;
mod keep;
mod play;
mod room;
mod store;
mod take_events;

pub use crews::play_beside_crews;
pub use desk_core::Book;
pub use desk_tasks::Ending;
pub use journal_laws::{
    a_file_says_one_thing_of_a_story, entries_are_those_of_the_events_read,
    what_one_run_leaves_the_next_one_opens, what_passed_the_comparison_the_next_run_opens,
};
pub use keep::keep_events;
pub use play::play_events;
pub use take_events::{run_events, take_event};
