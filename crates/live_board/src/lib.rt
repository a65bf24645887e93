//! A live board: one teller publishes what a summary of a history is, and viewers see it without waiting for anybody.
//!
//!     let opened = Opened::new(&book);                                   // what is published is the book's journal
//!     let (mut teller, viewers) = opened.open::<T, J, R>(rt, alloc, 1)?;   // J names the board
//!     teller.tell(&entries)?;                                            // more is published, all at once
//!     viewer.learn(teller.note());                                       // the viewer is told of it
//!     let view = viewer.see();                                           // it waits for nobody
#![tactic(auto)]

mod board;
mod boarded;
mod calls;
mod law;
mod laws;
mod rising;
mod shown;
mod steps;
mod summary;
mod told;
mod watching;

pub use board::{Head, Note, Opened, Teller, Viewer};
pub use boarded::Boarded;
pub use law::{Law, Naming};
pub use laws::a_beginning_of_what_was_told_has_a_beginning_of_the_history;
pub use shown::Shown;
pub use summary::Summary;
pub use told::{Saw, Told};
pub use watching::{see_and_note, watch};
