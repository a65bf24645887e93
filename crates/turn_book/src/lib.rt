//! The lock over the book, and what passes know that were split from one.
//!
//! # The lock
//!
//! The lock over the book: threads call one book in turns, and what each knows adds up to one history.
//!
//!     let (turn, mut pass) = Turn::open(alloc, book)?;       // the book goes in, and a pass comes out
//!     let mut other = turn.split(&mut pass);                 // one for another thread
//!     let reply = turn.call(rt, alloc, &mut other, 1, &ask)?;    // one `serve` of the book, under the turn
//!     let items = turn.look(rt, alloc, &mut pass, 0)?;       // what the book's journal has by now
//!     turn.join(&mut pass, other);                           // the other thread is done
//!     let book = turn.close(pass);                           // and the book comes back
//!
//! It depends on `atomic_table`, and serves any `SharedBook`. A `Pass` stands for what a thread knows:
//! the history that it has seen, the places in it of the entries that its calls added, and which passes were
//! split from it. Proved: a call's reply is one of the book at a history that begins with all that its pass
//! had seen, and its entry is the next one; each history is legal, and of two passes of a turn one has seen
//! a beginning of what the other has; and the closed book has the journal that it was opened with and then
//! the entry of each call, once. Nobody promises that a call that waits for the turn gets it (docs/TURN.md).
//!
//! # Passes that are split and joined
//!
//! What passes know that were split from one and joined into it again.
//!
//! The definitions are in `specs/SplitPasses`: a pass from which so many were split, one after another, and one into which some
//! first ones of these were joined again, in the same order. The law is a public function with an empty body.
#![tactic(auto)]

mod calls;
mod held;
mod law;
pub mod laws;
mod shared_book;
mod split_laws;
mod turn;
mod view;

pub use desk_units::NoMem;
pub use shared_book::SharedBook;
pub use split_laws::passes_that_are_all_joined_again_leave_nothing_out;
pub use turn::{Pass, Turn};
pub use view::{Tags, View};
