//! The commands that recover a day: recover and trial, alone and by a team.
//!
//! Recovering a day: its batches, and the descent of its book after each.
//!
//! # The descent
//!
//! The descent of a book: as long as a move near its plan makes it feasible and cheaper, the first such move is
//! proposed.
//!
//!     let end = descend(alloc, &mut book, 40, 0, &mut Nobody)?;   // at most 40 acceptances since batch 0; nobody listens
//!
//! The search (`near_search`) tries moves on the book's own evaluator and takes them back, so that nothing is
//! copied or judged anew. Caller 0 proposes, and each proposal is accepted. A descent ends where there is no plan,
//! where no move is better, or where the history is spent: so many were accepted since the last batch, or the
//! journal has 900,000 entries. A listener is told how far the book has come.
//!
//! Proved: the journal is `descent` of `near_moves` of the journal before, and how it ended is said exactly;
//! where memory runs out, the journal is that of some first steps of it.
//!
//! # The day
//!
//! Recovering a day: its batches are taken one after another, after each the desk descends, and what came of it is
//! written.
//!
//! `recover_day` opens the book of a day, and for each batch has it taken and then descends, as long as a move
//! near the plan makes it feasible and cheaper and the budget is not spent; then it writes what came of the
//! book's history. `try_day` reports that alone, and writes no file.
//!
//! Proved: what is written is what that day and these batches come to, `recovered` or `tried` of desk_tasks: the
//! journal of the history in which after each batch stands exactly the descent and, where there is one, the
//! rotations and itineraries of its last plan, with how the last search ended; or a beginning of it, with the
//! call that failed.
//!
//! # Recovering by a team
//!
//! A day that a team recovers: the desk has its batches taken, and workers search for a cheaper plan, side by side.
//!
//!     let ending = recover_by_team(rt, alloc, inst, batches, team, folder, out, gate);
//!
//! `in_turn` has a batch taken and then the workers make rounds until they agree, batch after batch; `live` has the first batch
//! taken and the others while the workers make rounds. `search_day` opens the book and the turn for that, `close_day` closes
//! them, and `recover_by_team` writes what came of it. What is new is told after each batch and after each search: to nobody, or to a
//! board, on which a viewer looks meanwhile (`watch_day`), and then what it saw is written too.
//!
//! Proved: the history is one that such a team may make of these batches (`IsTeamWork` of desk_tasks), whichever worker came
//! first, what a viewer saw are views of beginnings of it, the last of the whole, and what is written is what that comes to, or a beginning of it, with the call that failed. That it is the history of the
//! calls that were made is said by `close_day` alone. That a worker runs, or two at a time, is not promised.
#![tactic(auto)]

mod batches;
mod beside;
mod descent;
mod history_laws;
mod in_turn;
mod recover;
mod search_day;
mod searched;
mod step;
mod take_batches;
mod team;
mod watched;

pub use batches::Intake;
pub use descent::descend;
pub use desk_core::Book;
pub use desk_model::View;
pub use desk_tasks::Ending;
pub use history_laws::{
    histories_with_makers_are_made_of_first_better_moves,
    runs_that_made_their_whole_history_are_teamwork,
};
pub use near_moves::SearchEnd;
pub use recover::{recover_day, try_day};
pub use search_day::recover_by_team;
pub use team::Team;
