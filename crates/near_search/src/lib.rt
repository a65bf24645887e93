//! The first move near a plan that makes it feasible and cheaper.
//!
//!     let mut finder = Finder::new();
//!     let found = first_better(alloc, &mut eval, &mut finder, 0, 1)?;   // of all moves near the plan
//!     let found = first_better(alloc, &mut eval, &mut finder, 2, 8)?;   // of shard 2 of 8
//!     let found = first_better_heard(alloc, &mut eval, &mut finder, 0, 1, &mut listener)?;   // and is told of each trial
//!
//! The moves of legs come first (`near_legs`), and then those of passengers (`near_pax`): together they are the
//! shard, which is a law. A move is tried on the evaluator: applied, judged by what the plan then breaks and costs, and taken
//! back. Before that it is asked whether it is known not to be better, which is worth while where that takes less than to try
//! the move, and may always be answered by no.
//!
//! - A run of legs that is handed on in vain (`near_moves`) is passed over before its move is made, and a path that costs a
//!   passenger nothing before the moves off it are made.
//! - By its steps are told: a move whose first step gives legs in vain (`near_moves`); an exchange of the legs of two aircraft,
//!   a leg that is flown again and a run that is cancelled that cost at least as much as they save at most (`near_dear`); and a
//!   move on whose aircraft nobody pays (`near_priced`).
//! - By a draft of its rows (`near_draft`) is told one that costs at least as much more as those pay whom it touches
//!   (`near_priced`), or that breaks a rule of a leg.
//!
//! What is known is a law each. A path off which no rebooking was better is noted in the finder, and passed over by the next
//! search as long as nothing is touched that those hang on (`near_notes`). So is a unit of legs of each of whose moves it is
//! known why it is not better (`near_notes`, and `near_untouched` for a later plan), apart where rows alone say so: each test that
//! rules a move out says why, and a trial does where the plan that the move makes is no cheaper.
//!
//! Proved: what is found is the first of `find` over the shard, as `near_moves` defines it, and it fits; the
//! evaluator stands where it stood, also where memory ran out.
#![tactic(auto)]

mod drafted;
mod drops;
mod exchanges;
mod finder;
mod first;
mod in_vain;
mod laws;
mod left;
mod legs;
mod noted;
mod passengers;
mod restores;
mod rotations;
mod ruled_out;
mod times;
mod trial;
mod units;
mod verdict;

pub use finder::Finder;
pub use first::{first_better, first_better_heard};
pub use laws::{
    a_rebooking_to_a_path_that_costs_no_less_is_not_better,
    moves_of_legs_and_then_of_passengers_are_the_shard,
};
