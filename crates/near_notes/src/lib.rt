//! What a search notes of a plan: rebookings and units of legs that are not better; and which notes of rebookings hold at a
//! later plan.
//!
//! # Numbers in rows
//!
//! Numbers in rows and columns, most of which are 0.
//!
//!     let mut numbers = NumberRows::zeros(alloc, rows)?;
//!     numbers.put(row, column, 7)?;          // a row takes memory for up to twice its last column that was put
//!     numbers.at(row, column)                // 7
//!     numbers.at(row, column + 1)            // 0
//!
//! Proved: a number that is put stands at its place, and all others stay.
//!
//! # Notes of units of legs
//!
//! What is noted of the units of legs: of which of them it is known why none of their moves is better.
//!
//!     let mut notes = UnitNotes::of(alloc, &inst, &plan)?;      // of a feasible plan, and nothing is known yet
//!     notes.note(unit)?;                                        // of each of its moves it is known why it is not better
//!     notes.note_by_rows(unit)?;                                // rows alone say of each why it is not
//!     if notes.knows(&inst, unit) { .. }                        // none of its moves is better
//!     notes.note_quiet(shard, shards);                          // no move of a shard is better
//!     if notes.is_quiet(shard, shards) { .. }
//!
//! `later_unit_notes` of near_untouched brings them to a later plan.
//!
//! Searches are numbered. A unit is noted with the number of the search that found it out, and an aircraft with that of
//! the last search after which it was touched, and so is a leg that may not be flown again as before. So a unit is known as long
//! as it was found out after each of its aircraft was touched, and nothing is taken out of a table when an aircraft is.
//!
//! Units are noted in one of two tables. Those that are out by rows alone stay out where passengers alone change, as they do by
//! a rebooking; of the others, those that refill no leg hang on fewer passengers than those that refill one.
//!
//! Proved: what is known of a unit is true at the plan of the notes (`AreUnitNotes`), as `near_moves` says it. What holds
//! at a later plan near_untouched says.
//!
//! # Notes of a day
//!
//! What a search noted of the rebookings of a day.
//!
//!     if notes.knows(res, place) { .. }      // no rebooking off that path is better
//!     notes.note(res, place);
//!
//! Notes are of one plan, whose pages they share: how many were aboard its legs, and off which paths no rebooking is
//! better there. They say nothing of any other plan, and of no other day: whoever has notes of an earlier plan has to
//! see first what of them still holds (`later_notes` says it). Beside them a search notes units of legs (`UnitNotes`,
//! and near_untouched for a later plan). near_search keeps both between its calls.
//!
//! Proved: a note that is true of the day stays so. The words of `near_moves` say which moves are better.
//!
//! # Notes at a later plan
//!
//! Notes of an earlier plan, brought to the plan as it stands.
//!
//!     let notes = first_notes(alloc, &inst, &pages, &seats)?;            // nothing is known
//!     let notes = later_notes(alloc, notes, &inst, &pages, &seats)?;     // what still holds at this plan
//!
//! A rebooking that was not better is not better later, where nothing was touched that it hangs on (`near_memory`): so what
//! is noted of a reservation stays where its groups are the same, and no leg that changed its row or lost passengers is on
//! their paths, on the scheduled one, on a stem of it, or may follow a stem on a route. A leg may if it is flown in time
//! and either leaves where the passengers stand, and a leg of the day goes on to where they want to go, or it arrives
//! there, and a leg of the day goes from where they stand to where it leaves. The two plans are compared place by place.
//!
//! Proved: what comes back are notes of the plan as it stands, and each of them is true. The laws for it are those of
//! `near_memory`, and the flights those of near_pax.
#![tactic(auto)]

mod aboard;
mod changes;
mod findings;
mod later;
mod links;
mod notes;
mod notes_of_day;
mod onward;
mod place;
mod rows;
mod untouched;

pub use findings::Findings;
pub use later::{first_notes, later_notes};
pub use near_legs::LegUnit;
pub use notes::{Shard, UnitNotes};
pub use notes_of_day::Notes;
pub use rows::NumberRows;
