//! What boards are made of: the trait of a board, two boards as one, the items that are broken, and who uses a leg; and the
//! board of the slots.
//!
//! # Items
//!
//! The items that a plan breaks, in the order in which they are reported, kept up to date while it changes.
//!
//! `BrokenItems` has items in the order in which they are reported, so that the first is known without a walk,
//! and takes no memory within its room, so that a change can be taken back.
//!
//! The lemmas in `proofs/` say what a change of one row changes, once for all boards: of a sum or a count
//! over numbers only the term of the row's leg (`SumLaws`), and so over all legs or all reservations of a
//! plan (`RowLaws`); of the items only those whose test changes (`ItemLaws`); and that the first of the items that are kept is the first broken one of a list in order
//! (`FirstLaws`, `MemberLaws`).
//!
//! # Boards
//!
//! What the boards of a plan share: how they change, and how two of them change together.
//!
//!     type All = Both<RotBoard, SlotBoard>;                          // a board again
//!     all.set_row(alloc, &inst, &pages, leg, row, &mut steps)?;      // on both, or on neither
//!     all.back();                                                    // the last change is undone on both
//!     let other = all.copy(alloc)?;                                  // of the same plan, with no past
//!
//! Proved: `Both` is a board where its two parts are boards, for a change that finds no memory too: where
//! the second finds none, the first takes the change back. `back` takes no memory, and a copy is the board
//! of the same plan, with no past.
//!
//! # Users of a leg
//!
//! Which reservations use each leg: whoever changes a leg's row looks at these alone.
//!
//!     let mut users = LegUsers::open(alloc, &inst, &plan)?;   // one walk over the groups
//!     for res in users.users(leg) { .. }                      // ascending, each once
//!     let added = users.add(leg, res)?;                       // before a group takes a path with the leg
//!     users.take(leg, res);                                   // where that is taken back, if it was added
//!     let booked = LegUsers::booked(alloc, &inst)?;           // by the scheduled paths, in place of the groups
//!     let same = users.copy(alloc)?;                          // the lists as they stand, with no walk over groups
//!
//! A reservation uses a leg where a group of it has the leg in its path. More may be kept than use it: a
//! group that leaves a path takes nothing off, so that going back needs no memory, and whoever looks at
//! a leg's reservations asks each of their paths anyway. Who booked a leg never changes.
//!
//! Proved: `open` keeps just those that use a leg, and `booked` those that booked it; `add` and `take` change one reservation of one leg,
//! and nothing else; a copy has the same lists.
//!
//! # The board of the slots
//!
//! The board of the slots: how many legs depart from each airport in each hour, and arrive there, kept
//! while a plan changes place by place.
//!
//!     let mut board = SlotBoard::open(alloc, &inst, &plan)?;          // one walk over the legs
//!     board.set_row(alloc, &inst, &pages, leg, row, &mut steps)?;     // before the pages change
//!     board.least()                                                   // of C10 and C11, with no walk
//!     board.back();                                                   // the last change is undone
//!     let other = board.copy(alloc)?;                                 // of the same plan, with no walk over it
//!
//! A leg counts in the hour in which it departs and in the one in which it arrives: for C10 and C11 where
//! the aircraft that flies it is no surface transport, and for Push where its scheduled aircraft is none.
//! Both are kept side by side, since a change can make them differ. With the counts the board keeps the
//! cap of each slot, and the items of the slots that are overfull, in their order.
//!
//! Proved: `least` is that of the rules from scratch, and what Push asks is what desk_model counts, after
//! any list of changes; `back` gives the board before the last change and takes no memory; after an error
//! the board is that of the plan before; a change of a row reads one row of the plan.
//!
//! No contract says what a change costs: it does not grow with the day, since slots are looked up by their hash.
#![tactic(auto)]

mod board;
mod both;
mod items;
mod key;
mod loads;
mod slot;
mod slot_board;
mod users;

pub use board::Board;
pub use both::Both;
pub use items::BrokenItems;
pub use slot_board::SlotBoard;
pub use users::LegUsers;
