//! A set that is kept in order, and takes no memory within its room.
//!
//!     let mut set = KeptSet::new(alloc);
//!     set.reserve(2)?;                       // the only call that takes memory
//!     set.put(7);
//!     set.put(3);
//!     set.first()                            // Some(3)
//!     set.replace(3, 5);                     // it stands between its neighbours still, so nothing moves
//!     set.toggle(7);                         // it goes where it is in, and else comes
//!     set.take(5);
//!     let same = set.copy(alloc)?;           // the items as they stand
//!
//! The items stand in one vector in their order: to look one up takes a few comparisons, and to put one in
//! or to take one out moves those after it. Whoever has to be able to put back what was taken out keeps
//! room for it.
//!
//! Proved: the items ascend and none stands twice; and where items that compare alike are one, what is put
//! in where there is room is in, what is taken out is out, and all others stay; and that one item is put in the
//! place of another exactly where that was in and the place is the new one's too. It depends on std alone.
#![tactic(auto)]

mod set;

pub use set::{KeptSet, NextItem};
