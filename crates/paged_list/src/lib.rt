//! A list in pages, which copies of it share.
//!
//!     let mut list = PagedList::of(alloc, items)?;          // pages of 16 items each
//!     let before = list.share(alloc)?;                      // copies pointers alone, and stays as it is
//!     let page = list.replace(alloc, 70, item)?;            // makes one new page; all else stays
//!     list.put_back(page);                                  // the list is as before, and no memory was taken
//!
//! No list writes on a page that it has: a change makes a page anew and hands out the one that stood. So what
//! one list does is seen by no other that shares its pages. Plain items (`Copy`) stand on a page one after the
//! other. Whoever has items that own memory shares these, too (`SharedItems`), so that to make a page anew
//! copies no more than pointers.
//!
//! Proved: each call gives what it says of the items, and changes nothing else. It depends on std alone.
#![tactic(auto)]

mod list;
mod shared;

pub use list::{FormerPage, PagedList};
pub use shared::{CopyItems, SharedItems};
