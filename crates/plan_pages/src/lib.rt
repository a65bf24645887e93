//! A plan whose pages can be shared.
//!
//!     let mut pages = Pages::of(alloc, &plan, inst.reservations())?;
//!     let before = pages.share(alloc)?;                      // stays as it is
//!     let page = pages.replace_row(alloc, Leg(0), Row::Cancelled)?;      // all else stays
//!     pages.put_back(page);                                  // the plan is as before
//!     let later = pages.with_plan(alloc, &inst, plan)?;      // shares the pages on which both plans have the same
//!     let plan = pages.to_plan(alloc)?;
//!
//! Contracts see pages as the rows and the groups of a plan, as they see a `Plan`, and give no whole plan
//! out but as a copy. The rows, and the groups of the reservations, stand on pages of 16, and plans that are
//! shared point to the same pages. No page is written on: a change makes one page anew, and hands out the one
//! that stood; where memory runs out, the pages are as before. To put a page back takes no memory.
//!
//! Proved: each call gives what it says of the rows and the groups, and changes nothing else. Proved too: of several
//! plans that share pages, what is done with one leaves the others as they were (`versions`). It depends on
//! `paged_list`, `desk_data` and `plan_reads`, by whose trait pages are read as a plan is; `desk_eval` depends
//! on it.
#![tactic(auto)]

mod changed;
mod page;
mod pages;
mod same;
mod versions;

pub use page::Page;
pub use pages::{Pages, copied_groups};
pub use same::are_same_groups;
pub use versions::{
    a_version_stays_whatever_is_done_with_others, change_groups_of, change_row_of, drop_version,
    put_back_in, share_version,
};
