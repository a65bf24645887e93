//! One page of a plan.

use desk_data::{Group, Row};
use paged_list::{FormerPage, SharedItems};

/// A page of a plan as it stood before a change: `Pages::put_back` puts it back. It has the rows of some legs,
/// one after the other, or the groups of some reservations.
#[derive(Drop)]
pub struct Page {
    pub(crate) what: What,
}

/// What stood on a page, and which page it is.
#[derive(Drop)]
pub(crate) enum What {
    Rows(FormerPage<Row>),
    Groups(FormerPage<SharedItems<Group>>),
}
