//! Two plans of a day.

use desk_data::Instance;
use plan_pages::Pages;

/// Two plans of a day, an earlier and a later one.
#[derive(Drop)]
pub(crate) struct Plans<'a> {
    pub inst: &'a Instance,
    pub earlier: &'a Pages,
    pub later: &'a Pages,
}
