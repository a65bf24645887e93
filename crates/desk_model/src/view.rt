//! The view.

use desk_data::{Broken, Grains};

/// What viewers are shown of a history.
#[derive(Clone, Copy, Debug, PartialEq, Eq)]
pub struct View {
    /// The number of entries, at most 1,000,000.
    pub entries: u32,
    /// How many of them changed the state.
    pub changes: u32,
    /// What the plan costs, or 0 where there is none.
    pub cost: Grains,
    /// The first item that the rows break, where there is no plan.
    pub broken: Option<Broken>,
}
