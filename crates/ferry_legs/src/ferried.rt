//! What is told of a leg that is added.

use added_legs::Added;
use desk_data::Grains;

/// A leg that is added, and what the plan costs with it and with those that were added before it.
#[derive(Clone, Copy, Debug, PartialEq, Eq)]
pub struct Ferried {
    /// The leg.
    pub leg: Added,
    /// The cost with it, in grains.
    pub cost: Grains,
}
