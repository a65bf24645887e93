//! What a search keeps between its calls.

ghost use Rattle.desk_data.specs.Situation.{Situation};
ghost use Rattle.near_search.specs.Finders.{IsFinderOf};

use near_notes::{Notes, UnitNotes};

/// What a search noted, for the next one. It may be of any plan for the day, and is of no other day.
#[derive(Drop)]
pub struct Finder {
    /// What was noted of rebookings.
    pub notes: Option<Notes>,
    /// What was noted of units of legs.
    pub units: Option<UnitNotes>,
}

impl Finder {
    /// A finder that has not searched yet. It serves any day.
    pub fn new() -> Finder
        ensures { (I : Situation) → IsFinderOf I result }
    {
        Finder {
            notes: None,
            units: None,
        }
    }
}
