//! What the moves of a unit are made of.

use desk_data::{Leg, Plane};

/// What the moves of a unit are made of.
#[derive(Clone, Copy)]
pub enum LegUnit {
    /// A leg departs at another time.
    Retimed { leg: Leg },
    /// Two aircraft exchange their legs from a moment on.
    Swapped { first: Plane, second: Plane },
    /// Legs from this one on are cancelled.
    Dropped { leg: Leg },
    /// A cancelled leg is flown again by this aircraft.
    Restored { leg: Leg, plane: Plane },
    /// So many legs from this one on, 1 to 4, go to another aircraft.
    Handed { leg: Leg, count: u32, plane: Plane },
}
