//! Legs as they stand in the rotations of their aircraft.

use desk_data::{Leg, Minute};

/// A flown leg as it stands in the rotation of its aircraft: by departure, then by leg.
#[derive(Clone, Copy, PartialEq, Eq, PartialOrd, Ord)]
pub struct RotationLeg {
    /// When it departs, in minutes since 2000-01-01.
    pub dep: Minute,
    /// Which leg it is.
    pub leg: Leg,
}
