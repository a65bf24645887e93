//! What a plan says of a leg and of a reservation.

use crate::path::Path;
use desk_units::{Minute, Plane};

/// A plan's row of one leg.
#[derive(Clone, Copy, PartialEq, Eq)]
pub enum Row {
    /// The aircraft that flies the leg, and when it departs: below 52,500,000.
    Flown { plane: Plane, dep: Minute },
    Cancelled,
}

/// Some passengers of a reservation who take the same path.
#[derive(Drop)]
pub struct Group {
    /// How many: at least 1.
    pub count: u32,
    pub path: Path,
}
