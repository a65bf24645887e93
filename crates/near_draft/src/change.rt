//! Another row of one leg.

use desk_data::{Leg, Row};

/// A leg that has another row in a draft: the one that it had before, and the one that it has.
#[derive(Clone, Copy)]
pub struct Change {
    pub leg: Leg,
    pub was: Row,
    pub row: Row,
}
