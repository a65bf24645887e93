//! What is chosen for a move.

use desk_data::{Leg, Minute, Plane};

/// What is chosen for a move.
#[derive(Clone, Copy)]
pub(crate) enum Choice {
    /// The leg departs then.
    Depart {
        leg: Leg,
        at: Minute,
    },
    /// The two aircraft exchange their legs from then on.
    Exchange {
        first: Plane,
        second: Plane,
        at: Minute,
    },
    /// So many legs from this one on are cancelled.
    Drop {
        leg: Leg,
        count: u32,
    },
    /// The aircraft flies the leg.
    Alone {
        leg: Leg,
        plane: Plane,
    },
    /// The aircraft flies the leg, and then another one back.
    Both {
        leg: Leg,
        plane: Plane,
        back: Leg,
    },
    /// The aircraft flies so many legs from this one on.
    Hand {
        leg: Leg,
        count: u32,
        plane: Plane,
    },
}
