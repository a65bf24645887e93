//! The way of an added leg.

use desk_data::{Airport, Plane};

/// The aircraft of an added leg, from where to where it flies, and for how long.
#[derive(Clone, Copy)]
pub(crate) struct Way {
    /// The aircraft, which is no surface transport.
    pub(crate) plane: Plane,
    /// Where it leaves: where the aircraft ends.
    pub(crate) origin: Airport,
    /// Where it arrives.
    pub(crate) dest: Airport,
    /// The minutes that it takes, which are its distance too: at most 100,000.
    pub(crate) minutes: u32,
}
