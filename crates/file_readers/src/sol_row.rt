//! The rows of the files of a plan.

use desk_units::{List, Minute, Name};
use file_rows::LegRow;

/// The aircraft that flies a leg, and when it departs.
#[derive(Clone, Copy)]
pub struct PlannedFlight {
    /// The aircraft's name, 1 to 32 bytes.
    pub aircraft: Name,
    /// The departure, of the years 2000 to 2099.
    pub dep: Minute,
}

/// A line of sol_rotations.csv: what becomes of a leg.
#[derive(Clone, Copy)]
pub struct PlannedLeg {
    /// Its line in the file, from 1.
    pub line: u32,
    /// The flight's name, 1 to 32 bytes.
    pub flight: Name,
    /// The day of the flight, counted from 2000-01-01, which is 0; below 36,525.
    pub day: u32,
    /// How it is flown, or `None` where it is cancelled.
    pub flown: Option<PlannedFlight>,
}

/// A line of sol_itineraries.csv: passengers of one reservation on one path.
#[derive(Drop)]
pub struct PlannedGroup {
    /// Its line in the file, from 1.
    pub line: u32,
    /// The reservation's name, 1 to 32 bytes.
    pub name: Name,
    /// Whether this is the inbound half of a return trip (`R`), and not an outbound trip (`A`).
    pub inbound: bool,
    /// The passengers: 1 to 1,000.
    pub count: u32,
    /// Their legs, in the order of the line; none where they are not carried.
    pub legs: List<LegRow>,
}
