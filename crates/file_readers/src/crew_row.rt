//! The rows of crew.csv.

use desk_units::{List, Name};

/// A leg that a crew works.
#[derive(Clone, Copy)]
pub struct CrewLeg {
    /// The flight's name, 1 to 32 bytes.
    pub flight: Name,
    /// The day of the flight, counted from 2000-01-01, which is 0; below 36,525.
    pub day: u32,
}

/// A crew.
#[derive(Drop)]
pub struct CrewRow {
    /// Its line in the file, from 1.
    pub line: u32,
    /// Its name, 1 to 32 bytes.
    pub name: Name,
    /// The airport where its work begins and ends, a name of 1 to 32 bytes.
    pub home: Name,
    /// The longest duty that it may have, in minutes from the first departure to the last arrival: 1 to 10,000.
    pub duty: u32,
    /// The shortest rest between two duties, in minutes: 1 to 10,000.
    pub rest: u32,
    /// The legs that it works, in the order of the line; one leg at least.
    pub legs: List<CrewLeg>,
}
