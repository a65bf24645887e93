//! The rows of flights.csv and rotations.csv.

use desk_units::Name;

/// A flight of the timetable, with its times on each day that it is flown.
#[derive(Clone, Copy)]
pub struct FlightRow {
    /// The line in its file, from 1.
    pub line: u32,
    /// Its name.
    pub flight: Name,
    /// The airport that it leaves.
    pub origin: Name,
    /// The airport that it goes to.
    pub dest: Name,
    /// The departure, in minutes after the midnight of the flight's date, below 14,400.
    pub dep: u32,
    /// The arrival, in minutes after the same midnight, 1 to 2,880 minutes after the departure.
    pub arr: u32,
    /// Its previous flight, or `None` where the file has `0`.
    pub prev: Option<Name>,
}

/// A flight on one day, with the aircraft that is scheduled to fly it.
#[derive(Clone, Copy)]
pub struct RotationRow {
    /// The line in its file, from 1.
    pub line: u32,
    /// The flight.
    pub flight: Name,
    /// The day, counted from 2000-01-01, which is 0; below 36,525.
    pub day: u32,
    /// The aircraft.
    pub aircraft: Name,
}
