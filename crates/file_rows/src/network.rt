//! The rows of config.csv, airports.csv and dist.csv.

use desk_units::{Haul, List, Minute, Name};

/// The window in which the day is recovered.
#[derive(Clone, Copy)]
pub struct Window {
    /// The moment from which legs may be moved.
    pub from: Minute,
    /// The moment by which all is back to the schedule.
    pub to: Minute,
    /// The line that it was read from, counted from 1.
    pub line: u32,
}

/// The caps of an airport for part of the day.
#[derive(Clone, Copy)]
pub struct CapRow {
    /// Departures per hour, from 0 to 100,000.
    pub deps: u32,
    /// Arrivals per hour, from 0 to 100,000.
    pub arrs: u32,
    /// The minute of the day from which they hold, below 1,440.
    pub from: u32,
    /// The minute of the day up to which they hold, itself not included: as it is written, `24:00`
    /// being 1,440.
    pub to: u32,
}

/// An airport and its caps.
#[derive(Drop)]
pub struct AirportRow {
    /// The line that it was read from, counted from 1.
    pub line: u32,
    /// The airport's name, 1 to 32 bytes.
    pub airport: Name,
    /// Its caps, in the order of the line; one group at least.
    pub groups: List<CapRow>,
}

/// The distance between two airports.
#[derive(Clone, Copy)]
pub struct DistRow {
    /// The line that it was read from, counted from 1.
    pub line: u32,
    /// The one airport's name, 1 to 32 bytes.
    pub origin: Name,
    /// The other airport's name, 1 to 32 bytes.
    pub dest: Name,
    /// The distance in minutes of flight, from 0 to 100,000.
    pub minutes: u32,
    /// The haul of legs between the two.
    pub haul: Haul,
}
