//! The rows of itineraries.csv.

use desk_units::{Cabin, List, Name, Price};

/// A leg that a reservation's passengers fly.
#[derive(Clone, Copy)]
pub struct LegRow {
    /// The flight's name, 1 to 32 bytes.
    pub flight: Name,
    /// The day of the flight, counted from 2000-01-01, which is 0; below 36,525.
    pub day: u32,
    /// The cabin in which they fly.
    pub cabin: Cabin,
}

/// A reservation.
#[derive(Drop)]
pub struct ItineraryRow {
    /// Its line in the file, from 1.
    pub line: u32,
    /// Its name, 1 to 32 bytes.
    pub name: Name,
    /// Whether this is the inbound half of a return trip (`R`), and not an outbound trip (`A`).
    pub inbound: bool,
    /// The price that each passenger paid, at most 999,999,999.9999.
    pub price: Price,
    /// The passengers: 1 to 999,999,999.
    pub count: u32,
    /// Their legs, in the order of the line; one leg at least.
    pub legs: List<LegRow>,
}
