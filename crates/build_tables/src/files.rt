//! The rows of the input files.

use desk_units::{List, Tariff};
use file_rows::{
    AircraftRow, AirportRow, AltRow, DistRow, FlightRow, ItineraryRow, PositionRow, RotationRow,
    Window,
};

/// The rows of the input files, each list in the order of its file's lines. A day takes at most as many
/// as each field says; a row past that is refused with `Limit` when the rows are joined.
pub struct Files {
    /// Of config.csv.
    pub config: Window,
    /// Of flights.csv, at most 20,000.
    pub flights: List<FlightRow>,
    /// Of rotations.csv, at most 20,000.
    pub rotations: List<RotationRow>,
    /// Of aircraft.csv, at most 1,000.
    pub aircraft: List<AircraftRow>,
    /// Of airports.csv, at most 500.
    pub airports: List<AirportRow>,
    /// Of dist.csv, at most 250,000.
    pub dist: List<DistRow>,
    /// Of itineraries.csv, at most 100,000.
    pub itineraries: List<ItineraryRow>,
    /// Of position.csv, with at most 10,000 groups in all.
    pub position: List<PositionRow>,
    /// Of alt_flights.csv. The orders of the three alt files and of the feed are at most 100,000 in all.
    pub alt_flights: List<AltRow>,
    /// Of alt_aircraft.csv.
    pub alt_aircraft: List<AltRow>,
    /// Of alt_airports.csv.
    pub alt_airports: List<AltRow>,
    /// Of tariff.csv, at most 1,000 rows.
    pub tariff: Tariff,
    /// Of feed.csv, each with the number of its batch, from 1 to 1,000.
    pub feed: List<(u32, AltRow)>,
}

/// Dropped in one call, so that a function that owns one proves it once, and not part by part.
impl Drop for Files {
    fn drop(self) {
        let Files {
            config: _,
            flights: _,
            rotations: _,
            aircraft: _,
            airports: _,
            dist: _,
            itineraries: _,
            position: _,
            alt_flights: _,
            alt_aircraft: _,
            alt_airports: _,
            tariff: _,
            feed: _,
        } = self;
    }
}
