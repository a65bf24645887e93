//! The rows of alt_flights.csv, alt_aircraft.csv, alt_airports.csv and feed.csv.

ghost use Rattle.std.specs.Prelude.{◌≡◌};
ghost use Rattle.file_rows.specs.Moments.{moment_in};

use desk_units::{Minute, Name};

/// What a row of the files of disruptions says.
#[derive(Clone, Copy)]
pub enum AltRow {
    /// A leg is late, or is not flown.
    Flight {
        /// Its line in the file, from 1.
        line: u32,
        /// The flight's name, of 1 to 32 bytes like each name here.
        flight: Name,
        /// The day of the flight, counted from 2000-01-01, which is 0; below 36,525.
        day: u32,
        /// By how many minutes the leg is late, 0 to 2,880, or `None` where it is not flown.
        delay: Option<u32>,
    },
    /// An aircraft is out of service.
    Aircraft {
        /// Its line in the file, from 1.
        line: u32,
        /// The aircraft's name.
        aircraft: Name,
        /// From when on, before the year 2100.
        from: Minute,
        /// Up to when, before the year 2100.
        to: Minute,
    },
    /// An airport can take less, or more, than it has in airports.csv.
    Field {
        /// Its line in the file, from 1.
        line: u32,
        /// The airport's name.
        airport: Name,
        /// From when on, before the year 2100.
        from: Minute,
        /// Up to when, before the year 2100.
        to: Minute,
        /// Departures per hour, from 0 to 100,000.
        deps: u32,
        /// Arrivals per hour, from 0 to 100,000.
        arrs: u32,
    },
    /// A batch is there, and this row adds no order to it.
    Nothing {
        /// Its line in the file, from 1.
        line: u32,
    },
    /// The moment at which a batch becomes known. It is no order.
    At {
        /// Its line in the file, from 1.
        line: u32,
        /// The moment, before the year 2100.
        at: Minute,
    },
}

impl AltRow {
    /// The moment that the row tells of its batch, where it tells one.
    pub fn moment(&self) -> Option<Minute>
        ensures { result ≡ moment_in self.now }
    {
        match self {
            AltRow::Flight { .. } => None,
            AltRow::Aircraft { .. } => None,
            AltRow::Field { .. } => None,
            AltRow::Nothing { .. } => None,
            AltRow::At { at, .. } => Some(*at),
        }
    }
}
