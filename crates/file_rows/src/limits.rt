//! How many bytes and rows the files may have, and what else in them has a limit.

ghost use Rattle.std.specs.Prelude.{◌≡◌};
ghost use Rattle.file_rows.specs.Limits.{most_bytes, most_journal_bytes, most_flights, most_aircraft, most_airports, most_distances, most_itineraries, most_passengers, most_legs, most_groups, most_tariff_rows, most_batches, most_orders, latest_departure, latest_moment, end_of_time};

/// The most bytes of a text file: 64 MiB.
pub const MOST_BYTES: usize = 67_108_864;

/// The most bytes of journal.csv: 256 MiB.
pub const MOST_JOURNAL_BYTES: usize = 268_435_456;

/// The most rows of flights.csv, and of rotations.csv.
pub const MOST_FLIGHTS: usize = 20_000;

/// The most rows of aircraft.csv.
pub const MOST_AIRCRAFT: usize = 1_000;

/// The most rows of airports.csv.
pub const MOST_AIRPORTS: usize = 500;

/// The most rows of dist.csv.
pub const MOST_DISTANCES: usize = 250_000;

/// The most rows of itineraries.csv.
pub const MOST_ITINERARIES: usize = 100_000;

/// The most passengers of a reservation.
pub const MOST_PASSENGERS: u32 = 1_000;

/// The most legs of a reservation.
pub const MOST_LEGS: usize = 8;

/// The most groups of position.csv, over all its rows.
pub const MOST_GROUPS: usize = 10_000;

/// The most rows of tariff.csv.
pub const MOST_TARIFF_ROWS: usize = 1_000;

/// The most batches of feed.csv.
pub const MOST_BATCHES: u32 = 1_000;

/// The most orders of alt_flights.csv, alt_aircraft.csv, alt_airports.csv and feed.csv together.
pub const MOST_ORDERS: usize = 100_000;

/// The latest departure that a schedule may have, in minutes from the start of 2000.
pub const LATEST_DEPARTURE: u64 = 52_480_000;

/// The latest moment at which a batch may become known, in minutes from the start of 2000.
pub const LATEST_MOMENT: u32 = 52_480_000;

/// The moment before which each departure of a plan is, in minutes from the start of 2000.
pub const END_OF_TIME: u32 = 52_500_000;

/// The limits of the code are those of the definitions.
pub fn limits_are_as_defined()
    ensures bytes { MOST_BYTES ≡ most_bytes }
    ensures journal_bytes { MOST_JOURNAL_BYTES ≡ most_journal_bytes }
    ensures flights { MOST_FLIGHTS ≡ most_flights }
    ensures aircraft { MOST_AIRCRAFT ≡ most_aircraft }
    ensures airports { MOST_AIRPORTS ≡ most_airports }
    ensures distances { MOST_DISTANCES ≡ most_distances }
    ensures itineraries { MOST_ITINERARIES ≡ most_itineraries }
    ensures passengers { MOST_PASSENGERS ≡ most_passengers }
    ensures legs { MOST_LEGS ≡ most_legs }
    ensures groups { MOST_GROUPS ≡ most_groups }
    ensures tariff_rows { MOST_TARIFF_ROWS ≡ most_tariff_rows }
    ensures batches { MOST_BATCHES ≡ most_batches }
    ensures orders { MOST_ORDERS ≡ most_orders }
    ensures latest { LATEST_DEPARTURE ≡ latest_departure }
    ensures moment { LATEST_MOMENT ≡ latest_moment }
    ensures end { END_OF_TIME ≡ end_of_time }
{}
