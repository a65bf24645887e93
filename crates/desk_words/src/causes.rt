//! What each cause of each file means: one table, a part for each file. docs/REFUSALS.md shows it, and
//! `bench/help.py` compares the two.

ghost use Rattle.std.specs.Prelude.{◌≡◌, bytes_eq, find, option_map};
ghost use Rattle.file_rows.specs.Causes.{cause_name};

use crate::crew_causes::CREW;
use crate::day_causes::{
    AIRCRAFT, AIRPORTS, CONFIG, DIST, FLIGHTS, ITINERARIES, POSITION, ROTATIONS,
};
use crate::order_causes::{ALT_AIRCRAFT, ALT_AIRPORTS, ALT_FLIGHTS, FEED, TARIFF};
use crate::plan_causes::{JOURNAL, SOL_ITINERARIES, SOL_ROTATIONS};
use desk_folder::File;
use file_rows::Cause;

/// A cause and the end of a sentence that begins with the place: what is wrong there, which columns it can
/// be, and what they may have.
pub type CauseRow = (Cause, &'static str);

// What several files have in common.
pub(crate) const TEXT_BYTE: &str =
    "there is a byte that no line may have: each is a space, a tab or one from ! to ~, and a CR stands at the end alone.";

pub(crate) const COMMA_BYTE: &str =
    "there is a byte that no field may have: each is one from the space to ~.";

pub(crate) const DATE: &str =
    "a DATE is not dd/mm/yy or dd/mm/yyyy, or there is no such day from 01/01/2000 to 31/12/2099.";

pub(crate) const TIME: &str = "a TIME is not hour:minutes from 0:00 to 23:59; no + may follow it.";

pub(crate) const SPAN: &str =
    "the second DATE and TIME, the end of the span, are not later than the first, its start.";

pub(crate) const FLIGHT_LONG: &str =
    "FLIGHT is longer than 32 bytes, the most that a name may have.";

pub(crate) const ORIGIN_OR_DEST_LONG: &str =
    "ORIGIN or DEST is longer than 32 bytes, the most that a name may have.";

pub(crate) const LEG_UNKNOWN: &str = "FLIGHT and DATE are no leg of rotations.csv.";

pub(crate) const ORDER_LIMIT: &str =
    "this is the 100,001st order; alt_flights.csv, alt_aircraft.csv, alt_airports.csv and feed.csv may have 100,000 in all.";

const FILE_SIZE: &str = "the file has more than 67,108,864 bytes, the most that it may have.";

// Of a file that no command reads nothing is refused.
const NOT_READ: &[CauseRow] = &[];

// What is wrong with a file as a whole.
const WHOLE_FILE: &[CauseRow] = &[(Cause::Size, FILE_SIZE)];

const WHOLE_CONFIG: &[CauseRow] = &[
    (Cause::Size, FILE_SIZE),
    (
        Cause::Fields,
        "no line has fields; one has to give the window, DATE TIME DATE TIME.",
    ),
];

const WHOLE_JOURNAL: &[CauseRow] = &[(
    Cause::Size,
    "the file has more than 268,435,456 bytes, the most that it may have.",
)];

const WHOLE_SOL_ROTATIONS: &[CauseRow] = &[
    (Cause::Size, FILE_SIZE),
    (
        Cause::Missing,
        "a leg of rotations.csv has no line; each leg has one.",
    ),
];

const WHOLE_SOL_ITINERARIES: &[CauseRow] = &[
    (Cause::Size, FILE_SIZE),
    (
        Cause::Count,
        "the COUNTs of a reservation do not sum to its COUNT in itineraries.csv; each of its passengers is on one path, or in its line without legs.",
    ),
];

/// The causes for which a line of a file is refused.
pub fn causes_of_lines(file: File) -> &'static [CauseRow] {
    match file {
        File::Config => CONFIG,
        File::Flights => FLIGHTS,
        File::Rotations => ROTATIONS,
        File::Aircraft => AIRCRAFT,
        File::Airports => AIRPORTS,
        File::Dist => DIST,
        File::Itineraries => ITINERARIES,
        File::Position => POSITION,
        File::AltFlights => ALT_FLIGHTS,
        File::AltAircraft => ALT_AIRCRAFT,
        File::AltAirports => ALT_AIRPORTS,
        File::Tariff => TARIFF,
        File::Feed => FEED,
        File::Crew => CREW,
        File::Journal => JOURNAL,
        File::SolRotations => SOL_ROTATIONS,
        File::SolItineraries => SOL_ITINERARIES,
        File::SolAdded => NOT_READ,
    }
}

/// The causes for which a file is refused as a whole.
pub fn causes_of_the_whole(file: File) -> &'static [CauseRow] {
    match file {
        File::Config => WHOLE_CONFIG,
        File::Journal => WHOLE_JOURNAL,
        File::SolRotations => WHOLE_SOL_ROTATIONS,
        File::SolItineraries => WHOLE_SOL_ITINERARIES,
        File::SolAdded => NOT_READ,
        _ => WHOLE_FILE,
    }
}

/// The section of docs/FORMATS.md about a file that is read.
pub fn section_of(file: File) -> &'static str {
    match file {
        File::AltFlights | File::AltAircraft | File::AltAirports => {
            "alt_flights.csv, alt_aircraft.csv and alt_airports.csv"
        }
        File::Journal => "journal.csv, as input",
        File::SolRotations | File::SolItineraries => {
            "sol_rotations.csv and sol_itineraries.csv, as input"
        }
        _ => file.name(),
    }
}

// Whether a row is of the cause with this name.
fn is_of(row: &CauseRow, name: &[u8]) -> bool
    ensures { result ≡ bytes_eq (cause_name row.now.0) name.now }
{
    row.0.name().as_bytes() == name
}

/// What the first row says that is of the cause with this name; none where no row is.
pub fn text_of(rows: &[CauseRow], name: &[u8]) -> Option<&'static str>
    ensures { option_map (λ text. text.now) result ≡ option_map (λ row. row.1.now) (find (λ row. bytes_eq (cause_name row.0) name.now) rows.now) }
{
    rows.iter().find(|row| is_of(row, name)).map(|row| row.1)
}
