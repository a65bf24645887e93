//! Why lines of the eight files of a day are refused.

use crate::causes::{CauseRow, DATE, ORIGIN_OR_DEST_LONG, TEXT_BYTE, TIME};
use file_rows::Cause;

pub(crate) const CONFIG: &[CauseRow] = &[
    (Cause::Byte, TEXT_BYTE),
    (
        Cause::Fields,
        "the line has fewer than the four fields DATE TIME DATE TIME.",
    ),
    (Cause::Date, DATE),
    (Cause::Time, TIME),
    (
        Cause::BadWindow,
        "the second DATE TIME, the end of the window, is not later than the first, its start.",
    ),
];

pub(crate) const FLIGHTS: &[CauseRow] = &[
    (Cause::Byte, TEXT_BYTE),
    (
        Cause::Fields,
        "the line has fewer than the six fields FLIGHT ORIGIN DEST DEP ARR PREVIOUS.",
    ),
    (
        Cause::Size,
        "FLIGHT, ORIGIN, DEST or PREVIOUS is longer than 32 bytes, the most that a name may have.",
    ),
    (
        Cause::Time,
        "DEP or ARR is not hour:minutes from 0:00 to 23:59, perhaps with + and one digit for the days; or an ARR with + is not 1 to 2,880 minutes after DEP.",
    ),
    (
        Cause::Limit,
        "the row is past the 20,000 flights that the file may have.",
    ),
    (
        Cause::Twice,
        "a line before has the same FLIGHT; each flight has one line.",
    ),
    (
        Cause::BadPrev,
        "PREVIOUS is neither 0 nor a FLIGHT of this file whose DEST is the ORIGIN of this line.",
    ),
];

pub(crate) const ROTATIONS: &[CauseRow] = &[
    (Cause::Byte, TEXT_BYTE),
    (
        Cause::Fields,
        "the line has fewer than the three fields FLIGHT DATE AIRCRAFT.",
    ),
    (
        Cause::Size,
        "FLIGHT or AIRCRAFT is longer than 32 bytes, the most that a name may have.",
    ),
    (Cause::Date, DATE),
    (
        Cause::Limit,
        "the row is past the 20,000 legs that the file may have, or the leg departs after minute 52,480,000, which is 12/10/2099 10:40.",
    ),
    (
        Cause::Unknown,
        "FLIGHT is not in flights.csv, its ORIGIN or DEST is not in airports.csv, or AIRCRAFT is not in aircraft.csv.",
    ),
    (
        Cause::NoDistance,
        "dist.csv has no row between the ORIGIN and the DEST of FLIGHT, in neither direction.",
    ),
    (
        Cause::Twice,
        "a line before has the same FLIGHT and DATE; each leg has one line.",
    ),
];

pub(crate) const AIRCRAFT: &[CauseRow] = &[
    (Cause::Byte, TEXT_BYTE),
    (
        Cause::Fields,
        "the line has fewer than the ten fields AIRCRAFT MODEL FAMILY SEATS RANGE COST TURN TRANSIT ORIGIN MAINTENANCE.",
    ),
    (
        Cause::Size,
        "AIRCRAFT, MODEL, FAMILY, ORIGIN or the airport of MAINTENANCE is not 1 to 32 bytes, as a name has to be.",
    ),
    (
        Cause::Number,
        "SEATS is not F/B/E, three numbers from 0 to 999; RANGE or the minutes of MAINTENANCE are not 0 to 100,000; COST is not 1 to 9 digits, with or without a point and 1 to 4 digits; or TURN or TRANSIT is not 0 to 2,880.",
    ),
    (
        Cause::Word,
        "MAINTENANCE is neither NULL nor AIRPORT-DATE-TIME-DATE-TIME-MINUTES.",
    ),
    (
        Cause::Date,
        "a DATE of MAINTENANCE is not dd/mm/yy or dd/mm/yyyy, or there is no such day from 01/01/2000 to 31/12/2099.",
    ),
    (
        Cause::Time,
        "a TIME of MAINTENANCE is not hour:minutes from 0:00 to 23:59.",
    ),
    (
        Cause::Limit,
        "the row is past the 1,000 aircraft that the file may have.",
    ),
    (
        Cause::Twice,
        "a line before has the same AIRCRAFT; each aircraft has one line.",
    ),
    (
        Cause::Unknown,
        "ORIGIN or the airport of MAINTENANCE is not in airports.csv.",
    ),
    (
        Cause::BadWindow,
        "the second DATE and TIME of MAINTENANCE, its end, are not later than the first, its start.",
    ),
];

pub(crate) const AIRPORTS: &[CauseRow] = &[
    (Cause::Byte, TEXT_BYTE),
    (
        Cause::Fields,
        "AIRPORT is not followed by one or more whole groups DEPARTURES ARRIVALS FROM TO.",
    ),
    (
        Cause::Size,
        "AIRPORT is longer than 32 bytes, the most that a name may have.",
    ),
    (
        Cause::Number,
        "DEPARTURES or ARRIVALS is not a number from 0 to 100,000.",
    ),
    (
        Cause::Time,
        "FROM or TO is not hour:minutes from 0:00 to 23:59; TO alone may be 24:00.",
    ),
    (
        Cause::Limit,
        "the row is past the 500 airports that the file may have.",
    ),
    (
        Cause::Twice,
        "a line before has the same AIRPORT; each airport has one line.",
    ),
];

pub(crate) const DIST: &[CauseRow] = &[
    (Cause::Byte, TEXT_BYTE),
    (
        Cause::Fields,
        "the line has fewer than the four fields ORIGIN DEST MINUTES TYPE.",
    ),
    (Cause::Size, ORIGIN_OR_DEST_LONG),
    (Cause::Number, "MINUTES is not a number from 0 to 100,000."),
    (
        Cause::Word,
        "TYPE is none of D, C and I: domestic, continental and intercontinental.",
    ),
    (
        Cause::Limit,
        "the row is past the 250,000 rows that the file may have.",
    ),
];

pub(crate) const ITINERARIES: &[CauseRow] = &[
    (Cause::Byte, TEXT_BYTE),
    (
        Cause::Fields,
        "RESERVATION TYPE PRICE COUNT is not followed by one or more whole groups FLIGHT DATE CABIN.",
    ),
    (
        Cause::Size,
        "RESERVATION or a FLIGHT is longer than 32 bytes, the most that a name may have.",
    ),
    (
        Cause::Word,
        "TYPE is neither A, outbound, nor R, inbound; or a CABIN is none of F, B and E.",
    ),
    (
        Cause::Number,
        "PRICE is not 1 to 9 digits, with or without a point and 1 to 4 digits; or COUNT is not a number from 1 to 999,999,999.",
    ),
    (Cause::Date, DATE),
    (
        Cause::Limit,
        "the row is past the 100,000 reservations that the file may have, COUNT is above 1,000, or there are more than 8 groups FLIGHT DATE CABIN.",
    ),
    (
        Cause::Twice,
        "a line before has the same RESERVATION and TYPE; each has one line.",
    ),
    (
        Cause::Unknown,
        "a FLIGHT and DATE are no leg of rotations.csv.",
    ),
];

pub(crate) const POSITION: &[CauseRow] = &[
    (Cause::Byte, TEXT_BYTE),
    (
        Cause::Fields,
        "AIRPORT is not followed by one or more whole groups MODEL SEATS COUNT.",
    ),
    (
        Cause::Size,
        "AIRPORT or a MODEL is longer than 32 bytes, the most that a name may have.",
    ),
    (
        Cause::Number,
        "SEATS is not F/B/E, three numbers from 0 to 999, or COUNT is not a number from 0 to 1,000.",
    ),
    (
        Cause::Limit,
        "the line has the 10,001st group MODEL SEATS COUNT; the file may have 10,000.",
    ),
    (Cause::Unknown, "AIRPORT is not in airports.csv."),
];
