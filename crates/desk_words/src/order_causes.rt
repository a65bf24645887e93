//! Why lines of the files of orders and of the tariff are refused.

use crate::causes::{
    COMMA_BYTE, CauseRow, DATE, FLIGHT_LONG, LEG_UNKNOWN, ORDER_LIMIT, SPAN, TEXT_BYTE, TIME,
};
use file_rows::Cause;

pub(crate) const ALT_FLIGHTS: &[CauseRow] = &[
    (Cause::Byte, TEXT_BYTE),
    (
        Cause::Fields,
        "the line has fewer than the three fields FLIGHT DATE DELAY.",
    ),
    (Cause::Size, FLIGHT_LONG),
    (Cause::Date, DATE),
    (
        Cause::Number,
        "DELAY is neither -1, for a leg that is called off, nor a number from 0 to 2,880.",
    ),
    (Cause::Limit, ORDER_LIMIT),
    (Cause::Unknown, LEG_UNKNOWN),
];

pub(crate) const ALT_AIRCRAFT: &[CauseRow] = &[
    (Cause::Byte, TEXT_BYTE),
    (
        Cause::Fields,
        "the line has fewer than the five fields AIRCRAFT DATE TIME DATE TIME.",
    ),
    (
        Cause::Size,
        "AIRCRAFT is longer than 32 bytes, the most that a name may have.",
    ),
    (Cause::Date, DATE),
    (Cause::Time, TIME),
    (Cause::Limit, ORDER_LIMIT),
    (Cause::Unknown, "AIRCRAFT is not in aircraft.csv."),
    (Cause::BadWindow, SPAN),
];

pub(crate) const ALT_AIRPORTS: &[CauseRow] = &[
    (Cause::Byte, TEXT_BYTE),
    (
        Cause::Fields,
        "the line has fewer than the seven fields AIRPORT DATE TIME DATE TIME DEPARTURES ARRIVALS.",
    ),
    (
        Cause::Size,
        "AIRPORT is longer than 32 bytes, the most that a name may have.",
    ),
    (Cause::Date, DATE),
    (Cause::Time, TIME),
    (
        Cause::Number,
        "DEPARTURES or ARRIVALS is not a number from 0 to 100,000.",
    ),
    (Cause::Limit, ORDER_LIMIT),
    (Cause::Unknown, "AIRPORT is not in airports.csv."),
    (Cause::BadWindow, SPAN),
];

pub(crate) const TARIFF: &[CauseRow] = &[
    (Cause::Byte, COMMA_BYTE),
    (
        Cause::Word,
        "the first field is none of surface, weight, delay, cancel, downgrade, care, compensation and position; the TERM of a weight is none of operating, delay, cancellation, downgrade, legal and position; H, the haul, is none of D, C and I; K or L, a cabin, is none of F, B and E; or L of a downgrade is no cabin below K.",
    ),
    (
        Cause::Fields,
        "the record has fewer fields than its first one asks for.",
    ),
    (
        Cause::Size,
        "the FAMILY of a surface record is not 1 to 32 bytes, as a name has to be.",
    ),
    (
        Cause::Number,
        "PRICE is not 1 to 9 digits, with or without a point and 1 to 4 digits; W is not 1 to 6 digits, with or without a point and 1 to 3 digits; or T is neither none nor a number from 1 to 10,000.",
    ),
    (
        Cause::Limit,
        "the record is past the 1,000 that the file may have.",
    ),
    (
        Cause::Twice,
        "a record before says the same: of a surface its FAMILY, of a weight its TERM, of the others all fields but PRICE.",
    ),
];

pub(crate) const FEED: &[CauseRow] = &[
    (Cause::Byte, COMMA_BYTE),
    (
        Cause::Fields,
        "the second field is missing, or the record has more or fewer fields than its word asks for.",
    ),
    (
        Cause::Word,
        "the second field is none of flight, aircraft, airport, at and none.",
    ),
    (
        Cause::Number,
        "BATCH is not a number from 1 to 999,999,999; DELAY is neither -1 nor a number from 0 to 2,880; or DEPARTURES or ARRIVALS is not a number from 0 to 100,000.",
    ),
    (
        Cause::Size,
        "FLIGHT, AIRCRAFT or AIRPORT is not 1 to 32 bytes, as a name has to be.",
    ),
    (Cause::Date, DATE),
    (Cause::Time, TIME),
    (
        Cause::Batch,
        "BATCH is not 1 in the first record, or neither that of the record before nor one more, or above 1,000; or an at record is not the first of its BATCH.",
    ),
    (
        Cause::Limit,
        "this is the 100,001st order; alt_flights.csv, alt_aircraft.csv, alt_airports.csv and feed.csv may have 100,000 in all; or the DATE and TIME of an at record are after minute 52,480,000, which is 12/10/2099 10:40.",
    ),
    (
        Cause::Unknown,
        "FLIGHT and DATE are no leg of rotations.csv, AIRCRAFT is not in aircraft.csv, or AIRPORT is not in airports.csv.",
    ),
    (
        Cause::BadWindow,
        "the second DATE and TIME, the end of the span, are not later than the first, its start; or the DATE and TIME of an at record are earlier than the moment of the batch before, or than the start of the window.",
    ),
];
