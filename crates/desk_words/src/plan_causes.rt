//! Why lines of the journal and of the files of a plan are refused.

use crate::causes::{CauseRow, DATE, TEXT_BYTE, TIME};
use file_rows::Cause;

pub(crate) const JOURNAL: &[CauseRow] = &[
    (
        Cause::Byte,
        "there is a byte that none of the first three fields may have: each is one from the space to ~.",
    ),
    (
        Cause::Fields,
        "the record has neither 3 nor 4 fields, or the words of its move run out.",
    ),
    (
        Cause::Number,
        "CALLER is not a number from 0 to 64, the NUMBER of a batch not 0 to 1,000, the COUNT of a rebook not 1 to 1,000, or the number of legs of a PATH not 0 to 8.",
    ),
    (
        Cause::Word,
        "the second field is neither batch nor move; a step begins with none of set, push, swap, rebook, tidy and refill; a row begins with neither - nor +; a push says neither all nor after; a TYPE is neither A nor R; or a CABIN is none of F, B and E.",
    ),
    (
        Cause::Size,
        "a FLIGHT, an AIRCRAFT or a RESERVATION is longer than 32 bytes, the most that a name may have.",
    ),
    (Cause::Date, DATE),
    (Cause::Time, TIME),
    (
        Cause::Unknown,
        "a FLIGHT and DATE are no leg of rotations.csv, an AIRCRAFT is not in aircraft.csv, or a RESERVATION with its TYPE is not in itineraries.csv.",
    ),
    (
        Cause::Move,
        "the move has no step, or more than 16; or a departure or the moment of a swap is 26/10/2099 08:00 or later.",
    ),
    (
        Cause::Batch,
        "the NUMBER of the batch is not 0 at first, not one more than that of the batch before, or not in feed.csv.",
    ),
];

pub(crate) const SOL_ROTATIONS: &[CauseRow] = &[
    (Cause::Byte, TEXT_BYTE),
    (
        Cause::Fields,
        "the line has neither the three fields FLIGHT DATE cancelled nor at least the five FLIGHT DATE AIRCRAFT DATE TIME.",
    ),
    (
        Cause::Word,
        "the line has three fields, and the third is not the word cancelled.",
    ),
    (
        Cause::Size,
        "FLIGHT or AIRCRAFT is longer than 32 bytes, the most that a name may have.",
    ),
    (Cause::Date, DATE),
    (Cause::Time, TIME),
    (
        Cause::Unknown,
        "FLIGHT and the first DATE are no leg of rotations.csv, or AIRCRAFT is not in aircraft.csv.",
    ),
    (
        Cause::Limit,
        "the departure, the second DATE and TIME, is 26/10/2099 08:00 or later.",
    ),
    (
        Cause::Twice,
        "a line before is about the same leg; each leg has one line.",
    ),
];

pub(crate) const SOL_ITINERARIES: &[CauseRow] = &[
    (Cause::Byte, TEXT_BYTE),
    (
        Cause::Fields,
        "the line has fewer than the three fields RESERVATION TYPE COUNT, or the last group FLIGHT DATE CABIN is not whole.",
    ),
    (
        Cause::Size,
        "RESERVATION or a FLIGHT is longer than 32 bytes, the most that a name may have.",
    ),
    (
        Cause::Word,
        "TYPE is neither A nor R, or a CABIN is none of F, B and E.",
    ),
    (Cause::Number, "COUNT is not a number from 1 to 1,000."),
    (Cause::Date, DATE),
    (
        Cause::Unknown,
        "RESERVATION with this TYPE is not in itineraries.csv, or a FLIGHT and DATE are no leg of rotations.csv.",
    ),
    (Cause::Limit, "the path has more than 8 legs."),
    (
        Cause::Twice,
        "a line before has the same reservation and path; each path has one line.",
    ),
];
