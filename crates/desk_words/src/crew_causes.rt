//! Why lines of crew.csv are refused.

use crate::causes::{CauseRow, DATE, TEXT_BYTE};
use file_rows::Cause;

pub(crate) const CREW: &[CauseRow] = &[
    (Cause::Byte, TEXT_BYTE),
    (
        Cause::Fields,
        "the line has fewer than the six fields CREW HOME DUTY REST FLIGHT DATE, or the last group FLIGHT DATE is not whole.",
    ),
    (
        Cause::Size,
        "CREW, HOME or a FLIGHT is longer than 32 bytes, the most that a name may have.",
    ),
    (
        Cause::Number,
        "DUTY or REST is not a number from 1 to 10,000.",
    ),
    (Cause::Date, DATE),
    (
        Cause::Limit,
        "the row is past the 5,000 crews that the file may have, or it has more than 64 legs.",
    ),
    (
        Cause::Twice,
        "a line before has the same CREW, or this line has a leg twice; each crew has one line, and in it each of its legs once.",
    ),
    (
        Cause::Unknown,
        "HOME is not in airports.csv, or a FLIGHT and DATE are no leg of rotations.csv.",
    ),
];
