//! What the input files say, row by row, why a row is refused, and the limits and special bytes of
//! the files.
//!
//! The readers make these rows of text, and the join makes a day of them. So the readers and the join
//! stand side by side, and neither waits for the other's proof.
//!
//! A row has its line, and names as they stand in the file; a field's doc comment gives its range. What
//! each reader says of its rows is a record of `specs/Facts`, as `IsFlight`. `Cause` has the 17 reasons for
//! which a line is refused. The limits, as `MOST_BYTES`, and the special bytes, as `SPACE`, stand once in the
//! code and once in the definitions, and the laws `limits_are_as_defined` and `special_bytes_are_as_defined` compare
//! the two. It depends on `desk_units`.
#![tactic(auto)]

mod bytes;
mod cause;
mod disruptions;
mod fleet;
mod legs;
mod limits;
mod network;
mod passengers;

pub use bytes::{
    CARRIAGE_RETURN, COLON, COMMA, DASH, FIRST_VISIBLE, HASH, LAST_VISIBLE, LINE_FEED, PLUS, POINT,
    SLASH, SPACE, TAB, special_bytes_are_as_defined,
};
pub use cause::Cause;
pub use desk_units::{Cabin, Haul, List, Minute, Name, Price, Seats};
pub use disruptions::AltRow;
pub use fleet::{AircraftRow, MaintRow, PositionGroup, PositionRow};
pub use legs::{FlightRow, RotationRow};
pub use limits::{
    END_OF_TIME, LATEST_DEPARTURE, LATEST_MOMENT, MOST_AIRCRAFT, MOST_AIRPORTS, MOST_BATCHES,
    MOST_BYTES, MOST_DISTANCES, MOST_FLIGHTS, MOST_GROUPS, MOST_ITINERARIES, MOST_JOURNAL_BYTES,
    MOST_LEGS, MOST_ORDERS, MOST_PASSENGERS, MOST_TARIFF_ROWS, limits_are_as_defined,
};
pub use network::{AirportRow, CapRow, DistRow, Window};
pub use passengers::{ItineraryRow, LegRow};
