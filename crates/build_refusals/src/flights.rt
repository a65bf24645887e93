//! Why a row of flights.csv is refused.

ghost use Rattle.std.specs.Prelude.{◌≡◌, take, bytes_eq};
ghost use Rattle.std.specs.List.{list_any};
ghost use Rattle.build_refusals.specs.Flights.{flight_cause, has_good_previous};

use crate::before::is_before;
use crate::first::{Check, Lined};
use build_tables::NameTables;
use desk_units::Name;
use file_rows::{Cause, FlightRow, MOST_FLIGHTS};

/// Whether a flight of this name stands before this place.
fn has_flight_before(tables: &NameTables<'_>, name: &Name, place: usize) -> bool
    ensures { result ≡ list_any (λ f. bytes_eq name.now f.flight) (take place tables.now.files.now.flights) }
{
    is_before(tables.flight_place(name), place)
}

/// Whether the previous flight of a flight is in the file and ends where this one starts, or the
/// flight names none.
fn has_good_previous(tables: &NameTables<'_>, row: &FlightRow) -> bool
    ensures { result ≡ has_good_previous tables.now.files.now.flights row.now }
{
    let Some(name) = row.prev else {
        return true;
    };
    match tables.flight(&name) {
        Some(previous) => previous.dest.as_slice() == row.origin.as_slice(),
        None => false,
    }
}

impl Lined for FlightRow {
    ghost line_of = { λ row. row.line };

    fn line(&self) -> u32 {
        self.line
    }
}

impl Check<FlightRow> for NameTables<'_> {
    ghost cause_of = { λ tables. flight_cause tables.files.now.flights };

    #[tactic(auto, unfolding(crate::specs::Flights::flight_cause))]
    fn cause(&self, place: usize, row: &FlightRow) -> Option<Cause> {
        if place >= MOST_FLIGHTS {
            Some(Cause::Limit)
        } else if has_flight_before(self, &row.flight, place) {
            Some(Cause::Twice)
        } else if has_good_previous(self, row) {
            None
        } else {
            Some(Cause::BadPrev)
        }
    }
}
