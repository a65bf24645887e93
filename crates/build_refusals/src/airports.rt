//! Why a row of airports.csv is refused.

ghost use Rattle.std.specs.Prelude.{◌≡◌, take, bytes_eq};
ghost use Rattle.std.specs.List.{list_any};
ghost use Rattle.build_refusals.specs.Airports.{airport_cause};

use crate::before::is_before;
use crate::first::{Check, Lined};
use build_tables::NameTables;
use desk_units::Name;
use file_rows::{AirportRow, Cause, MOST_AIRPORTS};

/// Whether an airport of this name stands before this place.
fn has_airport_before(tables: &NameTables<'_>, name: &Name, place: usize) -> bool
    ensures { result ≡ list_any (λ a. bytes_eq name.now a.airport) (take place tables.now.files.now.airports) }
{
    is_before(tables.airport_place(name), place)
}

impl Lined for AirportRow {
    ghost line_of = { λ row. row.line };

    fn line(&self) -> u32 {
        self.line
    }
}

impl Check<AirportRow> for NameTables<'_> {
    ghost cause_of = { λ tables. airport_cause tables.files.now.airports };

    #[tactic(auto, unfolding(crate::specs::Airports::airport_cause))]
    fn cause(&self, place: usize, row: &AirportRow) -> Option<Cause> {
        if place >= MOST_AIRPORTS {
            Some(Cause::Limit)
        } else if has_airport_before(self, &row.airport, place) {
            Some(Cause::Twice)
        } else {
            None
        }
    }
}
