//! Why a row of aircraft.csv is refused.

ghost use Rattle.std.specs.Prelude.{◌≡◌, take, bytes_eq};
ghost use Rattle.std.specs.List.{list_any};
ghost use Rattle.build_refusals.specs.Aircraft.{aircraft_cause, has_known_maintenance, has_good_window};

use crate::before::is_before;
use crate::first::{Check, Lined};
use build_tables::NameTables;
use desk_units::Name;
use file_rows::{AircraftRow, Cause, MOST_AIRCRAFT, MaintRow};

/// Whether an aircraft of this name stands before this place.
fn has_aircraft_before(tables: &NameTables<'_>, name: &Name, place: usize) -> bool
    ensures { result ≡ list_any (λ a. bytes_eq name.now a.name) (take place tables.now.files.now.aircraft) }
{
    is_before(tables.aircraft_place(name), place)
}

/// Whether the airport of an aircraft's maintenance is known, where it has one.
fn has_known_maintenance(tables: &NameTables<'_>, maint: Option<MaintRow>) -> bool
    ensures { result ≡ has_known_maintenance tables.now.files.now.airports maint }
{
    match maint {
        Some(maint) => tables.airport_place(&maint.airport).is_some(),
        None => true,
    }
}

/// Whether a maintenance ends after its start, where there is one.
fn has_good_window(maint: Option<MaintRow>) -> bool
    ensures { result ≡ has_good_window maint }
{
    maint.is_none_or(|maint| maint.from.0 < maint.to.0)
}

impl Lined for AircraftRow {
    ghost line_of = { λ row. row.line };

    fn line(&self) -> u32 {
        self.line
    }
}

impl Check<AircraftRow> for NameTables<'_> {
    ghost cause_of = { λ tables. aircraft_cause tables.files.now };

    #[tactic(auto, unfolding(crate::specs::Aircraft::aircraft_cause))]
    fn cause(&self, place: usize, row: &AircraftRow) -> Option<Cause> {
        if place >= MOST_AIRCRAFT {
            Some(Cause::Limit)
        } else if has_aircraft_before(self, &row.name, place) {
            Some(Cause::Twice)
        } else if self.airport_place(&row.origin).is_none()
            || !has_known_maintenance(self, row.maint)
        {
            Some(Cause::Unknown)
        } else if has_good_window(row.maint) {
            None
        } else {
            Some(Cause::BadWindow)
        }
    }
}
