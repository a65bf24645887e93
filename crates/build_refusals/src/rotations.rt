//! Why a row of rotations.csv is refused.

ghost use Rattle.std.specs.Prelude.{◌≡◌, ◌&&◌, ◌==◌, is_some, take, nat_lt, bytes_eq};
ghost use Rattle.std.specs.List.{list_any};
ghost use Rattle.build_tables.specs.Departures.{departure_on};
ghost use Rattle.file_rows.specs.Limits.{latest_departure};
ghost use Rattle.build_tables.specs.Names.{distance_between};
ghost use Rattle.build_refusals.specs.Rotations.{rotation_cause, has_airports};

use crate::before::is_before;
use crate::first::{Check, Lined};
use build_tables::NameTables;
use desk_units::Name;
use file_rows::{Cause, FlightRow, LATEST_DEPARTURE, MOST_FLIGHTS, RotationRow};

/// Whether a flight departs too late on a day.
fn departs_late(flight: &FlightRow, day: u32) -> bool
    ensures { result ≡ nat_lt latest_departure (departure_on flight.now day) }
{
    let dep = flight.dep;
    1_440 * u64::from(day) + u64::from(dep) > LATEST_DEPARTURE
}

/// Whether the airports of a flight are known.
fn has_airports(tables: &NameTables<'_>, flight: &FlightRow) -> bool
    ensures { result ≡ has_airports tables.now.files.now.airports flight.now }
{
    tables.airport_place(&flight.origin).is_some() && tables.airport_place(&flight.dest).is_some()
}

/// Whether there is a distance between the airports of a flight.
fn has_distance(tables: &NameTables<'_>, flight: &FlightRow) -> bool
    ensures { result ≡ is_some (distance_between tables.now.files.now.dist flight.now.origin flight.now.dest) }
{
    tables.distance(&flight.origin, &flight.dest).is_some()
}

/// Whether a rotation of this flight on this day stands before this place.
fn has_rotation_before(tables: &NameTables<'_>, flight: &Name, day: u32, place: usize) -> bool
    ensures { result ≡ list_any (λ row. bytes_eq flight.now row.flight && (day == row.day)) (take place tables.now.files.now.rotations) }
{
    is_before(tables.rotation_place(flight, day), place)
}

impl Lined for RotationRow {
    ghost line_of = { λ row. row.line };

    fn line(&self) -> u32 {
        self.line
    }
}

impl Check<RotationRow> for NameTables<'_> {
    ghost cause_of = { λ tables. rotation_cause tables.files.now };

    #[tactic(auto, unfolding(crate::specs::Rotations::rotation_cause))]
    fn cause(&self, place: usize, row: &RotationRow) -> Option<Cause> {
        let flight = self.flight(&row.flight);
        if place >= MOST_FLIGHTS || flight.is_some_and(|flight| departs_late(flight, row.day)) {
            return Some(Cause::Limit);
        }
        let Some(flight) = flight else {
            return Some(Cause::Unknown);
        };
        if !has_airports(self, flight) || self.aircraft_place(&row.aircraft).is_none() {
            Some(Cause::Unknown)
        } else if !has_distance(self, flight) {
            Some(Cause::NoDistance)
        } else if has_rotation_before(self, &row.flight, row.day, place) {
            Some(Cause::Twice)
        } else {
            None
        }
    }
}
