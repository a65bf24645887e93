//! The leg of a rotation, and its previous leg.

ghost use Rattle.std.specs.Prelude.{◌≡◌, ◌<◌, length, All, IsSome, IfSome, option_map, unwrap_or};
ghost use Rattle.file_rows.specs.Facts.{IsFlight, IsRotation};
ghost use Rattle.build_tables.specs.Names.{flight_named, aircraft_place};
ghost use Rattle.build_tables.specs.Fitting.{AreFew};
ghost use Rattle.desk_build.specs.Legs.{last_in_time, previous_place, airport_of, leg_number, leg_at, minutes_of, haul_of, leg_by, leg_of};

use build_tables::NameTables;
use desk_data::{DAY, LegInfo};
use desk_units::{Airport, Haul, Leg, Minute, Name, Plane};
use file_rows::{DistRow, FlightRow, RotationRow};

/// The number of an airport: its place, or 0 for an unknown name.
pub(crate) fn airport_of(tables: &NameTables<'_>, name: &Name) -> Airport
    requires { AreFew tables.now.files.now }
    ensures { result ≡ airport_of tables.now.files.now.airports name.now }
{
    airport_in(tables, tables.airport_place(name))
}

/// The number of the airport that stands at this place, or 0 where there is none.
fn airport_in(tables: &NameTables<'_>, place: Option<usize>) -> Airport
    requires few { AreFew tables.now.files.now }
    requires within { IfSome place (λ k. k < length tables.now.files.now.airports) }
    ensures { result.0 ≡ unwrap_or place 0 }
{
    let _rows = tables.files.airports.as_slice();
    Airport(place.unwrap_or(0) as u32)
}

/// The number of the leg of a flight on a day: the place of its rotation, or 0 where there is none.
pub(crate) fn leg_at(tables: &NameTables<'_>, flight: &Name, day: u32) -> Leg
    requires { AreFew tables.now.files.now }
    ensures { result ≡ leg_at tables.now.files.now.rotations flight.now day }
{
    leg_in(tables, tables.rotation_place(flight, day))
}

/// The number of the leg whose rotation stands at this place, or 0 where there is none.
pub(crate) fn leg_in(tables: &NameTables<'_>, place: Option<usize>) -> Leg
    requires few { AreFew tables.now.files.now }
    requires within { IfSome place (λ k. k < length tables.now.files.now.rotations) }
    ensures { result ≡ leg_number (unwrap_or place 0) }
{
    let _rows = tables.files.rotations.as_slice();
    Leg(place.unwrap_or(0) as u32)
}

/// The place of the rotation of a flight that arrives last by this minute, and at most 1,440 minutes
/// before it.
///
/// The last day on which the flight arrives by then is the one that is looked for. If it is not flown
/// on that day, then the day before counts, where it arrives just 1,440 minutes before.
fn last_in_time(tables: &NameTables<'_>, flight: &FlightRow, at: u32) -> Option<usize>
    ensures exact { result ≡ last_in_time flight.now at tables.now.files.now.rotations }
    ensures within { IfSome result (λ place. place < length tables.now.files.now.rotations) }
{
    if at < flight.arr {
        return None;
    }
    let since = at - flight.arr;
    let day = since / DAY;
    let place = tables.rotation_place(&flight.flight, day);
    if place.is_some() || day == 0 || since % DAY != 0 {
        return place;
    }
    tables.rotation_place(&flight.flight, day - 1)
}

/// The place of the previous leg of the flight's leg on a day.
#[tactic(auto, unfolding(crate::specs::Legs::previous_place))]
fn previous_place(tables: &NameTables<'_>, flight: &FlightRow, day: u32) -> Option<usize>
    requires flight { IsFlight flight.now }
    requires day { day < 36525 }
    ensures exact { result ≡ previous_place tables.now.files.now flight.now day }
    ensures within { IfSome result (λ place. place < length tables.now.files.now.rotations) }
{
    let name = flight.prev?;
    let previous = tables.flight(&name)?;
    last_in_time(tables, previous, DAY * day + flight.dep)
}

/// The previous leg of the flight's leg on a day.
fn previous_leg(tables: &NameTables<'_>, flight: &FlightRow, day: u32) -> Option<Leg>
    requires few { AreFew tables.now.files.now }
    requires flight { IsFlight flight.now }
    requires day { day < 36525 }
    ensures { result ≡ option_map leg_number (previous_place tables.now.files.now flight.now day) }
{
    let place = previous_place(tables, flight, day)?;
    Some(Leg(place as u32))
}

/// The number of an aircraft: its place, or 0 for an unknown name.
pub(crate) fn plane_of(tables: &NameTables<'_>, name: &Name) -> Plane
    requires { AreFew tables.now.files.now }
    ensures { result.0 ≡ unwrap_or (aircraft_place tables.now.files.now.aircraft name.now) 0 }
{
    let place = tables.aircraft_place(name).unwrap_or(0);
    Plane(place as u32)
}

/// The minutes of a distance, or 0 where there is none.
fn minutes_of(distance: Option<&DistRow>) -> u32
    ensures { result ≡ minutes_of (option_map (λ row. row.now) distance.entry) }
{
    distance.map_or(0, |row| row.minutes)
}

/// The haul of a distance, domestic where there is none.
fn haul_of(distance: Option<&DistRow>) -> Haul
    ensures { result ≡ haul_of (option_map (λ row. row.now) distance.entry) }
{
    distance.map_or(Haul::D, |row| row.haul)
}

/// The leg of a rotation of this flight.
#[tactic(auto, unfolding(crate::specs::Legs::leg_by))]
fn leg_by(tables: &NameTables<'_>, row: &RotationRow, flight: &FlightRow) -> LegInfo
    requires few { AreFew tables.now.files.now }
    requires row { IsRotation row.now }
    requires flight { IsFlight flight.now }
    ensures { result ≡ leg_by tables.now.files.now row.now flight.now }
{
    let origin = tables.airport_place(&flight.origin);
    let dest = tables.airport_place(&flight.dest);
    let distance = tables.distance_with(&flight.origin, &flight.dest, (origin, dest));
    LegInfo {
        flight: row.flight,
        day: row.day,
        origin: airport_in(tables, origin),
        dest: airport_in(tables, dest),
        sched: Minute(DAY * row.day + flight.dep),
        block: flight.arr - flight.dep,
        distance: minutes_of(distance),
        haul: haul_of(distance),
        plane: plane_of(tables, &row.aircraft),
        prev: previous_leg(tables, flight, row.day),
    }
}

/// The leg of a rotation, whose flight is known.
#[tactic(auto, unfolding(crate::specs::Legs::leg_of))]
pub(crate) fn leg_of(tables: &NameTables<'_>, row: &RotationRow) -> LegInfo
    requires few { AreFew tables.now.files.now }
    requires flights { All IsFlight tables.now.files.now.flights }
    requires row { IsRotation row.now }
    requires known { IsSome (flight_named tables.now.files.now.flights row.now.flight) }
    ensures { result ≡ leg_of tables.now.files.now row.now }
{
    let flight = tables.flight(&row.flight).unwrap();
    leg_by(tables, row, flight)
}
