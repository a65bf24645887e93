//! Where the rotations of the legs of reservations stand, so that each leg is looked for once.

ghost use Rattle.std.specs.Prelude.{◌≡◌, ◌≤◌, ◌++◌, length, take, drop, map, IfOk, OnOk};
ghost use Rattle.std.specs.List.{flat_map};
ghost use Rattle.build_tables.specs.Keys.{on_day};
ghost use Rattle.build_tables.specs.Found.{ArePlacesOf};
ghost use Rattle.build_tables.specs.Names.{leg_place, leg_places};

use crate::files::Files;
use crate::places::{Key, RowPlaces, Spelled};
use desk_units::NoMem;
use file_rows::{ItineraryRow, LegRow};
use std::alloc::Global;

/// The place of the rotation of a leg.
fn leg_place(files: &Files, rotations: &RowPlaces<'_>, leg: &LegRow) -> Option<usize>
    requires { ArePlacesOf (λ row. on_day row.flight row.day) files.now.rotations rotations.now }
    ensures { result ≡ leg_place files.now.rotations leg.now }
{
    rotations.place_of(Key::OnDay(Spelled::of(&leg.flight), leg.day))
}

/// Adds the places of the rotations of these legs.
fn push_legs(
    places: &mut Vec<Option<usize>>,
    files: &Files,
    rotations: &RowPlaces<'_>,
    legs: &[LegRow],
) -> Result<(), NoMem>
    requires { ArePlacesOf (λ row. on_day row.flight row.day) files.now.rotations rotations.now }
    ensures { OnOk result (places.new.items ≡ places.old.items ++ map (leg_place files.now.rotations) legs.now) }
{
    for leg in legs {
        places.push(leg_place(files, rotations, leg))?;
    }
    Ok(())
}

/// The places of the rotations of the legs of all reservations.
pub(crate) fn leg_places(
    alloc: Global,
    files: &Files,
    rotations: &RowPlaces<'_>,
) -> Result<Vec<Option<usize>>, NoMem>
    requires { ArePlacesOf (λ row. on_day row.flight row.day) files.now.rotations rotations.now }
    ensures { IfOk result (λ places. places.items ≡ flat_map (leg_places files.now.rotations) files.now.itineraries) }
{
    let rows = files.itineraries.as_slice();
    let mut places = Vec::with_capacity(alloc, rows.len())?;
    for row in rows {
        push_legs(&mut places, files, rotations, row.legs.as_slice())?;
    }
    Ok(places)
}

/// The places of the legs of a reservation, with which these places begin, and those after them.
pub fn cut_legs<'a>(
    places: &'a [Option<usize>],
    row: &ItineraryRow,
) -> (&'a [Option<usize>], &'a [Option<usize>])
    requires { length row.now.legs ≤ length places.now }
    ensures first { result.0.now ≡ take (length row.now.legs) places.now }
    ensures after { result.1.now ≡ drop (length row.now.legs) places.now }
{
    places.split_at(row.legs.as_slice().len())
}
