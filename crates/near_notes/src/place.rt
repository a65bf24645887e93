//! Where the number of a unit stands.

ghost use Rattle.std.specs.Prelude.{◌≡◌, Some};
ghost use Rattle.near_notes.specs.Places.{at as place_in, handed_place, place};

use near_legs::LegUnit;

/// A place in a table of numbers.
#[derive(Clone, Copy)]
pub(crate) struct Place {
    pub(crate) row: usize,
    pub(crate) column: usize,
}

/// The place of a unit; `None` where it hands on a run of no legs, or of more than 4.
pub(crate) fn place_of(unit: LegUnit) -> Option<Place>
    ensures { result ≡ place unit }
{
    match unit {
        LegUnit::Retimed { leg } => at(8 * leg.0 as usize, 0),
        LegUnit::Swapped { first, second } => at(8 * first.0 as usize + 1, second.0),
        LegUnit::Dropped { leg } => at(8 * leg.0 as usize, 1),
        LegUnit::Restored { leg, plane } => at(8 * leg.0 as usize + 2, plane.0),
        LegUnit::Handed { leg, count, plane } => handed(leg.0, count, plane.0),
    }
}

/// The place of a run of so many legs from a leg on that goes to an aircraft.
fn handed(leg: u32, count: u32, plane: u32) -> Option<Place>
    ensures { result ≡ handed_place leg count plane }
{
    if 1 <= count && count <= 4 {
        at(8 * leg as usize + 3 + count as usize, plane)
    } else {
        None
    }
}

/// The place in a row and a column.
fn at(row: usize, column: u32) -> Option<Place>
    ensures { result ≡ Some (place_in row column) }
{
    Some(Place {
        row,
        column: column as usize,
    })
}
