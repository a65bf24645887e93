//! The reservations of the day.

ghost use Rattle.std.specs.Prelude.{◌≡◌, map, IfOk};
ghost use Rattle.build_tables.specs.Names.{leg_place, leg_places};
ghost use Rattle.build_tables.specs.Fitting.{AreFew};
ghost use Rattle.desk_build.specs.Day.{path_leg, res_info};

use crate::legs::leg_in;
use build_tables::{NameTables, cut_legs};
use desk_data::{Path, ResInfo};
use desk_units::{Cabin, Leg, List, NoMem};
use file_rows::{ItineraryRow, LegRow};
use std::alloc::Global;

/// A leg of a path, whose rotation stands at this place, with the cabin that is booked.
fn path_leg(tables: &NameTables<'_>, leg: &LegRow, place: Option<usize>) -> (Leg, Cabin)
    requires few { AreFew tables.now.files.now }
    requires place { place ≡ leg_place tables.now.files.now.rotations leg.now }
    ensures { result ≡ path_leg tables.now.files.now.rotations leg.now }
{
    (leg_in(tables, place), leg.cabin)
}

/// The path of a reservation, in the order of its line, given the places of the rotations of its legs.
fn path(
    alloc: Global,
    tables: &NameTables<'_>,
    row: &ItineraryRow,
    places: &[Option<usize>],
) -> Result<Path, NoMem>
    requires few { AreFew tables.now.files.now }
    requires places { places.now ≡ leg_places tables.now.files.now.rotations row.now }
    ensures { IfOk result (λ path. path ≡ map (path_leg tables.now.files.now.rotations) row.now.legs) }
{
    let rows = row.legs.as_slice();
    let mut legs = Vec::with_capacity(alloc, rows.len())?;
    for (k, leg) in rows.iter().enumerate() {
        legs.push(path_leg(tables, leg, places[k]))?;
    }
    Ok(Path { legs: List(legs) })
}

/// A reservation, given the places of the rotations of its legs.
fn res_info(
    alloc: Global,
    tables: &NameTables<'_>,
    row: &ItineraryRow,
    places: &[Option<usize>],
) -> Result<ResInfo, NoMem>
    requires few { AreFew tables.now.files.now }
    requires places { places.now ≡ leg_places tables.now.files.now.rotations row.now }
    ensures { IfOk result (λ res. res ≡ res_info tables.now.files.now.rotations row.now) }
{
    let path = path(alloc, tables, row, places)?;
    Ok(ResInfo {
        name: row.name,
        inbound: row.inbound,
        price: row.price,
        count: row.count,
        path,
    })
}

/// The reservations, in the order of their lines.
pub(crate) fn reservations(alloc: Global, tables: &NameTables<'_>) -> Result<Vec<ResInfo>, NoMem>
    requires { AreFew tables.now.files.now }
    ensures { IfOk result (λ res. res.items ≡ map (res_info tables.now.files.now.rotations) tables.now.files.now.itineraries) }
{
    let rows = tables.files.itineraries.as_slice();
    let mut reservations = Vec::with_capacity(alloc, rows.len())?;
    let mut rest = tables.leg_places();
    for row in rows {
        let (places, after) = cut_legs(rest, row);
        reservations.push(res_info(alloc, tables, row, places)?)?;
        rest = after;
    }
    Ok(reservations)
}
