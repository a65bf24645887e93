//! The distances between the airports of the day.

ghost use Rattle.std.specs.Prelude.{◌≡◌, ◌≢◌, ◌<◌, ◌≤◌, length, slice_index_or, IfOk};
ghost use Rattle.std.specs.List.{AllPairs};
ghost use Rattle.file_rows.specs.declared.network.AirportRow.{AirportRow as Row};
ghost use Rattle.desk_build.specs.Day.{minutes_between, distances_from, distances_of};

use build_tables::NameTables;
use desk_units::{List, NoMem};
use file_rows::AirportRow;
use std::alloc::Global;

/// The minutes from one airport to another, by their places: those of the row of the one to the other, else
/// those of the row of the opposite direction.
fn minutes_between(tables: &NameTables<'_>, origin: usize, dest: usize) -> Option<u32>
    requires few { length tables.now.files.now.airports ≤ 500 }
    requires apart { AllPairs (λ a b. a.airport ≢ b.airport) tables.now.files.now.airports }
    requires origin { origin < length tables.now.files.now.airports }
    requires dest { dest < length tables.now.files.now.airports }
    ensures { (a b : Row) → result ≡ minutes_between tables.now.files.now (slice_index_or tables.now.files.now.airports origin a) (slice_index_or tables.now.files.now.airports dest b) }
{
    match tables.distance_at(origin, dest) {
        Some(row) => Some(row.minutes),
        None => None,
    }
}

/// The minutes from an airport to each airport of the day, in the order of their lines.
fn distances_from(
    alloc: Global,
    tables: &NameTables<'_>,
    place: usize,
    origin: &AirportRow,
) -> Result<List<Option<u32>>, NoMem>
    requires few { length tables.now.files.now.airports ≤ 500 }
    requires apart { AllPairs (λ a b. a.airport ≢ b.airport) tables.now.files.now.airports }
    requires place { place < length tables.now.files.now.airports }
    requires origin { origin.now ≡ slice_index_or tables.now.files.now.airports place origin.now }
    ensures { IfOk result (λ row. row ≡ distances_from tables.now.files.now origin.now) }
{
    let airports = tables.files.airports.as_slice();
    let mut row = Vec::with_capacity(alloc, airports.len())?;
    for dest in 0..airports.len() {
        row.push(minutes_between(tables, place, dest))?;
    }
    Ok(List(row))
}

/// The minutes between all airports, by the airport of departure and then by that of arrival.
pub(crate) fn distances(
    alloc: Global,
    tables: &NameTables<'_>,
) -> Result<Vec<List<Option<u32>>>, NoMem>
    requires few { length tables.now.files.now.airports ≤ 500 }
    requires apart { AllPairs (λ a b. a.airport ≢ b.airport) tables.now.files.now.airports }
    ensures { IfOk result (λ rows. rows.items ≡ distances_of tables.now.files.now) }
{
    let airports = tables.files.airports.as_slice();
    let mut rows = Vec::with_capacity(alloc, airports.len())?;
    for (place, origin) in airports.iter().enumerate() {
        let row = distances_from(alloc, tables, place, origin)?;
        rows.push(row)?;
    }
    Ok(rows)
}
