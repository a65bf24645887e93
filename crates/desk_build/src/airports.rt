//! The airports of the day.

ghost use Rattle.std.specs.Prelude.{◌≡◌, map, IfOk};
ghost use Rattle.desk_build.specs.Day.{cap_info, airport_info};

use desk_data::{AirportInfo, Cap};
use desk_units::{List, NoMem};
use file_rows::{AirportRow, CapRow};
use std::alloc::Global;

/// The caps of part of the day.
fn cap_info(cap: &CapRow) -> Cap
    ensures { result ≡ cap_info cap.now }
{
    Cap {
        deps: cap.deps,
        arrs: cap.arrs,
        from: cap.from,
        to: cap.to,
    }
}

/// The caps of an airport, in the order of its line.
fn caps(alloc: Global, rows: &[CapRow]) -> Result<Vec<Cap>, NoMem>
    ensures { IfOk result (λ caps. caps.items ≡ map cap_info rows.now) }
{
    let caps = rows.iter().map(|cap| cap_info(cap)).collect(alloc)?;
    Ok(caps)
}

/// An airport.
fn airport_info(alloc: Global, row: &AirportRow) -> Result<AirportInfo, NoMem>
    ensures { IfOk result (λ airport. airport ≡ airport_info row.now) }
{
    let caps = caps(alloc, row.groups.as_slice())?;
    Ok(AirportInfo {
        name: row.airport,
        caps: List(caps),
    })
}

/// The airports, in the order of their lines.
pub(crate) fn airports(alloc: Global, rows: &[AirportRow]) -> Result<Vec<AirportInfo>, NoMem>
    ensures { IfOk result (λ airports. airports.items ≡ map airport_info rows.now) }
{
    let mut airports = Vec::with_capacity(alloc, rows.len())?;
    for row in rows {
        airports.push(airport_info(alloc, row)?)?;
    }
    Ok(airports)
}
