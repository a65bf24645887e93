//! The aircraft of the day.

ghost use Rattle.std.specs.Prelude.{◌≡◌, map, IfOk, option_map};
ghost use Rattle.build_tables.specs.Fitting.{AreFew};
ghost use Rattle.desk_build.specs.Day.{maint_info, plane_info};

use crate::legs::airport_of;
use crate::surface::is_surface;
use build_tables::NameTables;
use desk_data::{Maint, PlaneInfo};
use desk_units::NoMem;
use file_rows::{AircraftRow, MaintRow};
use std::alloc::Global;

/// A maintenance.
fn maint_info(tables: &NameTables<'_>, row: &MaintRow) -> Maint
    requires { AreFew tables.now.files.now }
    ensures { result ≡ maint_info tables.now.files.now.airports row.now }
{
    Maint {
        airport: airport_of(tables, &row.airport),
        from: row.from,
        to: row.to,
        minutes: row.minutes,
    }
}

/// The maintenance of an aircraft, where it has one.
fn maint_of(tables: &NameTables<'_>, row: &AircraftRow) -> Option<Maint>
    requires { AreFew tables.now.files.now }
    ensures { result ≡ option_map (maint_info tables.now.files.now.airports) row.now.maint }
{
    let maint = row.maint?;
    Some(maint_info(tables, &maint))
}

/// An aircraft.
#[tactic(auto, unfolding(crate::specs::Day::plane_info))]
fn plane_info(tables: &NameTables<'_>, row: &AircraftRow) -> PlaneInfo
    requires { AreFew tables.now.files.now }
    ensures { result ≡ plane_info tables.now.files.now row.now }
{
    PlaneInfo {
        name: row.name,
        model: row.model,
        family: row.family,
        seats: row.seats,
        range: row.range,
        hourly: row.hourly,
        turnaround: row.turnaround,
        transit: row.transit,
        origin: airport_of(tables, &row.origin),
        maint: maint_of(tables, row),
        surface: is_surface(tables.files.tariff.rows.as_slice(), &row.family),
    }
}

/// The aircraft, in the order of their lines.
pub(crate) fn planes(alloc: Global, tables: &NameTables<'_>) -> Result<Vec<PlaneInfo>, NoMem>
    requires { AreFew tables.now.files.now }
    ensures { IfOk result (λ planes. planes.items ≡ map (plane_info tables.now.files.now) tables.now.files.now.aircraft) }
{
    let rows = tables.files.aircraft.as_slice();
    let planes = rows
        .iter()
        .map(|row| plane_info(tables, row))
        .collect(alloc)?;
    Ok(planes)
}
