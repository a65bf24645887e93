//! The aircraft that should stand at the airports at the day's end.

ghost use Rattle.std.specs.Prelude.{◌≡◌, ◌++◌, map, IfOk, OnOk};
ghost use Rattle.std.specs.List.{flat_map};
ghost use Rattle.build_tables.specs.Fitting.{AreFew};
ghost use Rattle.desk_build.specs.Day.{position_info, positions_of};

use crate::legs::airport_of;
use build_tables::NameTables;
use desk_data::PositionInfo;
use desk_units::{Airport, NoMem};
use file_rows::PositionGroup;
use std::alloc::Global;

/// The aircraft of a group that should stand at an airport.
fn position_info(airport: Airport, group: &PositionGroup) -> PositionInfo
    ensures { result ≡ position_info airport group.now }
{
    PositionInfo {
        airport,
        model: group.model,
        seats: group.seats,
        count: group.count,
    }
}

/// Adds those of the groups of a line.
fn push_groups(
    positions: &mut Vec<PositionInfo>,
    airport: Airport,
    groups: &[PositionGroup],
) -> Result<(), NoMem>
    ensures { OnOk result (positions.new.items ≡ positions.old.items ++ map (position_info airport) groups.now) }
{
    for group in groups {
        positions.push(position_info(airport, group))?;
    }
    Ok(())
}

/// The positions, one for each group, in the order of the lines and of the groups in a line.
pub(crate) fn positions(alloc: Global, tables: &NameTables<'_>) -> Result<Vec<PositionInfo>, NoMem>
    requires { AreFew tables.now.files.now }
    ensures { IfOk result (λ positions. positions.items ≡ flat_map (positions_of tables.now.files.now.airports) tables.now.files.now.position) }
{
    let rows = tables.files.position.as_slice();
    let mut positions = Vec::new(alloc);
    for row in rows {
        let airport = airport_of(tables, &row.airport);
        push_groups(&mut positions, airport, row.groups.as_slice())?;
    }
    Ok(positions)
}
