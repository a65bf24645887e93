//! The moves of a unit.

ghost use Rattle.std.specs.Prelude.{◌≡◌, ◌<◌, ◌++◌, [], ◌∷◌, IfOk, OnOk, map, filter};
ghost use Rattle.std.specs.List.{list_all};
ghost use Rattle.desk_data.specs.Valid.{IsPlanFor};
ghost use Rattle.near_moves.specs.Near.{move_of, row_in_time, step_in_time, unit_moves};
ghost use Rattle.near_legs.specs.Choices.{IsLegUnit, unit_of};
ghost use Rattle.near_legs.specs.LegTables.{AreLists};

use crate::choose::choices;
use crate::steps::steps_of;
use crate::tables::LegTables;
use crate::unit::LegUnit;
use desk_data::{DEPARTURES_END, Instance, List, NoMem, Row};
use plan_moves::{Move, Step};
use plan_pages::Pages;
use std::alloc::Global;

/// The moves of a unit, in their order: one that would depart at minute 52,500,000 or later is left out.
/// The only error is out of memory.
pub(crate) fn moves_of(
    alloc: Global,
    inst: &Instance,
    plan: &Pages,
    tables: &LegTables,
    unit: LegUnit,
) -> Result<Vec<Move>, NoMem>
    requires plan { IsPlanFor inst.now plan.now }
    requires lists { AreLists inst.now plan.now tables.now }
    requires unit { IsLegUnit inst.now plan.now unit }
    ensures { IfOk result (λ moves. moves.items ≡ unit_moves inst.now plan.now (unit_of unit)) }
{
    let choices = choices(alloc, inst, plan, tables, unit)?;
    let mut moves = Vec::new(alloc);
    for choice in &choices {
        let steps = steps_of(alloc, inst, plan, tables, *choice)?;
        add_in_time(steps, &mut moves)?;
    }
    Ok(moves)
}

/// Puts the move of some steps after others, if all departures that they name are before minute
/// 52,500,000.
fn add_in_time(steps: Vec<Step>, moves: &mut Vec<Move>) -> Result<(), NoMem>
    ensures { OnOk result (moves.new.items ≡ moves.old.items ++ map move_of (filter (list_all step_in_time) (steps.items ∷ []))) }
{
    if are_in_time(steps.as_slice()) {
        moves.push(Move { steps: List(steps) })?;
    }
    Ok(())
}

/// Whether the departures that some steps name are before minute 52,500,000.
fn are_in_time(steps: &[Step]) -> bool
    ensures { result ≡ list_all step_in_time steps.now }
{
    steps.iter().all(step_in_time)
}

fn step_in_time(step: &Step) -> bool
    ensures { result ≡ step_in_time step.now }
{
    match step {
        Step::Set { was, new, .. } => row_in_time(was) && row_in_time(new),
        Step::Swap { at, .. } => at.0 < DEPARTURES_END,
        Step::Push { .. } | Step::Rebook { .. } | Step::Tidy | Step::Refill { .. } => true,
    }
}

fn row_in_time(row: &Row) -> bool
    ensures { result ≡ row_in_time row.now }
{
    match row {
        Row::Flown { dep, .. } => dep.0 < DEPARTURES_END,
        Row::Cancelled => true,
    }
}
