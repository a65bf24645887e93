//! The moments from which on two aircraft exchange their legs.

ghost use Rattle.std.specs.Prelude.{◌≡◌, ◌<◌, ◌++◌, All, IfOk, OnOk, length, map};
ghost use Rattle.desk_data.specs.Situation.{planes_of};
ghost use Rattle.desk_data.specs.Valid.{IsPlanFor};
ghost use Rattle.desk_rules.specs.Rotations.{dep};
ghost use Rattle.near_moves.specs.LegMoves.{exchange_moments};
ghost use Rattle.near_legs.specs.LegTables.{AreLists};

use crate::tables::LegTables;
use desk_data::{Instance, Leg, NoMem, Plane};
use plan_pages::Pages;
use plan_reads::departure;
use std::alloc::Global;

/// The moments at which a movable leg of one of two aircraft departs, in ascending order, each once: minutes
/// since 2000-01-01, below 52,500,000. Only their legs are read. The only error is out of memory.
pub(crate) fn moments(
    alloc: Global,
    inst: &Instance,
    plan: &Pages,
    tables: &LegTables,
    first: Plane,
    second: Plane,
) -> Result<Vec<u32>, NoMem>
    requires plan { IsPlanFor inst.now plan.now }
    requires lists { AreLists inst.now plan.now tables.now }
    requires first { first.0 < planes_of inst.now }
    requires second { second.0 < planes_of inst.now }
    ensures { IfOk result (λ moments. moments.items ≡ exchange_moments inst.now plan.now first.0 second.0) }
{
    let mut all = Vec::new(alloc);
    add_departures(plan, tables.flown(first), &mut all)?;
    add_departures(plan, tables.flown(second), &mut all)?;
    all.sort()?;
    all.dedup();
    Ok(all)
}

/// Puts the departures of some legs after others.
fn add_departures(plan: &Pages, legs: &[Leg], all: &mut Vec<u32>) -> Result<(), NoMem>
    requires { All (λ leg. leg.0 < length plan.now.rows) legs.now }
    ensures { OnOk result (all.new.items ≡ all.old.items ++ map (λ leg. dep plan.now leg.0) legs.now) }
{
    for leg in legs {
        all.push(departure(plan, *leg))?;
    }
    Ok(())
}
