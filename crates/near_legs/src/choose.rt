//! What is chosen for the moves of a unit.

ghost use Rattle.std.specs.Prelude.{◌≡◌, ◌<◌, ◌∷◌, ◌++◌, [], All, IfOk, OnOk, if◌then◌else◌, map, nat_lt};
ghost use Rattle.desk_data.specs.Situation.{legs_of, planes_of};
ghost use Rattle.desk_data.specs.Valid.{IsPlanFor};
ghost use Rattle.near_moves.specs.LegMoves.{droppings, exchanges, restorings, retimings};
ghost use Rattle.near_moves.specs.Near.{unit_steps};
ghost use Rattle.near_legs.specs.Choices.{IsChoice, IsFlownLeg, IsLegUnit, is_back_in_time, later_choice, steps_of, unit_of};
ghost use Rattle.near_legs.specs.LegTables.{AreLists};

use crate::choice::Choice;
use crate::moments::moments;
use crate::runs::{comes_round, run};
use crate::tables::LegTables;
use crate::unit::LegUnit;
use desk_data::{Instance, Leg, Minute, NoMem, Plane};
use plan_pages::Pages;
use plan_reads::departure;
use std::alloc::Global;

/// What is chosen for the moves of a unit, in their order. The only error is out of memory.
pub(crate) fn choices(
    alloc: Global,
    inst: &Instance,
    plan: &Pages,
    tables: &LegTables,
    unit: LegUnit,
) -> Result<Vec<Choice>, NoMem>
    requires plan { IsPlanFor inst.now plan.now }
    requires lists { AreLists inst.now plan.now tables.now }
    requires unit { IsLegUnit inst.now plan.now unit }
    ensures steps { IfOk result (λ all. map (steps_of inst.now plan.now) all.items ≡ unit_steps inst.now plan.now (unit_of unit)) }
    ensures sound { IfOk result (λ all. All (IsChoice inst.now plan.now) all.items) }
{
    match unit {
        LegUnit::Retimed { leg } => departures(alloc, inst, plan, leg),
        LegUnit::Swapped { first, second } => exchanges(alloc, inst, plan, tables, first, second),
        LegUnit::Dropped { leg } => drops(alloc, inst, plan, tables, leg),
        LegUnit::Restored { leg, plane } => restorings(alloc, inst, plan, tables, leg, plane),
        LegUnit::Handed { leg, count, plane } => hand(alloc, leg, count, plane),
    }
}

/// The other departures of a leg.
fn departures(alloc: Global, inst: &Instance, plan: &Pages, leg: Leg) -> Result<Vec<Choice>, NoMem>
    requires plan { IsPlanFor inst.now plan.now }
    requires leg { IsFlownLeg inst.now plan.now leg.0 }
    ensures steps { IfOk result (λ all. map (steps_of inst.now plan.now) all.items ≡ retimings inst.now plan.now leg.0) }
    ensures sound { IfOk result (λ all. All (IsChoice inst.now plan.now) all.items) }
{
    let departs = departure(plan, leg);
    let mut all = earlier(alloc, leg, inst.earliest(leg), departs)?;
    add_later(leg, departs, &mut all)?;
    Ok(all)
}

/// The earliest departure of a leg, where it departs later than that.
fn earlier(alloc: Global, leg: Leg, earliest: Minute, departs: u32) -> Result<Vec<Choice>, NoMem>
    ensures { IfOk result (λ all. all.items ≡ (if nat_lt earliest.0 departs then Choice.Depart leg earliest ∷ [] else [])) }
{
    let mut all = Vec::new(alloc);
    if earliest.0 < departs {
        all.push(Choice::Depart { leg, at: earliest })?;
    }
    Ok(all)
}

/// Puts the later departures of a leg after others.
fn add_later(leg: Leg, departs: u32, all: &mut Vec<Choice>) -> Result<(), NoMem>
    requires { departs < 52500000 }
    ensures { OnOk result (all.new.items ≡ all.old.items ++ map (later_choice leg departs) (15 ∷ 30 ∷ 60 ∷ 120 ∷ 240 ∷ [])) }
{
    for later in [15, 30, 60, 120, 240] {
        all.push(Choice::Depart {
            leg,
            at: Minute(departs + later),
        })?;
    }
    Ok(())
}

/// The moments from which on two aircraft exchange their legs.
fn exchanges(
    alloc: Global,
    inst: &Instance,
    plan: &Pages,
    tables: &LegTables,
    first: Plane,
    second: Plane,
) -> Result<Vec<Choice>, NoMem>
    requires plan { IsPlanFor inst.now plan.now }
    requires lists { AreLists inst.now plan.now tables.now }
    requires first { first.0 < planes_of inst.now }
    requires second { second.0 < planes_of inst.now }
    ensures steps { IfOk result (λ all. map (steps_of inst.now plan.now) all.items ≡ exchanges inst.now plan.now first.0 second.0) }
    ensures sound { IfOk result (λ all. All (IsChoice inst.now plan.now) all.items) }
{
    let moments = moments(alloc, inst, plan, tables, first, second)?;
    let mut all = Vec::new(alloc);
    for at in &moments {
        all.push(Choice::Exchange {
            first,
            second,
            at: Minute(*at),
        })?;
    }
    Ok(all)
}

/// The runs from a leg on that are cancelled, the shorter first.
fn drops(
    alloc: Global,
    inst: &Instance,
    plan: &Pages,
    tables: &LegTables,
    leg: Leg,
) -> Result<Vec<Choice>, NoMem>
    requires lists { AreLists inst.now plan.now tables.now }
    requires leg { IsFlownLeg inst.now plan.now leg.0 }
    ensures steps { IfOk result (λ all. map (steps_of inst.now plan.now) all.items ≡ droppings inst.now plan.now leg.0) }
    ensures sound { IfOk result (λ all. All (IsChoice inst.now plan.now) all.items) }
{
    let legs = run(alloc, inst, plan, tables, leg, 4)?;
    let mut all = Vec::new(alloc);
    for count in [1, 2, 3, 4] {
        if comes_round(inst, plan, tables, leg, legs.as_slice(), count) {
            all.push(Choice::Drop { leg, count })?;
        }
    }
    Ok(all)
}

/// A leg is flown again by an aircraft alone, and then with each leg that leads back in time. Only the legs from
/// its destination to its origin are read.
fn restorings(
    alloc: Global,
    inst: &Instance,
    plan: &Pages,
    tables: &LegTables,
    leg: Leg,
    plane: Plane,
) -> Result<Vec<Choice>, NoMem>
    requires lists { AreLists inst.now plan.now tables.now }
    requires leg { leg.0 < legs_of inst.now }
    requires plane { plane.0 < planes_of inst.now }
    ensures steps { IfOk result (λ all. map (steps_of inst.now plan.now) all.items ≡ restorings inst.now plan.now leg.0 plane.0) }
    ensures sound { IfOk result (λ all. All (IsChoice inst.now plan.now) all.items) }
{
    let mut all = Vec::new(alloc);
    all.push(Choice::Alone { leg, plane })?;
    let _rows = inst.parts();
    let there = inst.leg(leg);
    let backs = tables.cancelled(there.dest, there.origin);
    for back in backs {
        if is_back_in_time(inst, leg, *back) {
            all.push(Choice::Both {
                leg,
                plane,
                back: *back,
            })?;
        }
    }
    Ok(all)
}

/// Whether a leg that leads back from where another arrives is scheduled to depart at most 1,440 minutes after
/// the scheduled arrival of that, and not before it.
fn is_back_in_time(inst: &Instance, leg: Leg, back: Leg) -> bool
    requires leg { leg.0 < legs_of inst.now }
    requires back { back.0 < legs_of inst.now }
    ensures { result ≡ is_back_in_time inst.now leg.0 back.0 }
{
    let there = inst.leg(leg);
    let back = inst.leg(back);
    let arrives = there.sched.0 + there.block;
    arrives <= back.sched.0 && back.sched.0 <= arrives + 1_440
}

/// A run is handed on.
fn hand(alloc: Global, leg: Leg, count: u32, plane: Plane) -> Result<Vec<Choice>, NoMem>
    ensures { IfOk result (λ all. all.items ≡ Choice.Hand leg count plane ∷ []) }
{
    let mut all = Vec::new(alloc);
    all.push(Choice::Hand { leg, count, plane })?;
    Ok(all)
}
