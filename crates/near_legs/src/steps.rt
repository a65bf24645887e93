//! The steps of what is chosen.

ghost use Rattle.std.specs.Prelude.{◌≡◌, ◌<◌, None, All, IfOk, length, map};
ghost use Rattle.desk_data.specs.Situation.{legs_of, planes_of};
ghost use Rattle.desk_data.specs.Valid.{IsPlanFor};
ghost use Rattle.near_moves.specs.LegMoves.{back_departure, dropping, exchange, handing, restoring_alone, restoring_both, retiming};
ghost use Rattle.near_moves.specs.MoveParts.{flier};
ghost use Rattle.near_legs.specs.Choices.{IsChoice, IsFlownLeg, run_step, steps_of};
ghost use Rattle.near_legs.specs.LegTables.{AreLists};

use crate::choice::Choice;
use crate::runs::run;
use crate::tables::LegTables;
use desk_data::{Instance, Leg, Minute, NoMem, Plane, Row};
use plan_moves::Step;
use plan_pages::Pages;
use plan_reads::departure;
use std::alloc::Global;

/// The steps of what is chosen. The only error is out of memory.
pub(crate) fn steps_of(
    alloc: Global,
    inst: &Instance,
    plan: &Pages,
    tables: &LegTables,
    choice: Choice,
) -> Result<Vec<Step>, NoMem>
    requires plan { IsPlanFor inst.now plan.now }
    requires lists { AreLists inst.now plan.now tables.now }
    requires choice { IsChoice inst.now plan.now choice }
    ensures { IfOk result (λ steps. steps.items ≡ steps_of inst.now plan.now choice) }
{
    match choice {
        Choice::Depart { leg, at } => retiming(alloc, plan, leg, at),
        Choice::Exchange { first, second, at } => exchange(alloc, first, second, at),
        Choice::Drop { leg, count } => dropping(alloc, inst, plan, tables, leg, count),
        Choice::Alone { leg, plane } => restoring_alone(alloc, inst, leg, plane),
        Choice::Both { leg, plane, back } => restoring_both(alloc, inst, leg, plane, back),
        Choice::Hand { leg, count, plane } => handing(alloc, inst, plan, tables, leg, count, plane),
    }
}

/// A leg departs at another time.
fn retiming(alloc: Global, plan: &Pages, leg: Leg, at: Minute) -> Result<Vec<Step>, NoMem>
    requires { leg.0 < length plan.now.rows }
    ensures { IfOk result (λ steps. steps.items ≡ retiming plan.now leg.0 at.0) }
{
    let was = plan.read_row(leg);
    let plane = flier(was);
    let new = Row::Flown { plane, dep: at };
    let set = Step::Set { leg, was, new };
    let after = Some(leg);
    let steps = vec![in alloc;
        set,
        Step::Push { plane, after },
        Step::Tidy,
        Step::Refill { leg },
    ]?;
    Ok(steps)
}

/// Two aircraft exchange their legs from a moment on.
fn exchange(alloc: Global, first: Plane, second: Plane, at: Minute) -> Result<Vec<Step>, NoMem>
    ensures { IfOk result (λ steps. steps.items ≡ exchange first.0 second.0 at.0) }
{
    let swap = Step::Swap { first, second, at };
    let steps = vec![in alloc; swap, push_all(first), push_all(second), Step::Tidy]?;
    Ok(steps)
}

/// So many legs from a leg on are cancelled.
fn dropping(
    alloc: Global,
    inst: &Instance,
    plan: &Pages,
    tables: &LegTables,
    leg: Leg,
    count: u32,
) -> Result<Vec<Step>, NoMem>
    requires plan { IsPlanFor inst.now plan.now }
    requires lists { AreLists inst.now plan.now tables.now }
    requires leg { IsFlownLeg inst.now plan.now leg.0 }
    ensures { IfOk result (λ steps. steps.items ≡ dropping inst.now plan.now leg.0 count) }
{
    let legs = run(alloc, inst, plan, tables, leg, count)?;
    let mut steps = run_steps(alloc, plan, legs.as_slice(), None)?;
    steps.push(push_all(flier(plan.read_row(leg))))?;
    steps.push(Step::Tidy)?;
    Ok(steps)
}

/// A leg is flown again by an aircraft.
fn restoring_alone(
    alloc: Global,
    inst: &Instance,
    leg: Leg,
    plane: Plane,
) -> Result<Vec<Step>, NoMem>
    requires { leg.0 < legs_of inst.now }
    ensures { IfOk result (λ steps. steps.items ≡ restoring_alone inst.now leg.0 plane.0) }
{
    let set = restoring_step(leg, plane, inst.earliest(leg));
    let after = Some(leg);
    let steps = vec![in alloc;
        set,
        Step::Push { plane, after },
        Step::Tidy,
        Step::Refill { leg },
    ]?;
    Ok(steps)
}

/// A leg is flown again by an aircraft, and one that brings it back.
fn restoring_both(
    alloc: Global,
    inst: &Instance,
    leg: Leg,
    plane: Plane,
    back: Leg,
) -> Result<Vec<Step>, NoMem>
    requires leg { leg.0 < legs_of inst.now }
    requires back { back.0 < legs_of inst.now }
    requires plane { plane.0 < planes_of inst.now }
    ensures { IfOk result (λ steps. steps.items ≡ restoring_both inst.now leg.0 plane.0 back.0) }
{
    let there = restoring_step(leg, plane, inst.earliest(leg));
    let again = restoring_step(back, plane, back_departure(inst, leg, plane, back));
    let steps = vec![in alloc;
        there,
        again,
        push_all(plane),
        Step::Tidy,
        Step::Refill { leg },
        Step::Refill { leg: back },
    ]?;
    Ok(steps)
}

/// When the leg departs that brings an aircraft back: at its earliest departure, or once the aircraft has
/// turned round after the other leg, whichever is later.
fn back_departure(inst: &Instance, leg: Leg, plane: Plane, back: Leg) -> Minute
    requires leg { leg.0 < legs_of inst.now }
    requires back { back.0 < legs_of inst.now }
    requires plane { plane.0 < planes_of inst.now }
    ensures { result.0 ≡ back_departure inst.now leg.0 plane.0 back.0 }
{
    let ready = inst.earliest(leg).0 + inst.leg(leg).block + inst.plane(plane).turnaround;
    Minute(inst.earliest(back).0.max(ready))
}

/// So many legs from a leg on go to another aircraft.
fn handing(
    alloc: Global,
    inst: &Instance,
    plan: &Pages,
    tables: &LegTables,
    leg: Leg,
    count: u32,
    plane: Plane,
) -> Result<Vec<Step>, NoMem>
    requires plan { IsPlanFor inst.now plan.now }
    requires lists { AreLists inst.now plan.now tables.now }
    requires leg { IsFlownLeg inst.now plan.now leg.0 }
    ensures { IfOk result (λ steps. steps.items ≡ handing inst.now plan.now leg.0 count plane.0) }
{
    let legs = run(alloc, inst, plan, tables, leg, count)?;
    let mut steps = run_steps(alloc, plan, legs.as_slice(), Some(plane))?;
    steps.push(push_all(plane))?;
    steps.push(push_all(flier(plan.read_row(leg))))?;
    steps.push(Step::Tidy)?;
    Ok(steps)
}

/// For each leg of a run a step: it is cancelled, or goes to an aircraft.
fn run_steps(
    alloc: Global,
    plan: &Pages,
    legs: &[Leg],
    to: Option<Plane>,
) -> Result<Vec<Step>, NoMem>
    requires { All (λ leg. leg.0 < length plan.now.rows) legs.now }
    ensures { IfOk result (λ steps. steps.items ≡ map (λ leg. run_step plan.now to leg.0) legs.now) }
{
    let mut steps = Vec::new(alloc);
    for leg in legs {
        steps.push(run_step(plan, *leg, to))?;
    }
    Ok(steps)
}

/// A leg is cancelled, or goes to an aircraft at its time.
fn run_step(plan: &Pages, leg: Leg, to: Option<Plane>) -> Step
    requires { leg.0 < length plan.now.rows }
    ensures { result ≡ run_step plan.now to leg.0 }
{
    let was = plan.read_row(leg);
    let new = match to {
        Some(plane) => Row::Flown {
            plane,
            dep: Minute(departure(plan, leg)),
        },
        None => Row::Cancelled,
    };
    Step::Set { leg, was, new }
}

/// A cancelled leg is flown by an aircraft from a moment on.
fn restoring_step(leg: Leg, plane: Plane, dep: Minute) -> Step
    ensures { result ≡ Step.Set leg Row.Cancelled (Row.Flown plane dep) }
{
    Step::Set {
        leg,
        was: Row::Cancelled,
        new: Row::Flown { plane, dep },
    }
}

/// All movable legs of an aircraft are placed anew.
fn push_all(plane: Plane) -> Step
    ensures { result ≡ Step.Push plane None }
{
    Step::Push { plane, after: None }
}

/// The aircraft that flies a row, where one does.
fn flier(row: Row) -> Plane
    ensures { result.0 ≡ flier row }
{
    match row {
        Row::Flown { plane, .. } => plane,
        Row::Cancelled => Plane(0),
    }
}
