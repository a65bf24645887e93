//! The legs that a crew works in a plan, sorted.

ghost use Rattle.std.specs.Prelude.{◌≡◌, ◌<◌, ◌++◌, [], IfOk, IfSome, OnOk, All, length};
ghost use Rattle.std.specs.List.{cons_option};
ghost use Rattle.desk_data.specs.PlanRows.{IsRow};
ghost use Rattle.desk_data.specs.Situation.{legs_of};
ghost use Rattle.crew_rules.specs.Crews.{row_of, worked_leg, flown_among, worked};
ghost use Rattle.crew_rules.specs.Valid.{IsCrew};
ghost use Rattle.crew_duty.specs.Faults.{ArrivesInTime};

use crew_rules::{CrewInfo, WorkedLeg};
use desk_data::{Instance, Leg, Minute, NoMem, Row};
use std::alloc::Global;

/// The row of a leg.
fn row_of(rows: &[Row], leg: Leg) -> Row
    requires leg { leg.0 < length rows.now }
    requires rows { All IsRow rows.now }
    ensures row { result ≡ row_of rows.now leg.0 }
    ensures sound { IsRow result }
{
    rows[leg.0 as usize]
}

/// A leg as its row has it flown; `None` where it is cancelled.
fn worked_leg(inst: &Instance, leg: Leg, row: Row) -> Option<WorkedLeg>
    requires leg { leg.0 < legs_of inst.now }
    requires row { IsRow row }
    ensures exact { result ≡ worked_leg inst.now.parts leg.0 row }
    ensures time { IfSome result ArrivesInTime }
{
    match row {
        Row::Flown { plane: _, dep } => {
            let info = inst.leg(leg);
            Some(WorkedLeg {
                dep,
                leg,
                arr: Minute(dep.0 + info.block),
                origin: info.origin,
                dest: info.dest,
            })
        }
        Row::Cancelled => None,
    }
}

/// Puts a leg after others, where it is flown.
#[tactic(auto, using(crate::proofs::SortLaws::time_more))]
fn push_worked(flown: &mut Vec<WorkedLeg>, worked: Option<WorkedLeg>) -> Result<(), NoMem>
    requires time { IfSome worked ArrivesInTime }
    requires flown { All ArrivesInTime flown.old.items }
    ensures exact { OnOk result (flown.new.items ≡ flown.old.items ++ cons_option worked []) }
    ensures time { OnOk result (All ArrivesInTime flown.new.items) }
{
    if let Some(leg) = worked {
        flown.push(leg)?;
    }
    Ok(())
}

/// The legs of a crew that are flown, as they are listed.
#[tactic(auto, using(crate::proofs::SortLaws::flown_step, crate::proofs::SortLaws::flown_all))]
fn flown_legs(
    alloc: Global,
    inst: &Instance,
    rows: &[Row],
    legs: &[Leg],
) -> Result<Vec<WorkedLeg>, NoMem>
    requires legs { All (λ leg. leg.0 < legs_of inst.now) legs.now }
    requires count { length rows.now ≡ legs_of inst.now }
    requires rows { All IsRow rows.now }
    ensures exact { IfOk result (λ flown. flown.items ≡ flown_among inst.now.parts rows.now legs.now) }
    ensures time { IfOk result (λ flown. All ArrivesInTime flown.items) }
{
    let mut flown = Vec::with_capacity(alloc, legs.len())?;
    for leg in legs {
        let row = row_of(rows, *leg);
        let worked = worked_leg(inst, *leg, row);
        push_worked(&mut flown, worked)?;
    }
    Ok(flown)
}

/// The legs that a crew works by the rows of a plan, in their order. The only error is out of memory.
pub(crate) fn worked_legs(
    alloc: Global,
    inst: &Instance,
    rows: &[Row],
    crew: &CrewInfo,
) -> Result<Vec<WorkedLeg>, NoMem>
    requires crew { IsCrew inst.now.parts crew.now }
    requires count { length rows.now ≡ legs_of inst.now }
    requires rows { All IsRow rows.now }
    ensures exact { IfOk result (λ legs. legs.items ≡ worked inst.now.parts rows.now crew.now) }
    ensures time { IfOk result (λ legs. All ArrivesInTime legs.items) }
{
    let mut legs = flown_legs(alloc, inst, rows, crew.legs.as_slice())?;
    legs.sort()?;
    Ok(legs)
}
