//! Legs that follow one another on an aircraft.

ghost use Rattle.std.specs.Prelude.{◌≡◌, ◌<◌, ◌≤◌, All, IfOk, map, not};
ghost use Rattle.std.specs.List.{list_all};
ghost use Rattle.desk_data.specs.Situation.{fixed, legs_of};
ghost use Rattle.desk_data.specs.Valid.{IsPlanFor};
ghost use Rattle.near_moves.specs.LegMoves.{comes_round};
ghost use Rattle.near_moves.specs.MoveParts.{is_run, run};
ghost use Rattle.near_legs.specs.Choices.{IsFlownLeg};
ghost use Rattle.near_legs.specs.LegTables.{AreLists};

use crate::tables::LegTables;
use desk_data::{Instance, Leg, NoMem};
use plan_pages::Pages;
use std::alloc::Global;

/// So many legs from a leg on, or as many as there are. The only error is out of memory.
pub(crate) fn run(
    alloc: Global,
    inst: &Instance,
    plan: &Pages,
    tables: &LegTables,
    leg: Leg,
    count: u32,
) -> Result<Vec<Leg>, NoMem>
    requires lists { AreLists inst.now plan.now tables.now }
    requires leg { IsFlownLeg inst.now plan.now leg.0 }
    ensures legs { IfOk result (λ legs. map (λ l. l.0) legs.items ≡ run inst.now plan.now leg.0 count) }
    ensures within { IfOk result (λ legs. All (λ l. l.0 < legs_of inst.now) legs.items) }
{
    let mut legs = Vec::new(alloc);
    let mut next = Some(leg);
    for _ in 0..count {
        match next {
            Some(leg) => {
                legs.push(leg)?;
                next = tables.after(leg);
            }
            None => return Ok(legs),
        }
    }
    Ok(legs)
}

/// Whether there are so many legs, up to 4, from a leg on and all are movable. Of the legs from it the first
/// 4 are given.
pub(crate) fn is_run(inst: &Instance, plan: &Pages, leg: Leg, legs: &[Leg], count: u32) -> bool
    requires legs { map (λ l. l.0) legs.now ≡ run inst.now plan.now leg.0 4 }
    requires within { All (λ l. l.0 < legs_of inst.now) legs.now }
    requires most { count ≤ 4 }
    ensures { result ≡ is_run inst.now plan.now leg.0 count }
{
    count as usize <= legs.len() && are_movable(inst, &legs[..count as usize])
}

/// Whether all of some legs are movable.
fn are_movable(inst: &Instance, legs: &[Leg]) -> bool
    requires { All (λ l. l.0 < legs_of inst.now) legs.now }
    ensures { result ≡ list_all (λ l. not (fixed inst.now l.0)) legs.now }
{
    legs.iter().all(|leg| !inst.fixed(*leg))
}

/// Whether so many legs, 1 to 4, from a leg on are a run after which the aircraft is where the leg leaves, or
/// flies no other leg. Of the legs from it the first 4 are given.
pub(crate) fn comes_round(
    inst: &Instance,
    plan: &Pages,
    tables: &LegTables,
    leg: Leg,
    legs: &[Leg],
    count: u32,
) -> bool
    requires lists { AreLists inst.now plan.now tables.now }
    requires leg { IsFlownLeg inst.now plan.now leg.0 }
    requires legs { map (λ l. l.0) legs.now ≡ run inst.now plan.now leg.0 4 }
    requires within { All (λ l. l.0 < legs_of inst.now) legs.now }
    requires some { 1 ≤ count }
    requires most { count ≤ 4 }
    ensures { result ≡ comes_round inst.now plan.now leg.0 count }
{
    if !is_run(inst, plan, leg, legs, count) {
        return false;
    }
    let last = legs[count as usize - 1];
    inst.leg(last).dest.0 == inst.leg(leg).origin.0 || tables.after(last).is_none()
}
