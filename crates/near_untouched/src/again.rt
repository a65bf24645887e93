//! Legs that may be flown again as before.

ghost use Rattle.std.specs.Prelude.{◌≡◌, ◌<◌, ◌≤◌, All, IfOk, IfSome, false, length, true};
ghost use Rattle.desk_data.specs.Situation.{legs_of};
ghost use Rattle.desk_data.specs.Valid.{IsPlanFor};
ghost use Rattle.near_moves.specs.MoveParts.{is_restorable};
ghost use Rattle.near_untouched.specs.Again.{AreAgainTold, AreFree, AreRestorable, IsAgain, IsFree, leads_back};
ghost use Rattle.near_untouched.specs.Legs.{AreLegsTold};
ghost use Rattle.near_untouched.specs.Marks.{AreChanged};

use crate::counts::HALF_MARGIN;
use crate::plans::Plans;
use desk_data::{Instance, Leg, NoMem};
use plan_pages::Pages;
use plan_reads::is_flown;
use std::alloc::Global;

/// The most minutes from the scheduled arrival of a leg to the scheduled departure of one that leads back.
const BACK_WITHIN: u32 = 1_440;

/// Marks of the legs that may not be flown again as before, given the marks of legs, and the legs that have another row: no unit
/// restores them, or they are touched; or a leg leads back from them that has another row, or one that may be flown again and
/// is touched, or too many do. For each leg that may be flown again one walk over the legs with another row, and one over
/// those that may be. The only error is out of memory.
pub(crate) fn touched_again(
    alloc: Global,
    plans: &Plans,
    legs: &[bool],
    changed: &[Leg],
) -> Result<Vec<bool>, NoMem>
    requires earlier { IsPlanFor plans.now.inst.now plans.now.earlier.now }
    requires later { IsPlanFor plans.now.inst.now plans.now.later.now }
    requires legs { AreLegsTold plans.now.inst.now plans.now.earlier.now plans.now.later.now legs.now }
    requires changed { AreChanged plans.now.inst.now plans.now.earlier.now plans.now.later.now changed.now }
    ensures { IfOk result (λ touched. AreAgainTold plans.now.inst.now plans.now.earlier.now plans.now.later.now touched.items) }
{
    let list = restorable_legs(alloc, plans.inst, plans.earlier)?;
    let restorable = list.as_slice();
    let mut touched = Vec::with_capacity(alloc, plans.inst.legs() as usize)?;
    for x in 0..plans.inst.legs() {
        touched.push(is_touched(plans, legs, changed, restorable, Leg(x)))?;
    }
    Ok(touched)
}

/// Whether a leg may not be flown again as before.
fn is_touched(plans: &Plans, legs: &[bool], changed: &[Leg], restorable: &[Leg], leg: Leg) -> bool
    requires earlier { IsPlanFor plans.now.inst.now plans.now.earlier.now }
    requires later { IsPlanFor plans.now.inst.now plans.now.later.now }
    requires legs { AreLegsTold plans.now.inst.now plans.now.earlier.now plans.now.later.now legs.now }
    requires changed { AreChanged plans.now.inst.now plans.now.earlier.now plans.now.later.now changed.now }
    requires restorable { AreRestorable plans.now.inst.now plans.now.earlier.now restorable.now }
    requires leg { leg.0 < legs_of plans.now.inst.now }
    ensures { result ≡ false → IsAgain plans.now.inst.now plans.now.earlier.now plans.now.later.now leg.0 }
{
    let _rows = plans.inst.parts();
    if !is_restorable(plans.inst, plans.earlier, leg) {
        return true;
    }
    if legs[leg.0 as usize] {
        return true;
    }
    if !lead_nowhere(plans.inst, changed, leg) {
        return true;
    }
    match backs_of(plans.inst, legs, restorable, leg) {
        Some(count) => HALF_MARGIN as u32 <= count,
        None => true,
    }
}

/// Whether none of some legs leads back from a leg.
fn lead_nowhere(inst: &Instance, legs: &[Leg], leg: Leg) -> bool
    requires legs { All (λ y. y.0 < legs_of inst.now) legs.now }
    requires leg { leg.0 < legs_of inst.now }
    ensures { result ≡ true → All (λ y. leads_back inst.now leg.0 y.0 ≡ false) legs.now }
{
    for back in legs {
        if leads_back(inst, leg, *back) {
            return false;
        }
    }
    true
}

/// How many of some legs lead back from a leg; `None` where one of these is marked.
fn backs_of(inst: &Instance, marks: &[bool], legs: &[Leg], leg: Leg) -> Option<u32>
    requires marks { length marks.now ≡ legs_of inst.now }
    requires legs { All (λ y. y.0 < legs_of inst.now) legs.now }
    requires few { length legs.now ≤ 20000 }
    requires leg { leg.0 < legs_of inst.now }
    ensures { IfSome result (λ count. AreFree inst.now marks.now leg.0 legs.now count) }
{
    let mut count = 0;
    for back in legs {
        count += back_of(inst, marks, *back, leg)?;
    }
    Some(count)
}

/// 1 where a leg leads back from another, else 0; `None` where it leads back and is marked.
fn back_of(inst: &Instance, marks: &[bool], back: Leg, leg: Leg) -> Option<u32>
    requires marks { length marks.now ≡ legs_of inst.now }
    requires back { back.0 < legs_of inst.now }
    requires leg { leg.0 < legs_of inst.now }
    ensures { IfSome result (λ count. IsFree inst.now marks.now leg.0 back.0 count) }
{
    if !leads_back(inst, leg, back) {
        return Some(0);
    }
    if marks[back.0 as usize] {
        return None;
    }
    Some(1)
}

/// Whether a leg leads back from another: it leaves where that arrives, arrives where that leaves, and is scheduled to
/// depart from its scheduled arrival on, at most 1,440 minutes later.
fn leads_back(inst: &Instance, leg: Leg, back: Leg) -> bool
    requires leg { leg.0 < legs_of inst.now }
    requires back { back.0 < legs_of inst.now }
    ensures { result ≡ leads_back inst.now leg.0 back.0 }
{
    let there = inst.leg(leg);
    let back = inst.leg(back);
    let arrives = there.sched.0 + there.block;
    back.origin.0 == there.dest.0
        && back.dest.0 == there.origin.0
        && (arrives <= back.sched.0 && back.sched.0 <= arrives + BACK_WITHIN)
}

/// The legs that may be flown again in a plan, ascending. The only error is out of memory.
fn restorable_legs(alloc: Global, inst: &Instance, plan: &Pages) -> Result<Vec<Leg>, NoMem>
    requires { IsPlanFor inst.now plan.now }
    ensures { IfOk result (λ legs. AreRestorable inst.now plan.now legs.items) }
{
    let mut legs = Vec::new(alloc);
    for x in 0..inst.legs() {
        if is_restorable(inst, plan, Leg(x)) {
            legs.push(Leg(x))?;
        }
    }
    Ok(legs)
}

/// Whether a leg may be flown again in a plan: it may move, and is cancelled though it is not called off.
fn is_restorable(inst: &Instance, plan: &Pages, leg: Leg) -> bool
    requires plan { IsPlanFor inst.now plan.now }
    requires leg { leg.0 < legs_of inst.now }
    ensures { result ≡ is_restorable inst.now plan.now leg.0 }
{
    if is_flown(plan.read_row(leg)) {
        return false;
    }
    !inst.fixed(leg) && !inst.called_off(leg)
}
