//! Where the aircraft of a move end.

ghost use Rattle.std.specs.Prelude.{◌≡◌, ◌<◌, ℕ, true, List as Items, [], ◌∷◌, ◌++◌, length, IfOk};
ghost use Rattle.std.specs.List.{list_all};
ghost use Rattle.std.specs.Option.{ForSome};
ghost use Rattle.desk_data.specs.Situation.{legs_of, planes_of};
ghost use Rattle.desk_data.specs.Valid.{IsPlanFor};
ghost use Rattle.desk_rules.specs.Maintenance.{flies};
ghost use Rattle.desk_rules.specs.Rotations.{dep, is_earlier};
ghost use Rattle.plan_reads.specs.AfterLeg.{leg_in};
ghost use Rattle.plan_reads.specs.Last.{IsLastOf};
ghost use Rattle.near_draft.specs.Drafts.{plan_of};
ghost use Rattle.near_draft.specs.Legs.{AreLegsOf, numbers_of};
ghost use Rattle.near_priced.specs.Ends.{ArePlaneEnds, IsPlaneEnd, IsLastAmong, is_change_of, is_of};
ghost use Rattle.near_priced.specs.Tables.{ArePayments};

use crate::payments::Payments;
use desk_data::{Instance, Leg, Minute, NoMem, Plane, Row};
use near_draft::{Change, Draft, legs_of_plane};
use plan_pages::Pages;
use plan_reads::{RotationLeg, departure};
use std::alloc::Global;

/// An aircraft, its last leg before the window's end, if there is one, and the same after a move's first steps.
#[derive(Clone, Copy)]
pub(crate) struct PlaneEnd {
    pub plane: Plane,
    pub was: Option<Leg>,
    pub is: Option<Leg>,
}

/// The aircraft of a move, one or two.
#[derive(Clone, Copy)]
pub(crate) struct PlaneEnds {
    pub one: PlaneEnd,
    pub other: Option<PlaneEnd>,
}

/// Where two aircraft end, which may be one; `None` where a third flies a leg that has a change in the draft, before
/// it or then. The only error is out of memory.
pub(crate) fn ends_of(
    alloc: Global,
    payments: &Payments,
    inst: &Instance,
    plan: &Pages,
    draft: &Draft,
    planes: (Plane, Plane),
) -> Result<Option<PlaneEnds>, NoMem>
    requires plan { IsPlanFor inst.now plan.now }
    requires payments { ArePayments inst.now plan.now payments.now }
    requires day { draft.now.inst ≡ inst.now }
    requires over { draft.now.rows ≡ plan.now }
    requires one { planes.0.0 < planes_of inst.now }
    requires other { planes.1.0 < planes_of inst.now }
    ensures { IfOk result (λ found. ForSome found (ArePlaneEnds inst.now plan.now (plan_of draft.now))) }
{
    let changes = draft.changes();
    if !are_of(changes, planes) {
        return Ok(None);
    }
    let one = plane_end_of(alloc, payments, inst, plan, draft, planes.0)?;
    if planes.1.0 == planes.0.0 {
        return Ok(Some(PlaneEnds { one, other: None }));
    }
    let second = plane_end_of(alloc, payments, inst, plan, draft, planes.1)?;
    let other = Some(second);
    Ok(Some(PlaneEnds { one, other }))
}

/// Whether nobody but two aircraft flies the legs of some changes, before each change and after it.
fn are_of(changes: &[Change], planes: (Plane, Plane)) -> bool
    ensures { result ≡ list_all (is_change_of planes.0.0 planes.1.0) changes.now }
{
    changes.iter().all(|change| is_change_of(change, planes))
}

/// Whether nobody but two aircraft flies the leg of a change, before it and after it.
fn is_change_of(change: &Change, planes: (Plane, Plane)) -> bool
    ensures { result ≡ is_change_of planes.0.0 planes.1.0 change.now }
{
    is_of(change.was, planes) && is_of(change.row, planes)
}

/// Whether one of two aircraft flies a row, or nobody does.
fn is_of(row: Row, planes: (Plane, Plane)) -> bool
    ensures { result ≡ is_of planes.0.0 planes.1.0 row }
{
    match row {
        Row::Flown { plane, .. } => plane.0 == planes.0.0 || plane.0 == planes.1.0,
        Row::Cancelled => true,
    }
}

/// Where an aircraft ends.
fn plane_end_of(
    alloc: Global,
    payments: &Payments,
    inst: &Instance,
    _plan: &Pages,
    draft: &Draft,
    plane: Plane,
) -> Result<PlaneEnd, NoMem>
    requires payments { ArePayments inst.now _plan.now payments.now }
    requires day { draft.now.inst ≡ inst.now }
    requires plane { plane.0 < planes_of inst.now }
    ensures plane_end { IfOk result (IsPlaneEnd inst.now _plan.now (plan_of draft.now)) }
    ensures plane { IfOk result (λ plane_end. plane_end.plane.0 ≡ plane.0) }
{
    let legs = legs_of_plane(alloc, draft, plane)?;
    let is = last_of(inst, draft, plane, legs.as_slice());
    let was = payments.lasts[plane.0 as usize];
    Ok(PlaneEnd { plane, was, is })
}

/// The last leg of an aircraft in a draft that departs before the window's end, given all that it flies.
fn last_of(inst: &Instance, draft: &Draft, plane: Plane, legs: &[Leg]) -> Option<Leg>
    requires day { draft.now.inst ≡ inst.now }
    requires legs { AreLegsOf inst.now (plan_of draft.now) plane.0 (numbers_of legs.now) }
    ensures { IsLastOf (plan_of draft.now) plane.0 inst.now.parts.to.0 (legs_of inst.now) result }
{
    // the draft's plan is one for the day
    let _ = draft.base();
    let end = inst.window().1;
    let mut last = None;
    for leg in legs {
        last = later_of(draft, plane, end, last, *leg);
    }
    leg_in(last)
}

/// Which leg it is, if there is one.
fn leg_in(last: Option<RotationLeg>) -> Option<Leg>
    ensures { result ≡ leg_in last }
{
    match last {
        Some(at) => Some(at.leg),
        None => None,
    }
}

/// The later of two legs of an aircraft that depart before a moment, with its departure.
fn later_of(
    draft: &Draft,
    _plane: Plane,
    at: Minute,
    last: Option<RotationLeg>,
    leg: Leg,
) -> Option<RotationLeg>
    requires leg { leg.0 < length (plan_of draft.now).rows }
    requires flown { flies (plan_of draft.now) _plane.0 leg.0 ≡ true }
    requires departs { ForSome last (λ other. other.dep.0 ≡ dep (plan_of draft.now) other.leg.0) }
    ensures last { (legs : Items ℕ) → IsLastAmong (plan_of draft.now) _plane.0 at.0 legs (leg_in last) → IsLastAmong (plan_of draft.now) _plane.0 at.0 (legs ++ leg.0 ∷ []) (leg_in result) }
    ensures departs { ForSome result (λ other. other.dep.0 ≡ dep (plan_of draft.now) other.leg.0) }
{
    let departs = departure(draft, leg);
    if departs >= at.0 {
        return last;
    }
    let next = RotationLeg {
        dep: Minute(departs),
        leg,
    };
    match last {
        Some(other) => {
            if is_earlier(other, next) {
                Some(next)
            } else {
                last
            }
        }
        None => Some(next),
    }
}

/// By departure, then by leg.
fn is_earlier(leg: RotationLeg, next: RotationLeg) -> bool
    ensures { result ≡ is_earlier leg.leg.0 leg.dep.0 next.leg.0 next.dep.0 }
{
    leg.dep.0 < next.dep.0 || leg.dep.0 == next.dep.0 && leg.leg.0 < next.leg.0
}
