//! The legs of an aircraft in a draft.

ghost use Rattle.std.specs.Prelude.{◌≡◌, ◌<◌, ◌≤◌, true, ℕ, filter, length, All, IfOk, OnOk};
ghost use Rattle.std.specs.List.{Contains};
ghost use Rattle.std.specs.Option.{ForSome};
ghost use Rattle.desk_data.specs.Situation.{Situation, legs_of, planes_of};
ghost use Rattle.desk_rules.specs.Maintenance.{flies};
ghost use Rattle.desk_rules.specs.Rotations.{comes_before, is_earlier, precedes};
ghost use Rattle.desk_model.specs.Push.{rotation};
ghost use Rattle.near_draft.specs.Drafts.{plan_of};
ghost use Rattle.near_draft.specs.Legs.{AreLegsOf, IsAdded, numbers_of};

use crate::draft::Draft;
use desk_data::{Leg, Minute, NoMem, Plane, Row};
use plan_reads::ReadPlan;
use std::alloc::Global;

/// A Push or a Swap of an aircraft with more legs is not drafted: each look-up in a draft is a walk over its changes.
pub(crate) const MOST_LEGS: usize = 64;

/// The legs that an aircraft flies in a draft. They stand in their order, unless legs that kept their aircraft changed
/// places. The only error is out of memory.
pub fn legs_of_plane(alloc: Global, draft: &Draft, plane: Plane) -> Result<Vec<Leg>, NoMem>
    requires { plane.0 < planes_of draft.now.inst }
    ensures legs { IfOk result (λ legs. AreLegsOf draft.now.inst (plan_of draft.now) plane.0 (numbers_of legs.items)) }
    ensures within { IfOk result (λ legs. All (λ leg. leg.0 < legs_of draft.now.inst) legs.items) }
{
    match draft.kept(plane) {
        Some(legs) => Ok(legs.to_vec(alloc)?),
        None => find_legs(alloc, draft, plane),
    }
}

/// The same where they are not kept.
fn find_legs(alloc: Global, draft: &Draft, plane: Plane) -> Result<Vec<Leg>, NoMem>
    requires { plane.0 < planes_of draft.now.inst }
    ensures legs { IfOk result (λ legs. AreLegsOf draft.now.inst (plan_of draft.now) plane.0 (numbers_of legs.items)) }
    ensures within { IfOk result (λ legs. All (λ leg. leg.0 < legs_of draft.now.inst) legs.items) }
{
    let own = draft.base().rotation(alloc, plane)?;
    let mut legs = kept(alloc, draft, plane, own.as_slice())?;
    let changes = draft.changes();
    for change in changes {
        add_leg(draft, plane, change.leg, &mut legs)?;
    }
    Ok(legs)
}

/// The legs of an aircraft in their order; `None` where that is not known, or they are more than 64. The only error is out
/// of memory.
pub(crate) fn legs_in_order(
    alloc: Global,
    draft: &Draft,
    plane: Plane,
) -> Result<Option<Vec<Leg>>, NoMem>
    requires { plane.0 < planes_of draft.now.inst }
    ensures order { IfOk result (λ all. ForSome all (λ legs. numbers_of legs.items ≡ rotation draft.now.inst (plan_of draft.now) plane.0)) }
    ensures within { IfOk result (λ all. ForSome all (λ legs. All (λ leg. leg.0 < legs_of draft.now.inst) legs.items)) }
{
    let Some(legs) = all_in_order(alloc, draft, plane)? else {
        return Ok(None);
    };
    if MOST_LEGS < legs.len() {
        return Ok(None);
    }
    Ok(Some(legs))
}

/// The same of any number. Where there is no change, the order is known.
fn all_in_order(alloc: Global, draft: &Draft, plane: Plane) -> Result<Option<Vec<Leg>>, NoMem>
    requires { plane.0 < planes_of draft.now.inst }
    ensures order { IfOk result (λ all. ForSome all (λ legs. numbers_of legs.items ≡ rotation draft.now.inst (plan_of draft.now) plane.0)) }
    ensures within { IfOk result (λ all. ForSome all (λ legs. All (λ leg. leg.0 < legs_of draft.now.inst) legs.items)) }
{
    // there are as many rows as legs
    let base = draft.base();
    if draft.changes().is_empty() {
        let legs = base.rotation(alloc, plane)?;
        return Ok(Some(legs));
    }
    let legs = legs_of_plane(alloc, draft, plane)?;
    if are_in_order(draft, legs.as_slice()) {
        Ok(Some(legs))
    } else {
        Ok(None)
    }
}

/// Those of some legs that an aircraft flies in a draft.
fn kept(alloc: Global, draft: &Draft, plane: Plane, legs: &[Leg]) -> Result<Vec<Leg>, NoMem>
    requires { All (λ leg. leg.0 < legs_of draft.now.inst) legs.now }
    ensures { IfOk result (λ kept. numbers_of kept.items ≡ filter (flies (plan_of draft.now) plane.0) (numbers_of legs.now)) }
{
    let mut kept = Vec::with_capacity(alloc, legs.len() + 4)?;
    for leg in legs {
        if flies(draft, plane, *leg) {
            kept.push(*leg)?;
        }
    }
    Ok(kept)
}

/// Puts a leg among those of an aircraft, if it flies it in a draft and it is not among them: behind the last that
/// departs before it.
fn add_leg(draft: &Draft, plane: Plane, leg: Leg, legs: &mut Vec<Leg>) -> Result<(), NoMem>
    requires leg { leg.0 < legs_of draft.now.inst }
    requires within { All (λ leg. leg.0 < legs_of draft.now.inst) legs.old.items }
    ensures { OnOk result (IsAdded draft.now.inst (plan_of draft.now) plane.0 leg.0 (numbers_of legs.old.items) (numbers_of legs.new.items)) }
{
    if !flies(draft, plane, leg) {
        return Ok(());
    }
    if has(legs.as_slice(), leg) {
        return Ok(());
    }
    let place = place_of(draft, legs.as_slice(), leg);
    legs.insert(place, leg)?;
    Ok(())
}

/// Whether an aircraft flies a leg in a draft.
fn flies(draft: &Draft, plane: Plane, leg: Leg) -> bool
    requires { leg.0 < legs_of draft.now.inst }
    ensures { result ≡ flies (plan_of draft.now) plane.0 leg.0 }
{
    match draft.row(leg) {
        Row::Flown { plane: by, .. } => by.0 == plane.0,
        Row::Cancelled => false,
    }
}

/// Whether a leg is among some.
pub(crate) fn has(legs: &[Leg], leg: Leg) -> bool
    ensures { result ≡ true → Contains (numbers_of legs.now) leg.0 }
{
    legs.iter().any(|other| other.0 == leg.0)
}

/// Behind the last of some legs that departs before a leg, or else before the first.
fn place_of(draft: &Draft, legs: &[Leg], leg: Leg) -> usize
    requires leg { leg.0 < legs_of draft.now.inst }
    requires within { All (λ leg. leg.0 < legs_of draft.now.inst) legs.now }
    ensures { result ≤ length legs.now }
{
    let row = draft.row(leg);
    let mut place = legs.len();
    while place > 0 {
        let other = legs[place - 1];
        if comes_before(other, draft.row(other), leg, row) {
            return place;
        }
        place -= 1;
    }
    0
}

/// Whether the legs of an aircraft stand in their order.
pub(crate) fn are_in_order<P: ReadPlan>(plan: &P, legs: &[Leg]) -> bool
    requires within { All (λ leg. leg.0 < length (P.plan_of plan.now).rows) legs.now }
    ensures { (I : Situation) (p : ℕ) → AreLegsOf I (P.plan_of plan.now) p (numbers_of legs.now) → result ≡ true → numbers_of legs.now ≡ rotation I (P.plan_of plan.now) p }
{
    if legs.is_empty() {
        return true;
    }
    let mut row = plan.read_row(legs[0]);
    for k in 1..legs.len() {
        let next_row = plan.read_row(legs[k]);
        if !comes_before(legs[k - 1], row, legs[k], next_row) {
            return false;
        }
        row = next_row;
    }
    true
}

/// Whether one aircraft flies two legs in a plan, the first before the second.
pub fn precedes<P: ReadPlan>(plan: &P, leg: Leg, next: Leg) -> bool
    requires leg { leg.0 < length (P.plan_of plan.now).rows }
    requires next { next.0 < length (P.plan_of plan.now).rows }
    ensures { result ≡ precedes (P.plan_of plan.now) leg.0 next.0 }
{
    comes_before(leg, plan.read_row(leg), next, plan.read_row(next))
}

/// The same of two legs with these rows.
fn comes_before(leg: Leg, row: Row, next: Leg, next_row: Row) -> bool
    ensures { result ≡ comes_before leg.0 row next.0 next_row }
{
    match (row, next_row) {
        (
            Row::Flown { plane, dep },
            Row::Flown {
                plane: other,
                dep: later,
            },
        ) => { plane.0 == other.0 && is_earlier(leg, dep, next, later) }
        _ => false,
    }
}

/// By departure, then by leg.
fn is_earlier(leg: Leg, dep: Minute, next: Leg, later: Minute) -> bool
    ensures { result ≡ is_earlier leg.0 dep.0 next.0 later.0 }
{
    dep.0 < later.0 || dep.0 == later.0 && leg.0 < next.0
}
