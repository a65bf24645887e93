//! What flying and the positions cost before a move, and after its first steps.

ghost use Rattle.std.specs.Prelude.{◌≡◌, ◌+◌, ◌<◌, ◌≤◌, ◌^◌, length, true};
ghost use Rattle.std.specs.Option.{ForSome};
ghost use Rattle.desk_data.specs.Situation.{legs_of, planes_of};
ghost use Rattle.desk_data.specs.Valid.{IsPlanFor};
ghost use Rattle.desk_rules.specs.Cost.{at_hand, operating_cost, position_cost};
ghost use Rattle.plan_reads.specs.Last.{stand};
ghost use Rattle.near_draft.specs.Drafts.{plan_of};
ghost use Rattle.near_priced.specs.Balances.{ArePositions, IsFlying, counted};
ghost use Rattle.near_priced.specs.Ends.{ArePlaneEnds};
ghost use Rattle.near_priced.specs.Tables.{ArePayments, lacking};

use crate::ends::{PlaneEnd, PlaneEnds};
use crate::hands::stands_ready;
use crate::payments::Payments;
use desk_data::{Instance, Leg, PositionInfo, Term};
use desk_units::per_item;
use near_draft::Draft;
use plan_checks::flight_cost;
use plan_pages::Pages;
use plan_reads::stand_of;

/// What something costs before a move, and after its first steps, in grains.
#[derive(Clone, Copy)]
pub(crate) struct Balance {
    pub old: u128,
    pub new: u128,
}

/// How many aircraft all positions lack, before a move and after its first steps.
#[derive(Clone, Copy)]
pub(crate) struct Lacks {
    pub was: u64,
    pub is: u64,
}

/// By how much flying and the positions cost more in a draft; `None` where they cost less.
pub(crate) fn dearer_by(
    payments: &Payments,
    inst: &Instance,
    plan: &Pages,
    draft: &Draft,
    ends: PlaneEnds,
) -> Option<u128>
    requires plan { IsPlanFor inst.now plan.now }
    requires payments { ArePayments inst.now plan.now payments.now }
    requires day { draft.now.inst ≡ inst.now }
    requires over { draft.now.rows ≡ plan.now }
    requires ends { ArePlaneEnds inst.now plan.now (plan_of draft.now) ends }
    requires hands { length payments.now.hands.items ≡ length inst.now.parts.positions }
    requires few { length draft.now.changes ≤ 1000 }
    ensures { ForSome result (λ n. operating_cost inst.now plan.now + position_cost inst.now plan.now + n ≡ operating_cost inst.now (plan_of draft.now) + position_cost inst.now (plan_of draft.now)) }
{
    let flying = flying(inst, plan, draft);
    if end_alike(inst, plan, draft, ends) {
        return beyond(flying.old, flying.new);
    }
    let positions = positions(payments, inst, plan, draft, ends);
    beyond(flying.old + positions.old, flying.new + positions.new)
}

/// By how much an amount is more than another; `None` where it is less.
fn beyond(old: u128, new: u128) -> Option<u128>
    ensures { ForSome result (λ n. old + n ≡ new) }
{
    if new < old {
        return None;
    }
    Some(new - old)
}

/// Whether each aircraft of a move ends at the airport where it did: then the positions cost what they did.
fn end_alike(inst: &Instance, _plan: &Pages, _draft: &Draft, ends: PlaneEnds) -> bool
    requires { ArePlaneEnds inst.now _plan.now (plan_of _draft.now) ends }
    ensures { result ≡ true → position_cost inst.now (plan_of _draft.now) ≡ position_cost inst.now _plan.now }
{
    if !ends_alike(inst, ends.one) {
        return false;
    }
    match ends.other {
        Some(other) => ends_alike(inst, other),
        None => true,
    }
}

/// Whether an aircraft stands at the airport where it did.
fn ends_alike(inst: &Instance, plane_end: PlaneEnd) -> bool
    requires plane { plane_end.plane.0 < planes_of inst.now }
    requires was { ForSome plane_end.was (λ leg. leg.0 < legs_of inst.now) }
    requires is { ForSome plane_end.is (λ leg. leg.0 < legs_of inst.now) }
    ensures { result ≡ true → (stand inst.now plane_end.plane.0 plane_end.is).0 ≡ (stand inst.now plane_end.plane.0 plane_end.was).0 }
{
    let plane = plane_end.plane;
    stand_of(inst, plane, plane_end.is).0 == stand_of(inst, plane, plane_end.was).0
}

/// What the legs cost that get other rows, by those that they had and by those that they get, change by change.
fn flying(inst: &Instance, _plan: &Pages, draft: &Draft) -> Balance
    requires plan { IsPlanFor inst.now _plan.now }
    requires day { draft.now.inst ≡ inst.now }
    requires over { draft.now.rows ≡ _plan.now }
    requires few { length draft.now.changes ≤ 1000 }
    ensures { IsFlying inst.now _plan.now (plan_of draft.now) result }
{
    let _rows = inst.parts();
    let mut balance = Balance { old: 0, new: 0 };
    for change in draft.changes() {
        balance.new += flight_cost(inst, change.leg, change.row).0;
        balance.old += flight_cost(inst, change.leg, change.was).0;
    }
    balance
}

/// What the positions cost.
fn positions(
    payments: &Payments,
    inst: &Instance,
    plan: &Pages,
    draft: &Draft,
    ends: PlaneEnds,
) -> Balance
    requires payments { ArePayments inst.now plan.now payments.now }
    requires ends { ArePlaneEnds inst.now plan.now (plan_of draft.now) ends }
    requires hands { length payments.now.hands.items ≡ length inst.now.parts.positions }
    ensures { ArePositions inst.now plan.now (plan_of draft.now) result }
{
    let _rows = inst.parts();
    let weight = inst.prices().weight(Term::Position);
    let price = inst.prices().position();
    let lacks = all_lacks(payments, inst, plan, draft, ends);
    Balance {
        new: per_item(price, weight, lacks.is).0,
        old: per_item(price, weight, lacks.was).0,
    }
}

/// How many aircraft all positions lack.
fn all_lacks(
    payments: &Payments,
    inst: &Instance,
    plan: &Pages,
    draft: &Draft,
    ends: PlaneEnds,
) -> Lacks
    requires payments { ArePayments inst.now plan.now payments.now }
    requires ends { ArePlaneEnds inst.now plan.now (plan_of draft.now) ends }
    requires hands { length payments.now.hands.items ≡ length inst.now.parts.positions }
    ensures was { result.was ≡ lacking inst.now plan.now }
    ensures is { result.is ≡ lacking inst.now (plan_of draft.now) }
    ensures few_were { result.was ≤ 10 ^ 9 }
    ensures few { result.is ≤ 10 ^ 9 }
{
    let _rows = inst.parts();
    let mut lacks = Lacks { was: 0, is: 0 };
    let positions = inst.positions();
    for g in 0..positions.len() {
        let position = &positions[g];
        let hand = payments.hands[g];
        let then = hand_after(inst, plan, draft, position, hand, ends);
        lacks.was += u64::from(position.count.saturating_sub(hand));
        lacks.is += u64::from(position.count.saturating_sub(then));
    }
    lacks
}

/// How many aircraft are at hand for a position after a move's first steps, given how many are before.
fn hand_after(
    inst: &Instance,
    _plan: &Pages,
    _draft: &Draft,
    position: &PositionInfo,
    hand: u32,
    ends: PlaneEnds,
) -> u32
    requires hand { hand ≡ at_hand inst.now _plan.now position.now }
    requires ends { ArePlaneEnds inst.now _plan.now (plan_of _draft.now) ends }
    ensures { result ≡ at_hand inst.now (plan_of _draft.now) position.now }
{
    let _rows = inst.parts();
    let one = ends.one;
    let mut come = counted(inst, one, one.is, position);
    let mut gone = counted(inst, one, one.was, position);
    match ends.other {
        Some(other) => {
            come += counted(inst, other, other.is, position);
            gone += counted(inst, other, other.was, position);
        }
        None => {}
    }
    (hand + come).saturating_sub(gone)
}

/// 1 where an aircraft is at hand for a position once it ends after a leg, else 0.
fn counted(inst: &Instance, plane_end: PlaneEnd, last: Option<Leg>, position: &PositionInfo) -> u32
    requires plane { plane_end.plane.0 < planes_of inst.now }
    requires last { ForSome last (λ leg. leg.0 < legs_of inst.now) }
    ensures { result ≡ counted inst.now plane_end.plane.0 last position.now }
{
    u32::from(stands_ready(inst, plane_end.plane, last, position))
}
