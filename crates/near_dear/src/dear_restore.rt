//! Legs that are known to be dear to fly again.

ghost use Rattle.std.specs.Prelude.{◌≡◌, ◌≢◌, ◌+◌, ◌<◌, ◌≤◌, ◌^◌, All, sum_by, true};
ghost use Rattle.std.specs.List.{AllPairs};
ghost use Rattle.std.specs.Option.{ForSome};
ghost use Rattle.desk_data.specs.declared.row.Row.TheVariants.{Cancelled};
ghost use Rattle.desk_data.specs.PlanRows.{row_at};
ghost use Rattle.desk_data.specs.Situation.{legs_of, planes_of};
ghost use Rattle.desk_data.specs.Valid.{IsPlanFor};
ghost use Rattle.desk_model.specs.Push.{rotation};
ghost use Rattle.near_draft.specs.Legs.{numbers_of};
ghost use Rattle.near_priced.specs.Unpaid.{saved_by_ending};
ghost use Rattle.near_priced.specs.Tables.{ArePayments, amount};
ghost use Rattle.near_dear.specs.Restored.{IsDearRestore, flying, legs_with, may_move, moved_amount};

use crate::left::take_off;
use desk_data::{Grains, Instance, Leg, Minute, Plane, Row, Term};
use desk_units::per_hour;
use near_priced::Payments;
use plan_pages::Pages;
use plan_reads::departure;

/// Whether it is known that it is dear where an aircraft flies a cancelled leg again, alone or with one that leads back, and is
/// pushed from a moment on: that costs at least as much as it saves at most. Where it says no, nothing is known. Given are
/// what those pay who are on each leg, and who are booked on it (`Payments::of`), what the aircraft saves at most by ending
/// elsewhere, in grains, and its legs.
pub fn is_dear_restore(
    inst: &Instance,
    plan: &Pages,
    payments: &Payments,
    saved: Grains,
    plane: Plane,
    own: &[Leg],
    at: Minute,
    leg: Leg,
    back: Option<Leg>,
) -> bool
    requires plan { IsPlanFor inst.now plan.now }
    requires payments { ArePayments inst.now plan.now payments.now }
    requires plane { plane.0 < planes_of inst.now }
    requires saved { saved_by_ending inst.now plan.now plane.0 plane.0 ≤ saved.0 }
    requires own { numbers_of own.now ≡ rotation inst.now plan.now plane.0 }
    requires within { All (λ other. other.0 < legs_of inst.now) own.now }
    requires leg { leg.0 < legs_of inst.now }
    requires back { ForSome back (λ other. other.0 < legs_of inst.now) }
    ensures { result ≡ true → IsDearRestore inst.now plan.now plane.0 at.0 (legs_with leg.0 back) }
{
    if !are_cancelled(inst, plan, leg, back) {
        return false;
    }
    let cost = flying_cost(inst, plane, leg, back);
    save_at_most(inst, plan, payments, saved, own, at, leg, back, cost)
}

/// Whether a leg is cancelled, and so is the one that leads back, if there is one: another one.
fn are_cancelled(_inst: &Instance, plan: &Pages, leg: Leg, back: Option<Leg>) -> bool
    requires plan { IsPlanFor _inst.now plan.now }
    requires leg { leg.0 < legs_of _inst.now }
    requires back { ForSome back (λ other. other.0 < legs_of _inst.now) }
    ensures gone { result ≡ true → All (λ x. row_at plan.now x ≡ Cancelled) (legs_with leg.0 back) }
    ensures apart { result ≡ true → AllPairs (λ x y. x ≢ y) (legs_with leg.0 back) }
{
    match back {
        Some(other) => {
            other.0 != leg.0 && is_cancelled(_inst, plan, leg) && is_cancelled(_inst, plan, other)
        }
        None => is_cancelled(_inst, plan, leg),
    }
}

/// Whether a leg is cancelled.
fn is_cancelled(_inst: &Instance, plan: &Pages, leg: Leg) -> bool
    requires plan { IsPlanFor _inst.now plan.now }
    requires leg { leg.0 < legs_of _inst.now }
    ensures { result ≡ true → row_at plan.now leg.0 ≡ Cancelled }
{
    match plan.read_row(leg) {
        Row::Cancelled => true,
        Row::Flown { .. } => false,
    }
}

/// What it costs that an aircraft flies a leg, and the one that leads back, if there is one, in grains.
fn flying_cost(inst: &Instance, plane: Plane, leg: Leg, back: Option<Leg>) -> u128
    requires plane { plane.0 < planes_of inst.now }
    requires leg { leg.0 < legs_of inst.now }
    requires back { ForSome back (λ other. other.0 < legs_of inst.now) }
    ensures { result ≡ sum_by (flying inst.now plane.0) (legs_with leg.0 back) }
{
    let there = leg_cost(inst, plane, leg);
    match back {
        Some(other) => there + leg_cost(inst, plane, other),
        None => there,
    }
}

/// That of one leg.
fn leg_cost(inst: &Instance, plane: Plane, leg: Leg) -> u128
    requires plane { plane.0 < planes_of inst.now }
    requires leg { leg.0 < legs_of inst.now }
    ensures is { result ≡ flying inst.now plane.0 leg.0 }
    ensures few { result ≤ 10 ^ 36 }
{
    let _rows = inst.parts();
    let weight = inst.prices().weight(Term::Operating);
    let minutes = u64::from(inst.leg(leg).block);
    per_hour(inst.plane(plane).hourly, weight, minutes).0
}

/// Whether what is saved at the positions, what those pay who are on legs of an aircraft that may move, and what those pay who
/// are booked on legs that it flies again come to no more than a cost.
fn save_at_most(
    inst: &Instance,
    plan: &Pages,
    payments: &Payments,
    saved: Grains,
    own: &[Leg],
    at: Minute,
    leg: Leg,
    back: Option<Leg>,
    cost: u128,
) -> bool
    requires plan { IsPlanFor inst.now plan.now }
    requires within { All (λ other. other.0 < legs_of inst.now) own.now }
    ensures { result ≡ true → saved.0 + sum_by (λ other. moved_amount inst.now plan.now payments.now.on.items at.0 other.0) own.now + sum_by (amount payments.now.booked.items) (legs_with leg.0 back) ≤ cost }
{
    match take_off(saved.0, cost) {
        Some(rest) => match left_by_moved(inst, plan, payments.on(), own, at, rest) {
            Some(left) => left_by_booked(payments.booked(), leg, back, left).is_some(),
            None => false,
        },
        None => false,
    }
}

/// What is left of a limit once the amounts of a leg and of the one that leads back, if there is one, are taken off; `None` where
/// they come to more.
fn left_by_booked(amounts: &[u128], leg: Leg, back: Option<Leg>, limit: u128) -> Option<u128>
    ensures { ForSome result (λ left. sum_by (amount amounts.now) (legs_with leg.0 back) + left ≡ limit) }
{
    let left = left_by_leg(amounts, leg, limit)?;
    match back {
        Some(other) => left_by_leg(amounts, other, left),
        None => Some(left),
    }
}

/// What is left of a limit once the amounts of those legs of an aircraft are taken off that may move, if they are pushed from a
/// moment on; `None` where they come to more.
fn left_by_moved(
    inst: &Instance,
    plan: &Pages,
    amounts: &[u128],
    own: &[Leg],
    at: Minute,
    limit: u128,
) -> Option<u128>
    requires plan { IsPlanFor inst.now plan.now }
    requires within { All (λ other. other.0 < legs_of inst.now) own.now }
    ensures { ForSome result (λ left. sum_by (λ other. moved_amount inst.now plan.now amounts.now at.0 other.0) own.now + left ≡ limit) }
{
    let mut left = limit;
    for other in own {
        left = left_by_own(inst, plan, amounts, *other, at, left)?;
    }
    Some(left)
}

/// The same of one of its legs.
fn left_by_own(
    inst: &Instance,
    plan: &Pages,
    amounts: &[u128],
    leg: Leg,
    at: Minute,
    left: u128,
) -> Option<u128>
    requires plan { IsPlanFor inst.now plan.now }
    requires leg { leg.0 < legs_of inst.now }
    ensures { ForSome result (λ rest. moved_amount inst.now plan.now amounts.now at.0 leg.0 + rest ≡ left) }
{
    if may_move(inst, plan, leg, at) {
        left_by_leg(amounts, leg, left)
    } else {
        Some(left)
    }
}

/// Whether a leg is movable and departs at a moment or later.
fn may_move(inst: &Instance, plan: &Pages, leg: Leg, at: Minute) -> bool
    requires plan { IsPlanFor inst.now plan.now }
    requires leg { leg.0 < legs_of inst.now }
    ensures { result ≡ may_move inst.now plan.now at.0 leg.0 }
{
    !inst.fixed(leg) && !(departure(plan, leg) < at.0)
}

/// What is left of a limit once the amount of a leg is taken off; `None` where it is more.
fn left_by_leg(amounts: &[u128], leg: Leg, left: u128) -> Option<u128>
    ensures { ForSome result (λ rest. amount amounts.now leg.0 + rest ≡ left) }
{
    match amounts.get(leg.0 as usize) {
        Some(paid) => take_off(*paid, left),
        None => None,
    }
}
