//! Moves that cancel legs of an aircraft, and are known to be dear.

ghost use Rattle.std.specs.Prelude.{◌≡◌, ℕ, ◌∷◌, ◌++◌, ◌<◌, All, List as Items, [], None, length, map, true};
ghost use Rattle.std.specs.List.{Contains, list_all};
ghost use Rattle.std.specs.Option.{ForSome};
ghost use Rattle.plan_moves.specs.Fits.{StepFits};
ghost use Rattle.plan_moves.specs.declared.moves.Step.TheVariants.{Push, Tidy};
ghost use Rattle.desk_data.specs.Situation.{planes_of, reservations_of};
ghost use Rattle.desk_data.specs.Valid.{IsPlanFor};
ghost use Rattle.desk_rules.specs.Maintenance.{flies, is_flown_by};
ghost use Rattle.desk_rules.specs.Rows.{is_row};
ghost use Rattle.desk_model.specs.Push.{rotation};
ghost use Rattle.near_moves.specs.LegMoves.{cancelling};
ghost use Rattle.near_draft.specs.Legs.{numbers_of};
ghost use Rattle.near_priced.specs.Tables.{ArePayments, amount};
ghost use Rattle.near_dear.specs.Owed.{AreOwed};
ghost use Rattle.near_dear.specs.Drops.{IsDearDrop, cancels, legs_set};

use crate::left::{left_by_flying, left_by_legs};
use crate::places::saved;
use desk_data::{Instance, Leg, Plane, Row};
use near_priced::Payments;
use plan_moves::Step;
use plan_pages::Pages;
use plan_reads::is_flown;

/// The aircraft of some steps that push all its movable legs and tidy at the end, and the steps before these two; `None`
/// where they do not end so.
pub fn dropped_by(steps: &[Step]) -> Option<(Plane, &[Step])>
    ensures { ForSome result (λ found. steps.now ≡ found.1.now ++ Push found.0 None ∷ Tidy ∷ []) }
{
    if steps.len() < 2 {
        return None;
    }
    let count = steps.len() - 2;
    if !is_tidy(&steps[count + 1]) {
        return None;
    }
    match pushed(&steps[count]) {
        Some(plane) => Some((plane, &steps[..count])),
        None => None,
    }
}

/// The aircraft all of whose movable legs a step pushes, if it is such a step.
fn pushed(step: &Step) -> Option<Plane>
    ensures { ForSome result (λ plane. step.now ≡ Push plane None) }
{
    match step {
        Step::Push { plane, after } => { if after.is_none() { Some(*plane) } else { None } }
        _ => None,
    }
}

/// Whether a step is a Tidy.
fn is_tidy(step: &Step) -> bool
    ensures { result ≡ true → step.now ≡ Tidy }
{
    match step {
        Step::Tidy => true,
        _ => false,
    }
}

/// Whether it is known that a feasible plan becomes no cheaper where some steps cancel legs of an aircraft, whose other
/// movable legs are pushed then, and a Tidy comes last: those on one of the legs come to cost at least what the move could
/// save. Where it says no, nothing is known. Given are the payments and what is owed by leg (`owed_by_leg`) at the plan, and
/// the legs of the aircraft.
pub fn is_dear_drop(
    inst: &Instance,
    plan: &Pages,
    payments: &Payments,
    owed: &[u128],
    plane: Plane,
    legs: &[Leg],
    steps: &[Step],
) -> bool
    requires plan { IsPlanFor inst.now plan.now }
    requires payments { ArePayments inst.now plan.now payments.now }
    requires owed { AreOwed inst.now plan.now owed.now (reservations_of inst.now) }
    requires plane { plane.0 < planes_of inst.now }
    requires legs { numbers_of legs.now ≡ rotation inst.now plan.now plane.0 }
    requires fits { All (StepFits inst.now) steps.now }
    ensures cancels { result ≡ true → steps.now ≡ map (cancelling plan.now) (legs_set steps.now) }
    ensures flown { result ≡ true → All (λ x. flies plan.now plane.0 x ≡ true) (legs_set steps.now) }
    ensures dear { result ≡ true → IsDearDrop inst.now plan.now plane.0 (legs_set steps.now) }
{
    if !count_hands(inst, payments) || !cancel_all(inst, plan, plane, steps) {
        return false;
    }
    let Some(leg) = dearest(owed, steps) else {
        return false;
    };
    let Some(left) = left_by_flying(inst, plan, steps, amount_of(owed, leg)) else {
        return false;
    };
    let Some(left) = left_by_legs(payments.on(), legs, left) else {
        return false;
    };
    saved(inst, plan, payments.hands(), plane) <= left
}

/// Whether it was counted how many aircraft are at hand for each position.
fn count_hands(inst: &Instance, payments: &Payments) -> bool
    ensures { result ≡ true → length payments.now.hands.items ≡ length inst.now.parts.positions }
{
    payments.hands().len() == inst.positions().len()
}

/// Whether each of some steps cancels a leg that an aircraft flies, by the row that it has.
fn cancel_all(_inst: &Instance, plan: &Pages, plane: Plane, steps: &[Step]) -> bool
    requires plan { IsPlanFor _inst.now plan.now }
    requires fits { All (StepFits _inst.now) steps.now }
    ensures { result ≡ true → list_all (cancels plan.now plane.0) steps.now ≡ true }
{
    for step in steps {
        if !cancels(_inst, plan, plane, step) {
            return false;
        }
    }
    true
}

/// Whether a step does.
fn cancels(_inst: &Instance, plan: &Pages, plane: Plane, step: &Step) -> bool
    requires plan { IsPlanFor _inst.now plan.now }
    requires fits { StepFits _inst.now step.now }
    ensures { result ≡ cancels plan.now plane.0 step.now }
{
    match step {
        Step::Set { leg, was, new } => {
            let row = plan.read_row(*leg);
            is_row(row, *was) && is_flown_by(row, plane) && !is_flown(*new)
        }
        Step::Push { .. }
        | Step::Swap { .. }
        | Step::Rebook { .. }
        | Step::Tidy
        | Step::Refill { .. } => false,
    }
}

/// Whether two rows are the same.
fn is_row(row: Row, other: Row) -> bool
    ensures { result ≡ is_row row other }
{
    match (row, other) {
        (Row::Flown { plane, dep }, Row::Flown { plane: by, dep: at }) => {
            plane.0 == by.0 && dep.0 == at.0
        }
        (Row::Cancelled, Row::Cancelled) => true,
        _ => false,
    }
}

/// Whether an aircraft flies a row.
fn is_flown_by(row: Row, aircraft: Plane) -> bool
    ensures { result ≡ is_flown_by aircraft.0 row }
{
    match row {
        Row::Flown { plane, .. } => plane.0 == aircraft.0,
        Row::Cancelled => false,
    }
}

/// Of the legs that some steps set one on which the most is owed; `None` where they set none.
fn dearest(owed: &[u128], steps: &[Step]) -> Option<Leg>
    ensures { ForSome result (λ leg. Contains (legs_set steps.now) leg.0) }
{
    let mut found = None;
    for step in steps {
        found = dearer(owed, found, step);
    }
    found
}

/// Of the leg that was found and the one that a step sets the one on which more is owed.
fn dearer(owed: &[u128], found: Option<Leg>, step: &Step) -> Option<Leg>
    ensures { (legs : Items ℕ) → ForSome found (λ leg. Contains legs leg.0) → ForSome result (λ leg. Contains (legs ++ legs_set (step.now ∷ [])) leg.0) }
{
    match step {
        Step::Set { leg, .. } => Some(dearer_of(owed, found, *leg)),
        Step::Push { .. }
        | Step::Swap { .. }
        | Step::Rebook { .. }
        | Step::Tidy
        | Step::Refill { .. } => found,
    }
}

/// Of the leg that was found, if one was, and another one that on which more is owed.
fn dearer_of(owed: &[u128], found: Option<Leg>, leg: Leg) -> Leg
    ensures { (legs : Items ℕ) → ForSome found (λ one. Contains legs one.0) → Contains (legs ++ leg.0 ∷ []) result.0 }
{
    match found {
        Some(one) => {
            if amount_of(owed, one) < amount_of(owed, leg) {
                leg
            } else {
                one
            }
        }
        None => leg,
    }
}

/// What is owed on a leg.
fn amount_of(owed: &[u128], leg: Leg) -> u128
    ensures { result ≡ amount owed.now leg.0 }
{
    match owed.get(leg.0 as usize) {
        Some(amount) => *amount,
        None => 0,
    }
}
