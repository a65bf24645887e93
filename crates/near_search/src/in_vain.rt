//! Moves that are known not to be better by where legs lead.

ghost use Rattle.std.specs.Prelude.{◌≡◌, ◌<◌, ◌∷◌, List as Items, false, true};
ghost use Rattle.std.specs.List.{list_all};
ghost use Rattle.plan_moves.specs.declared.moves.Move.{Move};
ghost use Rattle.plan_moves.specs.declared.moves.Step.{Step as AskedStep};
ghost use Rattle.plan_moves.specs.declared.moves.Step.TheVariants.{Set};
ghost use Rattle.plan_moves.specs.Fits.{Fits, StepFits};
ghost use Rattle.desk_data.specs.Situation.{legs_of, planes_of};
ghost use Rattle.desk_data.specs.Valid.{IsRowOf};
ghost use Rattle.desk_rules.specs.Maintenance.{flies};
ghost use Rattle.near_legs.specs.Choices.{IsLegUnit, unit_of};
ghost use Rattle.near_moves.specs.Chains.{IsHandedInVain, IsRestoredInVain, IsSwappedInVain, keeps_aircraft};
ghost use Rattle.near_moves.specs.Out.{HandsInVain};
ghost use Rattle.near_search.specs.Out.{IsRuledOutByRows};
ghost use Rattle.near_search.specs.Rotations.{AreRotations};

use crate::rotations::{Rotations, run_leads_to, stand, stand_before};
use desk_data::{Leg, Minute, Plane, Row};
use desk_eval::Evaluator;
use near_dear::are_two;
use near_legs::LegUnit;
use plan_moves::{Move, Step};
use plan_reads::is_flown;

/// Whether it is known that no move of a unit is better: it hands a run on that leads elsewhere. Where it says
/// no, nothing is known.
pub(crate) fn is_in_vain(eval: &Evaluator, rotations: &Rotations, unit: LegUnit) -> bool
    requires rotations { AreRotations eval.now.inst eval.now.rows rotations.now }
    requires unit { IsLegUnit eval.now.inst eval.now.rows unit }
    ensures { result ≡ true → HandsInVain eval.now.inst eval.now.rows (unit_of unit) }
{
    match unit {
        LegUnit::Handed { leg, count, plane } => {
            is_handed_in_vain(eval, rotations, leg, count, plane)
        }
        _ => false,
    }
}

/// Whether the run of so many legs from a leg on is handed to an aircraft in vain.
fn is_handed_in_vain(
    eval: &Evaluator,
    rotations: &Rotations,
    leg: Leg,
    count: u32,
    plane: Plane,
) -> bool
    requires rotations { AreRotations eval.now.inst eval.now.rows rotations.now }
    requires leg { leg.0 < legs_of eval.now.inst }
    requires plane { plane.0 < planes_of eval.now.inst }
    ensures { result ≡ true → IsHandedInVain eval.now.inst eval.now.rows leg.0 count plane.0 }
{
    match eval.plan().read_row(leg) {
        Row::Flown { plane: own, .. } => leads_elsewhere(eval, rotations, own, leg, count, plane),
        Row::Cancelled => false,
    }
}

/// Whether the run of so many legs from a leg on, which its own aircraft flies, does not end where it begins, and leads where
/// that one does not stand at the end, or begins where the other one does not.
fn leads_elsewhere(
    eval: &Evaluator,
    rotations: &Rotations,
    own: Plane,
    leg: Leg,
    count: u32,
    other: Plane,
) -> bool
    requires rotations { AreRotations eval.now.inst eval.now.rows rotations.now }
    requires own { own.0 < planes_of eval.now.inst }
    requires leg { leg.0 < legs_of eval.now.inst }
    requires flown { flies eval.now.rows own.0 leg.0 ≡ true }
    requires other { other.0 < planes_of eval.now.inst }
    ensures { result ≡ true → IsHandedInVain eval.now.inst eval.now.rows leg.0 count other.0 }
{
    if !rotations.feasible || !are_two(eval.instance(), (other, own)) {
        return false;
    }
    let from = eval.instance().leg(leg).origin;
    let to = run_leads_to(eval, rotations, own, leg, count);
    to.0 != from.0
        && (to.0 != stand(eval, rotations, own).0 || from.0 != stand(eval, rotations, other).0)
}

/// Whether it is known that a move is not better since its first step gives legs in vain. Where it says no, nothing is known.
pub(crate) fn gives_in_vain(eval: &Evaluator, rotations: &Rotations, m: &Move) -> bool
    requires rotations { AreRotations eval.now.inst eval.now.rows rotations.now }
    requires fits { Fits eval.now.inst m.now }
    ensures { result ≡ true → IsRuledOutByRows eval.now.inst eval.now.rows m.now }
{
    match m.steps.as_slice() {
        [first, others @ ..] => are_in_vain(eval, rotations, first, others),
        [] => false,
    }
}

/// Whether it is known that a move that begins with a step, after which each leg stays with its aircraft, is not
/// better. Where it says no, nothing is known.
fn are_in_vain(eval: &Evaluator, rotations: &Rotations, first: &Step, others: &[Step]) -> bool
    requires rotations { AreRotations eval.now.inst eval.now.rows rotations.now }
    requires fits { StepFits eval.now.inst first.now }
    ensures { result ≡ true → (m : Move) → m.steps ≡ first.now ∷ others.now → IsRuledOutByRows eval.now.inst eval.now.rows m }
{
    keep_aircraft(others) && begins_in_vain(eval, rotations, first)
}

/// Whether some steps leave each leg to the aircraft that flies it.
fn keep_aircraft(steps: &[Step]) -> bool
    ensures { result ≡ list_all keeps_aircraft steps.now }
{
    steps.iter().all(keeps_aircraft)
}

/// Whether a step leaves each leg to the aircraft that flies it.
fn keeps_aircraft(step: &Step) -> bool
    ensures { result ≡ keeps_aircraft step.now }
{
    match step {
        Step::Set { .. } | Step::Swap { .. } => false,
        Step::Push { .. } | Step::Rebook { .. } | Step::Tidy | Step::Refill { .. } => true,
    }
}

/// Whether a move that begins with this step, and leaves each leg to its aircraft then, is known not to be better.
fn begins_in_vain(eval: &Evaluator, rotations: &Rotations, step: &Step) -> bool
    requires rotations { AreRotations eval.now.inst eval.now.rows rotations.now }
    requires fits { StepFits eval.now.inst step.now }
    ensures { result ≡ true → (others : Items AskedStep) (m : Move) → list_all keeps_aircraft others ≡ true → m.steps ≡ step.now ∷ others → IsRuledOutByRows eval.now.inst eval.now.rows m }
{
    match step {
        Step::Swap { first, second, at } => {
            is_swapped_in_vain(eval, rotations, *first, *second, *at)
        }
        Step::Set { leg, was, new } => is_set_in_vain(eval, rotations, *leg, *was, *new),
        _ => false,
    }
}

/// Whether two aircraft exchange their legs from a moment on in vain: they stand apart then, and one of them
/// elsewhere at the end.
fn is_swapped_in_vain(
    eval: &Evaluator,
    rotations: &Rotations,
    first: Plane,
    second: Plane,
    at: Minute,
) -> bool
    requires rotations { AreRotations eval.now.inst eval.now.rows rotations.now }
    requires first { first.0 < planes_of eval.now.inst }
    requires second { second.0 < planes_of eval.now.inst }
    ensures { result ≡ true → IsSwappedInVain eval.now.inst eval.now.rows first.0 second.0 at.0 }
{
    if !rotations.feasible || !are_two(eval.instance(), (second, first)) {
        return false;
    }
    let one = stand_before(eval, rotations, first, at);
    let other = stand_before(eval, rotations, second, at);
    one.0 != other.0
        && (one.0 != stand(eval, rotations, first).0 || other.0 != stand(eval, rotations, second).0)
}

/// Whether a Set restores a leg in vain.
fn is_set_in_vain(eval: &Evaluator, rotations: &Rotations, leg: Leg, was: Row, new: Row) -> bool
    requires rotations { AreRotations eval.now.inst eval.now.rows rotations.now }
    requires leg { leg.0 < legs_of eval.now.inst }
    requires new { IsRowOf (planes_of eval.now.inst) new }
    ensures { result ≡ true → (others : Items AskedStep) (m : Move) → list_all keeps_aircraft others ≡ true → m.steps ≡ Set leg was new ∷ others → IsRuledOutByRows eval.now.inst eval.now.rows m }
{
    match was {
        Row::Cancelled => match new {
            Row::Flown { plane, .. } => is_restored_in_vain(eval, rotations, leg, plane),
            Row::Cancelled => false,
        },
        Row::Flown { .. } => false,
    }
}

/// Whether an aircraft flies a cancelled leg again in vain: it does not end where it begins, and leaves where the aircraft does not
/// stand at the end.
fn is_restored_in_vain(eval: &Evaluator, rotations: &Rotations, leg: Leg, plane: Plane) -> bool
    requires rotations { AreRotations eval.now.inst eval.now.rows rotations.now }
    requires leg { leg.0 < legs_of eval.now.inst }
    requires plane { plane.0 < planes_of eval.now.inst }
    ensures { result ≡ true → IsRestoredInVain eval.now.inst eval.now.rows leg.0 plane.0 }
{
    let inst = eval.instance();
    if !rotations.feasible || inst.plane(plane).surface || is_flown(eval.plan().read_row(leg)) {
        return false;
    }
    let there = inst.leg(leg);
    there.dest.0 != there.origin.0 && there.origin.0 != stand(eval, rotations, plane).0
}
