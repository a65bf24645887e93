//! Legs that are flown again and are known to be dear.

ghost use Rattle.std.specs.Prelude.{◌≡◌, ◌<◌, ◌∷◌, All, [], None, Some, true};
ghost use Rattle.std.specs.Option.{ForSome};
ghost use Rattle.plan_moves.specs.declared.moves.Move.{Move};
ghost use Rattle.plan_moves.specs.declared.moves.Step.TheVariants.{Push, Refill, Set, Tidy};
ghost use Rattle.plan_moves.specs.Fits.{Fits, StepFits};
ghost use Rattle.desk_data.specs.declared.row.Row.TheVariants.{Cancelled, Flown};
ghost use Rattle.desk_data.specs.Situation.{legs_of, planes_of};
ghost use Rattle.near_dear.specs.Restored.{IsDearRestore, legs_with};
ghost use Rattle.near_search.specs.Out.{IsRuledOut};
ghost use Rattle.near_search.specs.Rotations.{AreRotations};

use crate::exchanges::{is_tidy, pushes_all};
use crate::rotations::Rotations;
use desk_data::{Leg, Minute, Plane, Row};
use desk_eval::Evaluator;
use near_dear::is_dear_restore;
use plan_moves::Step;

/// A leg that was cancelled, and is flown by an aircraft from a moment on.
#[derive(Clone, Copy)]
struct Flight {
    leg: Leg,
    plane: Plane,
    at: Minute,
}

/// Whether it is known that a move with a first step and others is not better, since by it an aircraft flies a leg again, alone or
/// with one that leads back, and that costs at least as much as it saves at most. Where it says no, nothing is known.
pub(crate) fn restore_dearly(
    eval: &Evaluator,
    rotations: &Rotations,
    first: &Step,
    others: &[Step],
) -> bool
    requires rotations { AreRotations eval.now.inst eval.now.rows rotations.now }
    requires first { StepFits eval.now.inst first.now }
    requires others { All (StepFits eval.now.inst) others.now }
    ensures { result ≡ true → (m : Move) → Fits eval.now.inst m → m.steps ≡ first.now ∷ others.now → IsRuledOut eval.now.inst eval.now.rows m }
{
    match flown_again(first) {
        Some(there) => {
            is_alone_dearly(eval, rotations, there, others)
                || is_with_back_dearly(eval, rotations, there, others)
        }
        None => false,
    }
}

/// The leg that a step flies again, if it does.
fn flown_again(step: &Step) -> Option<Flight>
    ensures { ForSome result (λ flight. step.now ≡ Set flight.leg Cancelled (Flown flight.plane flight.at)) }
{
    match step {
        Step::Set { leg, was, new } => flight_of(*leg, *was, *new),
        _ => None,
    }
}

/// The same of a step that gives a leg another row.
fn flight_of(leg: Leg, was: Row, new: Row) -> Option<Flight>
    ensures { ForSome result (λ flight. Set leg was new ≡ Set flight.leg Cancelled (Flown flight.plane flight.at)) }
{
    match was {
        Row::Cancelled => match new {
            Row::Flown { plane, dep } => Some(Flight {
                leg,
                plane,
                at: dep,
            }),
            Row::Cancelled => None,
        },
        Row::Flown { .. } => None,
    }
}

/// Whether it is known that a move is not better that flies a leg again and goes on with some steps, since these push the legs
/// after it, tidy and refill it, and that is dear.
fn is_alone_dearly(eval: &Evaluator, rotations: &Rotations, there: Flight, others: &[Step]) -> bool
    requires rotations { AreRotations eval.now.inst eval.now.rows rotations.now }
    requires leg { there.leg.0 < legs_of eval.now.inst }
    requires plane { there.plane.0 < planes_of eval.now.inst }
    ensures { result ≡ true → (m : Move) → Fits eval.now.inst m → m.steps ≡ Set there.leg Cancelled (Flown there.plane there.at) ∷ others.now → IsRuledOut eval.now.inst eval.now.rows m }
{
    let _rows = eval.instance().parts();
    // the plan is one for the day
    let _ = eval.plan();
    goes_alone(others, there)
        && is_known_dear(eval, rotations, there.plane, there.at, there.leg, None)
}

/// Whether some steps push the legs of an aircraft after a leg, and then are a Tidy and a Refill of it.
fn goes_alone(steps: &[Step], there: Flight) -> bool
    ensures { result ≡ true → steps.now ≡ Push there.plane (Some there.leg) ∷ Tidy ∷ Refill there.leg ∷ [] }
{
    if steps.len() != 3 {
        return false;
    }
    pushes_after(&steps[0], there.plane, there.leg)
        && is_tidy(&steps[1])
        && refills(&steps[2], there.leg)
}

/// The same where they fly a leg that leads back again too, push all legs of the aircraft, tidy and refill both.
fn is_with_back_dearly(
    eval: &Evaluator,
    rotations: &Rotations,
    there: Flight,
    others: &[Step],
) -> bool
    requires rotations { AreRotations eval.now.inst eval.now.rows rotations.now }
    requires leg { there.leg.0 < legs_of eval.now.inst }
    requires plane { there.plane.0 < planes_of eval.now.inst }
    requires others { All (StepFits eval.now.inst) others.now }
    ensures { result ≡ true → (m : Move) → Fits eval.now.inst m → m.steps ≡ Set there.leg Cancelled (Flown there.plane there.at) ∷ others.now → IsRuledOut eval.now.inst eval.now.rows m }
{
    let _rows = eval.instance().parts();
    // the plan is one for the day
    let _ = eval.plan();
    match others {
        [next, rest @ ..] => match flown_again(next) {
            Some(back) => {
                goes_back(rest, there, back)
                    && is_known_dear(
                        eval,
                        rotations,
                        there.plane,
                        Minute(0),
                        there.leg,
                        Some(back.leg),
                    )
            }
            None => false,
        },
        [] => false,
    }
}

/// Whether one aircraft flies two legs again, and some steps push all its legs, and then are a Tidy and a Refill of each.
fn goes_back(steps: &[Step], there: Flight, back: Flight) -> bool
    ensures plane { result ≡ true → back.plane.0 ≡ there.plane.0 }
    ensures steps { result ≡ true → steps.now ≡ Push there.plane None ∷ Tidy ∷ Refill there.leg ∷ Refill back.leg ∷ [] }
{
    if steps.len() != 4 || back.plane.0 != there.plane.0 {
        return false;
    }
    pushes_all(&steps[0], there.plane)
        && is_tidy(&steps[1])
        && refills(&steps[2], there.leg)
        && refills(&steps[3], back.leg)
}

/// Whether a step pushes the legs of an aircraft after a leg.
fn pushes_after(step: &Step, aircraft: Plane, leg: Leg) -> bool
    ensures { result ≡ true → step.now ≡ Push aircraft (Some leg) }
{
    match step {
        Step::Push { plane, after } => match after {
            Some(first) => plane.0 == aircraft.0 && first.0 == leg.0,
            None => false,
        },
        _ => false,
    }
}

/// Whether a step is a Refill of a leg.
fn refills(step: &Step, asked: Leg) -> bool
    ensures { result ≡ true → step.now ≡ Refill asked }
{
    match step {
        Step::Refill { leg } => leg.0 == asked.0,
        _ => false,
    }
}

/// Whether it is known of a feasible plan that it is dear where an aircraft flies a leg again, alone or with one that leads back,
/// and its legs from a moment on are pushed.
fn is_known_dear(
    eval: &Evaluator,
    rotations: &Rotations,
    plane: Plane,
    at: Minute,
    leg: Leg,
    back: Option<Leg>,
) -> bool
    requires rotations { AreRotations eval.now.inst eval.now.rows rotations.now }
    requires plane { plane.0 < planes_of eval.now.inst }
    requires leg { leg.0 < legs_of eval.now.inst }
    requires back { ForSome back (λ other. other.0 < legs_of eval.now.inst) }
    ensures feasible { result ≡ true → rotations.now.feasible ≡ true }
    ensures dear { result ≡ true → IsDearRestore eval.now.inst eval.now.rows plane.0 at.0 (legs_with leg.0 back) }
{
    if !rotations.feasible {
        return false;
    }
    let (inst, plan) = (eval.instance(), eval.plan());
    let saved = rotations.payers.saved(inst, plan, plane, plane);
    let own = rotations.of_plane(plane);
    is_dear_restore(
        inst,
        plan,
        &rotations.payments,
        saved,
        plane,
        own,
        at,
        leg,
        back,
    )
}
