//! Exchanges of the legs of two aircraft that are known to be dear.

ghost use Rattle.std.specs.Prelude.{◌≡◌, ◌<◌, ◌∷◌, length, None, [], true};
ghost use Rattle.std.specs.Option.{ForSome};
ghost use Rattle.plan_moves.specs.declared.moves.Move.{Move};
ghost use Rattle.plan_moves.specs.declared.moves.Step.TheVariants.{Push, Tidy};
ghost use Rattle.plan_moves.specs.Fits.{Fits, StepFits};
ghost use Rattle.desk_data.specs.Situation.{planes_of};
ghost use Rattle.near_search.specs.Out.{IsRuledOut};
ghost use Rattle.near_search.specs.Rotations.{AreRotations};
ghost use Rattle.near_dear.specs.Dear.{IsDearExchange};
ghost use Rattle.near_dear.specs.Stands.{AreStands};
ghost use Rattle.near_dear.specs.Times.{ArePlaneTimes};

use crate::rotations::{Rotations, stand, stand_before};
use desk_data::{Minute, Plane};
use desk_eval::Evaluator;
use near_dear::{PlaneTimes, Stands, is_dear_exchange};
use plan_moves::Step;

/// Whether it is known that a move with a first step and others is not better, since it exchanges the legs of two aircraft,
/// and that costs at least as much more as those pay who are on their legs. Where it says no, nothing is known.
pub(crate) fn exchange_dearly(
    eval: &Evaluator,
    rotations: &Rotations,
    first: &Step,
    others: &[Step],
) -> bool
    requires rotations { AreRotations eval.now.inst eval.now.rows rotations.now }
    requires fits { StepFits eval.now.inst first.now }
    ensures { result ≡ true → (m : Move) → Fits eval.now.inst m → m.steps ≡ first.now ∷ others.now → IsRuledOut eval.now.inst eval.now.rows m }
{
    let _rows = eval.instance().parts();
    // the plan is one for the day
    let _ = eval.plan();
    match first {
        Step::Swap { first, second, at } => {
            push_both(others, *first, *second)
                && is_known_dear(eval, rotations, *first, *second, *at)
        }
        _ => false,
    }
}

/// Whether some steps push all legs of one aircraft, then all of another one, and then are a Tidy.
fn push_both(steps: &[Step], one: Plane, other: Plane) -> bool
    ensures { result ≡ true → steps.now ≡ Push one None ∷ Push other None ∷ Tidy ∷ [] }
{
    if steps.len() != 3 {
        return false;
    }
    pushes_all(&steps[0], one) && pushes_all(&steps[1], other) && is_tidy(&steps[2])
}

/// Whether a step pushes all legs of an aircraft.
pub(crate) fn pushes_all(step: &Step, aircraft: Plane) -> bool
    ensures { result ≡ true → step.now ≡ Push aircraft None }
{
    match step {
        Step::Push { plane, after } => plane.0 == aircraft.0 && after.is_none(),
        _ => false,
    }
}

/// Whether a step is a Tidy.
pub(crate) fn is_tidy(step: &Step) -> bool
    ensures { result ≡ true → step.now ≡ Tidy }
{
    match step {
        Step::Tidy => true,
        _ => false,
    }
}

/// Whether it is known of a feasible plan that it is dear where two aircraft exchange their legs from a moment on.
fn is_known_dear(
    eval: &Evaluator,
    rotations: &Rotations,
    first: Plane,
    second: Plane,
    at: Minute,
) -> bool
    requires rotations { AreRotations eval.now.inst eval.now.rows rotations.now }
    requires first { first.0 < planes_of eval.now.inst }
    requires second { second.0 < planes_of eval.now.inst }
    ensures feasible { result ≡ true → rotations.now.feasible ≡ true }
    ensures dear { result ≡ true → IsDearExchange eval.now.inst eval.now.rows first.0 second.0 at.0 }
{
    if !rotations.feasible || !count_hands(eval, rotations) {
        return false;
    }
    match times_at(eval, rotations, first) {
        Some(one) => match times_at(eval, rotations, second) {
            Some(other) => is_dear(eval, rotations, (first, second), (one, other), at),
            None => false,
        },
        None => false,
    }
}

/// What is told of an aircraft, if it flies few enough legs.
fn times_at(_eval: &Evaluator, rotations: &Rotations, plane: Plane) -> Option<PlaneTimes>
    requires rotations { AreRotations _eval.now.inst _eval.now.rows rotations.now }
    requires plane { plane.0 < planes_of _eval.now.inst }
    ensures { ForSome result (ArePlaneTimes _eval.now.inst _eval.now.rows plane.0) }
{
    rotations.times[plane.0 as usize]
}

/// Whether it was counted how many aircraft are at hand for each position.
fn count_hands(eval: &Evaluator, rotations: &Rotations) -> bool
    ensures { result ≡ true → length rotations.now.payments.hands.items ≡ length eval.now.inst.parts.positions }
{
    rotations.payments.hands().len() == eval.instance().positions().len()
}

/// Whether that is known of two aircraft, given what is told of both.
fn is_dear(
    eval: &Evaluator,
    rotations: &Rotations,
    planes: (Plane, Plane),
    times: (PlaneTimes, PlaneTimes),
    at: Minute,
) -> bool
    requires rotations { AreRotations eval.now.inst eval.now.rows rotations.now }
    requires hands { length rotations.now.payments.hands.items ≡ length eval.now.inst.parts.positions }
    requires first { planes.0.0 < planes_of eval.now.inst }
    requires second { planes.1.0 < planes_of eval.now.inst }
    requires times { ArePlaneTimes eval.now.inst eval.now.rows planes.0.0 times.0 }
    requires other_times { ArePlaneTimes eval.now.inst eval.now.rows planes.1.0 times.1 }
    ensures { result ≡ true → IsDearExchange eval.now.inst eval.now.rows planes.0.0 planes.1.0 at.0 }
{
    let (inst, plan) = (eval.instance(), eval.plan());
    let hands = rotations.payments.hands();
    let legs = rotations.of_plane(planes.0);
    let others = rotations.of_plane(planes.1);
    let stands = stands_at(eval, rotations, planes, at);
    is_dear_exchange(inst, plan, hands, planes, times, legs, others, stands, at)
}

/// Where two aircraft stand, at a moment and at the end.
fn stands_at(eval: &Evaluator, rotations: &Rotations, planes: (Plane, Plane), at: Minute) -> Stands
    requires rotations { AreRotations eval.now.inst eval.now.rows rotations.now }
    requires first { planes.0.0 < planes_of eval.now.inst }
    requires second { planes.1.0 < planes_of eval.now.inst }
    ensures { AreStands eval.now.inst eval.now.rows planes.0.0 planes.1.0 at.0 result }
{
    Stands {
        before: stand_before(eval, rotations, planes.0, at),
        other_before: stand_before(eval, rotations, planes.1, at),
        end: stand(eval, rotations, planes.0),
        other_end: stand(eval, rotations, planes.1),
    }
}
