//! Moves that cancel a run of legs and are known to be dear.

ghost use Rattle.std.specs.Prelude.{◌≡◌, ◌<◌, ◌++◌, ◌∷◌, All, None, [], true};
ghost use Rattle.plan_moves.specs.declared.moves.Move.{Move as Asked};
ghost use Rattle.plan_moves.specs.declared.moves.Step.TheVariants.{Push, Tidy};
ghost use Rattle.plan_moves.specs.Fits.{Fits, StepFits};
ghost use Rattle.desk_data.specs.Situation.{planes_of};
ghost use Rattle.near_search.specs.Out.{IsRuledOut};
ghost use Rattle.near_search.specs.Rotations.{AreRotations};

use crate::rotations::Rotations;
use desk_data::Plane;
use desk_eval::Evaluator;
use near_dear::{dropped_by, is_dear_drop};
use plan_moves::{Move, Step};

/// Whether it is known that a move is not better, since it cancels legs of an aircraft, and those on one of them come to cost
/// at least what it could save. Where it says no, nothing is known.
pub(crate) fn drop_dearly(eval: &Evaluator, rotations: &Rotations, m: &Move) -> bool
    requires rotations { AreRotations eval.now.inst eval.now.rows rotations.now }
    requires fits { Fits eval.now.inst m.now }
    ensures { result ≡ true → IsRuledOut eval.now.inst eval.now.rows m.now }
{
    if !rotations.feasible {
        return false;
    }
    match dropped_by(m.steps.as_slice()) {
        Some(found) => is_dear(eval, rotations, found.0, found.1),
        None => false,
    }
}

/// Whether that is known of a feasible plan and a move with steps that cancel legs, after which all other movable legs of
/// an aircraft are pushed, and a Tidy comes last.
fn is_dear(eval: &Evaluator, rotations: &Rotations, plane: Plane, cancels: &[Step]) -> bool
    requires rotations { AreRotations eval.now.inst eval.now.rows rotations.now }
    requires feasible { rotations.now.feasible ≡ true }
    requires plane { plane.0 < planes_of eval.now.inst }
    requires fits { All (StepFits eval.now.inst) cancels.now }
    ensures { result ≡ true → (m : Asked) → Fits eval.now.inst m → m.steps ≡ cancels.now ++ Push plane None ∷ Tidy ∷ [] → IsRuledOut eval.now.inst eval.now.rows m }
{
    let (inst, plan) = (eval.instance(), eval.plan());
    let _rows = inst.parts();
    let payments = &rotations.payments;
    let owed = rotations.owed.as_slice();
    let legs = rotations.of_plane(plane);
    is_dear_drop(inst, plan, payments, owed, plane, legs, cancels)
}
