//! Moves that are known not to be better.

ghost use Rattle.std.specs.Prelude.{◌≡◌, ◌<◌, ◌≤◌, ◌==◌, ◌∷◌, All, length, true, false, nat_le};
ghost use Rattle.plan_moves.specs.declared.moves.Move.{Move as Asked};
ghost use Rattle.plan_moves.specs.Fits.{Fits, IsPathIn, StepFits};
ghost use Rattle.desk_data.specs.Situation.{legs_of, reservations_of};
ghost use Rattle.desk_data.specs.PlanRows.{groups_at};
ghost use Rattle.desk_rules.specs.Cost.{cost};
ghost use Rattle.desk_model.specs.Steps.{after_step};
ghost use Rattle.near_pax.specs.Units.{path_at};
ghost use Rattle.plan_checks.specs.Amounts.{passenger_cost};
ghost use Rattle.near_search.specs.Out.{IsRuledOut};
ghost use Rattle.near_search.specs.Rotations.{AreRotations};

use crate::drops::drop_dearly;
use crate::exchanges::exchange_dearly;
use crate::restores::restore_dearly;
use crate::rotations::Rotations;
use desk_data::{Path, Res};
use desk_eval::Evaluator;
use plan_checks::passenger_cost;
use plan_moves::{Move, Step};

/// Whether it is known without trying it that a move is not better, and why: it has one step, and that makes the plan no
/// cheaper; or it costs at least as much more as it saves at most; or it cancels legs, and those on one of them come to cost
/// as much as that saves at most; or nobody pays on its aircraft. Where it says no, nothing is known.
pub(crate) fn ruled_out(eval: &Evaluator, rotations: &Rotations, m: &Move) -> bool
    requires rotations { AreRotations eval.now.inst eval.now.rows rotations.now }
    requires fits { Fits eval.now.inst m.now }
    ensures { result ≡ true → IsRuledOut eval.now.inst eval.now.rows m.now }
{
    match m.steps.as_slice() {
        [step] => is_no_cheaper(eval, step),
        [first, others @ ..] => {
            goes_dearly(eval, rotations, first, others)
                || drop_dearly(eval, rotations, m)
                || is_unpaid(eval, rotations, m)
        }
        [] => false,
    }
}

/// Whether it is known of a move with a first step and others that it is not better, since it exchanges legs of two aircraft, or
/// flies legs again, and that costs at least as much more as it saves at most.
fn goes_dearly(eval: &Evaluator, rotations: &Rotations, first: &Step, others: &[Step]) -> bool
    requires rotations { AreRotations eval.now.inst eval.now.rows rotations.now }
    requires first { StepFits eval.now.inst first.now }
    requires others { All (StepFits eval.now.inst) others.now }
    ensures { result ≡ true → (m : Asked) → Fits eval.now.inst m → m.steps ≡ first.now ∷ others.now → IsRuledOut eval.now.inst eval.now.rows m }
{
    exchange_dearly(eval, rotations, first, others)
        || restore_dearly(eval, rotations, first, others)
}

/// Whether it is known that a move is not better since nobody pays on its aircraft.
fn is_unpaid(eval: &Evaluator, rotations: &Rotations, m: &Move) -> bool
    requires rotations { AreRotations eval.now.inst eval.now.rows rotations.now }
    requires fits { Fits eval.now.inst m.now }
    ensures { result ≡ true → IsRuledOut eval.now.inst eval.now.rows m.now }
{
    if !rotations.feasible {
        return false;
    }
    rotations.payers.rule_out(eval.instance(), eval.plan(), m)
}

/// Whether it is known that a step makes the plan no cheaper: it is a rebooking to a path on which a passenger
/// costs no less. Where it says no, nothing is known.
fn is_no_cheaper(eval: &Evaluator, step: &Step) -> bool
    requires { StepFits eval.now.inst step.now }
    ensures { result ≡ true → cost eval.now.inst eval.now.rows ≤ cost eval.now.inst (after_step eval.now.inst eval.now.rows step.now) }
{
    match step {
        Step::Rebook { res, path, to, .. } => costs_no_less(eval, *res, path, to),
        _ => false,
    }
}

/// Whether a passenger of a reservation costs no less on the path `to` than on a path.
fn costs_no_less(eval: &Evaluator, res: Res, path: &Path, to: &Path) -> bool
    requires res { res.0 < reservations_of eval.now.inst }
    requires path { IsPathIn (legs_of eval.now.inst) path.now }
    requires to { IsPathIn (legs_of eval.now.inst) to.now }
    ensures { result ≡ nat_le (passenger_cost eval.now.inst eval.now.rows res.0 path.now) (passenger_cost eval.now.inst eval.now.rows res.0 to.now) }
{
    let (inst, plan) = (eval.instance(), eval.plan());
    let now = passenger_cost(inst, plan, res, path.as_slice());
    let would = passenger_cost(inst, plan, res, to.as_slice());
    now.0 <= would.0
}

/// Whether a passenger of a reservation costs nothing on the path of one of its groups: then no move of
/// passengers off that path is better.
pub(crate) fn costs_nothing(eval: &Evaluator, res: Res, place: usize) -> bool
    requires res { res.0 < reservations_of eval.now.inst }
    requires place { place < length (groups_at eval.now.rows res.0) }
    ensures { result ≡ (passenger_cost eval.now.inst eval.now.rows res.0 (path_at eval.now.rows res.0 place) == 0) }
{
    let (inst, plan) = (eval.instance(), eval.plan());
    let path = plan.groups(res)[place].path.as_slice();
    passenger_cost(inst, plan, res, path).0 == 0
}
