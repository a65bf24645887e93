//! What becomes of a proposed move.

ghost use Rattle.std.specs.Prelude.{◌≡◌, [], IfOk, OnErr};
ghost use Rattle.plan_moves.specs.Fits.{Fits};
ghost use Rattle.desk_rules.specs.Least.{least};
ghost use Rattle.desk_rules.specs.Cost.{cost};
ghost use Rattle.desk_model.specs.States.{verdict};
ghost use Rattle.desk_core.specs.Judged.{IsJudged, IsVerdict};

use desk_data::{Grains, NoMem};
use desk_eval::{Evaluator, Undo, apply, keep, undo};
use desk_model::Answer;
use plan_moves::Move;
use std::alloc::Global;

/// What judging a move finds out.
#[derive(Drop)]
pub(crate) enum Judged {
    /// The moved plan is feasible and cheaper, and stands in the evaluator: what takes it back, and
    /// its cost.
    Moved { undo: Undo, cost: Grains },
    /// The answer to a move that is refused. The evaluator is as before.
    Refused(Answer),
}

/// Judges a move at the plan of an evaluator whose past is empty. After an error, which is out of
/// memory, the evaluator is as before.
pub(crate) fn judge(alloc: Global, eval: &mut Evaluator, m: &Move) -> Result<Judged, NoMem>
    requires fits { Fits eval.old.inst m.now }
    requires past { eval.old.past ≡ [] }
    ensures ok { IfOk result (IsJudged eval.old m.now eval.new) }
    ensures err { OnErr result (eval.new ≡ eval.old) }
{
    if let Some(item) = eval.least_broken() {
        return Ok(Judged::Refused(Answer::NoPlan(item)));
    }
    let now = eval.cost();
    let applied = apply(alloc, eval, m)?;
    match refusal(now, eval) {
        Some(answer) => {
            undo(eval, applied);
            Ok(Judged::Refused(answer))
        }
        None => Ok(Judged::Moved {
            undo: applied,
            cost: eval.cost(),
        }),
    }
}

/// What a move is refused with whose moved plan stands in an evaluator, where the plan before it
/// costs `now`: the first item that the moved plan breaks, or that it is not cheaper. `None` where
/// it is accepted.
fn refusal(now: Grains, moved: &Evaluator) -> Option<Answer>
    ensures { IsVerdict (verdict (least moved.now.inst moved.now.rows) now.0 (cost moved.now.inst moved.now.rows)) (cost moved.now.inst moved.now.rows) result }
{
    if let Some(item) = moved.least_broken() {
        return Some(Answer::Breaks(item));
    }
    let would = moved.cost();
    if would.0 >= now.0 {
        return Some(Answer::Dearer { now, would });
    }
    None
}

/// Lets a move stand that was applied to an evaluator: no change is taken back any more.
pub(crate) fn publish(eval: &mut Evaluator, applied: Undo)
    ensures { eval.new ≡ record eval.old { past = [] } }
{
    keep(applied);
    eval.forget();
}
