//! Going back: changes of an evaluator are taken back, or stand.

ghost use Rattle.std.specs.Prelude.{◌≡◌, ℕ, ◌≤◌, length};
ghost use Rattle.desk_data.specs.PlanRows.{PlanRows};
ghost use Rattle.desk_eval.specs.Evaluated.{Evaluated, after_change};
ghost use Rattle.desk_eval.specs.Back.{back_to};

use crate::Evaluator;
use crate::way_back::Undo;

/// Takes changes back until the past has no more of them than when the move was applied. Where nothing was
/// forgotten or taken back further since, the evaluator is as before the move; where the past has no more
/// changes than then, nothing changes. It takes no memory.
pub fn undo(eval: &mut Evaluator, undo: Undo)
    ensures { eval.new ≡ back_to undo.depth eval.old }
{
    go_back(eval, undo.depth);
}

/// Lets a move stand that was applied. It does nothing to an evaluator: `forget` empties its past.
pub fn keep(undo: Undo) {
    let _ = undo;
}

/// To go back to as many changes as the past has is to stay, a change made since is taken back, and to go
/// back twice is to go back to the fewer.
pub fn going_back_takes_back_what_was_changed_since()
    ensures itself { (E : Evaluated) → back_to (length E.past) E ≡ E }
    ensures change { (d : ℕ) (E : Evaluated) (P : PlanRows) → d ≤ length E.past → back_to d (after_change E P) ≡ back_to d E }
    ensures twice { (d e : ℕ) (E : Evaluated) → d ≤ e → back_to d (back_to e E) ≡ back_to d E }
{}

/// Takes the last changes back, one by one, until the past has no more than so many.
pub(crate) fn go_back(eval: &mut Evaluator, depth: u32)
    ensures { eval.new ≡ back_to depth eval.old }
{
    for _ in depth..eval.depth() {
        eval.back();
    }
}
