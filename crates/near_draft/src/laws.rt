//! What drafts are for.

ghost use Rattle.std.specs.Prelude.{◌≡◌, false};
ghost use Rattle.desk_data.specs.Situation.{Situation};
ghost use Rattle.desk_data.specs.PlanRows.{PlanRows};
ghost use Rattle.plan_moves.specs.declared.moves.Move.{Move};
ghost use Rattle.near_moves.specs.Descent.{is_better};
ghost use Rattle.near_moves.specs.RowRules.{BreaksRows};
ghost use Rattle.near_draft.specs.Drafts.{Drafted, IsDraftOf, plan_of};

/// A move is not better where the plan that is drafted of its first steps breaks a rule of rows.
pub fn a_move_is_not_better_whose_draft_breaks_a_rule()
    ensures { (I : Situation) (P : PlanRows) (m : Move) (D : Drafted) → IsDraftOf I P m D → BreaksRows D.inst (plan_of D) → is_better I P m ≡ false }
{}
