//! What holds of a move that cancels legs of an aircraft.

ghost use Rattle.std.specs.Prelude.{◌≡◌, ℕ, ◌<◌, ◌≤◌, All, List as Items, None, false, sum_by, true};
ghost use Rattle.desk_data.specs.declared.row.Row.TheVariants.{Cancelled};
ghost use Rattle.desk_data.specs.Situation.{Situation, reservations_of};
ghost use Rattle.desk_data.specs.PlanRows.{PlanRows, groups_at, row_at};
ghost use Rattle.desk_data.specs.Valid.{IsPlanFor, IsValid};
ghost use Rattle.plan_moves.specs.Fits.{Fits};
ghost use Rattle.plan_moves.specs.declared.moves.Move.{Move};
ghost use Rattle.desk_rules.specs.Cost.{cost};
ghost use Rattle.desk_rules.specs.Least.{least};
ghost use Rattle.desk_rules.specs.Maintenance.{flies};
ghost use Rattle.desk_model.specs.Steps.{after_move};
ghost use Rattle.desk_model.specs.Tidy.{after_tidy};
ghost use Rattle.plan_checks.specs.Amounts.{reservation_cost};
ghost use Rattle.near_moves.specs.Descent.{is_better};
ghost use Rattle.near_moves.specs.LegMoves.{dropping};
ghost use Rattle.near_moves.specs.MoveParts.{flier, run};
ghost use Rattle.near_moves.specs.Units.{MoveUnit, dropped};
ghost use Rattle.near_moves.specs.Out.{IsOut};
ghost use Rattle.near_dear.specs.Owed.{owed_by};
ghost use Rattle.near_dear.specs.Drops.{IsDearDrop, dropping_legs};

/// After a Tidy a reservation costs at least what those of it come to cost, no longer carried, who were on a leg that is
/// cancelled.
pub fn those_on_a_cancelled_leg_are_not_carried_after_a_tidy()
    ensures { (I : Situation) (P : PlanRows) (r x : ℕ) → r < reservations_of I → row_at P x ≡ Cancelled → sum_by (owed_by I x r) (groups_at P r) ≤ reservation_cost I (after_tidy I P) r }
{}

/// A move that cancels legs of an aircraft of a feasible plan, pushes its other movable legs and tidies makes the plan no
/// cheaper where those on one of the legs come to cost as much as flying the legs, the positions and those who are on legs
/// of the aircraft could save. So is a move of N3 whose run is such legs: it is out, of whichever unit it is.
pub fn a_dear_drop_is_out()
    ensures dear { (I : Situation) (P : PlanRows) (m : Move) (p : ℕ) (legs : Items ℕ) → IsValid I → IsPlanFor I P → least I P ≡ None → Fits I m → m.steps ≡ dropping_legs P p legs → All (λ x. flies P p x ≡ true) legs → IsDearDrop I P p legs → cost I P ≤ cost I (after_move I P m) }
    ensures run { (I : Situation) (P : PlanRows) (m : Move) (x k : ℕ) → IsValid I → IsPlanFor I P → least I P ≡ None → Fits I m → m.steps ≡ dropping I P x k → IsDearDrop I P (flier (row_at P x)) (run I P x k) → cost I P ≤ cost I (after_move I P m) }
    ensures out { (I : Situation) (P : PlanRows) (m : Move) (u : MoveUnit) (x k : ℕ) → IsValid I → IsPlanFor I P → least I P ≡ None → Fits I m → m.steps ≡ dropping I P x k → IsDearDrop I P (flier (row_at P x)) (run I P x k) → IsOut I P u m }
    ensures worse { (I : Situation) (P : PlanRows) (m : Move) (x k : ℕ) → IsValid I → IsPlanFor I P → least I P ≡ None → Fits I m → m.steps ≡ dropping I P x k → IsDearDrop I P (flier (row_at P x)) (run I P x k) → is_better I P m ≡ false }
{}
