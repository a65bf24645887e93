//! What holds of reservations that a move leaves alone.

ghost use Rattle.std.specs.Prelude.{◌≡◌, ℕ, ◌+◌, ◌<◌, ◌≤◌, ◌++◌, ◌⊎◌, Bool, List as Items, None, true, false};
ghost use Rattle.std.specs.List.{list_all};
ghost use Rattle.desk_data.specs.Situation.{Situation, reservations_of};
ghost use Rattle.desk_data.specs.PlanRows.{PlanRows};
ghost use Rattle.desk_data.specs.Valid.{IsPlanFor, IsValid};
ghost use Rattle.plan_moves.specs.declared.moves.Move.{Move};
ghost use Rattle.plan_moves.specs.declared.moves.Step.{Step};
ghost use Rattle.desk_rules.specs.Least.{least};
ghost use Rattle.desk_rules.specs.Cost.{cost, operating_cost, position_cost};
ghost use Rattle.desk_model.specs.Steps.{after_steps};
ghost use Rattle.plan_checks.specs.Amounts.{reservation_cost};
ghost use Rattle.near_moves.specs.Descent.{is_better};
ghost use Rattle.near_moves.specs.RowRules.{keeps_rows};
ghost use Rattle.near_untouched.specs.Alone.{IsLeftAlone, cost_of_some};

/// A reservation of a feasible plan that a move leaves alone costs in the plan that the move makes what it did before.
pub fn a_reservation_that_is_left_alone_costs_what_it_did()
    ensures { (I : Situation) (P Q : PlanRows) (others : Items Step) (r : ℕ) → IsValid I → IsPlanFor I Q → least I P ≡ None → Q.groups ≡ P.groups → r < reservations_of I → IsLeftAlone I P Q others r → reservation_cost I (after_steps I Q others) r ≡ reservation_cost I P r }
{}

/// A move is not better where flying and the positions, by the rows that its first steps make, and the reservations
/// that it leaves alone, as they are, together cost as much as the plan does now. The plan is feasible, the first
/// steps leave each reservation its groups, and the others leave each leg its row.
pub fn a_move_that_saves_no_more_than_it_costs_is_not_better()
    ensures { (I : Situation) (P : PlanRows) (m : Move) (first others : Items Step) (some : ℕ → Bool) → IsValid I → IsPlanFor I (after_steps I P first) → least I P ≡ None → m.steps ≡ first ++ others → (after_steps I P first).groups ≡ P.groups → list_all keeps_rows others ≡ true → ((r : ℕ) → r < reservations_of I → some r ≡ true → IsLeftAlone I P (after_steps I P first) others r) → cost I P ≤ operating_cost I (after_steps I P first) + position_cost I (after_steps I P first) + cost_of_some I P some → is_better I P m ≡ false }
{}

/// A move is not better where each reservation costs nothing or is left alone, and neither flying nor the positions
/// become cheaper by the rows that its first steps make. The plan is feasible, the first steps leave each reservation
/// its groups, and the others leave each leg its row.
pub fn a_move_that_touches_nobody_who_costs_anything_is_not_better()
    ensures { (I : Situation) (P : PlanRows) (m : Move) (first others : Items Step) → IsValid I → IsPlanFor I (after_steps I P first) → least I P ≡ None → m.steps ≡ first ++ others → (after_steps I P first).groups ≡ P.groups → list_all keeps_rows others ≡ true → ((r : ℕ) → r < reservations_of I → (reservation_cost I P r ≡ 0) ⊎ IsLeftAlone I P (after_steps I P first) others r) → operating_cost I P ≤ operating_cost I (after_steps I P first) → position_cost I P ≤ position_cost I (after_steps I P first) → is_better I P m ≡ false }
{}
