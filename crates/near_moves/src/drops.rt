//! What holds of legs that are dropped together.

ghost use Rattle.std.specs.Prelude.{◌↔◌, ℕ, List as Items, Contains, filter};
ghost use Rattle.desk_data.specs.Situation.{Situation};
ghost use Rattle.desk_data.specs.PlanRows.{PlanRows};
ghost use Rattle.plan_moves.specs.declared.moves.Step.{Step};
ghost use Rattle.near_moves.specs.LegMoves.{comes_round, droppings, run_lengths};
ghost use Rattle.near_moves.specs.DropWords.{DropsRun, IsDropping};

/// Legs are dropped together just where they are a run of 1 to 4 whose last leg arrives where the first
/// leaves, or is the last leg of its aircraft. The move cancels them in their order, pushes the other movable
/// legs of the aircraft, and tidies.
pub fn runs_are_dropped_where_they_come_round()
    ensures runs { (I : Situation) (P : PlanRows) (x k : ℕ) → Contains (filter (comes_round I P x) run_lengths) k ↔ DropsRun I P x k }
    ensures moves { (I : Situation) (P : PlanRows) (x : ℕ) (steps : Items Step) → Contains (droppings I P x) steps ↔ IsDropping I P x steps }
{}
