//! What holds of a move by which an aircraft flies cancelled legs again.

ghost use Rattle.std.specs.Prelude.{◌≡◌, ℕ, ◌≤◌, [], ◌∷◌, List as Items, None, Option as Maybe, Some, false};
ghost use Rattle.desk_units.specs.declared.numbers.Leg.{Leg};
ghost use Rattle.desk_data.specs.Situation.{Situation, earliest};
ghost use Rattle.desk_data.specs.PlanRows.{PlanRows};
ghost use Rattle.desk_data.specs.Valid.{IsPlanFor, IsValid};
ghost use Rattle.plan_moves.specs.Fits.{Fits};
ghost use Rattle.plan_moves.specs.declared.moves.Move.{Move};
ghost use Rattle.plan_moves.specs.declared.moves.Step.{Step};
ghost use Rattle.plan_moves.specs.declared.moves.Step.TheVariants.{Refill, Tidy};
ghost use Rattle.desk_rules.specs.Cost.{cost};
ghost use Rattle.desk_rules.specs.Least.{least};
ghost use Rattle.desk_model.specs.Steps.{after_move};
ghost use Rattle.near_moves.specs.Descent.{is_better};
ghost use Rattle.near_moves.specs.LegMoves.{back_departure, restoring_alone, restoring_both};
ghost use Rattle.near_moves.specs.MoveParts.{leg};
ghost use Rattle.near_moves.specs.Units.{MoveUnit};
ghost use Rattle.near_moves.specs.Out.{IsOut};
ghost use Rattle.near_dear.specs.Restored.{IsDearRestore, IsRestore, flown_legs};

/// A move by which an aircraft of a feasible plan flies cancelled legs again makes the plan no cheaper where flying them
/// costs at least as much as is saved at most. So it is out, of whichever unit it is, and it is not better.
pub fn a_dear_restore_is_out()
    ensures known { (I : Situation) (P : PlanRows) (m : Move) (p at : ℕ) (flights : Items (ℕ × ℕ)) (after : Maybe Leg) (others : Items Step) → IsValid I → IsPlanFor I P → least I P ≡ None → Fits I m → IsRestore m p at flights after others → IsDearRestore I P p at (flown_legs flights) → cost I P ≤ cost I (after_move I P m) }
    ensures out { (I : Situation) (P : PlanRows) (m : Move) (u : MoveUnit) (p at : ℕ) (flights : Items (ℕ × ℕ)) (after : Maybe Leg) (others : Items Step) → IsValid I → IsPlanFor I P → least I P ≡ None → Fits I m → IsRestore m p at flights after others → IsDearRestore I P p at (flown_legs flights) → IsOut I P u m }
    ensures worse { (I : Situation) (P : PlanRows) (m : Move) (p at : ℕ) (flights : Items (ℕ × ℕ)) (after : Maybe Leg) (others : Items Step) → IsValid I → IsPlanFor I P → least I P ≡ None → Fits I m → IsRestore m p at flights after others → IsDearRestore I P p at (flown_legs flights) → is_better I P m ≡ false }
{}

/// By each move of N4 an aircraft flies cancelled legs again: one alone, and then its legs after it are pushed; or with it one that
/// leads back, and then all its legs are.
pub fn moves_that_restore_legs_fly_them_again()
    ensures alone { (I : Situation) (m : Move) (x p : ℕ) → m.steps ≡ restoring_alone I x p → IsRestore m p (earliest I x) ((x, earliest I x) ∷ []) (Some (leg x)) (Tidy ∷ Refill (leg x) ∷ []) }
    ensures both { (I : Situation) (m : Move) (x p y : ℕ) → m.steps ≡ restoring_both I x p y → IsRestore m p 0 ((x, earliest I x) ∷ (y, back_departure I x p y) ∷ []) None (Tidy ∷ Refill (leg x) ∷ Refill (leg y) ∷ []) }
{}
