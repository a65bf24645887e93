//! What holds of moves of legs that were not better.

ghost use Rattle.std.specs.Prelude.{◌≡◌, ℕ, ◌+◌, ◌++◌, Bool, List as Items, All, None, length, true};
ghost use Rattle.std.specs.List.{list_all};
ghost use Rattle.desk_data.specs.Situation.{Situation};
ghost use Rattle.desk_data.specs.PlanRows.{PlanRows};
ghost use Rattle.desk_data.specs.Valid.{IsPlanFor, IsValid};
ghost use Rattle.plan_moves.specs.Fits.{Fits};
ghost use Rattle.plan_moves.specs.declared.moves.Move.{Move};
ghost use Rattle.plan_moves.specs.declared.moves.Step.{Step};
ghost use Rattle.desk_rules.specs.Least.{least};
ghost use Rattle.desk_rules.specs.Cost.{cost};
ghost use Rattle.desk_model.specs.Steps.{after_move, after_steps};
ghost use Rattle.near_moves.specs.Near.{unit_moves};
ghost use Rattle.near_moves.specs.Units.{MoveUnit};
ghost use Rattle.near_moves.specs.Same.{AgreeOn};
ghost use Rattle.near_moves.specs.Steps.{BeginsFlown, is_among, is_tidying, unit_planes};
ghost use Rattle.near_moves.specs.Out.{IsOut};
ghost use Rattle.near_moves.specs.Room.{HaveSameRoom};
ghost use Rattle.near_untouched.specs.Dearer.{HaveSamePassengers, HaveSamePositions};
ghost use Rattle.near_untouched.specs.UntouchedUnits.{IsUntouchedUnit};
ghost use Rattle.near_untouched.specs.Planes.{AreUntouchedBeside, IsUntouchedPlane};

/// A move of some legs and aircraft changes the cost of two feasible plans by as much, where both agree on these, the
/// hours of their airports have the same room, and reservations and positions are the same as far as it touches them.
pub fn a_move_changes_the_cost_of_both_plans_by_as_much()
    ensures { (planes legs refilled touched : ℕ → Bool) (I : Situation) (P Q : PlanRows) (m : Move) (first others : Items Step) → IsValid I → IsPlanFor I P → IsPlanFor I Q → least I P ≡ None → least I Q ≡ None → AgreeOn planes legs P Q → HaveSameRoom legs I P Q → HaveSamePassengers legs refilled touched I P Q → HaveSamePositions planes I P Q → m.steps ≡ first ++ others → list_all (is_among planes legs) first ≡ true → list_all (is_tidying refilled) others ≡ true → IsPlanFor I (after_steps I P first) → IsPlanFor I (after_steps I Q first) → cost I (after_move I P m) + cost I Q ≡ cost I (after_move I Q m) + cost I P }
{}

/// Where it is known of each move of a unit of legs why it is not better at a feasible plan, the same is so at a later
/// feasible plan between which and the first one nothing was touched that the unit hangs on.
pub fn a_unit_that_is_untouched_stays_out()
    ensures { (I : Situation) (P Q : PlanRows) (u : MoveUnit) → IsValid I → IsPlanFor I P → IsPlanFor I Q → least I P ≡ None → least I Q ≡ None → BeginsFlown P u → All (Fits I) (unit_moves I P u) → IsUntouchedUnit I P Q u → All (IsOut I P u) (unit_moves I P u) → All (IsOut I Q u) (unit_moves I Q u) }
{}

/// A unit is untouched where its aircraft are, and the legs that it may fly again. What is said of an aircraft says
/// nothing of other aircraft: so a search need know of each alone whether it was touched.
pub fn a_unit_of_untouched_aircraft_is_untouched()
    ensures { (most : ℕ) (I : Situation) (P Q : PlanRows) (u : MoveUnit) → length P.rows ≡ length Q.rows → BeginsFlown P u → ((p : ℕ) → unit_planes P u p ≡ true → IsUntouchedPlane most I P Q p) → AreUntouchedBeside most I P Q u → IsUntouchedUnit I P Q u }
{}
