//! What the moves of a shard are, and what rules moves out.

ghost use Rattle.std.specs.Prelude.{◌≡◌, ℕ, ◌≤◌, false, [], ◌∷◌, ◌++◌, List as Items, All};
ghost use Rattle.desk_units.specs.declared.numbers.Leg.{Leg};
ghost use Rattle.desk_units.specs.declared.numbers.Cabin.{Cabin};
ghost use Rattle.desk_units.specs.declared.numbers.Res.{Res};
ghost use Rattle.plan_moves.specs.declared.moves.Move.{Move};
ghost use Rattle.plan_moves.specs.declared.moves.Step.TheVariants.{Rebook};
ghost use Rattle.desk_data.specs.Situation.{Situation};
ghost use Rattle.desk_data.specs.PlanRows.{PlanRows};
ghost use Rattle.desk_rules.specs.Cost.{cost};
ghost use Rattle.desk_model.specs.Rebook.{after_rebook};
ghost use Rattle.plan_checks.specs.Amounts.{passenger_cost};
ghost use Rattle.near_moves.specs.Near.{shard, unit_moves};
ghost use Rattle.near_moves.specs.Units.{rebooked};
ghost use Rattle.near_moves.specs.Descent.{is_better};
ghost use Rattle.near_search.specs.Given.{LegsGive, PassengersGive};

/// The moves that a `LegMoves` of a shard gives, call after call until it gives none, and after them those that a
/// `PaxMoves` of the shard gives so, are the moves of the shard: all of them, in their order, and no others.
pub fn moves_of_legs_and_then_of_passengers_are_the_shard()
    ensures { (I : Situation) (P : PlanRows) (s n : ℕ) (legs passengers : Items Move) → LegsGive I P s n legs → PassengersGive I P s n passengers → legs ++ passengers ≡ shard I P s n }
{}

/// A rebooking to a path on which a passenger costs no less makes no plan cheaper, however many go: so
/// many passengers cost so many times what one costs. So no rebooking from a path that costs a passenger
/// nothing is better, and none of the moves that take passengers off it.
pub fn a_rebooking_to_a_path_that_costs_no_less_is_not_better()
    ensures cost { (I : Situation) (P : PlanRows) (r : ℕ) (path to : Items (Leg × Cabin)) (count : ℕ) → passenger_cost I P r path ≤ passenger_cost I P r to → cost I P ≤ cost I (after_rebook P r path to count) }
    ensures better { (I : Situation) (P : PlanRows) (m : Move) (res : Res) (path to : Items (Leg × Cabin)) (count : ℕ) → m.steps ≡ Rebook res path to count ∷ [] → passenger_cost I P res.0 path ≤ passenger_cost I P res.0 to → is_better I P m ≡ false }
    ensures unit { (I : Situation) (P : PlanRows) (r : ℕ) (path : Items (Leg × Cabin)) → passenger_cost I P r path ≡ 0 → All (λ m. is_better I P m ≡ false) (unit_moves I P (rebooked r path)) }
{}
