//! What first steps decide, whatever becomes of the passengers.

ghost use Rattle.std.specs.Prelude.{◌≡◌, ◌++◌, List as Items, true, false};
ghost use Rattle.std.specs.List.{list_all};
ghost use Rattle.desk_data.specs.declared.broken.Broken.{Broken as Item};
ghost use Rattle.desk_data.specs.Situation.{Situation};
ghost use Rattle.desk_data.specs.PlanRows.{PlanRows};
ghost use Rattle.plan_moves.specs.declared.moves.Move.{Move};
ghost use Rattle.plan_moves.specs.declared.moves.Step.{Step};
ghost use Rattle.desk_rules.specs.Least.{breaks};
ghost use Rattle.desk_model.specs.Steps.{after_steps};
ghost use Rattle.near_moves.specs.Descent.{is_better};
ghost use Rattle.near_moves.specs.RowRules.{is_of_rows, keeps_rows};

/// Steps among which there is no Set, no Push and no Swap leave each leg its row.
pub fn steps_of_passengers_leave_each_leg_its_row()
    ensures { (I : Situation) (P : PlanRows) (steps : Items Step) → list_all keeps_rows steps ≡ true → (after_steps I P steps).rows ≡ P.rows }
{}

/// Two plans with the same rows break the same items of C1 to C11, whatever their passengers.
pub fn rules_of_legs_aircraft_and_hours_ask_rows_alone()
    ensures { (I : Situation) (P Q : PlanRows) (item : Item) → is_of_rows I item ≡ true → Q.rows ≡ P.rows → breaks I Q item ≡ breaks I P item }
{}

/// A move is not better where the plan that its first steps make breaks an item of C1 to C11, and no Set, Push or
/// Swap is among the others: their passengers may be moved, and the item stays broken.
pub fn a_rule_of_rows_that_first_steps_break_stays_broken()
    ensures { (I : Situation) (P : PlanRows) (m : Move) (first others : Items Step) (item : Item) → m.steps ≡ first ++ others → list_all keeps_rows others ≡ true → is_of_rows I item ≡ true → breaks I (after_steps I P first) item ≡ true → is_better I P m ≡ false }
{}
