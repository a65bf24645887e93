//! What holds of added legs.

ghost use Rattle.std.specs.Prelude.{◌≡◌, ℕ, ◌+◌, ◌<◌, None, Some, [], find, length, List as Items};
ghost use Rattle.std.specs.Option.{option_map};
ghost use Rattle.added_legs.specs.Added.{cost_added, items_from_c4, least_added};
ghost use Rattle.added_legs.specs.Ferried.{IsFerried, candidates, lowers};
ghost use Rattle.added_legs.specs.Merged.{added_for, merged_day, merged_plan};
ghost use Rattle.added_legs.specs.Words.{EachPays, IsFlownBeside, IsUntouched};
ghost use Rattle.added_legs.specs.declared.added.AddBroken.TheVariants as add;
ghost use Rattle.added_legs.specs.declared.added.Added.{Added as Extra};
ghost use Rattle.desk_data.specs.PlanRows.{PlanRows, row_at};
ghost use Rattle.desk_data.specs.Situation.{Situation, leg_at, legs_of, planes_of};
ghost use Rattle.desk_data.specs.Valid.{IsValid};
ghost use Rattle.desk_rules.specs.Cost.{cost};
ghost use Rattle.desk_rules.specs.Least.{breaks};

/// In the merged day the added leg of an aircraft leaves where the aircraft ends, arrives at its destination, departs when
/// the list says, takes the minutes of the distance, and has no previous leg. Its number is the aircraft's, counted from the
/// number of legs.
pub fn added_legs_leave_where_their_aircraft_end()
    ensures { (I : Situation) (P : PlanRows) (A : Items Extra) (p : ℕ) (a : Extra) → length P.rows ≡ legs_of I → p < planes_of I → added_for A p ≡ Some a → IsFlownBeside I P p a (leg_at (merged_day I P A) (legs_of I + p)) (row_at (merged_plan I P A) (legs_of I + p)) }
{}

/// Added legs touch nothing that is scheduled: the legs of the day, the rows of the plan, the passengers, the orders and
/// what has left stand in the merged day and the merged plan as they were.
pub fn nothing_scheduled_is_touched()
    ensures { (I : Situation) (P : PlanRows) (A : Items Extra) → length P.rows ≡ legs_of I → IsUntouched I P A }
{}

/// With no added leg the first item that is broken is that of the plan, and the cost is that of the plan.
pub fn a_list_of_no_added_legs_is_the_plan()
    ensures least { (I : Situation) (P : PlanRows) → IsValid I → length P.rows ≡ legs_of I → least_added I P [] ≡ option_map add.Old (find (breaks I P) (items_from_c4 I)) }
    ensures cost { (I : Situation) (P : PlanRows) → IsValid I → length P.rows ≡ legs_of I → cost_added I P [] ≡ cost I P }
{}

/// Each leg that `ferry` adds lowers the cost, and with it the list breaks no rule of C4 to C11; and with the whole list
/// there is no candidate left that would lower the cost.
pub fn each_added_leg_lowers_the_cost_and_breaks_no_rule()
    ensures each { (I : Situation) (P : PlanRows) (A : Items Extra) → IsFerried I P A → EachPays I P A }
    ensures done { (I : Situation) (P : PlanRows) (A : Items Extra) → IsFerried I P A → find (lowers I P A) (candidates I P A) ≡ None }
{}

/// There is at most one list of legs that `ferry` adds.
pub fn only_one_list_is_ferried()
    ensures { (I : Situation) (P : PlanRows) (A B : Items Extra) → IsFerried I P A → IsFerried I P B → A ≡ B }
{}
