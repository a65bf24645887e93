//! What holds of the desk's histories.

ghost use Rattle.std.specs.Prelude.{◌≡◌, ◌↔◌, ℕ, ◌<◌, ◌≤◌, ◌++◌, None, Some, List as Items};
ghost use Rattle.desk_data.specs.declared.broken.Broken.{Broken};
ghost use Rattle.desk_data.specs.declared.row.Row.{Row};
ghost use Rattle.desk_data.specs.Begun.{HasRoomBehind};
ghost use Rattle.desk_data.specs.PlanRows.{groups_at, row_at};
ghost use Rattle.desk_data.specs.Situation.{Situation, frozen_at, legs_of, now_of, reservations_of};
ghost use Rattle.desk_data.specs.Valid.{IsValid};
ghost use Rattle.desk_rules.specs.Words.{EachCarried, IsFeasible, IsLeast};
ghost use Rattle.desk_model.specs.declared.answer.Entry.{Entry as Recorded};
ghost use Rattle.desk_model.specs.declared.answer.Event.{Event as Asked};
ghost use Rattle.desk_model.specs.States.{opening};
ghost use Rattle.desk_model.specs.Histories.{AreAskable, IsAskable, IsLegal, TellsNoMoment, moment_behind, orders_of, run, state};
ghost use Rattle.desk_model.specs.Batches.{HasPlanRows};
ghost use Rattle.desk_model.specs.Promises.{KeepsPromises, state_at};

/// In a legal history from the opening of an instance each published plan meets all rules, and each
/// stored cost is the cost of the rows. A batch freezes what has left before its moment, adds its orders, and
/// leaves the rows that the desk falls back on; it is answered with the name of the first of the three that is feasible, or with the
/// first item that the rows of Ground break. Where the answer is that there is no plan, the state after
/// it has none, and breaks the item that was reported. A proposal to a published plan is accepted exactly
/// where the moved plan is feasible and cheaper, and every other answer to one changes nothing, so that
/// between two batches costs only fall; each names the item or the costs of the moved plan, or that
/// there was no plan. Two beginnings of the history with equally many changes have the same state.
pub fn legal_histories_keep_the_promises()
    ensures { (I : Situation) (h : Items Recorded) → IsLegal (opening I) h → KeepsPromises I h }
{}

/// The history of any events that can be asked is legal.
pub fn runs_are_legal()
    ensures { (I : Situation) (events : Items (ℕ × Asked)) → AreAskable I events → IsLegal (opening I) (run (opening I) events) }
{}

/// A state has a plan exactly where its rows are feasible, and else it has the first item that they
/// break.
pub fn a_state_has_a_plan_exactly_where_its_rows_are_feasible()
    ensures planned { (I : Situation) (h : Items Recorded) → (state (opening I) h).broken ≡ None ↔ IsFeasible (state (opening I) h).inst (state (opening I) h).plan }
    ensures unplanned { (I : Situation) (h : Items Recorded) (item : Broken) → (state (opening I) h).broken ≡ Some item ↔ IsLeast (state (opening I) h).inst (state (opening I) h).plan item }
{}

/// The rows of a state's day are those of the opening. Its orders are those of the opening, with those of all
/// batches after them in the order in which they were taken. It has gone on to the latest moment that its
/// batches tell, and where none tells a later one to that of the opening. Where no batch tells a moment,
/// nothing more has left than at the opening.
pub fn a_states_orders_are_those_of_its_batches()
    ensures rows { (I : Situation) (h : Items Recorded) → (state (opening I) h).inst.parts ≡ I.parts }
    ensures orders { (I : Situation) (h : Items Recorded) → (state (opening I) h).inst.orders ≡ I.orders ++ orders_of h }
    ensures now { (I : Situation) (h : Items Recorded) → now_of (state (opening I) h).inst ≡ moment_behind (now_of I) h }
    ensures progress { (I : Situation) (h : Items Recorded) → TellsNoMoment h → (state (opening I) h).inst.progress ≡ I.progress }
{}

/// What has left stays as it left. A leg that is frozen in a state is frozen with the same row in each later
/// one. Where the rows of a state break nothing, each frozen leg has the row with which it is frozen; and of
/// each carried path of a reservation, some of its passengers have flown just those legs that have left, and
/// no more are carried so than have.
pub fn what_has_left_stays_as_it_left()
    ensures stays { (I : Situation) (h : Items Recorded) (i j x : ℕ) (row : Row) → x < legs_of I → i ≤ j → frozen_at (state_at I h i).inst x ≡ Some row → frozen_at (state_at I h j).inst x ≡ Some row }
    ensures flies { (I : Situation) (h : Items Recorded) (x : ℕ) (row : Row) → x < legs_of I → (state (opening I) h).broken ≡ None → frozen_at (state (opening I) h).inst x ≡ Some row → row_at (state (opening I) h).plan x ≡ row }
    ensures passengers { (I : Situation) (h : Items Recorded) (r : ℕ) → r < reservations_of I → (state (opening I) h).broken ≡ None → EachCarried (state (opening I) h).plan r (HasRoomBehind (state (opening I) h).inst r (groups_at (state (opening I) h).plan r)) }
{}

/// What can be asked depends on the joined rows alone: on none of the orders taken, and not on how far
/// the day has gone on. So what can be asked at the opening can be asked at each state.
pub fn orders_make_no_difference_to_what_can_be_asked()
    ensures rows { (I J : Situation) (e : Asked) → I.parts ≡ J.parts → IsAskable I e → IsAskable J e }
    ensures states { (I : Situation) (h : Items Recorded) (e : Asked) → IsAskable (state (opening I) h).inst e ↔ IsAskable I e }
{}

/// In a legal history from the opening of a valid instance the rows of each state are a plan for its
/// instance, which is valid: each leg has a row, no number is out of range, and no passenger is made
/// or lost.
pub fn the_rows_of_each_state_are_a_plan_for_its_instance()
    ensures { (I : Situation) (h : Items Recorded) → IsValid I → IsLegal (opening I) h → (i : ℕ) → HasPlanRows (state_at I h i) }
{}
