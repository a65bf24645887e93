//! What holds of moves on whose aircraft nobody pays.

ghost use Rattle.std.specs.Prelude.{◌≡◌, ℕ, ◌<◌, ◌≤◌, ◌++◌, List as Items, None, true, false};
ghost use Rattle.std.specs.List.{list_all};
ghost use Rattle.desk_data.specs.Situation.{Situation, plane_at, reservations_of};
ghost use Rattle.desk_data.specs.PlanRows.{PlanRows};
ghost use Rattle.desk_data.specs.Valid.{IsPlanFor, IsValid};
ghost use Rattle.plan_moves.specs.Fits.{Fits};
ghost use Rattle.plan_moves.specs.declared.moves.Move.{Move};
ghost use Rattle.plan_moves.specs.declared.moves.Step.{Step};
ghost use Rattle.desk_rules.specs.Least.{least};
ghost use Rattle.near_moves.specs.Descent.{is_better};
ghost use Rattle.near_moves.specs.RowRules.{keeps_rows};
ghost use Rattle.near_priced.specs.Unpaid.{HasNoneToSave, flies_on, flown_again, saved_by_ending};

/// A move of a feasible plan is not better where its first steps fly legs of two aircraft on, which cost as much by the
/// hour and may be one, or cancelled legs again; the others move passengers alone; each reservation costs nothing,
/// or nobody of it is on a leg of the two and no leg on which it is booked is refilled; and what the two may save
/// by ending where they are missing is no more than what a leg costs that the first step flies again.
pub fn a_move_on_whose_aircraft_nobody_pays_is_not_better()
    ensures { (I : Situation) (P : PlanRows) (m : Move) (first others : Items Step) (a b : ℕ) → IsValid I → IsPlanFor I P → least I P ≡ None → Fits I m → m.steps ≡ first ++ others → list_all (flies_on P a b) first ≡ true → list_all keeps_rows others ≡ true → (plane_at I a).hourly.0 ≡ (plane_at I b).hourly.0 → ((r : ℕ) → r < reservations_of I → HasNoneToSave I P a b others r) → saved_by_ending I P a b ≤ flown_again I P first → is_better I P m ≡ false }
{}
