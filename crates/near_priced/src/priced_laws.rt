//! What holds of moves that cost at least as much more as those pay whom they touch, or can save.

ghost use Rattle.std.specs.Prelude.{◌≡◌, ℕ, ◌+◌, ◌≤◌, ◌∷◌, ◌++◌, List as Items, None, true, false, sum_by};
ghost use Rattle.std.specs.List.{list_all};
ghost use Rattle.desk_data.specs.Situation.{Situation};
ghost use Rattle.desk_data.specs.PlanRows.{PlanRows};
ghost use Rattle.desk_data.specs.Valid.{IsPlanFor, IsValid};
ghost use Rattle.plan_moves.specs.declared.moves.Move.{Move};
ghost use Rattle.plan_moves.specs.declared.moves.Step.{Step};
ghost use Rattle.plan_moves.specs.declared.moves.Step.TheVariants.{Tidy};
ghost use Rattle.desk_rules.specs.Least.{least};
ghost use Rattle.desk_rules.specs.Cost.{operating_cost, position_cost};
ghost use Rattle.desk_model.specs.Steps.{after_steps};
ghost use Rattle.near_moves.specs.Descent.{is_better};
ghost use Rattle.near_draft.specs.Drafts.{AreAllChanged};
ghost use Rattle.near_priced.specs.Priced.{paid_booked, paid_on, refilled, tidies};
ghost use Rattle.near_priced.specs.Saved.{refills_leg, saved_on};

/// A move of a feasible plan is not better where flying and the positions, by the rows that its first steps make, cost at
/// least as much more than now as those pay now whom it touches. The first steps leave each reservation its groups, and
/// the others are Tidies and Refills. Touched is a reservation that has somebody on a leg that gets another row, or is
/// booked on one that is refilled. What it pays counts for each leg by which it is touched, and twice for one that
/// somebody of it is on, on which it is booked, and that is refilled.
pub fn a_move_is_not_better_that_costs_at_least_as_much_more_as_those_pay_whom_it_touches()
    ensures { (I : Situation) (P : PlanRows) (m : Move) (first others : Items Step) (legs : Items ℕ) → IsValid I → IsPlanFor I (after_steps I P first) → least I P ≡ None → m.steps ≡ first ++ others → (after_steps I P first).groups ≡ P.groups → list_all tidies others ≡ true → AreAllChanged P (after_steps I P first) legs → operating_cost I P + position_cost I P + sum_by (paid_on I P) legs + sum_by (paid_booked I P) (refilled others) ≤ operating_cost I (after_steps I P first) + position_cost I (after_steps I P first) → is_better I P m ≡ false }
{}

/// A move of a feasible plan is not better where flying and the positions, by the rows that its first steps make, cost at
/// least as much more than now as those can save who are on a leg that gets another row, and those pay now who are booked on
/// one that is refilled. The first steps leave each reservation its groups; then a Tidy is taken, and Refills alone. Of what
/// a reservation costs now it can save what goes beyond the least that its passengers cost by the rows then: on a path that
/// arrives what they cost on it, or no longer carried where that is less, and on another path no longer carried. What it
/// saves counts for each of those legs on which it has somebody.
pub fn a_move_is_not_better_that_costs_at_least_as_much_more_as_those_can_save_whom_it_touches()
    ensures { (I : Situation) (P : PlanRows) (m : Move) (first refills : Items Step) (legs : Items ℕ) → IsValid I → IsPlanFor I (after_steps I P first) → least I P ≡ None → m.steps ≡ first ++ Tidy ∷ refills → (after_steps I P first).groups ≡ P.groups → list_all refills_leg refills ≡ true → AreAllChanged P (after_steps I P first) legs → operating_cost I P + position_cost I P + sum_by (saved_on I P (after_steps I P first)) legs + sum_by (paid_booked I P) (refilled refills) ≤ operating_cost I (after_steps I P first) + position_cost I (after_steps I P first) → is_better I P m ≡ false }
{}
