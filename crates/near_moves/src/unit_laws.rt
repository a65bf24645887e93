//! What holds of a unit of legs at two plans.

ghost use Rattle.std.specs.Prelude.{◌≡◌, ℕ, Bool, List as Items, All, None, true, false};
ghost use Rattle.std.specs.List.{Contains, list_all};
ghost use Rattle.desk_data.specs.declared.row.Row.TheVariants.{Cancelled};
ghost use Rattle.desk_data.specs.Situation.{Situation};
ghost use Rattle.desk_data.specs.PlanRows.{PlanRows, row_at};
ghost use Rattle.desk_data.specs.Valid.{IsPlanFor};
ghost use Rattle.plan_moves.specs.declared.moves.Move.{Move};
ghost use Rattle.plan_moves.specs.declared.moves.Step.{Step};
ghost use Rattle.desk_rules.specs.Least.{least};
ghost use Rattle.desk_model.specs.Steps.{after_steps};
ghost use Rattle.near_moves.specs.Descent.{is_better};
ghost use Rattle.near_moves.specs.Near.{unit_moves};
ghost use Rattle.near_moves.specs.Units.{MoveUnit};
ghost use Rattle.near_moves.specs.Chains.{IsHandedInVain, IsRestoredInVain, IsSwappedInVain};
ghost use Rattle.near_moves.specs.Same.{AgreeOn, FliesSame, FlyUnitSame};
ghost use Rattle.near_moves.specs.Steps.{BeginsFlown, IsSplit, is_among, unit_legs, unit_planes, unit_refills};
ghost use Rattle.near_moves.specs.Room.{AreMadeAlike, HaveSameRoom};
ghost use Rattle.near_moves.specs.Own.{BreaksOwn};
ghost use Rattle.near_moves.specs.Out.{IsOut};

/// A unit of legs has the same moves at two plans in which its aircraft fly the same legs with the same rows, and the
/// same cancelled legs lead back from a leg that is flown again.
pub fn a_unit_whose_aircraft_fly_the_same_has_the_same_moves()
    ensures { (I : Situation) (P Q : PlanRows) (u : MoveUnit) → FlyUnitSame I P Q u → unit_moves I P u ≡ unit_moves I Q u }
{}

/// Each move of a unit of legs begins with steps that change rows of its own legs and aircraft alone; the others are a
/// Tidy, and Refills of legs that it may refill.
pub fn a_move_begins_with_steps_of_its_own_legs()
    ensures { (I : Situation) (P : PlanRows) (u : MoveUnit) (m : Move) → BeginsFlown P u → Contains (unit_moves I P u) m → IsSplit (unit_planes P u) (unit_legs I P u) (unit_refills I P u) m }
{}

/// A run that is handed on in vain at a plan is handed on in vain at each feasible plan in which both aircraft fly the
/// same legs with the same rows.
pub fn a_run_that_is_handed_on_in_vain_stays_so()
    ensures { (I : Situation) (P Q : PlanRows) (x k q : ℕ) → (h : IsHandedInVain I P x k q) → least I Q ≡ None → FliesSame P Q h.plane → FliesSame P Q q → IsHandedInVain I Q x k q }
{}

/// Two aircraft that exchange legs from a moment on in vain at a plan do so at each feasible plan in which both fly the
/// same legs with the same rows.
pub fn aircraft_that_exchange_legs_in_vain_stay_so()
    ensures { (I : Situation) (P Q : PlanRows) (p q at : ℕ) → IsSwappedInVain I P p q at → least I Q ≡ None → FliesSame P Q p → FliesSame P Q q → IsSwappedInVain I Q p q at }
{}

/// A leg that an aircraft flies again in vain at a plan is flown again in vain at each feasible plan in which it is
/// cancelled, and the aircraft flies the same legs with the same rows.
pub fn a_leg_that_is_restored_in_vain_stays_so()
    ensures { (I : Situation) (P Q : PlanRows) (x p : ℕ) → IsRestoredInVain I P x p → IsPlanFor I Q → least I Q ≡ None → row_at Q x ≡ Cancelled → FliesSame P Q p → IsRestoredInVain I Q x p }
{}

/// Steps that change rows of some legs and aircraft alone make the same rows of these legs in two plans that agree on
/// them, if the hours of their airports have the same room beside them. All other legs keep the rows that they have in
/// each plan, and nobody is moved.
pub fn steps_of_aircraft_on_which_plans_agree_make_the_same_of_them()
    ensures { (planes legs : ℕ → Bool) (I : Situation) (P Q S T : PlanRows) (steps : Items Step) → HaveSameRoom legs I P Q → list_all (is_among planes legs) steps ≡ true → AreMadeAlike planes legs P Q S T → AreMadeAlike planes legs P Q (after_steps I S steps) (after_steps I T steps) }
{}

/// Where a move breaks C2 or one of C4 to C7 of a leg of its own aircraft, it does so at each plan that agrees on its
/// legs and aircraft, if the hours of their airports have the same room beside them. It is better at neither.
pub fn a_move_that_breaks_a_rule_of_its_own_legs_does_so_again()
    ensures again { (planes legs refilled : ℕ → Bool) (I : Situation) (P Q : PlanRows) (m : Move) → AgreeOn planes legs P Q → HaveSameRoom legs I P Q → IsSplit planes legs refilled m → BreaksOwn planes I P m → BreaksOwn planes I Q m }
    ensures worse { (planes : ℕ → Bool) (I : Situation) (P : PlanRows) (m : Move) → BreaksOwn planes I P m → is_better I P m ≡ false }
{}

/// Where it is known of each move of a unit of legs why it is not better, none is: it makes the plan no cheaper, it breaks
/// C2 or one of C4 to C7 of a leg of the unit's aircraft, or it gives legs in vain.
pub fn a_unit_that_is_out_has_no_better_move()
    ensures { (I : Situation) (P : PlanRows) (u : MoveUnit) → All (IsOut I P u) (unit_moves I P u) → All (λ m. is_better I P m ≡ false) (unit_moves I P u) }
{}
