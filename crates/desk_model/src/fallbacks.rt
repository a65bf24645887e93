//! What the desk falls back on when a disruption arrives, and what holds of it.

ghost use Rattle.std.specs.Prelude.{◌≡◌, ℕ, ◌<◌, None, false, not, true};
ghost use Rattle.desk_data.specs.declared.row.Row.TheVariants.{Cancelled};
ghost use Rattle.desk_data.specs.Situation.{Situation, fixed, legs_of, called_off, planes_of, reservations_of};
ghost use Rattle.desk_data.specs.PlanRows.{PlanRows, row_at};
ghost use Rattle.desk_data.specs.Valid.{IsPlanFor, IsValid};
ghost use Rattle.desk_rules.specs.Words.{MeetsC1};
ghost use Rattle.desk_model.specs.Push.{after_push};
ghost use Rattle.desk_model.specs.Tidy.{TidiesReservation};
ghost use Rattle.desk_model.specs.Fallback.{CarriesFit, FallsBack, IsFlownBy, IsStopped, all_pushed, cancelled, fallback, first_pushed, grounded, rows_of, settled, shifted, stopped};

use desk_data::{Broken, Plan};

/// What the desk falls back on, in the order in which it is tried.
#[derive(Clone, Copy, Debug, PartialEq, Eq)]
pub enum Which {
    /// The plan as it stands.
    Keep,
    /// Legs are cancelled from the first on that is called off, and all others are pushed.
    Shift,
    /// No movable leg is flown.
    Ground,
}

/// What becomes of a plan under a disruption.
#[derive(Drop)]
pub enum Fallback {
    /// The first that is feasible.
    Chosen { which: Which, plan: Plan },
    /// None is feasible: the rows of `Ground`, and the first item that they break.
    NoPlan { broken: Broken, plan: Plan },
}

/// Settling, Shift and Ground each make a valid plan of a valid plan, and so what the desk falls back
/// on is one. A valid plan has all passengers of each reservation, so that none is made or lost.
pub fn fallbacks_make_valid_plans()
    ensures settled { (I : Situation) (P : PlanRows) → IsValid I → IsPlanFor I P → IsPlanFor I (settled I P) }
    ensures shifted { (I : Situation) (P : PlanRows) → IsValid I → IsPlanFor I P → IsPlanFor I (shifted I P) }
    ensures grounded { (I : Situation) (P : PlanRows) → IsValid I → IsPlanFor I P → IsPlanFor I (grounded I P) }
    ensures chosen { (I : Situation) (P : PlanRows) → IsValid I → IsPlanFor I P → IsPlanFor I (rows_of (fallback I P)) }
{}

/// A settled plan has each fixed leg as it is due. Each movable leg keeps its row, and each reservation
/// its groups.
pub fn a_settled_plan_has_each_fixed_leg_as_it_is_due()
    ensures due { (I : Situation) (P : PlanRows) (x : ℕ) → x < legs_of I → MeetsC1 I (settled I P) x }
    ensures movable { (I : Situation) (P : PlanRows) (x : ℕ) → IsPlanFor I P → fixed I x ≡ false → row_at (settled I P) x ≡ row_at P x }
    ensures groups { (I : Situation) (P : PlanRows) → (settled I P).groups ≡ P.groups }
{}

/// Before aircraft are pushed, a Shift cancels each movable leg that is called off, and each movable
/// leg that comes after such a leg on its aircraft. All others keep their rows, and each reservation
/// its groups.
pub fn a_shift_cancels_legs_from_the_first_called_off_on()
    ensures stopped { (I : Situation) (P : PlanRows) (x : ℕ) → IsStopped I P x → row_at (stopped I P) x ≡ Cancelled }
    ensures others { (I : Situation) (P : PlanRows) (x : ℕ) → IsPlanFor I P → (IsStopped I P x → ⊥) → row_at (stopped I P) x ≡ row_at P x }
    ensures groups { (I : Situation) (P : PlanRows) → (stopped I P).groups ≡ P.groups }
{}

/// A Shift pushes all aircraft, those with lesser numbers first. Each leg of an aircraft is where it
/// stands once that aircraft is pushed, in the plan as the aircraft before it left it: those that come
/// after it do not move it. Each leg that is flown stays with its aircraft, each that is cancelled stays
/// so, each fixed leg keeps its row, and each reservation its groups.
pub fn a_shift_pushes_all_aircraft_in_turn()
    ensures turn { (I : Situation) (P : PlanRows) (n x : ℕ) → n < planes_of I → IsFlownBy P x n → row_at (all_pushed I P) x ≡ row_at (after_push I (first_pushed I P n) n None) x }
    ensures flown { (I : Situation) (P : PlanRows) (x p : ℕ) → IsFlownBy P x p → IsFlownBy (all_pushed I P) x p }
    ensures cancelled { (I : Situation) (P : PlanRows) (x : ℕ) → row_at P x ≡ Cancelled → row_at (all_pushed I P) x ≡ Cancelled }
    ensures fixed { (I : Situation) (P : PlanRows) (x : ℕ) → fixed I x ≡ true → row_at (all_pushed I P) x ≡ row_at P x }
    ensures groups { (I : Situation) (P : PlanRows) → (all_pushed I P).groups ≡ P.groups }
{}

/// A Shift leaves the rows that the pushes make of a settled plan in which legs are cancelled from the
/// first on that is called off. So each fixed leg is as it is due, each movable leg that is called off
/// or comes after such a leg on its aircraft is cancelled, and each other movable leg that was flown is
/// flown by the same aircraft. Each reservation is tidied: the passengers on a carried path that meets
/// C13, C14 and C15 stay on it, and there is none on another carried path.
pub fn a_shift_keeps_what_is_due_and_flies_no_leg_called_off()
    ensures rows { (I : Situation) (P : PlanRows) → (shifted I P).rows ≡ (all_pushed I (stopped I (settled I P))).rows }
    ensures due { (I : Situation) (P : PlanRows) (x : ℕ) → x < legs_of I → MeetsC1 I (shifted I P) x }
    ensures off { (I : Situation) (P : PlanRows) (x : ℕ) → x < legs_of I → fixed I x ≡ false → called_off I x ≡ true → row_at (shifted I P) x ≡ Cancelled }
    ensures stopped { (I : Situation) (P : PlanRows) (x : ℕ) → IsStopped I (settled I P) x → row_at (shifted I P) x ≡ Cancelled }
    ensures flown { (I : Situation) (P : PlanRows) (x p : ℕ) → x < legs_of I → fixed I x ≡ false → (IsStopped I (settled I P) x → ⊥) → IsFlownBy P x p → IsFlownBy (shifted I P) x p }
    ensures tidied { (I : Situation) (P : PlanRows) (r : ℕ) → r < reservations_of I → TidiesReservation I (all_pushed I (stopped I (settled I P))) (shifted I P) r }
    ensures carried { (I : Situation) (P : PlanRows) (r : ℕ) → r < reservations_of I → CarriesFit I (shifted I P) r }
{}

/// Ground leaves the rows of a settled plan in which each movable leg is cancelled. So each fixed leg is
/// as it is due, and no movable leg is flown. Each reservation is tidied: the passengers on a carried
/// path that meets C13, C14 and C15 stay on it, and there is none on another carried path.
pub fn a_ground_plan_flies_no_movable_leg()
    ensures rows { (I : Situation) (P : PlanRows) → (grounded I P).rows ≡ (cancelled I (λ x. not (fixed I x)) (settled I P)).rows }
    ensures due { (I : Situation) (P : PlanRows) (x : ℕ) → x < legs_of I → MeetsC1 I (grounded I P) x }
    ensures movable { (I : Situation) (P : PlanRows) (x : ℕ) → fixed I x ≡ false → row_at (grounded I P) x ≡ Cancelled }
    ensures tidied { (I : Situation) (P : PlanRows) (r : ℕ) → r < reservations_of I → TidiesReservation I (cancelled I (λ x. not (fixed I x)) (settled I P)) (grounded I P) r }
    ensures carried { (I : Situation) (P : PlanRows) (r : ℕ) → r < reservations_of I → CarriesFit I (grounded I P) r }
{}

/// The desk falls back on the plan as it stands just where that is feasible, on a Shift just where
/// that is not and the Shift is, and on Ground just where neither is and Ground is. Where none of the
/// three is feasible there is no plan: the rows are those of Ground, and the item is the first that
/// they break.
pub fn the_fallback_is_the_first_that_is_feasible()
    ensures { (I : Situation) (P : PlanRows) → FallsBack I P }
{}
