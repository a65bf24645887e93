//! What holds of legs that are untouched one by one.

ghost use Rattle.std.specs.Prelude.{◌≡◌, ℕ, ◌+◌, ◌≤◌, Bool, true};
ghost use Rattle.desk_data.specs.Situation.{Situation};
ghost use Rattle.desk_data.specs.PlanRows.{PlanRows};
ghost use Rattle.near_moves.specs.Room.{count_from, count_to};
ghost use Rattle.near_untouched.specs.Planes.{AreUntouchedLegs};
ghost use Rattle.near_untouched.specs.Hours.{margin};
ghost use Rattle.near_untouched.specs.Legs.{IsUntouchedLeg};

/// Legs are untouched together where each of them is, and at most half the margin of them leave one airport, or reach
/// one.
pub fn legs_that_are_untouched_are_so_together()
    ensures { (legs : ℕ → Bool) (I : Situation) (P Q : PlanRows) → ((y : ℕ) → legs y ≡ true → IsUntouchedLeg I P Q y) → ((a : ℕ) → count_from legs I a + count_from legs I a ≤ margin) → ((a : ℕ) → count_to legs I a + count_to legs I a ≤ margin) → AreUntouchedLegs margin legs I P Q }
{}
