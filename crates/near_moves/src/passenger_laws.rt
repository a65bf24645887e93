//! What holds of routes, and of the moves of passengers near a plan.

ghost use Rattle.std.specs.Prelude.{◌≡◌, ◌↔◌, ℕ, List as Items, All, AllPairs, Contains};
ghost use Rattle.desk_units.specs.declared.numbers.Leg.{Leg};
ghost use Rattle.desk_units.specs.declared.numbers.Cabin.{Cabin};
ghost use Rattle.desk_data.specs.Situation.{Situation};
ghost use Rattle.desk_data.specs.PlanRows.{PlanRows};
ghost use Rattle.desk_data.specs.Valid.{IsPlanFor, IsValid};
ghost use Rattle.plan_moves.specs.Fits.{Fits};
ghost use Rattle.near_moves.specs.Routes.{routes};
ghost use Rattle.near_moves.specs.RouteWords.{IsRoute};
ghost use Rattle.near_moves.specs.PassengerMoves.{rebooked_units};
ghost use Rattle.near_moves.specs.Near.{moves_of};

/// The routes of a reservation are just the paths of 1 to 8 legs that meet C13, C14 and C15 and are the
/// scheduled path, a stem, or a stem with one leg after it, or with two legs in one cabin; and each is
/// listed once. A stem is what of the scheduled path has begun, or just the legs that some of the passengers
/// have flown. In which order stems and routes stand is a law too (`stems_stand_in_order`).
pub fn routes_are_the_paths_that_passengers_may_take()
    ensures all { (I : Situation) (P : PlanRows) (r : ℕ) (path : Items (Leg × Cabin)) → Contains (routes I P r) path ↔ IsRoute I P r path }
    ensures once { (I : Situation) (P : PlanRows) (r : ℕ) → AllPairs (λ a b. a ≡ b → ⊥) (routes I P r) }
{}

/// Each move of passengers near a plan fits: it can be asked of the day.
pub fn rebookings_near_a_plan_fit()
    ensures { (I : Situation) (P : PlanRows) → IsValid I → IsPlanFor I P → All (Fits I) (moves_of I P (rebooked_units I P)) }
{}
