//! What holds of the moves of legs and aircraft.

ghost use Rattle.std.specs.Prelude.{◌≡◌, ◌↔◌, ℕ, ◌<◌, true, All, AllPairs, Contains};
ghost use Rattle.desk_data.specs.Situation.{Situation, legs_of};
ghost use Rattle.desk_data.specs.PlanRows.{PlanRows};
ghost use Rattle.desk_data.specs.Valid.{IsPlanFor};
ghost use Rattle.desk_rules.specs.Words.{Precedes};
ghost use Rattle.plan_moves.specs.Fits.{Fits};
ghost use Rattle.near_moves.specs.MoveParts.{is_run, legs_from};
ghost use Rattle.near_moves.specs.LegMoves.{exchange_moments, handed_units, swapped_units};
ghost use Rattle.near_moves.specs.Near.{leg_units, moves_of};
ghost use Rattle.near_moves.specs.Units.{MoveUnit};
ghost use Rattle.near_moves.specs.Words.{AreInOrder, DepartsOneAt, ExchangesTwo, HandsRun, IsFrom, IsRun};

/// Each move of legs and aircraft near a plan can be asked about: it has 1 to 16 steps, its numbers are in
/// range and its departures below 52,500,000.
pub fn moves_of_legs_fit()
    ensures { (I : Situation) (P : PlanRows) → IsPlanFor I P → All (Fits I) (moves_of I P (leg_units I P)) }
{}

/// The legs from a leg on are the leg, where it is flown, and those after it on its aircraft, in their
/// order.
pub fn legs_from_a_leg_are_in_their_order()
    ensures legs { (I : Situation) (P : PlanRows) (x y : ℕ) → x < legs_of I → Contains (legs_from I P x) y ↔ IsFrom I P x y }
    ensures order { (I : Situation) (P : PlanRows) (x : ℕ) → AllPairs (Precedes P) (legs_from I P x) }
{}

/// So many legs from a leg on are a run just where there are so many and no fixed one is among them: a run
/// crosses no fixed leg.
pub fn runs_are_of_movable_legs()
    ensures { (I : Situation) (P : PlanRows) (x k : ℕ) → is_run I P x k ≡ true ↔ IsRun I P x k }
{}

/// Two aircraft exchange legs just where they are of one family and the first is no surface transport.
/// Each two stand there once, the lesser number first, in the order of their numbers.
pub fn swaps_are_of_two_aircraft_of_a_family()
    ensures units { (I : Situation) (u : MoveUnit) → Contains (swapped_units I) u ↔ ExchangesTwo I u }
    ensures order { (I : Situation) → AllPairs AreInOrder (swapped_units I) }
{}

/// Two aircraft exchange their legs from a moment on just where a movable leg of one of them departs then.
/// The moments ascend, so that each stands there once.
pub fn moments_of_an_exchange_are_departures_in_order()
    ensures moments { (I : Situation) (P : PlanRows) (p q t : ℕ) → IsPlanFor I P → Contains (exchange_moments I P p q) t ↔ DepartsOneAt I P p q t }
    ensures order { (I : Situation) (P : PlanRows) (p q : ℕ) → AllPairs (λ s t. s < t) (exchange_moments I P p q) }
{}

/// Legs are handed on just where they are a run of 1 to 4 that begins with a movable leg, and only to
/// another aircraft of the family of the one that flies them.
pub fn runs_are_handed_within_the_family()
    ensures { (I : Situation) (P : PlanRows) (u : MoveUnit) → Contains (handed_units I P) u ↔ HandsRun I P u }
{}
