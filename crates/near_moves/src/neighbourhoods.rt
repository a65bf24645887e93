//! Of which neighbourhoods the moves near a plan are.

ghost use Rattle.std.specs.Prelude.{◌↔◌, ℕ, ◌<◌, ◌≤◌, List as Items, AllPairs, Contains};
ghost use Rattle.desk_units.specs.declared.numbers.Leg.{Leg};
ghost use Rattle.desk_units.specs.declared.numbers.Cabin.{Cabin};
ghost use Rattle.desk_data.specs.Situation.{Situation};
ghost use Rattle.desk_data.specs.PlanRows.{PlanRows, groups_at};
ghost use Rattle.desk_data.specs.Valid.{IsPlanFor};
ghost use Rattle.near_moves.specs.Near.{unit_steps, units};
ghost use Rattle.near_moves.specs.Units.{MoveUnit, handed};
ghost use Rattle.near_moves.specs.PassengerMoves.{aims, portions, rebookings};
ghost use Rattle.plan_moves.specs.declared.moves.Step.{Step};
ghost use Rattle.desk_model.specs.Rebook.{count_on};
ghost use Rattle.desk_rules.specs.Words.{Flies};
ghost use Rattle.near_moves.specs.LegMoves.{exchanges, restorings, retimings};
ghost use Rattle.near_moves.specs.StepWords.{IsExchange, IsHanding, IsRebooking, IsRestoring, IsRetiming};
ghost use Rattle.near_moves.specs.NeighbourhoodWords.{IsAim, IsPortion, IsUnit};

/// The units near a plan are just those of six neighbourhoods: each movable leg that is flown is retimed, two
/// aircraft of a family exchange their legs, legs from each movable leg that is flown on are dropped, each
/// movable leg that is cancelled and not called off is restored by each aircraft of the family of its
/// scheduled aircraft, runs are handed on within the family, and the passengers of each reservation are
/// rebooked off each path that they are on.
pub fn units_are_of_six_neighbourhoods()
    ensures { (I : Situation) (P : PlanRows) (u : MoveUnit) → Contains (units I P) u ↔ IsUnit I P u }
{}

/// Passengers may go just to the routes of their reservation, and off all paths.
pub fn passengers_go_to_routes_or_off_all_paths()
    ensures { (I : Situation) (P : PlanRows) (r : ℕ) (path : Items (Leg × Cabin)) → Contains (aims I P r) path ↔ IsAim I P r path }
{}

/// Of up to 1,000 passengers just all may go, or a power of two below all; the greater numbers first.
pub fn all_or_a_power_of_two_may_go()
    ensures numbers { (n k : ℕ) → n ≤ 1000 → Contains (portions n) k ↔ IsPortion n k }
    ensures order { (n : ℕ) → AllPairs (λ j k. k < j) (portions n) }
{}

/// A leg that is flown is retimed just to its earliest departure, where it departs later than that, and to 15,
/// 30, 60, 120 and 240 minutes later. The move sets it, pushes the legs after it, tidies, and refills it.
pub fn legs_are_retimed_to_other_departures()
    ensures { (I : Situation) (P : PlanRows) (x p d : ℕ) (steps : Items Step) → Flies P x p d → Contains (retimings I P x) steps ↔ IsRetiming I P x p d steps }
{}

/// Two aircraft exchange their legs just from the moments on at which a movable leg of one of them departs. The
/// move swaps them, pushes the movable legs of both, the first one's before the second one's, and tidies.
pub fn aircraft_exchange_their_legs_at_departures()
    ensures { (I : Situation) (P : PlanRows) (p q : ℕ) (steps : Items Step) → IsPlanFor I P → Contains (exchanges I P p q) steps ↔ IsExchange I P p q steps }
{}

/// A leg is restored just alone, or with one that leads back, scheduled to depart at most 1,440 minutes after
/// its scheduled arrival.
pub fn legs_are_restored_alone_or_with_one_back()
    ensures { (I : Situation) (P : PlanRows) (x p : ℕ) (steps : Items Step) → Contains (restorings I P x p) steps ↔ IsRestoring I P x p steps }
{}

/// A run is handed on in one move: it sets each leg from the aircraft that flies the first one to the other
/// aircraft, in their order and at their times, pushes the movable legs of the other and then of the first
/// aircraft, and tidies.
pub fn runs_are_handed_on_at_their_times()
    ensures { (I : Situation) (P : PlanRows) (x k p q d : ℕ) (steps : Items Step) → Flies P x p d → Contains (unit_steps I P (handed x k q)) steps ↔ IsHanding I P x k p q steps }
{}

/// Up to 1,000 passengers leave a path just for a route or for none, other than that path, all of them or a
/// power of two below all.
pub fn passengers_are_rebooked_in_portions()
    ensures { (I : Situation) (P : PlanRows) (r : ℕ) (path : Items (Leg × Cabin)) (steps : Items Step) → count_on path (groups_at P r) ≤ 1000 → Contains (rebookings I P r path) steps ↔ IsRebooking I P r path steps }
{}
