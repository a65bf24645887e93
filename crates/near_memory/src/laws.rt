//! What holds of rebookings at two plans.

ghost use Rattle.std.specs.Prelude.{◌≡◌, ℕ, ◌<◌, List as Items, All, Contains, None, true, false};
ghost use Rattle.desk_units.specs.declared.numbers.Leg.{Leg};
ghost use Rattle.desk_units.specs.declared.numbers.Cabin.{Cabin};
ghost use Rattle.desk_data.specs.Situation.{Situation, reservations_of};
ghost use Rattle.desk_data.specs.PlanRows.{PlanRows};
ghost use Rattle.desk_data.specs.Valid.{IsPlanFor, IsValid};
ghost use Rattle.desk_rules.specs.Least.{least};
ghost use Rattle.near_moves.specs.Descent.{is_better};
ghost use Rattle.near_moves.specs.Near.{unit_moves};
ghost use Rattle.near_moves.specs.NeighbourhoodWords.{HasPassengers};
ghost use Rattle.near_moves.specs.Routes.{routes};
ghost use Rattle.near_moves.specs.Units.{rebooked};
ghost use Rattle.near_memory.specs.Untouched.{IsUntouched, may_use};

/// Each leg of a route of a reservation is on its scheduled path or on one of its stems; or it is flown in time, and
/// leaves where its passengers stand after a stem, with a leg of the day on to where they want to go unless it
/// arrives there itself; or it arrives there in time, and leaves where a leg of the day comes from where they stand.
pub fn the_legs_of_routes_can_be_told()
    ensures { (I : Situation) (Q : PlanRows) (r : ℕ) (path : Items (Leg × Cabin)) → Contains (routes I Q r) path → All (λ pair. may_use I Q r pair.0.0 ≡ true) path }
{}

/// Where no rebooking off a path of a reservation is better at a feasible plan, none is at a plan between which and
/// the first one nothing was touched that it hangs on: the reservation has the same groups, the legs of their paths
/// have the same rows, and so have all legs that may be on a route of it, of which none has fewer passengers in a
/// cabin.
pub fn a_rebooking_of_what_is_untouched_is_not_better()
    ensures { (I : Situation) (P Q : PlanRows) (r : ℕ) (path : Items (Leg × Cabin)) → IsValid I → IsPlanFor I P → IsPlanFor I Q → least I P ≡ None → HasPassengers I P r path → IsUntouched I P Q r → All (λ m. is_better I P m ≡ false) (unit_moves I P (rebooked r path)) → All (λ m. is_better I Q m ≡ false) (unit_moves I Q (rebooked r path)) }
{}
