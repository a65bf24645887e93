//! What can be asked how many passengers are aboard a leg.

ghost use Rattle.std.specs.Prelude.{◌≡◌, ◌<◌, length};
ghost use Rattle.desk_data.specs.PlanRows.{PlanRows};
ghost use Rattle.desk_rules.specs.Passengers.{aboard};

use desk_data::{Cabin, Leg};

/// What knows how many passengers of a plan are in each cabin of each leg.
pub trait KnowsAboard {
    /// Whether what it knows is that of a plan.
    ghost knows: { Self → PlanRows → Type 0 };

    /// How many passengers of all reservations are in a cabin of a leg.
    fn aboard(&self, leg: Leg, cabin: Cabin) -> u32
        ensures { (Q : PlanRows) → leg.0 < length Q.rows → knows self.now Q → result ≡ aboard Q leg.0 cabin };
}
