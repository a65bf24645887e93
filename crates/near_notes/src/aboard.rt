//! How many are aboard a leg.

ghost use Rattle.std.specs.Prelude.{◌≡◌, ◌<◌, ◌≤◌, length, true};
ghost use Rattle.desk_units.specs.declared.numbers.Cabin.{Cabin as InCabin};
ghost use Rattle.desk_data.specs.PlanRows.{PlanRows};
ghost use Rattle.desk_rules.specs.Passengers.{aboard, seats_in};

use desk_data::{Cabin, Leg, Seats};
use plan_reads::KnowsAboard;

/// Whether at least so many are aboard a leg in each cabin.
pub(crate) fn has_no_fewer<A: KnowsAboard>(knower: &A, leg: Leg, had: Seats) -> bool
    ensures { (Q : PlanRows) (c : InCabin) → leg.0 < length Q.rows → A.knows knower.now Q → result ≡ true → seats_in had c ≤ aboard Q leg.0 c }
{
    let seats = seats_aboard(knower, leg);
    had.f <= seats.f && had.b <= seats.b && had.e <= seats.e
}

/// How many are aboard a leg in each cabin.
pub(crate) fn seats_aboard<A: KnowsAboard>(knower: &A, leg: Leg) -> Seats
    ensures { (Q : PlanRows) (c : InCabin) → leg.0 < length Q.rows → A.knows knower.now Q → seats_in result c ≡ aboard Q leg.0 c }
{
    Seats {
        f: knower.aboard(leg, Cabin::F),
        b: knower.aboard(leg, Cabin::B),
        e: knower.aboard(leg, Cabin::E),
    }
}
