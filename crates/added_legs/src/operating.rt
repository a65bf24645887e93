//! What added legs cost to fly.

ghost use Rattle.std.specs.Prelude.{◌≡◌, ◌<◌, ◌≤◌, ◌^◌, length};
ghost use Rattle.std.specs.Option.{ForSome};
ghost use Rattle.desk_data.specs.Situation.{planes_of};
ghost use Rattle.desk_rules.specs.Cost.{grains};
ghost use Rattle.added_legs.specs.Flights.{AreRanges, IsFlight};
ghost use Rattle.added_legs.specs.Stands.{flight_cost, flights_cost};

use crate::flight::Flight;
use desk_data::{Grains, Instance, Plane, Term};
use desk_units::per_hour;

/// What the added legs of all aircraft cost: of each the minutes at the hourly price of its aircraft.
pub(crate) fn flights_cost(inst: &Instance, flights: &[Option<Flight>]) -> Grains
    requires { AreRanges inst.now flights.now }
    ensures cost { result ≡ grains (flights_cost inst.now flights.now (planes_of inst.now)) }
    ensures limit { result.0 ≤ 10 ^ 31 }
{
    let _rows = inst.parts();
    let mut total = Grains(0);
    for p in 0..inst.planes() {
        total = total.plus(flight_cost(inst, Plane(p), flights[p as usize]));
    }
    total
}

/// What the added leg of an aircraft costs, if it has one.
pub(crate) fn flight_cost(inst: &Instance, plane: Plane, flight: Option<Flight>) -> Grains
    requires plane { plane.0 < planes_of inst.now }
    requires flight { ForSome flight (IsFlight inst.now) }
    ensures cost { result ≡ grains (flight_cost inst.now plane.0 flight) }
    ensures limit { result.0 ≤ 10 ^ 28 }
{
    let _rows = inst.parts();
    let weight = inst.prices().weight(Term::Operating);
    match flight {
        Some(flight) => per_hour(inst.plane(plane).hourly, weight, u64::from(flight.minutes)),
        None => Grains(0),
    }
}
