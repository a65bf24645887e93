//! Where aircraft end with their added legs.

ghost use Rattle.std.specs.Prelude.{◌≡◌, ◌<◌, length};
ghost use Rattle.std.specs.Option.{ForSome};
ghost use Rattle.desk_data.specs.Situation.{legs_of, planes_of};
ghost use Rattle.desk_data.specs.Valid.{IsPlanFor};
ghost use Rattle.plan_reads.specs.Last.{AreLasts};
ghost use Rattle.added_legs.specs.Stands.{AreEnds, end_with, is_after, stand_with};

use crate::flight::Flight;
use desk_data::{Airport, Instance, Leg, Minute, Plan, Plane};
use plan_reads::{departure, stand_of};

/// Writes where each aircraft ends, given its last leg before the window's end and its added leg.
pub(crate) fn put_ends(
    inst: &Instance,
    plan: &Plan,
    lasts: &[Option<Leg>],
    flights: &[Option<Flight>],
    stands: &mut [Option<Airport>],
)
    requires plan { IsPlanFor inst.now plan.now }
    requires lasts { AreLasts inst.now plan.now (λ p. inst.now.parts.to.0) (legs_of inst.now) lasts.now }
    requires flights { length flights.now ≡ planes_of inst.now }
    requires stands { length stands.old ≡ planes_of inst.now }
    ensures { AreEnds inst.now plan.now lasts.now flights.now stands.new }
{
    for p in 0..inst.planes() {
        let k = p as usize;
        stands[k] = end_with(inst, plan, Plane(p), lasts[k], flights[k]);
    }
}

/// Where an aircraft ends; `None` for surface transport.
fn end_with(
    inst: &Instance,
    plan: &Plan,
    plane: Plane,
    last: Option<Leg>,
    flight: Option<Flight>,
) -> Option<Airport>
    requires plan { IsPlanFor inst.now plan.now }
    requires plane { plane.0 < planes_of inst.now }
    requires last { ForSome last (λ leg. leg.0 < legs_of inst.now) }
    ensures { result ≡ end_with inst.now plan.now plane.0 last flight }
{
    if inst.plane(plane).surface {
        return None;
    }
    Some(stand_with(inst, plan, plane, inst.window().1, last, flight))
}

/// Where an aircraft stands at a moment, given the last leg of the plan that it flies before it, and its added leg.
pub(crate) fn stand_with(
    inst: &Instance,
    plan: &Plan,
    plane: Plane,
    at: Minute,
    last: Option<Leg>,
    flight: Option<Flight>,
) -> Airport
    requires plan { IsPlanFor inst.now plan.now }
    requires plane { plane.0 < planes_of inst.now }
    requires last { ForSome last (λ leg. leg.0 < legs_of inst.now) }
    ensures { result ≡ stand_with inst.now plan.now plane.0 at.0 last flight }
{
    if let Some(flight) = flight {
        if flight.dep.0 < at.0 && is_after(plan, last, flight.dep) {
            return flight.dest;
        }
    }
    stand_of(inst, plane, last)
}

/// Whether an added leg that departs then comes after a leg of its aircraft, if there is one.
pub(crate) fn is_after(plan: &Plan, earlier: Option<Leg>, at: Minute) -> bool
    requires { ForSome earlier (λ leg. leg.0 < length plan.now.rows) }
    ensures { result ≡ is_after plan.now earlier at.0 }
{
    match earlier {
        Some(leg) => departure(plan, leg) <= at.0,
        None => true,
    }
}
