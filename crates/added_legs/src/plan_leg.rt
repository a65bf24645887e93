//! What the rules C4 to C7 ask of a leg of the plan, where aircraft have added legs.

ghost use Rattle.std.specs.Prelude.{◌≡◌, ◌<◌, ◌≤◌};
ghost use Rattle.std.specs.Option.{ForSome};
ghost use Rattle.desk_data.specs.Situation.{legs_of, planes_of};
ghost use Rattle.desk_data.specs.Valid.{IsPlanFor, IsRowOf};
ghost use Rattle.added_legs.specs.Asked.{c5_by, c6_by, ready_after, ready_with};
ghost use Rattle.added_legs.specs.Flights.{AreRanges, IsFlight};

use crate::flight::Flight;
use crate::stands::{is_after, stand_with};
use desk_data::{Instance, Leg, Minute, Plan, Plane, Row};
use plan_reads::{arrival, ground_time};

/// C5: whether a leg that is flown leaves where its aircraft stands when it departs.
pub(crate) fn c5_with(
    inst: &Instance,
    plan: &Plan,
    leg: Leg,
    row: Row,
    before: Option<Leg>,
    flights: &[Option<Flight>],
) -> bool
    requires plan { IsPlanFor inst.now plan.now }
    requires leg { leg.0 < legs_of inst.now }
    requires row { IsRowOf (planes_of inst.now) row }
    requires before { ForSome before (λ leg. leg.0 < legs_of inst.now) }
    requires flights { AreRanges inst.now flights.now }
    ensures { result ≡ c5_by inst.now plan.now leg.0 before flights.now row }
{
    let Row::Flown { plane, dep } = row else {
        return true;
    };
    let flight = flights[plane.0 as usize];
    inst.plane(plane).surface
        || inst.leg(leg).origin.0 == stand_with(inst, plan, plane, dep, before, flight).0
}

/// C6: whether a leg that is flown departs once its aircraft is ready.
pub(crate) fn c6_with(
    inst: &Instance,
    plan: &Plan,
    leg: Leg,
    row: Row,
    before: Option<Leg>,
    flights: &[Option<Flight>],
) -> bool
    requires plan { IsPlanFor inst.now plan.now }
    requires leg { leg.0 < legs_of inst.now }
    requires row { IsRowOf (planes_of inst.now) row }
    requires before { ForSome before (λ leg. leg.0 < legs_of inst.now) }
    requires flights { AreRanges inst.now flights.now }
    ensures { result ≡ c6_by inst.now plan.now leg.0 before flights.now row }
{
    let Row::Flown { plane, dep } = row else {
        return true;
    };
    let flight = flights[plane.0 as usize];
    inst.plane(plane).surface || ready_with(inst, plan, plane, leg, dep, before, flight) <= dep.0
}

/// When an aircraft is ready for a leg that departs then: once the leg before it has arrived and the ground time is over;
/// that is the added leg, if it lies between.
fn ready_with(
    inst: &Instance,
    plan: &Plan,
    plane: Plane,
    leg: Leg,
    at: Minute,
    before: Option<Leg>,
    flight: Option<Flight>,
) -> u32
    requires plan { IsPlanFor inst.now plan.now }
    requires plane { plane.0 < planes_of inst.now }
    requires leg { leg.0 < legs_of inst.now }
    requires before { ForSome before (λ leg. leg.0 < legs_of inst.now) }
    requires flight { ForSome flight (IsFlight inst.now) }
    ensures { result ≡ ready_with inst.now plan.now plane.0 leg.0 at.0 before flight }
{
    if let Some(flight) = flight {
        if flight.dep.0 < at.0 && is_after(plan, before, flight.dep) {
            return flight.dep.0 + flight.minutes + inst.plane(plane).turnaround;
        }
    }
    ready_after(inst, plan, plane, leg, before)
}

/// When an aircraft is ready for a leg after a leg of the plan, or 0 after none.
fn ready_after(inst: &Instance, plan: &Plan, plane: Plane, leg: Leg, before: Option<Leg>) -> u32
    requires plan { IsPlanFor inst.now plan.now }
    requires plane { plane.0 < planes_of inst.now }
    requires leg { leg.0 < legs_of inst.now }
    requires before { ForSome before (λ leg. leg.0 < legs_of inst.now) }
    ensures { result ≡ ready_after inst.now plan.now plane.0 leg.0 before }
{
    match before {
        Some(earlier) => arrival(inst, plan, earlier) + ground_time(inst, plane, earlier, leg),
        None => 0,
    }
}
