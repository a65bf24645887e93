//! What the rules C4 to C7 ask of an added leg.

ghost use Rattle.std.specs.Prelude.{◌≡◌, ◌<◌};
ghost use Rattle.std.specs.List.{list_any};
ghost use Rattle.std.specs.Option.{ForSome};
ghost use Rattle.desk_data.specs.Situation.{legs_of, planes_of};
ghost use Rattle.desk_data.specs.Valid.{IsPlanFor};
ghost use Rattle.desk_rules.specs.Rules.{meets_span};
ghost use Rattle.added_legs.specs.Asked.{c4_added, c5_added, c6_added, c7_added, ready_alone};
ghost use Rattle.added_legs.specs.Flights.{IsFlight};

use crate::flight::Flight;
use desk_data::{Instance, Leg, Minute, Plan, Plane};
use plan_reads::{arrival, meets_span, stand_of};

/// C4: whether it is within its aircraft's range.
pub(crate) fn c4_added(inst: &Instance, plane: Plane, flight: Flight) -> bool
    requires plane { plane.0 < planes_of inst.now }
    ensures { result ≡ c4_added inst.now plane.0 flight }
{
    flight.minutes <= inst.plane(plane).range
}

/// C5: whether it leaves where its aircraft stands, given the last leg of the plan before it.
pub(crate) fn c5_added(inst: &Instance, plane: Plane, earlier: Option<Leg>, flight: Flight) -> bool
    requires plane { plane.0 < planes_of inst.now }
    requires earlier { ForSome earlier (λ leg. leg.0 < legs_of inst.now) }
    ensures { result ≡ c5_added inst.now plane.0 earlier flight }
{
    inst.plane(plane).surface || flight.origin.0 == stand_of(inst, plane, earlier).0
}

/// C6: whether it departs once that leg has arrived and its aircraft's turnaround time is over.
pub(crate) fn c6_added(
    inst: &Instance,
    plan: &Plan,
    plane: Plane,
    earlier: Option<Leg>,
    flight: Flight,
) -> bool
    requires plan { IsPlanFor inst.now plan.now }
    requires plane { plane.0 < planes_of inst.now }
    requires earlier { ForSome earlier (λ leg. leg.0 < legs_of inst.now) }
    ensures { result ≡ c6_added inst.now plan.now plane.0 earlier flight }
{
    inst.plane(plane).surface || ready_alone(inst, plan, plane, earlier) <= flight.dep.0
}

/// When an aircraft is ready for an added leg after a leg of the plan, or 0 after none.
fn ready_alone(inst: &Instance, plan: &Plan, plane: Plane, earlier: Option<Leg>) -> u32
    requires plan { IsPlanFor inst.now plan.now }
    requires plane { plane.0 < planes_of inst.now }
    requires earlier { ForSome earlier (λ leg. leg.0 < legs_of inst.now) }
    ensures { result ≡ ready_alone inst.now plan.now plane.0 earlier }
{
    match earlier {
        Some(leg) => arrival(inst, plan, leg) + inst.plane(plane).turnaround,
        None => 0,
    }
}

/// C7: whether it meets no span in which its aircraft is out of service.
pub(crate) fn c7_added(inst: &Instance, plane: Plane, flight: Flight) -> bool
    requires plane { plane.0 < planes_of inst.now }
    requires flight { IsFlight inst.now flight }
    ensures { result ≡ c7_added inst.now plane.0 flight }
{
    let arrives = flight.dep.0 + flight.minutes;
    inst.plane(plane).surface || !meets_any(inst.spans(plane), flight.dep.0, arrives)
}

/// Whether a flight from one minute to another meets one of these spans.
fn meets_any(spans: &[(Minute, Minute)], departs: u32, arrives: u32) -> bool
    ensures { result ≡ list_any (λ span. meets_span departs arrives span.0 span.1) spans.now }
{
    spans
        .iter()
        .any(|span| meets_span(departs, arrives, span.0, span.1))
}
