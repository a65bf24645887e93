//! What is asked of added legs, by aircraft.

ghost use Rattle.std.specs.Prelude.{◌≡◌, ℕ, ◌+◌, ◌<◌, None, length, slice_index_or, take};
ghost use Rattle.std.specs.Option.{ForSome};
ghost use Rattle.desk_data.specs.Situation.{legs_of, planes_of};
ghost use Rattle.desk_data.specs.Valid.{IsPlanFor};
ghost use Rattle.plan_reads.specs.Last.{stand};
ghost use Rattle.added_legs.specs.Merged.{AreAdded, IsAdded, plane_end};
ghost use Rattle.added_legs.specs.Flights.{AreFlights, AreLastLegs, IsFlight, flight_of};

use crate::Added;
use desk_data::{Airport, DEPARTURES_END, Instance, Leg, Minute, Plan, Plane};
use plan_reads::{put_lasts, stand_of};

/// An added leg, with what its aircraft and the day say of it.
#[derive(Clone, Copy)]
pub(crate) struct Flight {
    /// Where it leaves.
    pub(crate) origin: Airport,
    /// Where it arrives.
    pub(crate) dest: Airport,
    /// The minutes that it takes, which are its distance too: at most 100,000.
    pub(crate) minutes: u32,
    /// When it departs.
    pub(crate) dep: Minute,
}

/// Writes for each aircraft its added leg, or `None` where it has none. In `lasts` it leaves the last leg of each aircraft.
/// Both have a place for each aircraft.
pub(crate) fn put_flights(
    inst: &Instance,
    plan: &Plan,
    added: &[Added],
    lasts: &mut [Option<Leg>],
    flights: &mut [Option<Flight>],
)
    requires plan { IsPlanFor inst.now plan.now }
    requires added { AreAdded inst.now plan.now added.now }
    requires lasts { length lasts.old ≡ planes_of inst.now }
    requires flights { length flights.old ≡ planes_of inst.now }
    ensures lasts { AreLastLegs inst.now plan.now lasts.new }
    ensures flights { AreFlights inst.now plan.now added.now flights.new }
{
    put_lasts(&Minute(DEPARTURES_END), inst, plan, lasts);
    clear(flights);
    for i in 0..added.len() {
        put_flight(inst, plan, lasts, added, i, flights);
    }
}

/// No aircraft has an added leg.
pub(crate) fn clear(flights: &mut [Option<Flight>])
    ensures len { length flights.new ≡ length flights.old }
    ensures none { (p : ℕ) → p < length flights.old → slice_index_or flights.new p None ≡ None }
{
    for p in 0..flights.len() {
        flights[p] = None;
    }
}

/// Writes the added leg at a place of the list, unless its aircraft has one of those before it.
fn put_flight(
    inst: &Instance,
    plan: &Plan,
    lasts: &[Option<Leg>],
    added: &[Added],
    i: usize,
    flights: &mut [Option<Flight>],
)
    requires added { AreAdded inst.now plan.now added.now }
    requires lasts { AreLastLegs inst.now plan.now lasts.now }
    requires place { i < length added.now }
    requires so_far { AreFlights inst.now plan.now (take i added.now) flights.old }
    ensures { AreFlights inst.now plan.now (take (i + 1) added.now) flights.new }
{
    let leg = added[i];
    let p = leg.plane.0 as usize;
    if flights[p].is_none() {
        flights[p] = Some(flight_of(inst, plan, lasts, leg));
    }
}

/// An added leg, with what its aircraft and the day say of it.
fn flight_of(inst: &Instance, plan: &Plan, lasts: &[Option<Leg>], leg: Added) -> Flight
    requires leg { IsAdded inst.now plan.now leg }
    requires lasts { AreLastLegs inst.now plan.now lasts.now }
    ensures flight { result ≡ flight_of inst.now plan.now leg.plane.0 leg }
    ensures ranges { IsFlight inst.now result }
{
    let origin = plane_end(inst, plan, lasts, leg.plane);
    Flight {
        origin,
        dest: leg.dest,
        minutes: inst.distance(origin, leg.dest).unwrap_or(0),
        dep: leg.dep,
    }
}

/// Where an aircraft ends: where its last leg arrives, or where it stands at first if it flies none.
#[tactic(auto, unfolding(crate::specs::Merged::plane_end))]
pub(crate) fn plane_end(
    inst: &Instance,
    plan: &Plan,
    lasts: &[Option<Leg>],
    plane: Plane,
) -> Airport
    requires plane { plane.0 < planes_of inst.now }
    requires lasts { AreLastLegs inst.now plan.now lasts.now }
    ensures end { result ≡ plane_end inst.now plan.now plane.0 }
    ensures limit { result.0 < length inst.now.parts.airports }
{
    end_after(inst, plane, lasts[plane.0 as usize])
}

/// Where an aircraft stands after a leg, or at first.
fn end_after(inst: &Instance, plane: Plane, last: Option<Leg>) -> Airport
    requires plane { plane.0 < planes_of inst.now }
    requires last { ForSome last (λ leg. leg.0 < legs_of inst.now) }
    ensures stand { result ≡ stand inst.now plane.0 last }
    ensures limit { result.0 < length inst.now.parts.airports }
{
    let _leg = match last {
        Some(leg) => inst.leg(leg).dest.0,
        None => inst.plane(plane).origin.0,
    };
    stand_of(inst, plane, last)
}
