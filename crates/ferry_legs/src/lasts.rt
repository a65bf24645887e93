//! The last leg of each aircraft before a moment, and what hangs on it.

ghost use Rattle.std.specs.Prelude.{◌≡◌, ◌<◌, ◌≤◌, IfOk};
ghost use Rattle.std.specs.Option.{ForSome};
ghost use Rattle.desk_data.specs.Situation.{airports_of, legs_of, planes_of};
ghost use Rattle.desk_data.specs.Valid.{IsPlanFor};
ghost use Rattle.plan_reads.specs.Last.{AreLasts, stand};
ghost use Rattle.added_legs.specs.Ferried.{ready};
ghost use Rattle.added_legs.specs.Merged.{plane_end};
ghost use Rattle.ferry_legs.specs.Departs.{IsWay, way_of};

use crate::way::Way;
use desk_data::{Airport, Instance, Leg, Minute, NoMem, Plan, Plane};
use plan_reads::{Moments, arrival, put_lasts, stand_of};
use std::alloc::Global;

/// The last leg of the plan before each aircraft's moment.
pub(crate) fn lasts_of<M: Moments>(
    alloc: Global,
    inst: &Instance,
    plan: &Plan,
    moments: &M,
) -> Result<Vec<Option<Leg>>, NoMem>
    requires { IsPlanFor inst.now plan.now }
    ensures { IfOk result (λ lasts. AreLasts inst.now plan.now (M.moment_of moments.now inst.now) (legs_of inst.now) lasts.items) }
{
    let mut lasts = vec![in alloc; None; inst.planes() as usize]?;
    put_lasts(moments, inst, plan, lasts.as_mut_slice());
    Ok(lasts)
}

/// The way from where an aircraft ends to an airport. Given are the last legs of all aircraft.
pub(crate) fn way_of(
    inst: &Instance,
    plan: &Plan,
    lasts: &[Option<Leg>],
    plane: Plane,
    dest: Airport,
) -> Way
    requires plan { IsPlanFor inst.now plan.now }
    requires lasts { AreLasts inst.now plan.now (λ p. 52500000) (legs_of inst.now) lasts.now }
    requires plane { plane.0 < planes_of inst.now }
    requires dest { dest.0 < airports_of inst.now }
    ensures way { result ≡ way_of inst.now plan.now plane.0 dest }
    ensures ranges { IsWay inst.now result }
{
    let origin = end_of(inst, plan, lasts, plane);
    Way {
        plane,
        origin,
        dest,
        minutes: inst.distance(origin, dest).unwrap_or(0),
    }
}

/// Where an aircraft ends: where its last leg arrives, or where it stands at first if it flies none.
fn end_of(inst: &Instance, plan: &Plan, lasts: &[Option<Leg>], plane: Plane) -> Airport
    requires plan { IsPlanFor inst.now plan.now }
    requires lasts { AreLasts inst.now plan.now (λ p. 52500000) (legs_of inst.now) lasts.now }
    requires plane { plane.0 < planes_of inst.now }
    ensures end { result ≡ plane_end inst.now plan.now plane.0 }
    ensures limit { result.0 < airports_of inst.now }
{
    stand_within(inst, plane, lasts[plane.0 as usize])
}

/// Where an aircraft stands after a leg, or at first.
fn stand_within(inst: &Instance, plane: Plane, last: Option<Leg>) -> Airport
    requires plane { plane.0 < planes_of inst.now }
    requires last { ForSome last (λ leg. leg.0 < legs_of inst.now) }
    ensures stand { result ≡ stand inst.now plane.0 last }
    ensures limit { result.0 < airports_of inst.now }
{
    let _limit = match last {
        Some(leg) => inst.leg(leg).dest.0,
        None => inst.plane(plane).origin.0,
    };
    stand_of(inst, plane, last)
}

/// From when on an aircraft may fly an added leg: from now on, and once its last leg has arrived and its turnaround time is
/// over.
pub(crate) fn ready(inst: &Instance, plan: &Plan, lasts: &[Option<Leg>], plane: Plane) -> u32
    requires plan { IsPlanFor inst.now plan.now }
    requires lasts { AreLasts inst.now plan.now (λ p. 52500000) (legs_of inst.now) lasts.now }
    requires plane { plane.0 < planes_of inst.now }
    ensures ready { result ≡ ready inst.now plan.now plane.0 }
    ensures limit { result < 52600000 }
{
    // the day is a valid one: no moment is late
    let _rows = inst.parts();
    let now = inst.now().0;
    match lasts[plane.0 as usize] {
        Some(leg) => now.max(arrival(inst, plan, leg) + inst.plane(plane).turnaround),
        None => now,
    }
}
