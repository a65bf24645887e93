//! Where aircraft end in a plan.

ghost use Rattle.std.specs.Prelude.{◌≡◌, ◌<◌, IfOk, OnOk, All, length};
ghost use Rattle.std.specs.Option.{ForSome};
ghost use Rattle.desk_data.specs.Situation.{airports_of, legs_of, planes_of};
ghost use Rattle.desk_data.specs.Valid.{IsPlanFor};
ghost use Rattle.plan_reads.specs.Last.{AreLasts, stand};
ghost use Rattle.ferry_legs.specs.Prices.{AreEnds};

use desk_data::{Airport, DEPARTURES_END, Instance, Leg, Minute, NoMem, Plan, Plane};
use plan_reads::{put_lasts, stand_of};
use std::alloc::Global;

/// Where each aircraft ends: where its last leg arrives, or where it stands at first if it flies none. The only error is out
/// of memory.
pub(crate) fn ends_of(alloc: Global, inst: &Instance, plan: &Plan) -> Result<Vec<Airport>, NoMem>
    requires { IsPlanFor inst.now plan.now }
    ensures { IfOk result (λ ends. AreEnds inst.now plan.now ends.items) }
{
    let lasts = lasts_before(alloc, inst, plan, Minute(DEPARTURES_END))?;
    let mut ends = Vec::new(alloc);
    for p in 0..inst.planes() {
        ends.push(end_of(inst, Plane(p), lasts[p as usize]))?;
    }
    Ok(ends)
}

/// Where an aircraft ends, given its last leg.
pub(crate) fn end_of(inst: &Instance, plane: Plane, last: Option<Leg>) -> Airport
    requires plane { plane.0 < planes_of inst.now }
    requires last { ForSome last (λ leg. leg.0 < legs_of inst.now) }
    ensures stand { result ≡ stand inst.now plane.0 last }
    ensures limit { result.0 < airports_of inst.now }
{
    // the airports of the day's rows are airports that there are
    let _airport = match last {
        Some(leg) => inst.leg(leg).dest.0,
        None => inst.plane(plane).origin.0,
    };
    stand_of(inst, plane, last)
}

/// The last leg of each aircraft that departs before a moment. The only error is out of memory.
pub(crate) fn lasts_before(
    alloc: Global,
    inst: &Instance,
    plan: &Plan,
    at: Minute,
) -> Result<Vec<Option<Leg>>, NoMem>
    requires { IsPlanFor inst.now plan.now }
    ensures { IfOk result (λ lasts. AreLasts inst.now plan.now (λ p. at.0) (legs_of inst.now) lasts.items) }
{
    let mut lasts = vec![in alloc; None; inst.planes() as usize]?;
    put_lasts(&at, inst, plan, lasts.as_mut_slice());
    Ok(lasts)
}
