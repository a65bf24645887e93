//! When each aircraft is done, looked up once for each search.

ghost use Rattle.std.specs.Prelude.{◌≡◌, ◌<◌, All, IfOk, length, map};
ghost use Rattle.std.specs.Option.{ForSome};
ghost use Rattle.desk_data.specs.Situation.{legs_of, planes_of};
ghost use Rattle.desk_data.specs.Valid.{IsPlanFor};
ghost use Rattle.desk_rules.specs.Numbers.{numbers};
ghost use Rattle.desk_model.specs.Push.{rotation};
ghost use Rattle.near_search.specs.Rotations.{AreTimes, numbers_of};
ghost use Rattle.near_dear.specs.Times.{AreCalm, ArePaid, ArePlaneTimes};

use desk_data::{Instance, Leg, NoMem, Plane};
use near_dear::PlaneTimes;
use plan_pages::Pages;
use std::alloc::Global;

/// For each aircraft what is to be known of it to tell exchanges of its legs, given the moments from which on airports are
/// calm, by leg what those pay who are on it, and the legs of each aircraft. The only error is out of memory.
pub(crate) fn times_of(
    alloc: Global,
    inst: &Instance,
    plan: &Pages,
    moments: &[u32],
    paid: &[u128],
    rotations: &[Vec<Leg>],
) -> Result<Vec<Option<PlaneTimes>>, NoMem>
    requires plan { IsPlanFor inst.now plan.now }
    requires moments { AreCalm inst.now plan.now moments.now }
    requires paid { ArePaid inst.now plan.now paid.now }
    requires each { map (λ legs. numbers_of legs.items) rotations.now ≡ map (rotation inst.now plan.now) (numbers (planes_of inst.now)) }
    requires within { All (λ legs. All (λ leg. leg.0 < legs_of inst.now) legs.items) rotations.now }
    ensures { IfOk result (λ times. AreTimes inst.now plan.now (planes_of inst.now) times.items) }
{
    let mut times = Vec::new(alloc);
    for p in 0..inst.planes() {
        times.push(time_of(inst, plan, moments, paid, rotations, Plane(p)))?;
    }
    Ok(times)
}

/// That of one aircraft.
fn time_of(
    inst: &Instance,
    plan: &Pages,
    moments: &[u32],
    paid: &[u128],
    rotations: &[Vec<Leg>],
    plane: Plane,
) -> Option<PlaneTimes>
    requires plan { IsPlanFor inst.now plan.now }
    requires moments { AreCalm inst.now plan.now moments.now }
    requires paid { ArePaid inst.now plan.now paid.now }
    requires each { map (λ legs. numbers_of legs.items) rotations.now ≡ map (rotation inst.now plan.now) (numbers (planes_of inst.now)) }
    requires within { All (λ legs. All (λ leg. leg.0 < legs_of inst.now) legs.items) rotations.now }
    requires plane { plane.0 < planes_of inst.now }
    ensures { ForSome result (ArePlaneTimes inst.now plan.now plane.0) }
{
    let legs = legs_at(inst, plan, rotations, plane);
    PlaneTimes::of(inst, plan, moments, paid, plane, legs)
}

/// The legs of an aircraft, in their order.
fn legs_at<'a>(
    _inst: &Instance,
    _plan: &Pages,
    rotations: &'a [Vec<Leg>],
    plane: Plane,
) -> &'a [Leg]
    requires each { map (λ legs. numbers_of legs.items) rotations.now ≡ map (rotation _inst.now _plan.now) (numbers (planes_of _inst.now)) }
    requires within { All (λ legs. All (λ leg. leg.0 < legs_of _inst.now) legs.items) rotations.now }
    requires plane { plane.0 < planes_of _inst.now }
    ensures order { numbers_of result.now ≡ rotation _inst.now _plan.now plane.0 }
    ensures within { All (λ leg. leg.0 < legs_of _inst.now) result.now }
{
    rotations[plane.0 as usize].as_slice()
}
