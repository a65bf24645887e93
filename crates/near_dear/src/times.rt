//! When an aircraft is done, and what those pay who are on its legs.

ghost use Rattle.std.specs.Prelude.{◌≡◌, ◌+◌, ◌<◌, ◌≤◌, length, max, All, Some, true, slice_index_or, sum_by};
ghost use Rattle.std.specs.Option.{ForSome};
ghost use Rattle.desk_data.specs.declared.info.Maint.{Maint as Due};
ghost use Rattle.desk_data.specs.Situation.{airports_of, leg_at, legs_of, plane_at, planes_of};
ghost use Rattle.desk_data.specs.Valid.{IsPlanFor};
ghost use Rattle.desk_model.specs.Push.{rotation};
ghost use Rattle.near_draft.specs.Legs.{numbers_of};
ghost use Rattle.near_dear.specs.Calm.{AreDoneInTime, IsFreeFrom, ground};
ghost use Rattle.near_dear.specs.Times.{AreCalm, ArePaid, ArePlaneTimes, IsBy};

use desk_data::{Instance, Leg, Plane};
use plan_pages::Pages;
use plan_reads::departure;

/// What is to be known of an aircraft to tell exchanges of its legs.
#[derive(Clone, Copy)]
pub struct PlaneTimes {
    /// A moment by which all its legs have departed, and from which on it is free and the airports of its legs are calm.
    pub(crate) by: u32,
    /// How many legs it flies: at most 16.
    pub(crate) count: u32,
    /// How many minutes they take.
    pub(crate) minutes: u32,
    /// What those pay, in grains, who are on them, or more.
    pub(crate) paid: u128,
}

impl PlaneTimes {
    /// Those of an aircraft at a plan, given its legs, the moments from which on airports are calm, and by leg what those
    /// pay who are on it. `None` where it flies more than 16 legs, or they pay more than all passengers of a day do.
    pub fn of(
        inst: &Instance,
        plan: &Pages,
        moments: &[u32],
        paid: &[u128],
        plane: Plane,
        legs: &[Leg],
    ) -> Option<PlaneTimes>
        requires plan { IsPlanFor inst.now plan.now }
        requires moments { AreCalm inst.now plan.now moments.now }
        requires paid { ArePaid inst.now plan.now paid.now }
        requires plane { plane.0 < planes_of inst.now }
        requires legs { numbers_of legs.now ≡ rotation inst.now plan.now plane.0 }
        requires within { All (λ leg. leg.0 < legs_of inst.now) legs.now }
        ensures { ForSome result (ArePlaneTimes inst.now plan.now plane.0) }
    {
        if 16 < legs.len() {
            return None;
        }
        let by = all_by(inst, plan, moments, legs, free_from(inst, plane));
        let minutes = minutes_of(inst, legs);
        let paid = paid_by(paid, legs)?;
        Some(PlaneTimes {
            by,
            count: legs.len() as u32,
            minutes,
            paid,
        })
    }
}

/// A moment from which on an aircraft is in service, and at no maintenance.
fn free_from(inst: &Instance, plane: Plane) -> u32
    requires { plane.0 < planes_of inst.now }
    ensures { IsFreeFrom inst.now plane.0 result }
{
    let mut from = maintained_until(inst, plane);
    for span in inst.spans(plane) {
        from = from.max(span.1.0);
    }
    from
}

/// When the maintenance of an aircraft is over; 0 where it has none.
fn maintained_until(inst: &Instance, plane: Plane) -> u32
    requires { plane.0 < planes_of inst.now }
    ensures { (maint : Due) → (plane_at inst.now plane.0).maint ≡ Some maint → maint.to.0 ≤ result }
{
    match inst.plane(plane).maint {
        Some(maint) => maint.to.0,
        None => 0,
    }
}

/// A moment from another one on by which some legs have departed, and from which on their airports are calm.
fn all_by(inst: &Instance, plan: &Pages, moments: &[u32], legs: &[Leg], from: u32) -> u32
    requires plan { IsPlanFor inst.now plan.now }
    requires moments { length moments.now ≡ airports_of inst.now }
    requires within { All (λ leg. leg.0 < legs_of inst.now) legs.now }
    ensures from { from ≤ result }
    ensures legs { All (λ leg. IsBy inst.now plan.now moments.now result leg.0) legs.now }
{
    let mut by = from;
    for leg in legs {
        by = one_by(inst, plan, moments, *leg, by);
    }
    by
}

/// The same of one leg.
fn one_by(inst: &Instance, plan: &Pages, moments: &[u32], leg: Leg, from: u32) -> u32
    requires plan { IsPlanFor inst.now plan.now }
    requires moments { length moments.now ≡ airports_of inst.now }
    requires leg { leg.0 < legs_of inst.now }
    ensures from { from ≤ result }
    ensures leg { IsBy inst.now plan.now moments.now result leg.0 }
{
    let info = inst.leg(leg);
    let origin = moments[info.origin.0 as usize];
    let dest = moments[info.dest.0 as usize];
    departure(plan, leg).max(origin).max(dest).max(from)
}

/// How many minutes some legs take.
fn minutes_of(inst: &Instance, legs: &[Leg]) -> u32
    requires few { length legs.now ≤ 16 }
    requires within { All (λ leg. leg.0 < legs_of inst.now) legs.now }
    ensures { result ≡ sum_by (λ leg. (leg_at inst.now leg.0).block) legs.now }
{
    let mut minutes = 0;
    for leg in legs {
        minutes += inst.leg(*leg).block;
    }
    minutes
}

/// What those pay who are on some legs, or more, counted for each leg; `None` where that is more than can be told.
fn paid_by(amounts: &[u128], legs: &[Leg]) -> Option<u128>
    ensures { ForSome result (λ paid. sum_by (λ leg. slice_index_or amounts.now leg.0 0) legs.now ≤ paid) }
{
    let mut paid = 0;
    for leg in legs {
        paid = paid_more(amounts, *leg, paid)?;
    }
    Some(paid)
}

/// The same with one leg more.
fn paid_more(amounts: &[u128], leg: Leg, paid: u128) -> Option<u128>
    ensures { ForSome result (λ all. paid + slice_index_or amounts.now leg.0 0 ≤ all) }
{
    match amounts.get(leg.0 as usize) {
        Some(amount) => plus(paid, *amount),
        None => Some(paid),
    }
}

/// Two amounts together, if each is at most 10^38.
fn plus(a: u128, b: u128) -> Option<u128>
    ensures { ForSome result (λ both. a + b ≤ both) }
{
    if a <= MOST_PAID && b <= MOST_PAID {
        Some(a + b)
    } else {
        None
    }
}

/// All passengers of a plan cost no more than that, in grains: 10^38.
const MOST_PAID: u128 = 100_000_000_000_000_000_000_000_000_000_000_000_000;

/// Whether two aircraft are done before the window ends, whatever legs they exchange. Where it says no, nothing is known.
pub(crate) fn are_done(
    inst: &Instance,
    _plan: &Pages,
    planes: (Plane, Plane),
    first: PlaneTimes,
    second: PlaneTimes,
) -> bool
    requires one { planes.0.0 < planes_of inst.now }
    requires other { planes.1.0 < planes_of inst.now }
    requires first { ArePlaneTimes inst.now _plan.now planes.0.0 first }
    requires second { ArePlaneTimes inst.now _plan.now planes.1.0 second }
    ensures { result ≡ true → AreDoneInTime inst.now _plan.now planes.0.0 planes.1.0 (max first.by second.by) }
{
    let legs = first.count + second.count;
    if MOST_LEGS < legs {
        return false;
    }
    let from = first.by.max(second.by);
    let stands = ground(inst, planes.0).max(ground(inst, planes.1));
    let minutes = u64::from(first.minutes) + u64::from(second.minutes);
    let busy = minutes + u64::from(legs) * u64::from(stands);
    u64::from(from) + busy < u64::from(inst.window().1.0)
}

/// More legs of two aircraft are not held against the room that hours have.
const MOST_LEGS: u32 = 16;

/// How many minutes an aircraft stands at most between two legs before it may depart.
fn ground(inst: &Instance, plane: Plane) -> u32
    requires { plane.0 < planes_of inst.now }
    ensures { result ≡ ground inst.now plane.0 }
{
    let info = inst.plane(plane);
    info.turnaround.max(info.transit)
}
