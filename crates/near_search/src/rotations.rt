//! The rotations of a plan, and who pays on them and how much, looked up once for each search.

ghost use Rattle.std.specs.Prelude.{◌≡◌, ℕ, ◌<◌, All, IfOk, filter, length, map, nat_lt, take, true};
ghost use Rattle.desk_data.specs.Situation.{Situation, legs_of, planes_of};
ghost use Rattle.desk_data.specs.PlanRows.{PlanRows};
ghost use Rattle.desk_rules.specs.Maintenance.{flies};
ghost use Rattle.desk_rules.specs.Rotations.{dep};
ghost use Rattle.desk_model.specs.Push.{rotation};
ghost use Rattle.near_moves.specs.Chains.{led, run_leads_to, stand, stand_before};
ghost use Rattle.near_search.specs.Rotations.{AreRotations, from_leg};

use crate::times::times_of;
use desk_data::{Airport, Instance, Leg, Minute, NoMem, Plane};
use desk_eval::Evaluator;
use near_dear::{PlaneTimes, calm_moments, owed_by_leg};
use near_priced::{Payers, Payments, reservation_costs};
use plan_reads::departure;
use std::alloc::Global;

/// The rotations of a plan, the legs of each aircraft in their order; who pays on them and how much; when each aircraft is
/// done; by leg what those come to cost who are on it, if they are no longer carried; and whether the plan is feasible.
pub(crate) struct Rotations {
    legs: Vec<Vec<Leg>>,
    pub(crate) payers: Payers,
    pub(crate) payments: Payments,
    pub(crate) times: Vec<Option<PlaneTimes>>,
    pub(crate) owed: Vec<u128>,
    pub(crate) feasible: bool,
}

/// Dropped in one call, so that a function that owns one proves it once, and not part by part.
impl Drop for Rotations {
    fn drop(self) {
        let Rotations {
            legs: _,
            payers: _,
            payments: _,
            times: _,
            owed: _,
            feasible: _,
        } = self;
    }
}

impl Rotations {
    /// Those of the evaluator's plan. The only error is out of memory.
    pub(crate) fn of(alloc: Global, eval: &Evaluator) -> Result<Rotations, NoMem>
        ensures { IfOk result (AreRotations eval.now.inst eval.now.rows) }
    {
        let feasible = eval.least_broken().is_none();
        let mut legs = Vec::new(alloc);
        for p in 0..eval.instance().planes() {
            let rotation = eval.rotation(alloc, Plane(p))?;
            legs.push(rotation)?;
        }
        let inst = eval.instance();
        let plan = eval.plan();
        let costs = reservation_costs(alloc, inst, plan)?;
        let payers = Payers::of(alloc, inst, plan, costs.as_slice())?;
        let payments = Payments::of(alloc, inst, plan, costs.as_slice())?;
        let moments = calm_moments(alloc, inst, plan, eval)?;
        let (calm, paid) = (moments.as_slice(), payments.on());
        let times = times_of(alloc, inst, plan, calm, paid, legs.as_slice())?;
        let owed = owed_by_leg(alloc, inst, plan)?;
        Ok(Rotations {
            legs,
            payers,
            payments,
            times,
            owed,
            feasible,
        })
    }

    /// The legs of each aircraft, in their order.
    pub(crate) fn legs(&self) -> &[Vec<Leg>]
        ensures { result.now ≡ self.now.legs.items }
    {
        self.legs.as_slice()
    }

    /// The legs of an aircraft, in their order.
    pub(crate) fn of_plane(&self, plane: Plane) -> &[Leg]
        requires { plane.0 < length self.now.legs.items }
        ensures order { (I : Situation) (P : PlanRows) → AreRotations I P self.now → map (λ leg. leg.0) result.now ≡ rotation I P plane.0 }
        ensures within { (I : Situation) (P : PlanRows) → AreRotations I P self.now → All (λ leg. leg.0 < legs_of I) result.now }
    {
        self.legs[plane.0 as usize].as_slice()
    }
}

/// Where an aircraft stands at the end.
pub(crate) fn stand(eval: &Evaluator, rotations: &Rotations, plane: Plane) -> Airport
    requires rotations { AreRotations eval.now.inst eval.now.rows rotations.now }
    requires plane { plane.0 < planes_of eval.now.inst }
    ensures { result.0 ≡ stand eval.now.inst eval.now.rows plane.0 }
{
    let inst = eval.instance();
    led(inst, inst.plane(plane).origin, rotations.of_plane(plane))
}

/// Where an aircraft stands once it has flown the legs that depart before a moment.
pub(crate) fn stand_before(
    eval: &Evaluator,
    rotations: &Rotations,
    plane: Plane,
    at: Minute,
) -> Airport
    requires rotations { AreRotations eval.now.inst eval.now.rows rotations.now }
    requires plane { plane.0 < planes_of eval.now.inst }
    ensures { result.0 ≡ stand_before eval.now.inst eval.now.rows plane.0 at.0 }
{
    let origin = eval.instance().plane(plane).origin;
    led_before(eval, origin, rotations.of_plane(plane), at)
}

/// Where the run of so many legs from a leg on leads, which this aircraft flies.
pub(crate) fn run_leads_to(
    eval: &Evaluator,
    rotations: &Rotations,
    plane: Plane,
    leg: Leg,
    count: u32,
) -> Airport
    requires rotations { AreRotations eval.now.inst eval.now.rows rotations.now }
    requires plane { plane.0 < planes_of eval.now.inst }
    requires leg { leg.0 < legs_of eval.now.inst }
    requires flown { flies eval.now.rows plane.0 leg.0 ≡ true }
    ensures { result.0 ≡ run_leads_to eval.now.inst eval.now.rows leg.0 count }
{
    let inst = eval.instance();
    let legs = from_leg(rotations.of_plane(plane), leg);
    led(inst, inst.leg(leg).origin, first_of(legs, count))
}

/// Where an aircraft stands that was at an airport and flew some legs.
fn led(inst: &Instance, from: Airport, legs: &[Leg]) -> Airport
    requires { All (λ leg. leg.0 < legs_of inst.now) legs.now }
    ensures { result.0 ≡ led inst.now from.0 (map (λ leg. leg.0) legs.now) }
{
    match legs.last() {
        Some(leg) => inst.leg(*leg).dest,
        None => from,
    }
}

/// Where an aircraft stands that was at an airport and flew those of some legs that depart before a moment.
fn led_before(eval: &Evaluator, from: Airport, legs: &[Leg], at: Minute) -> Airport
    requires { All (λ leg. leg.0 < legs_of eval.now.inst) legs.now }
    ensures { result.0 ≡ led eval.now.inst from.0 (filter (λ x. nat_lt (dep eval.now.rows x) at.0) (map (λ leg. leg.0) legs.now)) }
{
    let mut stands = from;
    for leg in legs {
        if departure(eval.plan(), *leg) < at.0 {
            stands = eval.instance().leg(*leg).dest;
        }
    }
    stands
}

/// The legs from a leg on; none where it is not among them.
fn from_leg(legs: &[Leg], leg: Leg) -> &[Leg]
    ensures { result.now ≡ from_leg leg.0 legs.now }
{
    for i in 0..legs.len() {
        if legs[i].0 == leg.0 {
            return &legs[i..];
        }
    }
    &legs[legs.len()..]
}

/// The first so many legs, or all where they are fewer.
fn first_of(legs: &[Leg], count: u32) -> &[Leg]
    ensures { result.now ≡ take count legs.now }
{
    if (count as usize) < legs.len() {
        &legs[..count as usize]
    } else {
        legs
    }
}
