//! The legs of an aircraft, sorted.

ghost use Rattle.std.specs.Prelude.{◌≡◌, ℕ, ◌<◌, IfOk, All, map, length};
ghost use Rattle.desk_data.specs.Situation.{Situation};
ghost use Rattle.desk_model.specs.Push.{rotation};
ghost use Rattle.hour_counts.specs.Flown.{flown_legs};
ghost use Rattle.hour_counts.specs.RotationLegs.{rotation_leg};

use desk_data::{Leg, Minute, NoMem};
use plan_reads::{ReadPlan, RotationLeg, departure};
use std::alloc::Global;

/// The legs of an aircraft, given by leg, in their order.
pub(crate) fn sorted_rotation_legs<P: ReadPlan>(
    alloc: Global,
    plan: &P,
    legs: &[Leg],
) -> Result<Vec<RotationLeg>, NoMem>
    requires { All (λ leg. leg.0 < length (P.plan_of plan.now).rows) legs.now }
    ensures order { (I : Situation) (p : ℕ) → map (λ leg. leg.0) legs.now ≡ flown_legs I (P.plan_of plan.now) p → IfOk result (λ all. map (λ rotation_leg. rotation_leg.leg.0) all.items ≡ rotation I (P.plan_of plan.now) p) }
    ensures legs { IfOk result (λ all. All (λ rotation_leg. rotation_leg.leg.0 < length (P.plan_of plan.now).rows) all.items) }
{
    let mut all = rotation_legs_of(alloc, plan, legs)?;
    all.sort()?;
    Ok(all)
}

/// The rotation legs of some legs.
fn rotation_legs_of<P: ReadPlan>(
    alloc: Global,
    plan: &P,
    legs: &[Leg],
) -> Result<Vec<RotationLeg>, NoMem>
    requires { All (λ leg. leg.0 < length (P.plan_of plan.now).rows) legs.now }
    ensures { IfOk result (λ all. all.items ≡ map (λ leg. rotation_leg (P.plan_of plan.now) leg.0) legs.now) }
{
    let mut all = Vec::with_capacity(alloc, legs.len())?;
    for leg in legs {
        let dep = Minute(departure(plan, *leg));
        all.push(RotationLeg { dep, leg: *leg })?;
    }
    Ok(all)
}

/// The legs of some rotation legs.
pub(crate) fn legs_of(alloc: Global, rotation_legs: &[RotationLeg]) -> Result<Vec<Leg>, NoMem>
    ensures { IfOk result (λ legs. map (λ leg. leg.0) legs.items ≡ map (λ rotation_leg. rotation_leg.leg.0) rotation_legs.now) }
{
    let mut legs = Vec::with_capacity(alloc, rotation_legs.len())?;
    for rotation_leg in rotation_legs {
        legs.push(rotation_leg.leg)?;
    }
    Ok(legs)
}
