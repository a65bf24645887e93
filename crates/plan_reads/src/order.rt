//! The leg before each leg on its aircraft.

ghost use Rattle.std.specs.Prelude.{◌≡◌, ◌<◌, ◌≤◌, length, IfOk};
ghost use Rattle.plan_reads.specs.Before.{AreBefore};
ghost use Rattle.plan_reads.specs.Order.{rotation_legs, neighbour};

use crate::reads::ReadPlan;
use crate::rotation_leg::RotationLeg;
use desk_data::{Leg, NoMem, Plane, Row};
use std::alloc::Global;

/// A flown leg, as it is sorted: by aircraft, then by departure, then by leg.
#[derive(Clone, Copy, PartialEq, Eq, PartialOrd, Ord)]
pub(crate) struct FlownLeg {
    plane: Plane,
    at: RotationLeg,
}

/// For each of the first `legs` legs the leg before it on its aircraft, or `None` where it is cancelled or
/// the first: of two legs of an aircraft that depart together the lesser number comes first. The flown legs
/// are sorted once. The plan has so many rows, and there are at most 20,000. The only error is out of
/// memory.
pub fn legs_before<P: ReadPlan>(
    alloc: Global,
    plan: &P,
    legs: u32,
) -> Result<Vec<Option<Leg>>, NoMem>
    requires rows { length (P.plan_of plan.now).rows ≡ legs }
    requires few { legs ≤ 20000 }
    ensures { IfOk result (λ before. AreBefore (P.plan_of plan.now).rows before.items) }
{
    let mut flown = rotation_legs_of(alloc, plan, legs)?;
    flown.sort()?;
    let mut before = vec![in alloc; None; legs as usize]?;
    for k in 0..flown.len() {
        before[flown[k].at.leg.0 as usize] = left_neighbour(flown.as_slice(), k);
    }
    Ok(before)
}

/// The rotation legs of the flown legs, by leg.
fn rotation_legs_of<P: ReadPlan>(alloc: Global, plan: &P, legs: u32) -> Result<Vec<FlownLeg>, NoMem>
    requires { length (P.plan_of plan.now).rows ≡ legs }
    ensures { IfOk result (λ all. all.items ≡ rotation_legs (P.plan_of plan.now).rows legs) }
{
    let mut flown = Vec::with_capacity(alloc, legs as usize)?;
    for x in 0..legs {
        if let Row::Flown { plane, dep } = plan.read_row(Leg(x)) {
            let leg = Leg(x);
            flown.push(FlownLeg {
                plane,
                at: RotationLeg { dep, leg },
            })?;
        }
    }
    Ok(flown)
}

/// The leg one place to the left, if one aircraft flies both.
fn left_neighbour(sorted: &[FlownLeg], k: usize) -> Option<Leg>
    requires { k < length sorted.now }
    ensures { result ≡ neighbour sorted.now k }
{
    if k > 0 && sorted[k - 1].plane == sorted[k].plane {
        Some(sorted[k - 1].at.leg)
    } else {
        None
    }
}
