//! How many aircraft are at hand for each position of a plan.

ghost use Rattle.std.specs.Prelude.{◌≡◌, ◌+◌, ◌<◌, [], IfOk, map};
ghost use Rattle.desk_data.specs.Situation.{legs_of, planes_of};
ghost use Rattle.desk_data.specs.Valid.{IsPlanFor};
ghost use Rattle.plan_reads.specs.Last.{IsLastOf};
ghost use Rattle.ferry_legs.specs.Positions.{ArePositions, hand_of_first};
ghost use Rattle.ferry_legs.specs.Prices.{at_hand_with};

use crate::ends::{end_of, lasts_before};
use crate::positions::{come, positions_of};
use crate::wanted::Wanted;
use desk_data::{Instance, Leg, NoMem, Plan, Plane};
use std::alloc::Global;

/// The positions of a day by airport, with the aircraft at hand that end there in a plan. Each aircraft is counted once, where
/// it ends. The only error is out of memory.
pub(crate) fn positions_at_first(
    alloc: Global,
    inst: &Instance,
    plan: &Plan,
) -> Result<Vec<Vec<Wanted>>, NoMem>
    requires { IsPlanFor inst.now plan.now }
    ensures { IfOk result (λ airports. ArePositions inst.now (at_hand_with inst.now plan.now []) (map (λ rows. rows.items) airports.items)) }
{
    let lasts = lasts_before(alloc, inst, plan, inst.window().1)?;
    let mut airports = positions_of(alloc, inst)?;
    for p in 0..inst.planes() {
        count_plane(inst, plan, Plane(p), lasts[p as usize], &mut airports);
    }
    Ok(airports)
}

/// Counts one more aircraft, given its last leg before the window's end. Surface transport ends nowhere.
fn count_plane(
    inst: &Instance,
    plan: &Plan,
    plane: Plane,
    last: Option<Leg>,
    airports: &mut Vec<Vec<Wanted>>,
)
    requires plane { plane.0 < planes_of inst.now }
    requires last { IsLastOf plan.now plane.0 inst.now.parts.to.0 (legs_of inst.now) last }
    requires so_far { ArePositions inst.now (hand_of_first plane.0 inst.now plan.now) (map (λ rows. rows.items) airports.old.items) }
    ensures { ArePositions inst.now (hand_of_first (plane.0 + 1) inst.now plan.now) (map (λ rows. rows.items) airports.new.items) }
{
    // only the contract speaks of the plan, and there are at most 1,000 aircraft
    let _ = plan;
    let _few = inst.planes();
    let info = inst.plane(plane);
    if info.surface {
        return;
    }
    come(airports, info, end_of(inst, plane, last));
}
