//! The first moment at which an added leg can depart.

ghost use Rattle.std.specs.Prelude.{◌<◌, ◌+◌, min};
ghost use Rattle.desk_data.specs.Valid.{IsPlanFor};
ghost use Rattle.ferry_legs.specs.Asked.{IsAsked};
ghost use Rattle.ferry_legs.specs.Departs.{IsFirst, can_depart};

use crate::ruled_out::{Asked, ruled_out_until};
use desk_data::{Instance, Minute, Plan};

/// For how many minutes an aircraft may wait: those of two days, and the first.
const MOMENTS: u32 = 2_881;

/// The first moment from `ready` on at which an added leg can depart: up to two days later, and before the window's end. The search
/// jumps from what rules a moment out to its end.
pub(crate) fn first_from(
    inst: &Instance,
    plan: &Plan,
    asked: Asked<'_>,
    ready: u32,
) -> Option<Minute>
    requires plan { IsPlanFor inst.now plan.now }
    requires asked { IsAsked inst.now plan.now asked }
    requires ready { ready < 52600000 }
    ensures { IsFirst (can_depart inst.now plan.now asked.entry.departures.added.now asked.entry.way) ready (min (ready + 2881) inst.now.parts.to.0) result }
{
    let (_, window_end) = inst.window();
    let end = (ready + MOMENTS).min(window_end.0);
    let mut at = ready;
    while at < end {
        match ruled_out_until(inst, plan, asked, at) {
            Some(next) => at = next,
            None => return Some(Minute(at)),
        }
    }
    None
}
