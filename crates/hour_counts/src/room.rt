//! Whether an airport has room for one more leg in an hour.

ghost use Rattle.std.specs.Prelude.{◌≡◌, ◌<◌};
ghost use Rattle.desk_data.specs.Situation.{legs_of};
ghost use Rattle.desk_data.specs.Valid.{IsPlanFor};
ghost use Rattle.hour_counts.specs.Room.{cap, has_room, others};

use crate::{KnowsHours, Movement};
use desk_data::{Instance, Leg};
use plan_reads::ReadPlan;

/// Whether a leg's airport has room for it in an hour: it has no cap then, or fewer other legs than
/// the cap do the same there.
pub(crate) fn has_room<P: ReadPlan, C: KnowsHours>(
    inst: &Instance,
    plan: &P,
    counts: &C,
    movement: Movement,
    leg: Leg,
    hour: u32,
) -> bool
    requires plan { IsPlanFor inst.now (P.plan_of plan.now) }
    requires counts { C.knows counts.now inst.now (P.plan_of plan.now) }
    requires leg { leg.0 < legs_of inst.now }
    ensures { result ≡ has_room inst.now (P.plan_of plan.now) movement leg.0 hour }
{
    match cap_of(inst, movement, leg, hour) {
        Some(cap) => count_others(inst, plan, counts, movement, leg, hour) < cap,
        None => true,
    }
}

/// How many legs may do the same as a leg at its airport in an hour; `None` where any number may.
fn cap_of(inst: &Instance, movement: Movement, leg: Leg, hour: u32) -> Option<u32>
    requires { leg.0 < legs_of inst.now }
    ensures { result ≡ cap inst.now movement leg.0 hour }
{
    let info = inst.leg(leg);
    match movement {
        Movement::Departure => inst.dep_cap(info.origin, hour),
        Movement::Arrival => inst.arr_cap(info.dest, hour),
    }
}

/// How many other legs do the same as a leg at its airport in an hour.
fn count_others<P: ReadPlan, C: KnowsHours>(
    inst: &Instance,
    plan: &P,
    counts: &C,
    movement: Movement,
    leg: Leg,
    hour: u32,
) -> u32
    requires plan { IsPlanFor inst.now (P.plan_of plan.now) }
    requires counts { C.knows counts.now inst.now (P.plan_of plan.now) }
    requires leg { leg.0 < legs_of inst.now }
    ensures { result ≡ others inst.now (P.plan_of plan.now) movement leg.0 hour }
{
    let row = plan.read_row(leg);
    let info = inst.leg(leg);
    match movement {
        Movement::Departure => counts.departures_beside(inst, leg, row, info.origin, hour),
        Movement::Arrival => counts.arrivals_beside(inst, leg, row, info.dest, hour),
    }
}
