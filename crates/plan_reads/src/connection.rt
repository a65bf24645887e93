//! Whether paths connect in a plan, and whether passengers can go on from one leg with another.

ghost use Rattle.std.specs.Prelude.{◌≡◌, ◌<◌, ◌≤◌};
ghost use Rattle.desk_data.specs.PlanRows.{IsRow};
ghost use Rattle.desk_data.specs.Situation.{legs_of};
ghost use Rattle.desk_data.specs.Valid.{IsPathOf, IsPlanFor};
ghost use Rattle.desk_rules.specs.Passengers.{connects, reaches, share_plane};
ghost use Rattle.plan_reads.specs.Connection.{goes_on, time_between};

use crate::legs::row_departure;
use crate::reads::ReadPlan;
use desk_data::{Cabin, Instance, Leg, Row};

/// Whether each leg of a path but the first is reached from the one before it.
pub fn connects<P: ReadPlan>(inst: &Instance, plan: &P, path: &[(Leg, Cabin)]) -> bool
    requires plan { IsPlanFor inst.now (P.plan_of plan.now) }
    requires path { IsPathOf (legs_of inst.now) path.now }
    ensures { result ≡ connects inst.now (P.plan_of plan.now) path.now }
{
    for i in 1..path.len() {
        if !reaches(inst, plan, path[i - 1].0, path[i].0) {
            return false;
        }
    }
    true
}

/// Whether passengers of a leg can go on with another in a plan.
fn reaches<P: ReadPlan>(inst: &Instance, plan: &P, leg: Leg, next: Leg) -> bool
    requires plan { IsPlanFor inst.now (P.plan_of plan.now) }
    requires leg { leg.0 < legs_of inst.now }
    requires next { next.0 < legs_of inst.now }
    ensures { result ≡ reaches inst.now (P.plan_of plan.now) leg.0 next.0 }
{
    goes_on(inst, leg, plan.read_row(leg), next, plan.read_row(next))
}

/// Whether passengers of a leg can go on with another, given the rows of both: it leaves where the first
/// arrived, and late enough.
pub fn goes_on(inst: &Instance, leg: Leg, row: Row, next: Leg, row_of_next: Row) -> bool
    requires leg { leg.0 < legs_of inst.now }
    requires next { next.0 < legs_of inst.now }
    requires row { IsRow row }
    ensures { result ≡ goes_on inst.now leg.0 row next.0 row_of_next }
{
    inst.leg(next).origin.0 == inst.leg(leg).dest.0
        && row_departure(row)
            + inst.leg(leg).block
            + time_between(inst, leg, row, next, row_of_next)
            <= row_departure(row_of_next)
}

/// The minutes that passengers need from a leg to another: none where it is the previous leg of the
/// other and one aircraft flies both, else 30.
fn time_between(inst: &Instance, leg: Leg, row: Row, next: Leg, row_of_next: Row) -> u32
    requires leg { leg.0 < legs_of inst.now }
    requires next { next.0 < legs_of inst.now }
    ensures time { result ≡ time_between inst.now leg.0 row next.0 row_of_next }
    ensures limit { result ≤ 30 }
{
    if inst.leg(next).prev == Some(leg) && share_plane(row, row_of_next) {
        0
    } else {
        30
    }
}

/// Whether one aircraft flies both rows.
fn share_plane(row: Row, other: Row) -> bool
    ensures { result ≡ share_plane row other }
{
    match (row, other) {
        (Row::Flown { plane, .. }, Row::Flown { plane: next, .. }) => plane.0 == next.0,
        _ => false,
    }
}
