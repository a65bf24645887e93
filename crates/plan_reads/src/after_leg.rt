//! C5 and C6: what is asked of a leg and its row, given the leg before it on its aircraft.

ghost use Rattle.std.specs.Prelude.{◌≡◌, ◌<◌, ◌≤◌, length};
ghost use Rattle.std.specs.Option.{ForSome};
ghost use Rattle.desk_data.specs.Situation.{legs_of, planes_of};
ghost use Rattle.desk_data.specs.PlanRows.{PlanRows, row_at};
ghost use Rattle.desk_data.specs.Valid.{IsRowOf};
ghost use Rattle.desk_rules.specs.Rotations.{ground_time};
ghost use Rattle.desk_rules.specs.Rules.{keeps_c5, keeps_c6};
ghost use Rattle.plan_reads.specs.Last.{stand};
ghost use Rattle.plan_reads.specs.AfterLeg.{IsRotationLegBefore, IsRotationLegOf, has_ground_time_after, c5_location_after, leg_in, c6_ground_time_after, with_departure};

use crate::legs::departure;
use crate::reads::ReadPlan;
use crate::rotation_leg::RotationLeg;
use crate::stand::stand_of;
use desk_data::{Airport, Instance, Leg, Minute, Plane, Row};

/// Whether a leg with a row meets C5, given the leg before it on its aircraft: it is cancelled or flown
/// by surface transport, or leaves where that leg arrived, and with no such leg where the aircraft
/// stands at first.
pub fn c5_location(inst: &Instance, leg: Leg, row: Row, before: Option<RotationLeg>) -> bool
    requires leg { leg.0 < legs_of inst.now }
    requires row { IsRowOf (planes_of inst.now) row }
    requires before { ForSome before (IsRotationLegOf (legs_of inst.now)) }
    ensures row { result ≡ c5_location_after inst.now leg.0 before row }
    ensures plan { (P : PlanRows) → row_at P leg.0 ≡ row → IsRotationLegBefore inst.now P leg.0 before → result ≡ keeps_c5 inst.now P leg.0 }
{
    c5_location_after(inst, leg, row, before)
}

fn c5_location_after(inst: &Instance, leg: Leg, row: Row, before: Option<RotationLeg>) -> bool
    requires leg { leg.0 < legs_of inst.now }
    requires row { IsRowOf (planes_of inst.now) row }
    requires before { ForSome before (IsRotationLegOf (legs_of inst.now)) }
    ensures { result ≡ c5_location_after inst.now leg.0 before row }
{
    match row {
        Row::Flown { plane, .. } => {
            inst.plane(plane).surface
                || inst.leg(leg).origin.0 == stand_after(inst, plane, before).0
        }
        Row::Cancelled => true,
    }
}

/// Where an aircraft stands after a leg, or with no leg at first.
pub fn stand_after(inst: &Instance, plane: Plane, before: Option<RotationLeg>) -> Airport
    requires plane { plane.0 < planes_of inst.now }
    requires before { ForSome before (λ earlier. earlier.leg.0 < legs_of inst.now) }
    ensures { result ≡ stand inst.now plane.0 (leg_in before) }
{
    match before {
        Some(earlier) => stand_of(inst, plane, Some(earlier.leg)),
        None => stand_of(inst, plane, None),
    }
}

/// Whether a leg with a row meets C6, given the leg before it on its aircraft: it is cancelled or flown
/// by surface transport, or departs once that leg has arrived and the ground time is over.
pub fn c6_ground_time(inst: &Instance, leg: Leg, row: Row, before: Option<RotationLeg>) -> bool
    requires leg { leg.0 < legs_of inst.now }
    requires row { IsRowOf (planes_of inst.now) row }
    requires before { ForSome before (IsRotationLegOf (legs_of inst.now)) }
    ensures row { result ≡ c6_ground_time_after inst.now leg.0 before row }
    ensures plan { (P : PlanRows) → row_at P leg.0 ≡ row → IsRotationLegBefore inst.now P leg.0 before → result ≡ keeps_c6 inst.now P leg.0 }
{
    c6_ground_time_after(inst, leg, row, before)
}

fn c6_ground_time_after(inst: &Instance, leg: Leg, row: Row, before: Option<RotationLeg>) -> bool
    requires leg { leg.0 < legs_of inst.now }
    requires row { IsRowOf (planes_of inst.now) row }
    requires before { ForSome before (IsRotationLegOf (legs_of inst.now)) }
    ensures { result ≡ c6_ground_time_after inst.now leg.0 before row }
{
    match row {
        Row::Flown { plane, dep } => {
            inst.plane(plane).surface || has_ground_time_after(inst, plane, leg, dep, before)
        }
        Row::Cancelled => true,
    }
}

/// Whether a leg of an aircraft departs once the leg before it has arrived and the ground time is over.
fn has_ground_time_after(
    inst: &Instance,
    plane: Plane,
    leg: Leg,
    dep: Minute,
    before: Option<RotationLeg>,
) -> bool
    requires plane { plane.0 < planes_of inst.now }
    requires leg { leg.0 < legs_of inst.now }
    requires before { ForSome before (IsRotationLegOf (legs_of inst.now)) }
    ensures { result ≡ has_ground_time_after inst.now plane.0 leg.0 dep.0 before }
{
    let Some(earlier) = before else {
        return true;
    };
    let arrival = earlier.dep.0 + inst.leg(earlier.leg).block;
    arrival + ground_time(inst, plane, earlier.leg, leg) <= dep.0
}

/// The ground time of an aircraft between two legs, at most 2,880 minutes, of which C6 and Push speak:
/// its transit time where the first is the previous leg of the second, else its turnaround time.
pub fn ground_time(inst: &Instance, plane: Plane, earlier: Leg, leg: Leg) -> u32
    requires plane { plane.0 < planes_of inst.now }
    requires leg { leg.0 < legs_of inst.now }
    ensures time { result ≡ ground_time inst.now plane.0 earlier.0 leg.0 }
    ensures limit { result ≤ 2880 }
{
    let flying = inst.plane(plane);
    if inst.leg(leg).prev == Some(earlier) {
        flying.transit
    } else {
        flying.turnaround
    }
}

/// A leg with its departure in a plan, if there is one.
pub fn with_departure<P: ReadPlan>(plan: &P, leg: Option<Leg>) -> Option<RotationLeg>
    requires { ForSome leg (λ leg. leg.0 < length (P.plan_of plan.now).rows) }
    ensures leg { result ≡ with_departure (P.plan_of plan.now) leg }
    ensures limit { ForSome result (IsRotationLegOf (length (P.plan_of plan.now).rows)) }
{
    match leg {
        Some(leg) => Some(RotationLeg {
            dep: Minute(departure(plan, leg)),
            leg,
        }),
        None => None,
    }
}
