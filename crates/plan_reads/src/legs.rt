//! When the legs of a plan leave, and when they arrive.

ghost use Rattle.std.specs.Prelude.{◌≡◌, ◌<◌, length};
ghost use Rattle.desk_data.specs.PlanRows.{IsRow};
ghost use Rattle.desk_data.specs.Situation.{legs_of};
ghost use Rattle.desk_data.specs.Valid.{IsPlanFor};
ghost use Rattle.desk_rules.specs.Rotations.{arr, dep, departure};

use crate::reads::ReadPlan;
use desk_data::{Instance, Leg, Row};

/// When a leg departs, in minutes since 2000-01-01; 0 where it is cancelled.
pub fn departure<P: ReadPlan>(plan: &P, leg: Leg) -> u32
    requires { leg.0 < length (P.plan_of plan.now).rows }
    ensures departure { result ≡ dep (P.plan_of plan.now) leg.0 }
    ensures limit { result < 52500000 }
{
    row_departure(plan.read_row(leg))
}

/// When a leg departs by its row, in minutes since 2000-01-01; 0 where it is cancelled.
pub fn row_departure(row: Row) -> u32
    ensures departure { result ≡ departure row }
    ensures limit { IsRow row → result < 52500000 }
{
    match row {
        Row::Flown { dep, .. } => dep.0,
        Row::Cancelled => 0,
    }
}

/// When a leg arrives, in minutes since 2000-01-01; its block time where it is cancelled.
pub fn arrival<P: ReadPlan>(inst: &Instance, plan: &P, leg: Leg) -> u32
    requires plan { IsPlanFor inst.now (P.plan_of plan.now) }
    requires leg { leg.0 < legs_of inst.now }
    ensures arrival { result ≡ arr inst.now (P.plan_of plan.now) leg.0 }
    ensures limit { result < 52502880 }
{
    departure(plan, leg) + inst.leg(leg).block
}
