//! The sum of the six cost terms.

ghost use Rattle.std.specs.Prelude.{◌≡◌, ◌<◌, ◌^◌};
ghost use Rattle.desk_data.specs.Valid.{IsPlanFor};
ghost use Rattle.desk_rules.specs.Cost.{cost, grains};

use crate::groups::passengers_cost;
use crate::operating::operating_cost;
use crate::position::position_cost;
use desk_data::{Grains, Instance};
use plan_reads::ReadPlan;

/// What the plan costs: the sum of the six terms, each with its weight. It takes no memory, and its
/// time is linear in the legs, the groups of passengers and their legs. For positions, all aircraft
/// are walked once for each run of groups at one airport, and then only those that end there for
/// each group.
pub fn full_cost<P: ReadPlan>(inst: &Instance, plan: &P) -> Grains
    requires { IsPlanFor inst.now (P.plan_of plan.now) }
    ensures cost { result ≡ grains (cost inst.now (P.plan_of plan.now)) }
    ensures limit { result.0 < 10 ^ 38 }
{
    operating_cost(inst, plan)
        .plus(passengers_cost(inst, plan))
        .plus(position_cost(inst, plan))
}
