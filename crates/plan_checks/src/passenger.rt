//! What a passenger costs on a path.

ghost use Rattle.std.specs.Prelude.{◌≡◌, ◌<◌, ◌≤◌, length};
ghost use Rattle.desk_data.specs.Situation.{legs_of, reservations_of};
ghost use Rattle.desk_data.specs.Valid.{IsPathOf, IsPlanFor};
ghost use Rattle.desk_rules.specs.Cost.{grains};
ghost use Rattle.plan_checks.specs.Amounts.{passenger_cost};

use crate::groups::group_cost;
use crate::weights::weights_of;
use desk_data::{Cabin, Grains, Instance, Leg, Res};
use plan_reads::ReadPlan;

/// What one passenger of a reservation costs on a path of at most 8 legs, as the legs' rows stand: the
/// delay, the cancellation, the downgrades and what is owed. Whether somebody is on the path plays no
/// part. So many passengers cost so many times that.
pub fn passenger_cost<P: ReadPlan>(
    inst: &Instance,
    plan: &P,
    res: Res,
    path: &[(Leg, Cabin)],
) -> Grains
    requires plan { IsPlanFor inst.now (P.plan_of plan.now) }
    requires res { res.0 < reservations_of inst.now }
    requires short { length path.now ≤ 8 }
    requires among { IsPathOf (legs_of inst.now) path.now }
    ensures { result ≡ grains (passenger_cost inst.now (P.plan_of plan.now) res.0 path.now) }
{
    group_cost(inst, plan, weights_of(inst), res, path, 1)
}
