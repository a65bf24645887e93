//! The terms that passengers cost: delay, cancellation, downgrade and legal.

ghost use Rattle.std.specs.Prelude.{◌≡◌, ◌+◌, ◌*◌, ◌<◌, ◌≤◌, ◌^◌};
ghost use Rattle.desk_data.specs.Situation.{reservations_of};
ghost use Rattle.desk_data.specs.Valid.{IsPlanFor};
ghost use Rattle.desk_rules.specs.Cost.{delay_cost, cancellation_cost, downgrade_cost, legal_cost, grains};
ghost use Rattle.plan_checks.specs.Amounts.{group_cost, reservation_cost};
ghost use Rattle.plan_checks.specs.Counted.{IsGroupOf, group_on};
ghost use Rattle.plan_checks.specs.Weighed.{AreWeights};

use crate::ended::{cost_by_end, path_end};
use crate::weights::{Weights, weights_of};
use desk_data::{Cabin, Grains, Instance, Leg, Res};
use plan_reads::ReadPlan;

/// What the passengers cost.
pub(crate) fn passengers_cost<P: ReadPlan>(inst: &Instance, plan: &P) -> Grains
    requires { IsPlanFor inst.now (P.plan_of plan.now) }
    ensures cost { result.0 ≡ delay_cost inst.now (P.plan_of plan.now) + cancellation_cost inst.now (P.plan_of plan.now) + downgrade_cost inst.now (P.plan_of plan.now) + legal_cost inst.now (P.plan_of plan.now) }
    ensures limit { result.0 ≤ 6 * 10 ^ 37 }
{
    let weights = weights_of(inst);
    let _rows = inst.parts();
    let mut total = Grains(0);
    for r in 0..inst.reservations() {
        total = total.plus(reservation_cost(inst, plan, weights, Res(r)));
    }
    total
}

/// What the passengers of a reservation cost.
fn reservation_cost<P: ReadPlan>(inst: &Instance, plan: &P, weights: Weights, res: Res) -> Grains
    requires plan { IsPlanFor inst.now (P.plan_of plan.now) }
    requires weights { AreWeights inst.now weights }
    requires res { res.0 < reservations_of inst.now }
    ensures { result ≡ grains (reservation_cost inst.now (P.plan_of plan.now) res.0) }
{
    let _rows = inst.parts();
    let mut total = Grains(0);
    for group in plan.groups(res) {
        let path = group.path.as_slice();
        total = total.plus(group_cost(inst, plan, weights, res, path, group.count));
    }
    total
}

/// What some passengers of a reservation cost on a path.
pub(crate) fn group_cost<P: ReadPlan>(
    inst: &Instance,
    plan: &P,
    weights: Weights,
    res: Res,
    path: &[(Leg, Cabin)],
    count: u32,
) -> Grains
    requires plan { IsPlanFor inst.now (P.plan_of plan.now) }
    requires weights { AreWeights inst.now weights }
    requires res { res.0 < reservations_of inst.now }
    requires group { IsGroupOf inst.now (group_on path.now count) }
    ensures { result ≡ grains (group_cost inst.now (P.plan_of plan.now) res.0 (group_on path.now count)) }
{
    cost_by_end(inst, weights, res, path, count, path_end(inst, plan, path))
}
