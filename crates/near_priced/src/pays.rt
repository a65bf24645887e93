//! What reservations cost.

ghost use Rattle.std.specs.Prelude.{◌≡◌, ◌<◌, IfOk};
ghost use Rattle.desk_data.specs.Situation.{reservations_of};
ghost use Rattle.desk_data.specs.Valid.{IsPlanFor};
ghost use Rattle.desk_rules.specs.Cost.{grains};
ghost use Rattle.plan_checks.specs.Amounts.{group_cost, reservation_cost};
ghost use Rattle.plan_checks.specs.Counted.{IsGroupOf, group_on};
ghost use Rattle.near_priced.specs.Payers.{AreCosts};

use desk_data::{Cabin, Grains, Instance, Leg, NoMem, Res};
use plan_checks::{path_cost, path_end};
use plan_pages::Pages;
use std::alloc::Global;

/// What the passengers of each reservation cost by the paths that they are on, by its number: one walk over the groups of
/// a plan, which is one for the instance. The only error is out of memory.
pub fn reservation_costs(alloc: Global, inst: &Instance, plan: &Pages) -> Result<Vec<Grains>, NoMem>
    requires { IsPlanFor inst.now plan.now }
    ensures { IfOk result (λ costs. AreCosts inst.now plan.now costs.items (reservations_of inst.now)) }
{
    let mut costs = Vec::with_capacity(alloc, inst.reservations() as usize)?;
    for r in 0..inst.reservations() {
        let cost = reservation_cost(inst, plan, Res(r));
        costs.push(cost)?;
    }
    Ok(costs)
}

/// What the passengers of a reservation cost, looked up.
pub fn cost_of(_inst: &Instance, _plan: &Pages, costs: &[Grains], res: Res) -> Grains
    requires costs { AreCosts _inst.now _plan.now costs.now (reservations_of _inst.now) }
    requires res { res.0 < reservations_of _inst.now }
    ensures { result.0 ≡ reservation_cost _inst.now _plan.now res.0 }
{
    costs[res.0 as usize]
}

/// What the passengers of a reservation cost.
fn reservation_cost(inst: &Instance, plan: &Pages, res: Res) -> Grains
    requires plan { IsPlanFor inst.now plan.now }
    requires res { res.0 < reservations_of inst.now }
    ensures { result.0 ≡ reservation_cost inst.now plan.now res.0 }
{
    let _rows = inst.parts();
    let mut total = Grains(0);
    for group in plan.groups(res) {
        let path = group.path.as_slice();
        total = total.plus(group_cost(inst, plan, res, path, group.count));
    }
    total
}

/// What some passengers of a reservation cost on a path.
fn group_cost(inst: &Instance, plan: &Pages, res: Res, path: &[(Leg, Cabin)], count: u32) -> Grains
    requires plan { IsPlanFor inst.now plan.now }
    requires res { res.0 < reservations_of inst.now }
    requires group { IsGroupOf inst.now (group_on path.now count) }
    ensures { result ≡ grains (group_cost inst.now plan.now res.0 (group_on path.now count)) }
{
    path_cost(inst, res, path, count, path_end(inst, plan, path))
}
