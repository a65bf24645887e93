//! What those pay who are on each leg, and those who are booked on it.

ghost use Rattle.std.specs.Prelude.{◌≡◌, ℕ, ◌+◌, ◌<◌, ◌≤◌, ◌^◌, length, All};
ghost use Rattle.desk_data.specs.Situation.{legs_of, reservations_of};
ghost use Rattle.desk_data.specs.Valid.{IsPathOf, IsPlanFor};
ghost use Rattle.near_priced.specs.Payers.{AreCosts};
ghost use Rattle.near_priced.specs.Tables.{AreAmounts, AreGrown, AreNoLess};

use crate::cost_of;
use desk_data::{Cabin, Grains, Group, Instance, Leg, Res};
use plan_pages::Pages;

/// An amount, in grains, grows to this and no further: 10^38, and all passengers of a plan cost no more.
const MOST: u128 = 100_000_000_000_000_000_000_000_000_000_000_000_000;

/// Adds to the amounts of legs what each reservation pays: to those on which somebody of it is, and to those on which it
/// is booked.
pub(crate) fn put_paid(
    inst: &Instance,
    plan: &Pages,
    costs: &[Grains],
    on: &mut Vec<u128>,
    booked: &mut Vec<u128>,
)
    requires plan { IsPlanFor inst.now plan.now }
    requires costs { AreCosts inst.now plan.now costs.now (reservations_of inst.now) }
    requires on { length on.old.items ≡ legs_of inst.now }
    requires booked { length booked.old.items ≡ legs_of inst.now }
    ensures { AreAmounts inst.now plan.now on.new.items booked.new.items (reservations_of inst.now) }
{
    for r in 0..inst.reservations() {
        put_one(inst, plan, costs, Res(r), on, booked);
    }
}

/// The same of one reservation more.
fn put_one(
    inst: &Instance,
    plan: &Pages,
    costs: &[Grains],
    res: Res,
    on: &mut Vec<u128>,
    booked: &mut Vec<u128>,
)
    requires plan { IsPlanFor inst.now plan.now }
    requires costs { AreCosts inst.now plan.now costs.now (reservations_of inst.now) }
    requires res { res.0 < reservations_of inst.now }
    requires amounts { AreAmounts inst.now plan.now on.old.items booked.old.items res.0 }
    ensures { AreAmounts inst.now plan.now on.new.items booked.new.items (res.0 + 1) }
{
    let _rows = inst.parts();
    let cost = cost_of(inst, plan, costs, res);
    if cost.0 == 0 {
        return;
    }
    add_groups(cost.0, plan.groups(res), on);
    add_legs(cost.0, inst.res(res).path.as_slice(), booked);
}

/// Adds a cost to the amounts of the legs of the paths of some groups.
fn add_groups(cost: u128, groups: &[Group], on: &mut Vec<u128>)
    requires { All (λ group. IsPathOf (length on.old.items) group.path) groups.now }
    ensures on { length on.new.items ≡ length on.old.items }
    ensures kept { AreNoLess on.old.items on.new.items }
    ensures grown { All (λ group. AreGrown cost on.old.items on.new.items group.path) groups.now }
{
    for group in groups {
        add_legs(cost, group.path.as_slice(), on);
    }
}

/// Adds a cost to the amounts of the legs of a path.
fn add_legs(cost: u128, path: &[(Leg, Cabin)], amounts: &mut Vec<u128>)
    requires { IsPathOf (length amounts.old.items) path.now }
    ensures amounts { length amounts.new.items ≡ length amounts.old.items }
    ensures kept { AreNoLess amounts.old.items amounts.new.items }
    ensures grown { AreGrown cost amounts.old.items amounts.new.items path.now }
{
    for pair in path {
        let amount = amounts[pair.0.0 as usize];
        amounts[pair.0.0 as usize] = grown(amount, cost);
    }
}

/// An amount with a cost more.
fn grown(amount: u128, cost: u128) -> u128
    ensures kept { amount ≤ result }
    ensures grown { (n : ℕ) → n ≤ amount + cost → n ≤ 10 ^ 38 → n ≤ result }
{
    if cost <= MOST && amount <= MOST - cost {
        amount + cost
    } else if amount < MOST {
        MOST
    } else {
        amount
    }
}
