//! What those on each leg come to cost, if they are no longer carried.

ghost use Rattle.std.specs.Prelude.{◌≡◌, ℕ, ◌+◌, ◌<◌, ◌≤◌, ◌^◌, if◌then◌else◌, length, replicate, All, IfOk, sum_by};
ghost use Rattle.desk_data.specs.Situation.{legs_of, reservations_of};
ghost use Rattle.desk_data.specs.Valid.{IsPathOf, IsPlanFor};
ghost use Rattle.desk_model.specs.Refill.{has_leg};
ghost use Rattle.plan_checks.specs.Counted.{IsGroupOf};
ghost use Rattle.near_priced.specs.Tables.{amount};
ghost use Rattle.near_dear.specs.Owed.{AreOwed, owed_by, uncarried};

use desk_data::{Cabin, Group, Instance, Leg, NoMem, Res};
use plan_checks::path_cost;
use plan_pages::Pages;
use std::alloc::Global;

/// For each leg what those come to cost, in grains, who are on it at a plan, which is one for the instance, if they are no
/// longer carried: one walk over the groups. The only error is out of memory.
pub fn owed_by_leg(alloc: Global, inst: &Instance, plan: &Pages) -> Result<Vec<u128>, NoMem>
    requires { IsPlanFor inst.now plan.now }
    ensures { IfOk result (λ owed. AreOwed inst.now plan.now owed.items (reservations_of inst.now)) }
{
    let mut owed = zeros(alloc, inst.legs() as usize)?;
    for r in 0..inst.reservations() {
        put_one(inst, plan, Res(r), &mut owed);
    }
    Ok(owed)
}

/// So many times 0.
fn zeros(alloc: Global, count: usize) -> Result<Vec<u128>, NoMem>
    ensures { IfOk result (λ none. none.items ≡ replicate count 0) }
{
    Ok(vec![in alloc; 0; count]?)
}

/// Adds to the amounts of legs what one reservation more comes to cost.
fn put_one(inst: &Instance, plan: &Pages, res: Res, owed: &mut Vec<u128>)
    requires plan { IsPlanFor inst.now plan.now }
    requires res { res.0 < reservations_of inst.now }
    requires owed { AreOwed inst.now plan.now owed.old.items res.0 }
    ensures { AreOwed inst.now plan.now owed.new.items (res.0 + 1) }
{
    let _rows = inst.parts();
    add_groups(inst, res, plan.groups(res), owed);
}

/// Adds to the amounts of legs what some groups of a reservation come to cost.
fn add_groups(inst: &Instance, res: Res, groups: &[Group], owed: &mut Vec<u128>)
    requires res { res.0 < reservations_of inst.now }
    requires groups { All (IsGroupOf inst.now) groups.now }
    requires legs { length owed.old.items ≡ legs_of inst.now }
    requires room { (x : ℕ) → amount owed.old.items x + sum_by (owed_by inst.now x res.0) groups.now ≤ 10 ^ 38 }
    ensures legs { length owed.new.items ≡ length owed.old.items }
    ensures grown { (x : ℕ) → amount owed.new.items x ≡ amount owed.old.items x + sum_by (owed_by inst.now x res.0) groups.now }
{
    for group in groups {
        add_group(inst, res, group, owed);
    }
}

/// The same of a group.
fn add_group(inst: &Instance, res: Res, group: &Group, owed: &mut Vec<u128>)
    requires res { res.0 < reservations_of inst.now }
    requires group { IsGroupOf inst.now group.now }
    requires legs { length owed.old.items ≡ legs_of inst.now }
    requires room { (x : ℕ) → amount owed.old.items x + owed_by inst.now x res.0 group.now ≤ 10 ^ 38 }
    ensures legs { length owed.new.items ≡ length owed.old.items }
    ensures grown { (x : ℕ) → amount owed.new.items x ≡ amount owed.old.items x + owed_by inst.now x res.0 group.now }
{
    add_path(
        uncarried(inst, res, group.count),
        group.path.as_slice(),
        owed,
    );
}

/// What so many passengers of a reservation cost who are not carried, in grains.
#[tactic(auto, unfolding(plan_checks::specs::Amounts::path_cost))]
fn uncarried(inst: &Instance, res: Res, count: u32) -> u128
    requires res { res.0 < reservations_of inst.now }
    requires few { count ≤ 1000 }
    ensures { result ≡ uncarried inst.now res.0 count }
{
    path_cost(inst, res, &[], count, None).0
}

/// Adds a cost to the amounts of the legs of a path, once to each.
fn add_path(cost: u128, path: &[(Leg, Cabin)], owed: &mut Vec<u128>)
    requires path { IsPathOf (length owed.old.items) path.now }
    requires room { (x : ℕ) → amount owed.old.items x + (if has_leg x path.now then cost else 0) ≤ 10 ^ 38 }
    ensures legs { length owed.new.items ≡ length owed.old.items }
    ensures grown { (x : ℕ) → amount owed.new.items x ≡ amount owed.old.items x + (if has_leg x path.now then cost else 0) }
{
    for k in 0..path.len() {
        let leg = path[k].0;
        if !has_leg(&path[..k], leg) {
            let amount = owed[leg.0 as usize];
            owed[leg.0 as usize] = amount + cost;
        }
    }
}

/// Whether a path has a leg.
fn has_leg(path: &[(Leg, Cabin)], leg: Leg) -> bool
    ensures { result ≡ has_leg leg.0 path.now }
{
    path.iter().any(|pair| pair.0.0 == leg.0)
}
