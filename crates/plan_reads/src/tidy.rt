//! Tidy: passengers on paths that break a rule are no longer carried.

ghost use Rattle.std.specs.Prelude.{◌≡◌, ◌<◌, ◌≤◌, ◌++◌, false, All, IfOk, OnErr, OnOk, filter, is_none};
ghost use Rattle.std.specs.Option.{ForSome};
ghost use Rattle.desk_data.specs.PlanRows.{groups_at};
ghost use Rattle.desk_data.specs.Situation.{legs_of, reservations_of};
ghost use Rattle.desk_data.specs.Valid.{IsPathOf, IsPlanFor};
ghost use Rattle.desk_rules.specs.Carriage.{each_carried};
ghost use Rattle.desk_model.specs.Tidy.{groups_after_tidy, is_fit_path, stays_carried};
ghost use Rattle.plan_reads.specs.Made.{AreWhole, everyone, groups_or, leaving};

use crate::ReadPlan;
use crate::counts::groups_of;
use crate::fits::{is_fit_if_carried, stays_carried};
use crate::made::{add_group, copied};
use desk_data::{Group, Instance, NoMem, Res};
use std::alloc::Global;

/// The groups of a reservation once the passengers on carried paths that break C13, C14 or C15 are no
/// longer carried. `None` where no carried path breaks one: the reservation keeps its groups, and no
/// memory is taken. The only error is out of memory, and only where a carried path breaks a rule.
pub fn groups_after_tidy<P: ReadPlan>(
    alloc: Global,
    inst: &Instance,
    plan: &P,
    res: Res,
) -> Result<Option<Vec<Group>>, NoMem>
    requires plan { IsPlanFor inst.now (P.plan_of plan.now) }
    requires res { res.0 < reservations_of inst.now }
    ensures made { IfOk result (λ made. groups_or (groups_at (P.plan_of plan.now) res.0) made ≡ groups_after_tidy inst.now (P.plan_of plan.now) res.0) }
    ensures whole { IfOk result (λ made. ForSome made (λ groups. AreWhole inst.now res.0 groups.items)) }
    ensures none { IfOk result (λ made. is_none made ≡ each_carried (P.plan_of plan.now) res.0 (is_fit_path inst.now (P.plan_of plan.now) res.0)) }
    ensures err { OnErr result (each_carried (P.plan_of plan.now) res.0 (is_fit_path inst.now (P.plan_of plan.now) res.0) ≡ false) }
{
    let groups = groups_of(inst, plan, res);
    if all_fit(inst, plan, res, groups) {
        return Ok(None);
    }
    let made = tidied(alloc, inst, plan, res, groups)?;
    Ok(Some(made))
}

/// Whether each path on which passengers of a reservation, with these groups, are carried is fit.
fn all_fit<P: ReadPlan>(inst: &Instance, plan: &P, res: Res, groups: &[Group]) -> bool
    requires plan { IsPlanFor inst.now (P.plan_of plan.now) }
    requires res { res.0 < reservations_of inst.now }
    requires paths { All (λ group. IsPathOf (legs_of inst.now) group.path) groups.now }
    requires groups { groups.now ≡ groups_at (P.plan_of plan.now) res.0 }
    ensures { result ≡ each_carried (P.plan_of plan.now) res.0 (is_fit_path inst.now (P.plan_of plan.now) res.0) }
{
    groups
        .iter()
        .all(|group| is_fit_if_carried(inst, plan, res, &group.path))
}

/// The groups of a reservation that it has after a Tidy.
fn tidied<P: ReadPlan>(
    alloc: Global,
    inst: &Instance,
    plan: &P,
    res: Res,
    groups: &[Group],
) -> Result<Vec<Group>, NoMem>
    requires plan { IsPlanFor inst.now (P.plan_of plan.now) }
    requires res { res.0 < reservations_of inst.now }
    requires paths { All (λ group. IsPathOf (legs_of inst.now) group.path) groups.now }
    requires groups { groups.now ≡ groups_at (P.plan_of plan.now) res.0 }
    requires few { everyone groups.now ≤ 1000 }
    ensures { IfOk result (λ made. made.items ≡ groups_after_tidy inst.now (P.plan_of plan.now) res.0) }
{
    let mut made = Vec::with_capacity(alloc, groups.len())?;
    let count = leaving(inst, plan, res, groups);
    add_group(alloc, count, &[], &mut made)?;
    add_staying(alloc, inst, plan, res, groups, &mut made)?;
    Ok(made)
}

/// How many passengers of some groups of a reservation are not carried after a Tidy.
fn leaving<P: ReadPlan>(inst: &Instance, plan: &P, res: Res, groups: &[Group]) -> u32
    requires plan { IsPlanFor inst.now (P.plan_of plan.now) }
    requires res { res.0 < reservations_of inst.now }
    requires paths { All (λ group. IsPathOf (legs_of inst.now) group.path) groups.now }
    requires few { everyone groups.now ≤ 1000 }
    ensures { result ≡ leaving inst.now (P.plan_of plan.now) res.0 groups.now }
{
    let mut count = 0;
    for group in groups {
        if !stays_carried(inst, plan, res, &group.path) {
            count += group.count;
        }
    }
    count
}

/// Puts copies of those groups of a reservation after others that stay carried in a Tidy.
fn add_staying<P: ReadPlan>(
    alloc: Global,
    inst: &Instance,
    plan: &P,
    res: Res,
    groups: &[Group],
    made: &mut Vec<Group>,
) -> Result<(), NoMem>
    requires plan { IsPlanFor inst.now (P.plan_of plan.now) }
    requires res { res.0 < reservations_of inst.now }
    requires paths { All (λ group. IsPathOf (legs_of inst.now) group.path) groups.now }
    ensures { OnOk result (made.new.items ≡ made.old.items ++ filter (λ group. stays_carried inst.now (P.plan_of plan.now) res.0 group.path) groups.now) }
{
    for group in groups {
        if stays_carried(inst, plan, res, &group.path) {
            made.push(copied(alloc, group)?)?;
        }
    }
    Ok(())
}
