//! Rebook: passengers go from one path to another.

ghost use Rattle.std.specs.Prelude.{◌≡◌, ◌<◌, ◌≤◌, ◌==◌, ◌||◌, IfOk, is_none, min};
ghost use Rattle.std.specs.Option.{ForSome};
ghost use Rattle.plan_moves.specs.Fits.{IsPathIn};
ghost use Rattle.desk_data.specs.PlanRows.{groups_at, with_groups, same_path};
ghost use Rattle.desk_data.specs.Situation.{legs_of, reservations_of};
ghost use Rattle.desk_data.specs.Valid.{IsPlanFor};
ghost use Rattle.desk_model.specs.Rebook.{after_rebook, count_on, groups_after_rebook};
ghost use Rattle.plan_reads.specs.Made.{AreWhole, everyone, groups_or};

use crate::ReadPlan;
use crate::counts::{count_on, groups_of};
use crate::made::with_count;
use desk_data::{Cabin, Group, Instance, Leg, NoMem, Res, same_path};
use std::alloc::Global;

/// The groups of a reservation once `count` of its passengers, or all on the path where they are
/// fewer, go from one path to another. `None` where nobody goes, or the two paths are one: the
/// reservation keeps its groups. The paths have at most 8 legs, which are in range. The only error is
/// out of memory.
pub fn groups_after_rebook<P: ReadPlan>(
    alloc: Global,
    inst: &Instance,
    plan: &P,
    res: Res,
    path: &[(Leg, Cabin)],
    to: &[(Leg, Cabin)],
    count: u32,
) -> Result<Option<Vec<Group>>, NoMem>
    requires plan { IsPlanFor inst.now (P.plan_of plan.now) }
    requires res { res.0 < reservations_of inst.now }
    requires path { IsPathIn (legs_of inst.now) path.now }
    requires to { IsPathIn (legs_of inst.now) to.now }
    ensures made { IfOk result (λ made. with_groups (P.plan_of plan.now) res.0 (groups_or (groups_at (P.plan_of plan.now) res.0) made) ≡ after_rebook (P.plan_of plan.now) res.0 path.now to.now count) }
    ensures whole { IfOk result (λ made. ForSome made (λ groups. AreWhole inst.now res.0 groups.items)) }
    ensures none { IfOk result (λ made. is_none made ≡ ((min count (count_on path.now (groups_at (P.plan_of plan.now) res.0)) == 0) || same_path path.now to.now)) }
{
    let groups = groups_of(inst, plan, res);
    let moving = count.min(count_on(path, groups));
    if moving == 0 || same_path(path, to) {
        return Ok(None);
    }
    let made = rebooked(alloc, groups, path, to, moving)?;
    Ok(Some(made))
}

/// The groups once so many of the passengers on one path go to another.
pub(crate) fn rebooked(
    alloc: Global,
    groups: &[Group],
    path: &[(Leg, Cabin)],
    to: &[(Leg, Cabin)],
    moving: u32,
) -> Result<Vec<Group>, NoMem>
    requires few { everyone groups.now ≤ 1000 }
    requires moving { moving ≤ count_on path.now groups.now }
    ensures { IfOk result (λ made. made.items ≡ groups_after_rebook path.now to.now moving groups.now) }
{
    let left = count_on(path, groups) - moving;
    let fewer = with_count(alloc, path, left, groups)?;
    let come = count_on(to, fewer.as_slice()) + moving;
    with_count(alloc, to, come, fewer.as_slice())
}
