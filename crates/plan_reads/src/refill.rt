//! Refill: passengers who are not carried go back to their scheduled path, as far as it has seats and C15
//! leaves room for them.

ghost use Rattle.std.specs.Prelude.{◌≡◌, ◌<◌, ◌≤◌, ◌==◌, IfOk, is_none};
ghost use Rattle.std.specs.Option.{ForSome};
ghost use Rattle.desk_data.specs.PlanRows.{groups_at, with_groups};
ghost use Rattle.desk_data.specs.Situation.{reservations_of};
ghost use Rattle.desk_data.specs.Valid.{IsPlanFor};
ghost use Rattle.desk_model.specs.Refill.{after_refilling, has_leg};
ghost use Rattle.plan_reads.specs.Made.{AreWhole, everyone, going_back, groups_or};

use crate::ReadPlan;
use crate::aboard::KnowsAboard;
use crate::counts::{count_on, groups_of};
use crate::fits::is_fit_path;
use crate::free_seats::fitting;
use crate::rebook::rebooked;
use desk_data::{Cabin, Group, Instance, Leg, NoMem, Res};
use std::alloc::Global;

/// The groups of a reservation once a Refill of a leg has looked at it: where its scheduled path has
/// the leg and meets C13, C14 and C15, as many of its passengers who are not carried go to that path
/// as all its legs have seats for and C15 leaves room for. `None` where nobody goes: the reservation keeps
/// its groups.
///
/// How many passengers are aboard the path's legs is what `seats` knows of the plan. The only error is
/// out of memory.
pub fn groups_after_refill<P: ReadPlan, S: KnowsAboard>(
    alloc: Global,
    inst: &Instance,
    plan: &P,
    seats: &S,
    leg: Leg,
    res: Res,
) -> Result<Option<Vec<Group>>, NoMem>
    requires plan { IsPlanFor inst.now (P.plan_of plan.now) }
    requires seats { S.knows seats.now (P.plan_of plan.now) }
    requires res { res.0 < reservations_of inst.now }
    ensures made { IfOk result (λ made. with_groups (P.plan_of plan.now) res.0 (groups_or (groups_at (P.plan_of plan.now) res.0) made) ≡ after_refilling inst.now leg.0 (P.plan_of plan.now) res.0) }
    ensures whole { IfOk result (λ made. ForSome made (λ groups. AreWhole inst.now res.0 groups.items)) }
    ensures none { IfOk result (λ made. is_none made ≡ (going_back inst.now (P.plan_of plan.now) leg.0 res.0 == 0)) }
{
    let groups = groups_of(inst, plan, res);
    let going = going_back(inst, plan, seats, leg, res, groups);
    if going == 0 {
        return Ok(None);
    }
    let scheduled = inst.res(res).path.as_slice();
    let made = rebooked(alloc, groups, &[], scheduled, going)?;
    Ok(Some(made))
}

/// How many of a reservation's passengers, with these groups, go back to its scheduled path.
fn going_back<P: ReadPlan, S: KnowsAboard>(
    inst: &Instance,
    plan: &P,
    seats: &S,
    leg: Leg,
    res: Res,
    groups: &[Group],
) -> u32
    requires plan { IsPlanFor inst.now (P.plan_of plan.now) }
    requires seats { S.knows seats.now (P.plan_of plan.now) }
    requires res { res.0 < reservations_of inst.now }
    requires groups { groups.now ≡ groups_at (P.plan_of plan.now) res.0 }
    requires few { everyone groups.now ≤ 1000 }
    ensures { result ≡ going_back inst.now (P.plan_of plan.now) leg.0 res.0 }
{
    let path = &inst.res(res).path;
    let waiting = count_on(&[], groups);
    if waiting == 0 || !has_leg(leg, path.as_slice()) || !is_fit_path(inst, plan, res, path) {
        return 0;
    }
    let most = waiting.min(inst.room(res, groups, path));
    fitting(inst, plan, seats, path.as_slice(), most)
}

/// Whether a path has a leg.
fn has_leg(leg: Leg, path: &[(Leg, Cabin)]) -> bool
    ensures { result ≡ has_leg leg.0 path.now }
{
    path.iter().any(|pair| pair.0.0 == leg.0)
}
