//! The groups of a reservation, and how many of its passengers are on a path.

ghost use Rattle.std.specs.Prelude.{◌≡◌, ◌<◌, ◌≤◌};
ghost use Rattle.desk_data.specs.PlanRows.{groups_at};
ghost use Rattle.desk_data.specs.Situation.{reservations_of};
ghost use Rattle.desk_data.specs.Valid.{IsPlanFor};
ghost use Rattle.desk_model.specs.Rebook.{count_on};
ghost use Rattle.plan_reads.specs.Made.{AreWhole, everyone};

use crate::ReadPlan;
use desk_data::{Cabin, Group, Instance, Leg, Res, same_path};

/// The groups of a reservation in a plan, of at most 1,000 passengers together.
pub(crate) fn groups_of<'a, P: ReadPlan>(inst: &Instance, plan: &'a P, res: Res) -> &'a [Group]
    requires plan { IsPlanFor inst.now (P.plan_of plan.now) }
    requires res { res.0 < reservations_of inst.now }
    ensures groups { result.now ≡ groups_at (P.plan_of plan.now) res.0 }
    ensures whole { AreWhole inst.now res.0 result.now }
    ensures few { everyone result.now ≤ 1000 }
{
    // a reservation has at most 1,000 passengers
    let _few = inst.res(res);
    plan.groups(res)
}

/// How many passengers of some groups are on a path.
pub(crate) fn count_on(path: &[(Leg, Cabin)], groups: &[Group]) -> u32
    requires { everyone groups.now ≤ 1000 }
    ensures { result ≡ count_on path.now groups.now }
{
    let mut count = 0;
    for group in groups {
        if same_path(group.path.as_slice(), path) {
            count += group.count;
        }
    }
    count
}
