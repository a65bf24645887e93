//! C15: the paths on which passengers are carried begin with the legs that have begun, and no more are carried
//! with the legs that have left than have flown them.

ghost use Rattle.std.specs.Prelude.{◌≡◌, ◌<◌};
ghost use Rattle.desk_data.specs.PlanRows.{groups_at};
ghost use Rattle.desk_data.specs.Situation.{reservations_of};
ghost use Rattle.desk_rules.specs.Carriage.{keeps_c15};

use desk_data::{Group, Instance, Plan, Res};
use plan_reads::is_carried;

/// Whether a reservation, with these groups, keeps C15.
#[tactic(auto, unfolding(desk_rules::specs::Carriage::keeps_c15))]
pub fn keeps_c15(inst: &Instance, plan: &Plan, res: Res, groups: &[Group]) -> bool
    requires res { res.0 < reservations_of inst.now }
    requires groups { groups.now ≡ groups_at plan.now res.0 }
    ensures { result ≡ keeps_c15 inst.now plan.now res.0 }
{
    groups.iter().all(|group| {
        !is_carried(group.path.as_slice()) || inst.bound(res, groups, &group.path)
    })
}
