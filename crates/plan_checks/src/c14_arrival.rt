//! C14: the paths on which passengers are carried arrive in time.

ghost use Rattle.std.specs.Prelude.{◌≡◌, ◌<◌, All};
ghost use Rattle.desk_data.specs.PlanRows.{groups_at};
ghost use Rattle.desk_data.specs.Situation.{legs_of, reservations_of};
ghost use Rattle.desk_data.specs.Valid.{IsPathOf, IsPlanFor};
ghost use Rattle.desk_rules.specs.Carriage.{is_in_time_path, keeps_c14};

use desk_data::{Group, Instance, Plan, Res};
use plan_reads::{is_carried, is_in_time_path};

/// Whether a reservation, with these groups, keeps C14.
#[tactic(auto, unfolding(desk_rules::specs::Carriage::keeps_c14))]
pub fn keeps_c14(inst: &Instance, plan: &Plan, res: Res, groups: &[Group]) -> bool
    requires plan { IsPlanFor inst.now plan.now }
    requires res { res.0 < reservations_of inst.now }
    requires paths { All (λ group. IsPathOf (legs_of inst.now) group.path) groups.now }
    requires groups { groups.now ≡ groups_at plan.now res.0 }
    ensures { result ≡ keeps_c14 inst.now plan.now res.0 }
{
    groups.iter().all(|group| {
        let path = group.path.as_slice();
        !is_carried(path) || is_in_time_path(inst, plan, res, path)
    })
}
