//! The rules of the paths on which passengers are carried, asked of a piece of the reservations.

ghost use Rattle.std.specs.Prelude.{◌≡◌, ◌<◌, true};
ghost use Rattle.desk_data.specs.Situation.{reservations_of};
ghost use Rattle.desk_data.specs.Valid.{IsPlanFor};
ghost use Rattle.desk_tasks.specs.Paths.{KeepPaths, keeps_paths};

use desk_data::{Instance, Plan, Res};
use plan_checks::{keeps_c13, keeps_c14, keeps_c15};

/// Whether no reservation from one number on, before another, breaks C13, C14 or C15. Of numbers that are past the last
/// reservation none is asked.
pub(crate) fn are_paths_kept(inst: &Instance, plan: &Plan, from: u32, to: u32) -> bool
    requires { IsPlanFor inst.now plan.now }
    ensures { result ≡ true → KeepPaths inst.now plan.now from to }
{
    for r in from..to.min(inst.reservations()) {
        if !keeps_paths(inst, plan, Res(r)) {
            return false;
        }
    }
    true
}

/// Whether a reservation keeps C13, C14 and C15.
fn keeps_paths(inst: &Instance, plan: &Plan, res: Res) -> bool
    requires plan { IsPlanFor inst.now plan.now }
    requires res { res.0 < reservations_of inst.now }
    ensures { result ≡ keeps_paths inst.now plan.now res.0 }
{
    let groups = plan.groups(res);
    keeps_c13(inst, plan, res, groups)
        && keeps_c14(inst, plan, res, groups)
        && keeps_c15(inst, plan, res, groups)
}
