//! Whether a path meets C13, C14 and C15 for a reservation.

ghost use Rattle.std.specs.Prelude.{◌≡◌, ◌<◌, ◌≤◌, length};
ghost use Rattle.desk_data.specs.Situation.{legs_of, reservations_of};
ghost use Rattle.desk_data.specs.Valid.{IsPathOf, IsPlanFor};
ghost use Rattle.desk_rules.specs.Numbers.{implies};
ghost use Rattle.desk_data.specs.Paths.{is_carried};
ghost use Rattle.desk_model.specs.Tidy.{is_fit_path, stays_carried};

use crate::{ReadPlan, is_carried, is_good_path, is_in_time_path};
use desk_data::{Instance, Path, Res};

/// Whether a path that is not empty meets C13, C14 and C15 for passengers of a reservation, beside its
/// groups in the plan.
#[tactic(auto, unfolding(desk_model::specs::Tidy::is_fit_path))]
pub fn is_fit_path<P: ReadPlan>(inst: &Instance, plan: &P, res: Res, path: &Path) -> bool
    requires plan { IsPlanFor inst.now (P.plan_of plan.now) }
    requires res { res.0 < reservations_of inst.now }
    requires path { IsPathOf (legs_of inst.now) path.now }
    requires some { 1 ≤ length path.now }
    ensures { result ≡ is_fit_path inst.now (P.plan_of plan.now) res.0 path.now }
{
    let pairs = path.as_slice();
    is_good_path(inst, plan, res, pairs)
        && is_in_time_path(inst, plan, res, pairs)
        && inst.bound(res, plan.groups(res), path)
}

/// Whether passengers of a reservation are carried on a path that meets the three rules.
pub(crate) fn stays_carried<P: ReadPlan>(inst: &Instance, plan: &P, res: Res, path: &Path) -> bool
    requires plan { IsPlanFor inst.now (P.plan_of plan.now) }
    requires res { res.0 < reservations_of inst.now }
    requires path { IsPathOf (legs_of inst.now) path.now }
    ensures { result ≡ stays_carried inst.now (P.plan_of plan.now) res.0 path.now }
{
    is_carried(path.as_slice()) && is_fit_path(inst, plan, res, path)
}

/// Whether a path is empty or meets the three rules for passengers of a reservation.
pub(crate) fn is_fit_if_carried<P: ReadPlan>(
    inst: &Instance,
    plan: &P,
    res: Res,
    path: &Path,
) -> bool
    requires plan { IsPlanFor inst.now (P.plan_of plan.now) }
    requires res { res.0 < reservations_of inst.now }
    requires path { IsPathOf (legs_of inst.now) path.now }
    ensures { result ≡ implies (is_carried path.now) (is_fit_path inst.now (P.plan_of plan.now) res.0 path.now) }
{
    !is_carried(path.as_slice()) || is_fit_path(inst, plan, res, path)
}
