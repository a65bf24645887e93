//! C9: aircraft fly no more minutes before their maintenance than stated.

ghost use Rattle.std.specs.Prelude.{◌≡◌, ◌<◌, ◌||◌};
ghost use Rattle.desk_data.specs.Situation.{planes_of, plane_at};
ghost use Rattle.plan_checks.specs.Upkeep.{is_within};

use crate::upkeep::Upkeep;
use desk_data::{Instance, Plane};

/// Whether an aircraft meets C9, given what its legs say: it is surface transport, has no
/// maintenance, or flies at most the stated minutes before it.
pub(crate) fn c9_minutes(inst: &Instance, plane: Plane, upkeep: Upkeep) -> bool
    requires { plane.0 < planes_of inst.now }
    ensures { result ≡ ((plane_at inst.now plane.0).surface || is_within upkeep (plane_at inst.now plane.0).maint) }
{
    let flying = inst.plane(plane);
    if flying.surface {
        return true;
    }
    match flying.maint {
        Some(maint) => upkeep.minutes <= maint.minutes,
        None => true,
    }
}
