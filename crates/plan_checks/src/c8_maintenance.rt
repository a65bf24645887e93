//! C8: aircraft make their maintenance.

ghost use Rattle.std.specs.Prelude.{◌≡◌, ◌<◌, ◌||◌};
ghost use Rattle.std.specs.Option.{ForSome};
ghost use Rattle.desk_data.specs.Situation.{legs_of, planes_of, plane_at};
ghost use Rattle.plan_checks.specs.Upkeep.{makes_it};

use crate::upkeep::Upkeep;
use desk_data::{Instance, Plane};
use plan_reads::stand_of;

/// Whether an aircraft meets C8, given what its legs say: it is surface transport, has no
/// maintenance or no leg from its start on, or is free for it and was left at its airport.
pub(crate) fn c8_maintenance(inst: &Instance, plane: Plane, upkeep: Upkeep) -> bool
    requires plane { plane.0 < planes_of inst.now }
    requires last { ForSome (plane_at inst.now plane.0).maint (λ maint. ForSome upkeep.last (λ leg. leg.0 < legs_of inst.now)) }
    ensures { result ≡ ((plane_at inst.now plane.0).surface || makes_it inst.now plane.0 upkeep (plane_at inst.now plane.0).maint) }
{
    let flying = inst.plane(plane);
    if flying.surface {
        return true;
    }
    match flying.maint {
        Some(maint) => {
            upkeep.stops || (upkeep.free && stand_of(inst, plane, upkeep.last) == maint.airport)
        }
        None => true,
    }
}
