//! Where aircraft stand when the window ends.

ghost use Rattle.std.specs.Prelude.{◌≡◌, ◌<◌, length};
ghost use Rattle.std.specs.Option.{ForSome};
ghost use Rattle.desk_data.specs.Situation.{legs_of, planes_of};
ghost use Rattle.desk_data.specs.Valid.{IsPlanFor};
ghost use Rattle.plan_checks.specs.Stands.{AreStands, end_of};

use desk_data::{Airport, Instance, Leg, Plane};
use plan_reads::{ReadPlan, put_lasts, stand_of};

/// Writes where each aircraft ends: its last leg that departs before the window's end arrived there,
/// or it began there. In `lasts` it keeps these legs.
pub(crate) fn put_stands<P: ReadPlan>(
    inst: &Instance,
    plan: &P,
    lasts: &mut [Option<Leg>],
    stands: &mut [Option<Airport>],
)
    requires plan { IsPlanFor inst.now (P.plan_of plan.now) }
    requires lasts { length lasts.old ≡ planes_of inst.now }
    requires stands { length stands.old ≡ planes_of inst.now }
    ensures { AreStands inst.now (P.plan_of plan.now) stands.new }
{
    let end = inst.window().1;
    put_lasts(&end, inst, plan, lasts);
    for p in 0..inst.planes() {
        stands[p as usize] = end_of(inst, Plane(p), lasts[p as usize]);
    }
}

/// Where an aircraft ends after its last leg; `None` for surface transport.
fn end_of(inst: &Instance, plane: Plane, last: Option<Leg>) -> Option<Airport>
    requires plane { plane.0 < planes_of inst.now }
    requires last { ForSome last (λ leg. leg.0 < legs_of inst.now) }
    ensures { result ≡ end_of inst.now plane.0 last }
{
    if inst.plane(plane).surface {
        None
    } else {
        Some(stand_of(inst, plane, last))
    }
}
