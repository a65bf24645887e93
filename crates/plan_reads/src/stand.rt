//! Where the last leg of an aircraft leaves it.

ghost use Rattle.std.specs.Prelude.{◌≡◌, ◌<◌};
ghost use Rattle.std.specs.Option.{ForSome};
ghost use Rattle.desk_data.specs.Situation.{legs_of, planes_of};
ghost use Rattle.plan_reads.specs.Last.{stand};

use desk_data::{Airport, Instance, Leg, Plane};

/// Where an aircraft stands after a leg: where the leg arrives, or else, with no leg, where the
/// aircraft stands at first.
pub fn stand_of(inst: &Instance, plane: Plane, last: Option<Leg>) -> Airport
    requires plane { plane.0 < planes_of inst.now }
    requires last { ForSome last (λ leg. leg.0 < legs_of inst.now) }
    ensures { result ≡ stand inst.now plane.0 last }
{
    match last {
        Some(leg) => inst.leg(leg).dest,
        None => inst.plane(plane).origin,
    }
}
