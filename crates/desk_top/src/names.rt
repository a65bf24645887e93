//! The names of a day.

ghost use Rattle.std.specs.Prelude.{length, All};
ghost use Rattle.desk_units.specs.Padded.{IsNameLength};
ghost use Rattle.desk_top.specs.Lengths.{HasNames};

use desk_data::{Instance, LegInfo, PlaneInfo, ResInfo};

/// Walks over all names of a day. That each has 1 to 32 bytes is what it ends with: it is what the
/// laws of written files ask of a day.
pub fn walk_names(inst: &Instance)
    ensures { HasNames inst.now }
{
    let parts = inst.parts();
    walk_legs(parts.legs.as_slice());
    walk_planes(parts.planes.as_slice());
    walk_reservations(parts.res.as_slice());
}

/// Walks over the names of legs.
fn walk_legs(legs: &[LegInfo])
    ensures { All (λ leg. IsNameLength (length leg.flight)) legs.now }
{
    for leg in legs {
        let _name = leg.flight.as_slice();
    }
}

/// Walks over the names of aircraft.
fn walk_planes(planes: &[PlaneInfo])
    ensures { All (λ plane. IsNameLength (length plane.name)) planes.now }
{
    for plane in planes {
        let _name = plane.name.as_slice();
    }
}

/// Walks over the names of reservations.
fn walk_reservations(reservations: &[ResInfo])
    ensures { All (λ r. IsNameLength (length r.name)) reservations.now }
{
    for reservation in reservations {
        let _name = reservation.name.as_slice();
    }
}
