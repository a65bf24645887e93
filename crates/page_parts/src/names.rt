//! Rows of a day by their numbers, and what they are called.

use desk_data::{Airport, Instance, Leg, LegInfo, Plane, PlaneInfo, Res, ResInfo};

/// A leg, where the day has one with this number.
pub fn leg_of(inst: &Instance, leg: Leg) -> Option<&LegInfo> {
    if leg.0 < inst.legs() {
        Some(inst.leg(leg))
    } else {
        None
    }
}

/// An aircraft, where the day has one with this number.
pub fn plane_of(inst: &Instance, plane: Plane) -> Option<&PlaneInfo> {
    if plane.0 < inst.planes() {
        Some(inst.plane(plane))
    } else {
        None
    }
}

/// A reservation, where the day has one with this number.
pub fn res_of(inst: &Instance, res: Res) -> Option<&ResInfo> {
    if res.0 < inst.reservations() {
        Some(inst.res(res))
    } else {
        None
    }
}

/// What an aircraft is called.
pub fn plane_name(inst: &Instance, plane: Plane) -> &[u8] {
    match plane_of(inst, plane) {
        Some(info) => info.name.as_slice(),
        None => b"",
    }
}

/// What an airport is called.
pub fn airport_name(inst: &Instance, airport: Airport) -> &[u8] {
    if airport.0 < inst.airports() {
        inst.airport(airport).name.as_slice()
    } else {
        b""
    }
}
