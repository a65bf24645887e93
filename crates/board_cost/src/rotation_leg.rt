//! The rotation legs of aircraft before the window's end.

ghost use Rattle.std.specs.Prelude.{◌≡◌, ◌<◌, IfSome};
ghost use Rattle.desk_data.specs.Situation.{legs_of, planes_of};
ghost use Rattle.desk_data.specs.Valid.{IsRowOf};
ghost use Rattle.board_cost.specs.RotationLegs.{placed_of};
ghost use Rattle.board_cost.specs.Board.{HasPlace, IsExchange};

use crate::paths::RowChange;
use desk_data::{Airport, Instance, Leg, Minute, Plane, Row};

/// A flown leg, as it stands in the order of its aircraft: by departure, then by leg.
#[derive(Clone, Copy, PartialEq, Eq, PartialOrd, Ord)]
pub(crate) struct ArrivingLeg {
    /// When it departs.
    pub dep: Minute,
    /// Which leg it is.
    pub leg: Leg,
    /// Where it arrives.
    pub dest: Airport,
}

/// A rotation leg, and the aircraft that flies it.
#[derive(Clone, Copy)]
pub(crate) struct Placed {
    pub plane: Plane,
    pub rotation_leg: ArrivingLeg,
}

/// The rotation leg of a row of a leg, and its aircraft, if the leg is flown and departs before the window's
/// end.
pub(crate) fn placed_of(inst: &Instance, leg: Leg, row: Row) -> Option<Placed>
    requires leg { leg.0 < legs_of inst.now }
    requires row { IsRowOf (planes_of inst.now) row }
    ensures placed { result ≡ placed_of inst.now leg.0 row }
    ensures place { HasPlace (planes_of inst.now) result }
{
    let end = inst.window().1;
    match row {
        Row::Flown { plane, dep } => {
            if end.0 <= dep.0 {
                return None;
            }
            let dest = inst.leg(leg).dest;
            Some(Placed {
                plane,
                rotation_leg: ArrivingLeg { dep, leg, dest },
            })
        }
        Row::Cancelled => None,
    }
}

/// The rotation legs that a change takes from an aircraft, and gives to one.
#[derive(Clone, Copy)]
pub(crate) struct RotationLegs {
    pub gone: Option<Placed>,
    pub come: Option<Placed>,
}

/// A rotation leg that goes from an aircraft, and another that comes to the same one.
#[derive(Clone, Copy)]
pub(crate) struct Exchange {
    pub plane: Plane,
    pub gone: ArrivingLeg,
    pub come: ArrivingLeg,
}

impl RotationLegs {
    /// The exchange on one aircraft that the change is, if it is one.
    pub(crate) fn as_exchange(self) -> Option<Exchange>
        ensures { IfSome result (IsExchange self.gone self.come) }
    {
        let Some(gone) = self.gone else {
            return None;
        };
        match self.come {
            Some(come) if come.plane.0 == gone.plane.0 => Some(Exchange {
                plane: gone.plane,
                gone: gone.rotation_leg,
                come: come.rotation_leg,
            }),
            _ => None,
        }
    }
}

/// The rotation legs of a change.
pub(crate) fn rotation_legs_of(inst: &Instance, change: RowChange) -> RotationLegs
    requires leg { change.leg.0 < legs_of inst.now }
    requires old { IsRowOf (planes_of inst.now) change.old }
    requires new { IsRowOf (planes_of inst.now) change.new }
    ensures gone { result.gone ≡ placed_of inst.now change.leg.0 change.old }
    ensures come { result.come ≡ placed_of inst.now change.leg.0 change.new }
    ensures gone_place { HasPlace (planes_of inst.now) result.gone }
    ensures come_place { HasPlace (planes_of inst.now) result.come }
{
    RotationLegs {
        gone: placed_of(inst, change.leg, change.old),
        come: placed_of(inst, change.leg, change.new),
    }
}
