//! Where a leg departs or arrives, when it is counted there, and how many others are.

ghost use Rattle.std.specs.Prelude.{◌≡◌, ◌<◌};
ghost use Rattle.desk_data.specs.PlanRows.{PlanRows, row_at};
ghost use Rattle.desk_data.specs.Situation.{airports_of, legs_of, planes_of};
ghost use Rattle.desk_data.specs.Valid.{IsPlanFor, IsRowOf};
ghost use Rattle.near_untouched.specs.Hours.{beside, cap, counted_hour, place_of};

use desk_data::{Airport, Instance, Leg, Row};
use hour_counts::{KnowsHours, Movement};
use plan_pages::Pages;

/// The airport that a leg leaves, or that it reaches.
pub(crate) fn place_of(inst: &Instance, movement: Movement, leg: Leg) -> Airport
    requires { leg.0 < legs_of inst.now }
    ensures place { result.0 ≡ place_of movement inst.now leg.0 }
    ensures there { result.0 < airports_of inst.now }
{
    let info = inst.leg(leg);
    match movement {
        Movement::Departure => info.origin,
        Movement::Arrival => info.dest,
    }
}

/// The hour in which a leg is counted there by a row, if it is: it is flown, and its scheduled aircraft is no surface
/// transport.
pub(crate) fn counted_hour(inst: &Instance, movement: Movement, leg: Leg, row: Row) -> Option<u32>
    requires leg { leg.0 < legs_of inst.now }
    requires row { IsRowOf (planes_of inst.now) row }
    ensures { result ≡ counted_hour movement inst.now leg.0 row }
{
    let Row::Flown { dep, .. } = row else {
        return None;
    };
    let info = inst.leg(leg);
    if inst.plane(info.plane).surface {
        return None;
    }
    match movement {
        Movement::Departure => Some(dep.0 / 60),
        Movement::Arrival => Some((dep.0 + info.block) / 60),
    }
}

/// How many legs may depart from an airport in an hour, or arrive there; `None` where any number may.
pub(crate) fn cap_of(
    inst: &Instance,
    movement: Movement,
    airport: Airport,
    hour: u32,
) -> Option<u32>
    requires { airport.0 < airports_of inst.now }
    ensures { result ≡ cap movement inst.now airport.0 hour }
{
    match movement {
        Movement::Departure => inst.dep_cap(airport, hour),
        Movement::Arrival => inst.arr_cap(airport, hour),
    }
}

/// How many other legs than a leg do in a plan, by what knows its hours.
pub(crate) fn beside<H: KnowsHours>(
    inst: &Instance,
    plan: &Pages,
    hours: &H,
    movement: Movement,
    leg: Leg,
    airport: Airport,
    hour: u32,
) -> u32
    requires plan { IsPlanFor inst.now plan.now }
    requires hours { H.knows hours.now inst.now plan.now }
    requires leg { leg.0 < legs_of inst.now }
    ensures { result ≡ beside movement inst.now plan.now leg.0 airport.0 hour }
{
    let row = plan.read_row(leg);
    match movement {
        Movement::Departure => hours.departures_beside(inst, leg, row, airport, hour),
        Movement::Arrival => hours.arrivals_beside(inst, leg, row, airport, hour),
    }
}
