//! Whether an airport has room for one more leg in an hour.

ghost use Rattle.std.specs.Prelude.{◌≡◌, ◌<◌};
ghost use Rattle.desk_data.specs.Situation.{airports_of};
ghost use Rattle.desk_data.specs.Valid.{IsPlanFor};
ghost use Rattle.added_legs.specs.Merged.{IsAdded};
ghost use Rattle.ferry_legs.specs.Departs.{has_room};
ghost use Rattle.ferry_legs.specs.Taken.{IsTakenOf, added_taken, takes};

use crate::lasts::way_of;
use crate::table::Table;
use added_legs::Added;
use desk_data::{Airport, Instance, Leg, Plan};
use hour_counts::{Movement, Slot};

/// The hours of the years 2000 to 2099: later ones have no caps.
const HOURS: u32 = 876_600;

/// The legs of the plan and the added legs, for one kind of movement.
#[derive(Clone, Copy)]
pub(crate) struct Taken<'a> {
    /// Which movement is counted.
    pub(crate) movement: Movement,
    /// How many legs of the plan there are by airport and hour.
    pub(crate) table: &'a Table,
    /// The added legs.
    pub(crate) added: &'a [Added],
    /// The last leg of each aircraft.
    pub(crate) lasts: &'a [Option<Leg>],
}

/// Whether one more leg may depart from an airport in an hour, or arrive there. The counts are asked only where the hour has a cap.
pub(crate) fn has_room(
    inst: &Instance,
    plan: &Plan,
    taken: Taken<'_>,
    airport: Airport,
    hour: u32,
) -> bool
    requires plan { IsPlanFor inst.now plan.now }
    requires taken { IsTakenOf inst.now plan.now taken }
    requires airport { airport.0 < airports_of inst.now }
    ensures { result ≡ has_room inst.now plan.now taken.entry.added.now taken.entry.movement airport.0 hour }
{
    if hour >= HOURS {
        return true;
    }
    let slot = Slot {
        movement: taken.movement,
        airport,
        hour,
    };
    let Some(cap) = slot.cap(inst) else {
        return true;
    };
    let planned = taken.table.at(airport.0, hour);
    planned < cap && added_taken(inst, plan, taken, airport, hour) < (cap - planned) as usize
}

/// How many added legs depart from an airport in an hour, or arrive there.
fn added_taken(inst: &Instance, plan: &Plan, taken: Taken<'_>, airport: Airport, hour: u32) -> usize
    requires plan { IsPlanFor inst.now plan.now }
    requires taken { IsTakenOf inst.now plan.now taken }
    ensures { result ≡ added_taken inst.now plan.now taken.entry.movement airport.0 hour taken.entry.added.now }
{
    let mut count = 0usize;
    for i in 0..taken.added.len() {
        if takes(inst, plan, taken, taken.added[i], airport, hour) {
            count += 1;
        }
    }
    count
}

/// Whether an added leg does.
fn takes(
    inst: &Instance,
    plan: &Plan,
    taken: Taken<'_>,
    leg: Added,
    airport: Airport,
    hour: u32,
) -> bool
    requires plan { IsPlanFor inst.now plan.now }
    requires taken { IsTakenOf inst.now plan.now taken }
    requires leg { IsAdded inst.now plan.now leg }
    ensures { result ≡ takes inst.now plan.now taken.entry.movement airport.0 hour leg }
{
    let way = way_of(inst, plan, taken.lasts, leg.plane, leg.dest);
    let (at, when) = match taken.movement {
        Movement::Departure => (way.origin, leg.dep.0),
        Movement::Arrival => (way.dest, leg.dep.0 + way.minutes),
    };
    at.0 == airport.0 && when / 60 == hour
}
