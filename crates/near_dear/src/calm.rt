//! From when on airports are calm.

ghost use Rattle.std.specs.Prelude.{◌≡◌, ◌<◌, IfOk, true};
ghost use Rattle.desk_data.specs.Situation.{airports_of, legs_of};
ghost use Rattle.desk_data.specs.Valid.{IsPlanFor};
ghost use Rattle.hour_counts.specs.declared.slot.Movement.TheVariants.{Arrival, Departure};
ghost use Rattle.near_untouched.specs.Hours.{IsRoomy};
ghost use Rattle.near_dear.specs.Calm.{IsCalmAt};
ghost use Rattle.near_dear.specs.Times.{AreCalm, IsCalmHour};

use desk_data::{Airport, Instance, Leg, NoMem};
use hour_counts::KnowsHours;
use plan_pages::Pages;
use plan_reads::ReadPlan;
use std::alloc::Global;

/// By airport a moment from which on each of its hours until the window's end has room for more than 16 legs beside those of a plan,
/// in minutes, by what knows its hours: one walk over the hours of each airport, from the last one on. The only error is out of memory.
pub fn calm_moments<H: KnowsHours>(
    alloc: Global,
    inst: &Instance,
    plan: &Pages,
    hours: &H,
) -> Result<Vec<u32>, NoMem>
    requires plan { IsPlanFor inst.now plan.now }
    requires hours { H.knows hours.now inst.now plan.now }
    ensures { IfOk result (λ moments. AreCalm inst.now plan.now moments.items) }
{
    let mut moments = Vec::new(alloc);
    for a in 0..inst.airports() {
        moments.push(calm_from(inst, plan, hours, Airport(a)))?;
    }
    Ok(moments)
}

/// That of one airport.
fn calm_from<H: KnowsHours>(inst: &Instance, plan: &Pages, hours: &H, airport: Airport) -> u32
    requires plan { IsPlanFor inst.now plan.now }
    requires hours { H.knows hours.now inst.now plan.now }
    requires airport { airport.0 < airports_of inst.now }
    ensures { IsCalmAt 16 inst.now plan.now airport.0 result }
{
    let _rows = inst.parts();
    let (from, to) = inst.window();
    let first = from.0 / 60;
    let mut hour = to.0 / 60 + 1;
    while first < hour && is_calm_hour(inst, plan, hours, airport, hour - 1) {
        hour -= 1;
    }
    60 * hour
}

/// Whether an hour of an airport has room for more than 16 legs beside those of a plan, that depart and that arrive.
fn is_calm_hour<H: KnowsHours>(
    inst: &Instance,
    plan: &Pages,
    hours: &H,
    airport: Airport,
    hour: u32,
) -> bool
    requires plan { IsPlanFor inst.now plan.now }
    requires hours { H.knows hours.now inst.now plan.now }
    requires airport { airport.0 < airports_of inst.now }
    ensures { result ≡ true → IsCalmHour 16 inst.now plan.now airport.0 hour }
{
    // some leg is left out of what is counted
    if inst.legs() == 0 {
        return false;
    }
    may_leave(inst, plan, hours, airport, hour) && may_land(inst, plan, hours, airport, hour)
}

/// The same of departures alone.
fn may_leave<H: KnowsHours>(
    inst: &Instance,
    plan: &Pages,
    hours: &H,
    airport: Airport,
    hour: u32,
) -> bool
    requires plan { IsPlanFor inst.now plan.now }
    requires hours { H.knows hours.now inst.now plan.now }
    requires airport { airport.0 < airports_of inst.now }
    requires some { 0 < legs_of inst.now }
    ensures { result ≡ true → IsRoomy Departure inst.now plan.now airport.0 hour }
{
    match inst.dep_cap(airport, hour) {
        // one leg is left out, and where another one is left out this one counts: so one more has to fit
        Some(cap) => {
            let row = plan.read_row(Leg(0));
            let others = hours.departures_beside(inst, Leg(0), row, airport, hour);
            others < cap.saturating_sub(MOST_LEGS + 1)
        }
        None => true,
    }
}

/// The same of arrivals alone.
fn may_land<H: KnowsHours>(
    inst: &Instance,
    plan: &Pages,
    hours: &H,
    airport: Airport,
    hour: u32,
) -> bool
    requires plan { IsPlanFor inst.now plan.now }
    requires hours { H.knows hours.now inst.now plan.now }
    requires airport { airport.0 < airports_of inst.now }
    requires some { 0 < legs_of inst.now }
    ensures { result ≡ true → IsRoomy Arrival inst.now plan.now airport.0 hour }
{
    match inst.arr_cap(airport, hour) {
        Some(cap) => {
            let row = plan.read_row(Leg(0));
            let others = hours.arrivals_beside(inst, Leg(0), row, airport, hour);
            others < cap.saturating_sub(MOST_LEGS + 1)
        }
        None => true,
    }
}

/// For how many legs an hour has to have room.
const MOST_LEGS: u32 = 16;
