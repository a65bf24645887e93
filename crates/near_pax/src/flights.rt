//! The flown legs, by the airports between which they go.

ghost use Rattle.std.specs.Prelude.{◌≡◌, ◌<◌, IfOk};
ghost use Rattle.desk_data.specs.Situation.{legs_of};
ghost use Rattle.desk_data.specs.Valid.{IsPlanFor};
ghost use Rattle.near_pax.specs.Flights.{IsNetOf, flights_of};

use desk_data::{Airport, Instance, Leg, Minute, NoMem, Row};
use plan_pages::Pages;
use std::alloc::Global;
use std::marker::Model;

/// A flown leg, as it is sorted: by the airport that it leaves, then by that where it arrives, then by departure,
/// then by leg.
#[derive(Clone, Copy, PartialEq, Eq, PartialOrd, Ord)]
pub struct Flight {
    pub from: Airport,
    pub to: Airport,
    pub dep: Minute,
    pub leg: Leg,
}

/// The flown legs of a plan, sorted. Contracts see it as the list of them.
#[derive(Drop)]
pub struct FlightNet {
    pub(crate) flights: Vec<Flight>,
}

impl Model for FlightNet {
    ghost use Rattle.std.specs.Prelude.{List};
    ghost use Rattle.near_pax.specs.declared.flights.Flight.{Flight};

    ghost Value = { List Flight };

    ghost view = { λ n. n.flights.items };
}

impl FlightNet {
    /// Those of a plan: sorted once. The only error is out of memory.
    pub fn of(alloc: Global, inst: &Instance, plan: &Pages) -> Result<FlightNet, NoMem>
        requires { IsPlanFor inst.now plan.now }
        ensures { IfOk result (λ net. IsNetOf inst.now plan.now net) }
    {
        let mut flights = flown_flights(alloc, inst, plan)?;
        flights.sort()?;
        Ok(FlightNet { flights })
    }
}

/// The flown legs, by leg.
fn flown_flights(alloc: Global, inst: &Instance, plan: &Pages) -> Result<Vec<Flight>, NoMem>
    requires { IsPlanFor inst.now plan.now }
    ensures { IfOk result (λ flights. flights.items ≡ flights_of inst.now plan.now (legs_of inst.now)) }
{
    let mut flights = Vec::with_capacity(alloc, inst.legs() as usize)?;
    for x in 0..inst.legs() {
        let leg = Leg(x);
        let info = inst.leg(leg);
        let (from, to) = (info.origin, info.dest);
        match plan.read_row(leg) {
            Row::Flown { dep, .. } => flights.push(Flight { from, to, dep, leg })?,
            Row::Cancelled => {}
        }
    }
    Ok(flights)
}
