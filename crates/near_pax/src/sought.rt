//! The legs that passengers may take from an airport, by departure.

ghost use Rattle.std.specs.Prelude.{◌≡◌, ◌<◌, ◌||◌, ◌&&◌, ◌==◌, nat_lt, IfOk, All, filter, map};
ghost use Rattle.std.specs.List.Sorted.{IsSorted};
ghost use Rattle.desk_data.specs.Situation.{legs_of};
ghost use Rattle.desk_data.specs.Valid.{IsPlanFor};
ghost use Rattle.desk_rules.specs.Numbers.{numbers};
ghost use Rattle.near_pax.specs.Flights.{IsNetOf, flight_cmp};
ghost use Rattle.near_pax.specs.Sought.{IsWindow, goes_before, goes_to, is_sought, leaves_before};

use crate::flights::{Flight, FlightNet};
use desk_data::{Airport, Instance, Leg, Minute, NoMem};
use plan_pages::Pages;
use plan_reads::{arrival, departure, is_flown};
use std::alloc::Global;

/// Which legs are sought: flown from an airport, to another where one is named, departing no earlier
/// than one minute and arriving before another.
#[derive(Clone, Copy)]
pub(crate) struct Sought {
    pub(crate) from: Airport,
    pub(crate) to: Option<Airport>,
    pub(crate) earliest: u32,
    pub(crate) until: u32,
}

impl FlightNet {
    /// The legs that are sought, by leg.
    pub(crate) fn legs(
        &self,
        alloc: Global,
        inst: &Instance,
        plan: &Pages,
        sought: &Sought,
    ) -> Result<Vec<Leg>, NoMem>
        requires plan { IsPlanFor inst.now plan.now }
        requires net { IsNetOf inst.now plan.now self.now }
        ensures legs { IfOk result (λ legs. map (λ leg. leg.0) legs.items ≡ filter (is_sought inst.now plan.now sought.now) (numbers (legs_of inst.now))) }
        ensures within { IfOk result (λ legs. All (λ leg. leg.0 < legs_of inst.now) legs.items) }
    {
        let mut legs = picked(alloc, inst, plan, sought, self.window(sought))?;
        legs.sort()?;
        Ok(legs)
    }

    /// The flights from the airport to the one that is named that depart in time, or all from the airport: those
    /// sought are among them.
    fn window(&self, sought: &Sought) -> &[Flight]
        requires { IsSorted flight_cmp self.now }
        ensures { IsWindow sought.now self.now result.now }
    {
        let from = sought.from;
        let to = sought.to;
        let earliest = sought.earliest;
        let until = sought.until;
        let flights = self.flights.as_slice();
        let start = flights.partition_point(|flight| leaves_before(
            flight, from, to, earliest, false,
        ));
        let rest = &flights[start..];
        let end = rest.partition_point(|flight| leaves_before(flight, from, to, until, true));
        &rest[..end]
    }
}

/// Whether a flight stands before those that leave an airport for another from a minute on. Where no other is
/// named, all flights from the airport do, or none.
fn leaves_before(flight: &Flight, from: Airport, to: Option<Airport>, at: u32, all: bool) -> bool
    ensures { result ≡ leaves_before flight.now from.0 to at all }
{
    flight.from.0 < from.0
        || (flight.from.0 == from.0 && goes_before(flight.to, flight.dep, to, at, all))
}

/// The same of flights from one airport.
fn goes_before(dest: Airport, dep: Minute, to: Option<Airport>, at: u32, all: bool) -> bool
    ensures { result ≡ goes_before dest.0 dep.0 to at all }
{
    match to {
        Some(airport) => dest.0 < airport.0 || (dest.0 == airport.0 && dep.0 < at),
        None => all,
    }
}

/// The legs among some flights that are sought.
fn picked(
    alloc: Global,
    inst: &Instance,
    plan: &Pages,
    sought: &Sought,
    flights: &[Flight],
) -> Result<Vec<Leg>, NoMem>
    requires plan { IsPlanFor inst.now plan.now }
    requires within { All (λ flight. flight.leg.0 < legs_of inst.now) flights.now }
    ensures { IfOk result (λ legs. legs.items ≡ map (λ flight. flight.leg) (filter (λ flight. is_sought inst.now plan.now sought.now flight.leg.0) flights.now)) }
{
    let mut legs = Vec::new(alloc);
    for flight in flights {
        if is_sought(inst, plan, sought, flight.leg) {
            legs.push(flight.leg)?;
        }
    }
    Ok(legs)
}

/// Whether a leg is sought.
#[tactic(auto, unfolding(crate::specs::Sought::is_sought))]
fn is_sought(inst: &Instance, plan: &Pages, sought: &Sought, leg: Leg) -> bool
    requires plan { IsPlanFor inst.now plan.now }
    requires leg { leg.0 < legs_of inst.now }
    ensures { result ≡ is_sought inst.now plan.now sought.now leg.0 }
{
    is_flown(plan.read_row(leg))
        && inst.leg(leg).origin.0 == sought.from.0
        && goes_to(inst.leg(leg).dest, sought.to)
        && sought.earliest <= departure(plan, leg)
        && arrival(inst, plan, leg) < sought.until
}

/// Whether an airport is the one that is named, if any is.
fn goes_to(dest: Airport, named: Option<Airport>) -> bool
    ensures { result ≡ goes_to dest.0 named }
{
    match named {
        Some(airport) => dest.0 == airport.0,
        None => true,
    }
}
