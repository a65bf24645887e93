//! The rows of a joined day.

use crate::path::Path;
use desk_units::{Airport, Haul, Leg, List, Minute, Name, Plane, Price, Seats};

/// A leg: one flight on one date, as one line of the rotations schedules it.
#[derive(Clone, Copy)]
pub struct LegInfo {
    /// The name of its flight.
    pub flight: Name,
    /// The flight's date: days since 2000-01-01, below 36,525.
    pub day: u32,
    /// Where it leaves.
    pub origin: Airport,
    /// Where it arrives.
    pub dest: Airport,
    /// The scheduled departure, at most 52,480,000.
    pub sched: Minute,
    /// From departure to arrival: 1 to 2,880 minutes.
    pub block: u32,
    /// From origin to destination: at most 100,000 minutes.
    pub distance: u32,
    /// How far it goes: domestic, continental or intercontinental.
    pub haul: Haul,
    /// The scheduled aircraft.
    pub plane: Plane,
    /// Its previous leg, after which it needs the transit time alone, whichever aircraft flies both; `None` where its
    /// flight names none, or the date has no such leg.
    pub prev: Option<Leg>,
}

/// A maintenance that an aircraft is due at an airport.
#[derive(Clone, Copy)]
pub struct Maint {
    /// Where it is.
    pub airport: Airport,
    /// When it starts, in minutes since 2000-01-01.
    pub from: Minute,
    /// When it ends: the aircraft may depart from then on.
    pub to: Minute,
    /// The block minutes that the aircraft may fly before it: at most 100,000.
    pub minutes: u32,
}

/// An aircraft.
#[derive(Clone, Copy)]
pub struct PlaneInfo {
    pub name: Name,
    /// Its type, by which positions want it.
    pub model: Name,
    /// The types that can replace one another on a leg.
    pub family: Name,
    pub seats: Seats,
    /// The longest leg that it can fly: at most 100,000 minutes of distance.
    pub range: u32,
    /// What an hour in flight costs.
    pub hourly: Price,
    /// The ground time between two legs: at most 2,880 minutes.
    pub turnaround: u32,
    /// The ground time before a leg that follows its previous leg: at most 2,880 minutes.
    pub transit: u32,
    /// Where the aircraft stands before its first leg.
    pub origin: Airport,
    /// Its maintenance, if it has one.
    pub maint: Option<Maint>,
    /// Whether it is no aircraft but surface transport, a bus or a train, whose legs are fixed.
    pub surface: bool,
}

/// A reservation: some passengers on one scheduled path.
#[derive(Drop)]
pub struct ResInfo {
    pub name: Name,
    /// Whether this is the inbound half of a return trip.
    pub inbound: bool,
    /// The price that each passenger paid.
    pub price: Price,
    /// The passengers: 1 to 1,000.
    pub count: u32,
    /// The scheduled path: 1 to 8 legs.
    pub path: Path,
}

/// What an airport can take in an hour, in a part of the day.
#[derive(Clone, Copy)]
pub struct Cap {
    /// Departures in an hour: at most 100,000.
    pub deps: u32,
    /// Arrivals in an hour: at most 100,000.
    pub arrs: u32,
    /// The first minute of the day, below 1,440.
    pub from: u32,
    /// The minute of the day after the last one: at most 1,440.
    pub to: u32,
}

/// An airport.
#[derive(Drop)]
pub struct AirportInfo {
    pub name: Name,
    /// What it can take by the time of day: of those that have a minute the last one decides.
    pub caps: List<Cap>,
}

/// The aircraft of one model and seats that are wanted at an airport at the window's end.
#[derive(Clone, Copy)]
pub struct PositionInfo {
    pub airport: Airport,
    pub model: Name,
    pub seats: Seats,
    /// How many: at most 1,000.
    pub count: u32,
}
