//! The rows of aircraft.csv and position.csv.

use desk_units::{List, Minute, Name, Price, Seats};

/// A line of the file of aircraft.
#[derive(Clone, Copy)]
pub struct AircraftRow {
    /// Its line in the file, from 1.
    pub line: u32,
    /// Its name, of 1 to 32 bytes like each name here.
    pub name: Name,
    /// Its model.
    pub model: Name,
    /// The family of models that it belongs to.
    pub family: Name,
    /// Its seats in each cabin, each from 0 to 999.
    pub seats: Seats,
    /// The longest leg that it can fly, in minutes of distance, 0 to 100,000.
    pub range: u32,
    /// What an hour of flight costs, at most 999,999,999.9999.
    pub hourly: Price,
    /// The ground time between two legs, in minutes, 0 to 2,880.
    pub turnaround: u32,
    /// The ground time before a leg that follows its previous leg, in minutes, 0 to 2,880.
    pub transit: u32,
    /// The airport where it stands first.
    pub origin: Name,
    /// Its maintenance, where it has one.
    pub maint: Option<MaintRow>,
}

/// A time that an aircraft spends in maintenance.
#[derive(Clone, Copy)]
pub struct MaintRow {
    /// Where it is then.
    pub airport: Name,
    /// When it starts, before the year 2100.
    pub from: Minute,
    /// When it ends, before the year 2100.
    pub to: Minute,
    /// The block minutes that the aircraft may fly before it, 0 to 100,000.
    pub minutes: u32,
}

/// Aircraft that are wanted at an airport.
#[derive(Clone, Copy)]
pub struct PositionGroup {
    /// Their model, of 1 to 32 bytes.
    pub model: Name,
    /// Their seats in each cabin, each from 0 to 999.
    pub seats: Seats,
    /// How many of them, 0 to 1,000.
    pub count: u32,
}

/// The aircraft that are wanted at an airport at the end.
#[derive(Drop)]
pub struct PositionRow {
    /// Its line in the file, from 1.
    pub line: u32,
    /// Where they are wanted, a name of 1 to 32 bytes.
    pub airport: Name,
    /// What is wanted there: one group or more.
    pub groups: List<PositionGroup>,
}
