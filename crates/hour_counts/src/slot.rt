//! Slots: the hours of airports, as legs take them, with their caps and the items of C10 and C11.

ghost use Rattle.std.specs.Prelude.{◌≡◌, ◌<◌};
ghost use Rattle.desk_data.specs.Situation.{airports_of};
ghost use Rattle.hour_counts.specs.Slots.{cap, item};

use desk_data::{Airport, Broken, Instance};

/// What a leg does at an airport.
#[derive(Clone, Copy, PartialEq, Eq, PartialOrd, Ord, Hash)]
pub enum Movement {
    /// It leaves, in the hour of its departure.
    Departure,
    /// It comes, in the hour of its arrival.
    Arrival,
}

/// An hour of an airport, for departures or for arrivals. Slots are ordered by movement, then by airport,
/// then by hour.
#[derive(Clone, Copy, PartialEq, Eq, PartialOrd, Ord, Hash)]
pub struct Slot {
    /// Whether departures or arrivals take it.
    pub movement: Movement,
    /// Where it is.
    pub airport: Airport,
    /// Hours since 2000-01-01 00:00: a moment in minutes, divided by 60 and rounded down.
    pub hour: u32,
}

impl Slot {
    /// How many legs may take it, by the airport's own caps and the closures that are ordered, and never fewer
    /// than have taken it and left; `None` where any number may.
    pub fn cap(self, inst: &Instance) -> Option<u32>
        requires { self.airport.0 < airports_of inst.now }
        ensures { result ≡ cap inst.now self }
    {
        match self.movement {
            Movement::Departure => inst.dep_cap(self.airport, self.hour),
            Movement::Arrival => inst.arr_cap(self.airport, self.hour),
        }
    }

    /// The item that is broken where more legs take it than may: of C10 for departures, of C11 for arrivals.
    pub fn item(self) -> Broken
        ensures { result ≡ item self }
    {
        match self.movement {
            Movement::Departure => Broken::C10(self.airport, self.hour),
            Movement::Arrival => Broken::C11(self.airport, self.hour),
        }
    }
}
