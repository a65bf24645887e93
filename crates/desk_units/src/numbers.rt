//! Moments, cabins, hauls, seats, and the numbers by which the rows of a day are named.

ghost use Rattle.std.specs.Prelude.{◌≡◌, ◌<◌};
ghost use Rattle.desk_units.specs.Ranks.{cabin_rank, haul_rank};

/// A moment: whole minutes since 2000-01-01 00:00.
#[derive(Clone, Copy, Debug, PartialEq, Eq, PartialOrd, Ord)]
pub struct Minute(pub u32);

/// An airport, by its place in the list of airports, from 0.
#[derive(Clone, Copy, Debug, PartialEq, Eq, PartialOrd, Ord, Hash)]
pub struct Airport(pub u32);

/// An aircraft, by its place in the list of aircraft, from 0.
#[derive(Clone, Copy, Debug, PartialEq, Eq, PartialOrd, Ord)]
pub struct Plane(pub u32);

/// A leg, by its place in the list of rotations, from 0.
#[derive(Clone, Copy, Debug, PartialEq, Eq, PartialOrd, Ord)]
pub struct Leg(pub u32);

/// A reservation, by its place in the list of itineraries, from 0.
#[derive(Clone, Copy, Debug, PartialEq, Eq, PartialOrd, Ord)]
pub struct Res(pub u32);

/// A cabin: first, business or economy, in the order in which paths are compared.
#[derive(Clone, Copy, Debug, PartialEq, Eq, PartialOrd, Ord)]
pub enum Cabin {
    F,
    B,
    E,
}

impl Cabin {
    /// Its place among the cabins: 0 for first, 1 for business, 2 for economy. A cabin is below
    /// another where its place is greater.
    pub fn rank(self) -> usize
        ensures place { result ≡ cabin_rank self }
        ensures small { result < 3 }
    {
        match self {
            Cabin::F => 0,
            Cabin::B => 1,
            Cabin::E => 2,
        }
    }
}

/// The haul of a leg: domestic, continental or intercontinental.
#[derive(Clone, Copy)]
pub enum Haul {
    D,
    C,
    I,
}

impl Haul {
    /// Its place among the hauls: 0 for domestic, 1 for continental, 2 for intercontinental. A haul
    /// is above another where its place is greater.
    pub fn rank(self) -> usize
        ensures place { result ≡ haul_rank self }
        ensures small { result < 3 }
    {
        match self {
            Haul::D => 0,
            Haul::C => 1,
            Haul::I => 2,
        }
    }
}

/// The seats of an aircraft in each cabin, each from 0 to 999 in a day that was read.
#[derive(Clone, Copy)]
pub struct Seats {
    /// In first class.
    pub f: u32,
    /// In business class.
    pub b: u32,
    /// In economy class.
    pub e: u32,
}
