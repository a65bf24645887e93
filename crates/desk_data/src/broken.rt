//! The items that a plan can break.

use desk_units::{Airport, Cabin, Leg, Plane, Res};

/// A broken rule, with what it is broken by. An hour is a moment divided by 60, rounded down.
#[derive(Clone, Copy, Debug, PartialEq, Eq)]
pub enum Broken {
    /// A fixed leg has another row than it must have.
    C1(Leg),
    /// A movable leg flies though it is called off, or departs too early or too late.
    C2(Leg),
    /// A leg is flown by an aircraft of another family.
    C3(Leg),
    /// A leg is longer than its aircraft's range.
    C4(Leg),
    /// A leg leaves an airport where its aircraft is not.
    C5(Leg),
    /// A leg departs before its aircraft's ground time is over.
    C6(Leg),
    /// A leg is flown while its aircraft is out of service.
    C7(Leg),
    /// An aircraft misses its maintenance.
    C8(Plane),
    /// An aircraft flies too many minutes before its maintenance.
    C9(Plane),
    /// Too many departures from an airport in an hour.
    C10(Airport, u32),
    /// Too many arrivals at an airport in an hour.
    C11(Airport, u32),
    /// Too many passengers in a cabin of a leg.
    C12(Leg, Cabin),
    /// A path of a reservation does not connect.
    C13(Res),
    /// A path of a reservation arrives too late.
    C14(Res),
    /// A path of a reservation leaves what was already flown.
    C15(Res),
}
