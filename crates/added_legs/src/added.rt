//! Added legs, and how a broken rule names them.

use desk_data::{Airport, Broken, Minute, Plane};

/// An empty leg that is added to a plan. It leaves where its aircraft ends: where the aircraft's last leg arrives, or where
/// the aircraft stands at first if it flies none. It takes the minutes of the distance, and has no previous leg.
#[derive(Clone, Copy, Debug, PartialEq, Eq)]
pub struct Added {
    /// The aircraft that flies it, which is no surface transport.
    pub plane: Plane,
    /// Where it arrives.
    pub dest: Airport,
    /// When it departs, in minutes since 2000-01-01.
    pub dep: Minute,
}

/// A broken rule of C4 to C11, where added legs are flown beside a plan. C4 to C7 name an added leg by its aircraft.
#[derive(Clone, Copy, Debug, PartialEq, Eq)]
pub enum AddBroken {
    /// The added leg of an aircraft is longer than its range.
    C4(Plane),
    /// The added leg of an aircraft leaves an airport where the aircraft is not.
    C5(Plane),
    /// The added leg of an aircraft departs before the aircraft's ground time is over.
    C6(Plane),
    /// The added leg of an aircraft is flown while the aircraft is out of service.
    C7(Plane),
    /// Any other item: a leg of the plan, an aircraft's maintenance, or an hour of an airport.
    Old(Broken),
}
