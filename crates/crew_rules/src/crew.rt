//! Crews, and how they are seen in a plan.

use desk_units::{Airport, Leg, List, Minute, Name};

/// A crew, with the legs that it works.
#[derive(Drop)]
pub struct CrewInfo {
    pub name: Name,
    /// Where its work begins and ends.
    pub home: Airport,
    /// The longest duty that it may have, in minutes from the first departure to the last arrival: 1 to 10,000.
    pub duty: u32,
    /// The shortest rest between two duties, in minutes: 1 to 10,000.
    pub rest: u32,
    /// Its legs, in any order, none twice.
    pub legs: List<Leg>,
}

/// A flown leg as a crew works it. They are sorted by departure, then by leg.
#[derive(Clone, Copy, PartialEq, Eq, PartialOrd, Ord)]
pub struct WorkedLeg {
    /// When it departs, in minutes since 2000-01-01.
    pub dep: Minute,
    /// Which leg it is.
    pub leg: Leg,
    /// When it arrives.
    pub arr: Minute,
    /// Where it leaves.
    pub origin: Airport,
    /// Where it arrives.
    pub dest: Airport,
}

/// A rule of crews that is broken, and the number of the crew that breaks it: its place among the crews, from 0.
/// They are sorted by rule, then by crew.
#[derive(Clone, Copy, PartialEq, Eq, PartialOrd, Ord)]
pub enum CrewBroken {
    /// The first leg leaves home, and each later one where the one before arrived.
    K1(u32),
    /// Each leg departs no earlier than the one before arrives.
    K2(u32),
    /// No duty is longer than the greatest.
    K3(u32),
    /// The last leg arrives at home.
    K4(u32),
}
