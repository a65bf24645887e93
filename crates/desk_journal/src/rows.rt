//! The rows of a journal, in which everything of the day has its name.

use desk_units::{Cabin, List, Minute, Name};

/// A leg, by its flight and the day of its schedule: days since 2000-01-01, below 36,525.
#[derive(Clone, Copy)]
pub struct NamedLeg {
    pub flight: Name,
    pub day: u32,
}

/// A reservation, by its name and whether it is inbound.
#[derive(Clone, Copy)]
pub struct NamedRes {
    pub name: Name,
    pub inbound: bool,
}

/// The legs that passengers take, at most 8, each with the cabin they sit in. The empty path means
/// that they are not carried.
#[derive(Drop)]
pub struct NamedPath {
    pub legs: List<(NamedLeg, Cabin)>,
}

/// What a step says that a leg does: it is flown by an aircraft from a moment of the years 2000 to
/// 2099 on, or cancelled.
#[derive(Clone, Copy)]
pub enum NamedRow {
    Flown { plane: Name, dep: Minute },
    Cancelled,
}

/// One step of a move.
#[derive(Drop)]
pub enum NamedStep {
    /// Where the leg's row is `was`, it becomes `new`.
    Set {
        leg: NamedLeg,
        was: NamedRow,
        new: NamedRow,
    },
    /// The legs of the aircraft after the leg `after`, or all where it is `None`, are placed anew.
    Push {
        plane: Name,
        after: Option<NamedLeg>,
    },
    /// The legs of two aircraft that depart at the moment or after it go from one to the other.
    Swap {
        first: Name,
        second: Name,
        at: Minute,
    },
    /// Up to `count` passengers of the reservation, 1 to 1,000, go from a path to another.
    Rebook {
        res: NamedRes,
        path: NamedPath,
        to: NamedPath,
        count: u32,
    },
    /// Passengers on paths that no longer fit are not carried.
    Tidy,
    /// Passengers who are not carried and whose scheduled path has the leg go back to it.
    Refill {
        leg: NamedLeg,
    },
}

/// What a caller reports or asks for.
#[derive(Drop)]
pub enum NamedEvent {
    /// Disruptions become known: the batch of orders with this number, 0 to 1,000.
    Batch { number: u32 },
    /// A move of these steps, any number of them.
    Move { steps: List<NamedStep> },
}

/// A row of the journal: its line, from 1, its caller, 0 to 64, and what the caller reports or asks for.
#[derive(Drop)]
pub struct JournalRow {
    pub line: u32,
    pub caller: u32,
    pub event: NamedEvent,
}
