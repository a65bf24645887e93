//! Events, the answers to them, and the entries of a journal.

ghost use Rattle.std.specs.Prelude.{◌≡◌};
ghost use Rattle.desk_model.specs.Histories.{is_batch};

use crate::fallbacks::Which;
use desk_data::{Batch, Broken, Grains};
use plan_moves::Move;

/// What happens at the desk.
#[derive(Drop)]
pub enum Event {
    /// Disruptions become known.
    Batch(Batch),
    /// Someone proposes a move.
    Move(Move),
}

impl Event {
    /// Whether it is a batch.
    pub fn is_batch(&self) -> bool
        ensures { result ≡ is_batch self.now }
    {
        match self {
            Event::Batch(_) => true,
            Event::Move(_) => false,
        }
    }
}

/// What the desk answers to an event.
#[derive(Clone, Copy, Debug, PartialEq, Eq)]
pub enum Answer {
    /// A batch is taken: this is what the desk falls back on, and what the plan then costs.
    Taken { which: Which, cost: Grains },
    /// The moved plan is feasible and cheaper; it is published, at this cost.
    Accepted { cost: Grains },
    /// The moved plan breaks this item, the first one that it breaks.
    Breaks(Broken),
    /// The moved plan is feasible and not cheaper.
    Dearer { now: Grains, would: Grains },
    /// There is no plan: this is the first item that the rows break. Of a proposal they are the rows
    /// as they stand, and of a batch those that are left where nothing that the desk falls back on is
    /// feasible.
    NoPlan(Broken),
    /// The journal has this many entries, and takes no more of such events.
    Full { entries: u32 },
}

/// An entry of the journal.
#[derive(Drop)]
pub struct Entry {
    /// Who asked: 0 is the desk itself, and 1 to 64 are searchers.
    pub caller: u32,
    pub event: Event,
    pub answer: Answer,
}
