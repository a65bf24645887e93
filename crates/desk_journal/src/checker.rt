//! A reader of a journal's records that checks each and keeps its payload.
ghost use Rattle.std.specs.Prelude.{◌≡◌, ◌∷◌, []};
ghost use Rattle.desk_disk.specs.Stored.{lists_of};
ghost use Rattle.desk_journal.specs.Spelling.{payload as spelling};
ghost use Rattle.desk_journal.specs.Payloads.{batches_in};

use crate::StoredEvent;
use crate::next::next_stored;
use desk_data::{Batch, Instance, List, NoMem};
use desk_disk::PayloadReader;
use std::alloc::{AllocError, Global};

/// A day, its batches, how many of them stand in the records read so far, and the payloads of these.
#[derive(Drop)]
pub(crate) struct Checker<'a> {
    pub(crate) inst: &'a Instance,
    pub(crate) batches: &'a [Batch],
    pub(crate) due: u64,
    pub(crate) payloads: Vec<Vec<u8>>,
    ghost counted: { due ≡ batches_in (lists_of payloads.items) },
}

impl PayloadReader for Checker<'_> {
    ghost use Rattle.desk_disk.specs.Stored.{lists_of};
    ghost use Rattle.desk_journal.specs.Payloads.{MayStand};

    /// The day, and its batches.
    type Rules = (Instance, List<Batch>);

    ghost rules = { λ c. (c.inst.now, c.batches.now) };

    ghost taken = { λ c. lists_of c.payloads.items };

    ghost accepts = { λ rules before p. MayStand rules.0 rules.1 before p };

    #[tactic(auto, using(crate::proofs::NextLaws::stands_kept, crate::proofs::NextLaws::never_kept, crate::proofs::NextLaws::counted_kept, crate::proofs::NextLaws::one_more, crate::proofs::NextLaws::lists_pushed))]
    fn take(&mut self, alloc: Global, payload: &[u8]) -> Result<bool, AllocError> {
        match next_stored(alloc, self.inst, self.batches, self.due, payload) {
            Ok(Some(stored)) => {
                let kept = Vec::from_slice(alloc, payload)?;
                self.payloads.push(kept)?;
                self.due += batches_of(&stored);
                Ok(true)
            }
            Ok(None) => Ok(false),
            Err(NoMem) => Err(AllocError),
        }
    }
}

// How many batches an event is: one or none.
fn batches_of(stored: &StoredEvent) -> u64
    ensures { result ≡ batches_in (spelling stored.now ∷ []) }
{
    match stored {
        StoredEvent::Batch { .. } => 1,
        StoredEvent::Move { .. } => 0,
    }
}
