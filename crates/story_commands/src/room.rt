//! Whether a journal has room for an event.

ghost use Rattle.std.specs.Prelude.{◌≡◌, cond};
ghost use Rattle.desk_model.specs.Histories.{batch_limit, has_room, is_batch, proposal_limit};
ghost use Rattle.desk_journal.specs.Payloads.{spells_batch};
ghost use Rattle.story_commands.specs.Held.{takes};

use desk_model::Event;

/// A journal of fewer entries than this takes a proposal.
const PROPOSAL_LIMIT: usize = 900_000;

/// A journal of fewer entries than this takes a batch.
const BATCH_LIMIT: usize = 1_000_000;

/// They are those of the definitions.
pub(crate) fn limits_are_as_defined()
    ensures proposals { PROPOSAL_LIMIT ≡ proposal_limit }
    ensures batches { BATCH_LIMIT ≡ batch_limit }
{}

/// Whether a journal of so many entries takes an event.
pub(crate) fn has_room(entries: usize, event: &Event) -> bool
    ensures { result ≡ has_room entries event.now }
{
    match event {
        Event::Batch(_) => entries < BATCH_LIMIT,
        Event::Move(_) => entries < PROPOSAL_LIMIT,
    }
}

/// How many batches an event is: one or none.
pub(crate) fn batches_of(event: &Event) -> u32
    ensures { result ≡ cond (is_batch event.now) 1 0 }
{
    match event {
        Event::Batch(_) => 1,
        Event::Move(_) => 0,
    }
}

/// How many it adds to a journal that has room for it, or none.
pub(crate) fn batches_added(room: bool, event: &Event) -> u32
    ensures { result ≡ cond room (cond (is_batch event.now) 1 0) 0 }
{
    if room { batches_of(event) } else { 0 }
}

// Whether a payload spells a batch.
fn spells_batch(payload: &[u8]) -> bool
    ensures { result ≡ spells_batch payload.now }
{
    payload.len() < 5 || payload[4] == 0
}

/// Whether a journal of so many entries takes the event that a payload spells.
pub(crate) fn takes(entries: usize, payload: &[u8]) -> bool
    ensures { result ≡ takes entries payload.now }
{
    if spells_batch(payload) {
        entries < BATCH_LIMIT
    } else {
        entries < PROPOSAL_LIMIT
    }
}
