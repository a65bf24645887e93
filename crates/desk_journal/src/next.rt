//! Whether a payload may come next in a journal.
ghost use Rattle.std.specs.Prelude.{◌≡◌, ◌↔◌, IsTrue, IfOk, MatchOption};
ghost use Rattle.desk_journal.specs.Spelling.{payload as spelling, HasSpelling};
ghost use Rattle.desk_journal.specs.Payloads.{ComesNext, MayCome};

use crate::{StoredEvent, read_payload};
use desk_data::{Batch, Instance, NoMem};
use plan_moves::fits;
use std::alloc::Global;

// Whether an event is the next batch or a move that fits.
fn comes_next(inst: &Instance, batches: &[Batch], due: u64, stored: &StoredEvent) -> bool
    ensures { IsTrue result ↔ ComesNext inst.now batches.now due stored.now }
{
    match stored {
        StoredEvent::Batch { number, .. } => {
            u64::from(*number) == due && due < batches.len() as u64
        }
        StoredEvent::Move { m, .. } => fits(inst, m),
    }
}

/// What a payload spells, if that may come next after `due` batches; else `None`. The only error is that
/// there is no memory left.
pub(crate) fn next_stored(
    alloc: Global,
    inst: &Instance,
    batches: &[Batch],
    due: u64,
    payload: &[u8],
) -> Result<Option<StoredEvent>, NoMem>
    ensures { IfOk result (λ o. MatchOption o (MayCome inst.now batches.now due payload.now → ⊥)
        (λ stored. MayCome inst.now batches.now due payload.now × (payload.now ≡ spelling stored) × HasSpelling stored × ComesNext inst.now batches.now due stored)) }
{
    let _parts = inst.parts();
    let Some(stored) = read_payload(alloc, payload)? else {
        return Ok(None);
    };
    if !comes_next(inst, batches, due, &stored) {
        return Ok(None);
    }
    Ok(Some(stored))
}
