//! The batches that a journal names.

ghost use Rattle.std.specs.Prelude.{◌≡◌, ◌+◌, ◌<◌, ◌^◌, Ok, Err, MatchResult, if◌then◌else◌};
ghost use Rattle.desk_text.specs.Rows.{GivesRow};
ghost use Rattle.file_joins.specs.Join.{batch_of, is_batch, stated_batch};

use desk_data::Batch;
use desk_journal::NamedEvent;
use desk_model::Event;
use desk_text::RowFault;
use file_rows::Cause;
use std::alloc::Global;

/// The batch of a number, where it is the one that is due and there is such a batch.
#[tactic(auto, unfolding(crate::specs::Join::batch_of))]
fn batch_of(batches: &[Batch], due: usize, number: u32) -> Result<&Batch, Cause>
    ensures { MatchResult result (λ batch. batch_of batches.now due number ≡ Ok batch.now) (λ cause. batch_of batches.now due number ≡ Err cause) }
{
    if number as usize == due {
        batches.get(number as usize).ok_or(Cause::Batch)
    } else {
        Err(Cause::Batch)
    }
}

/// The event of the batch of a number, where it is the one that is due.
#[tactic(auto, unfolding(crate::specs::Join::stated_batch))]
pub(crate) fn stated_batch(
    alloc: Global,
    batches: &[Batch],
    due: usize,
    number: u32,
) -> Result<Event, RowFault>
    ensures { GivesRow result (stated_batch batches.now due number) }
{
    let batch = batch_of(batches, due, number)?;
    Ok(Event::Batch(batch.copy(alloc)?))
}

/// The number of the batch that is due after an event, by the one that was due at it.
pub(crate) fn due_after(due: usize, event: &NamedEvent) -> usize
    requires { due < 2 ^ 63 }
    ensures { result ≡ (if is_batch event.now then due + 1 else due) }
{
    match event {
        NamedEvent::Batch { number: _ } => due + 1,
        NamedEvent::Move { steps: _ } => due,
    }
}
