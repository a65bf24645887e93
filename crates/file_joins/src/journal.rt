//! The rows of a journal, joined.

ghost use Rattle.std.specs.Prelude.{◌≡◌, ◌≤◌, [], All, IfOk};
ghost use Rattle.desk_data.specs.Valid.{IsBatch};
ghost use Rattle.desk_model.specs.Histories.{AreAskable};
ghost use Rattle.desk_text.specs.Rows.{GivesRow};
ghost use Rattle.desk_journal.specs.Facts.{AreRows};
ghost use Rattle.file_joins.specs.Join.{all_after, asked_of, event_of, events_of};
ghost use Rattle.file_joins.specs.Gives.{JoinGives, fault_at};

use crate::DayNames;
use crate::batches::{due_after, stated_batch};
use crate::steps::joined_move;
use desk_build::{BuildFault, Built};
use desk_data::Batch;
use desk_folder::File;
use desk_journal::{JournalRow, NamedEvent};
use desk_model::Event;
use desk_text::RowFault;
use std::alloc::Global;

/// The event of a row, where the batch of the number `due` is the next one.
fn event_of(
    alloc: Global,
    names: &DayNames<'_>,
    batches: &[Batch],
    due: usize,
    event: &NamedEvent,
) -> Result<Event, RowFault>
    ensures { GivesRow result (event_of names.now batches.now due event.now) }
{
    match event {
        NamedEvent::Batch { number } => stated_batch(alloc, batches, due, *number),
        NamedEvent::Move { steps } => joined_move(alloc, names, steps.as_slice()),
    }
}

/// The row of this line gave no event.
fn fault_at(line: u32, fault: RowFault) -> BuildFault
    ensures { result ≡ fault_at line fault }
{
    match fault {
        RowFault::Refused(cause) => BuildFault::Refused {
            file: File::Journal,
            line,
            cause,
        },
        RowFault::Memory => BuildFault::Memory,
    }
}

/// The events of rows, or the first row that is refused.
fn events(
    alloc: Global,
    names: &DayNames<'_>,
    batches: &[Batch],
    rows: &[JournalRow],
) -> Result<Vec<(u32, Event)>, BuildFault>
    ensures { JoinGives (λ v. v.items) result (all_after (asked_of names.now batches.now) [] rows.now) }
{
    let mut events = Vec::with_capacity(alloc, rows.len())?;
    let mut due = 0;
    for row in rows {
        match event_of(alloc, names, batches, due, &row.event) {
            Ok(event) => {
                due = due_after(due, &row.event);
                events.push((row.caller, event))?;
            }
            Err(fault) => return Err(fault_at(row.line, fault)),
        }
    }
    Ok(events)
}

/// The events of rows in their order, each with its caller.
///
/// A batch is named by its number, and its event has the moment and the orders that this batch has among
/// those of the day. In a move a leg is named by its flight and the day of its schedule, an aircraft by its name, and
/// a reservation by its name and its direction. A move may stand before the first batch. The time
/// is near linear in the rows of the day and of the journal and in the orders.
///
/// # Errors
/// `Refused` for the first row that is refused, with its line of `File::Journal`. For a batch the cause
/// is `Batch`: the first batch is not number 0, or a later one is not one more than the last, or there
/// is no such batch. For a move it is `Unknown` where a leg, an aircraft or a reservation that it names
/// is not there; else `Move` where it has not 1 to 16 steps, or one of them departs or swaps at minute
/// 52,500,000 or later. `Memory` at any time.
pub fn join_journal(
    alloc: Global,
    built: &Built,
    rows: &[JournalRow],
) -> Result<Vec<(u32, Event)>, BuildFault>
    requires rows { AreRows rows.now }
    requires batches { All (IsBatch built.now.inst.parts) built.now.batches }
    ensures exact { JoinGives (λ v. v.items) result (events_of built.now rows.now) }
    ensures asked { IfOk result (λ v. AreAskable built.now.inst v.items) }
    ensures callers { IfOk result (λ v. All (λ asked. asked.0 ≤ 64) v.items) }
{
    let names = DayNames::of(alloc, &built.inst)?;
    events(alloc, &names, built.batches.as_slice(), rows)
}
