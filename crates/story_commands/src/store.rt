//! Answering events, and keeping each answer on the disk before the next one.

ghost use Rattle.std.specs.Prelude.{◌≡◌, ◌≤◌, ◌++◌, ◌^◌, ◌<◌, ℕ, List, None, Some, IfOk, IsErrOf, OnOk, length, drop};
ghost use Rattle.desk_folder.specs.Calls.{Rose};
ghost use Rattle.desk_disk.specs.FileStates.{DiskSide};
ghost use Rattle.desk_disk.specs.Crashes.{LeavesOnly, RunsTo};
ghost use Rattle.desk_disk.specs.Files.{IsAtRest, IsReady};
ghost use Rattle.story_commands.specs.Left.{HoldsBeginning};
ghost use Rattle.desk_model.specs.States.{opening};
ghost use Rattle.desk_model.specs.Histories.{AreAskable, IsAskable, entries, state};
ghost use Rattle.desk_core.specs.Recorded.{with_entry};
ghost use Rattle.desk_journal.specs.Payloads.{asked_in, batches_among, history_payloads};
ghost use Rattle.story_commands.specs.Added.{added, all_entries, lacking};

use crate::room::{batches_added, has_room};
use crate::take_event;
use desk_core::Book;
use desk_disk::Disk;
use desk_journal::{AppendFault, Tail, append};
use desk_model::Event;
use std::alloc::Global;

// Has a book answer an event, before which its journal has so many batches, and keeps the entry on the disk. An event
// that finds no room is answered too, and has no entry. After an error only a new run opens the file again.
fn store_event<D: Disk>(
    alloc: Global,
    disk: &mut D,
    book: &mut Book,
    tail: Tail,
    number: u32,
    asked: &(u32, Event),
) -> Result<Tail, AppendFault>
    requires askable { IsAskable book.old.opening asked.now.1 }
    requires number { number ≡ batches_among (asked_in book.old.journal) }
    requires ready { IsReady (D.shown disk.old) tail }
    ensures book { OnOk result (book.new ≡ with_entry book.old asked.now.0 asked.now.1) }

    // Once it has answered Ok the entry, if there is one, stands behind those before it, and nothing is pending.
    ensures acknowledged { IfOk result (λ next. (was : DiskSide) → D.shown disk.old ≡ Some was → (records : List (List ℕ)) → IsAtRest records tail was.file →
        (now : DiskSide) × (D.shown disk.new ≡ Some now) × IsAtRest (records ++ added book.old.journal asked.now) next now.file) }
    ensures ready { IfOk result (λ next. IsReady (D.shown disk.new) next) }

    // A crash at any moment of the call leaves the records from before it, with the new one or without.
    ensures any_moment { (was : DiskSide) → D.shown disk.old ≡ Some was → (records : List (List ℕ)) → IsAtRest records tail was.file →
        RunsTo was (D.shown disk.new) (HoldsBeginning (records ++ added book.old.journal asked.now) (length records)) }

    // A fault has its cause.
    ensures failed { IsErrOf result AppendFault.Disk → Rose (D.faults disk.old) (D.faults disk.new) }
    ensures kept { D.faults disk.old ≤ D.faults disk.new }
    ensures unshown { D.shown disk.old ≡ None → D.shown disk.new ≡ None }
    ensures directory { D.directory disk.new ≡ D.directory disk.old }
{
    let entries = book.entries() as usize;
    let room = has_room(entries, &asked.1);
    let Ok(()) = take_event(alloc, book, asked.0, &asked.1) else {
        return Err(AppendFault::Memory);
    };
    if room {
        return append(alloc, disk, tail, &book.journal()[entries], number);
    }
    Ok(tail)
}

/// Has a book answer events one after another, each with its caller, and keeps the entry of each on the disk before the
/// next one is answered. Before them its journal has so many batches. After an error only a new run opens the file again.
pub(crate) fn store_events<D: Disk>(
    alloc: Global,
    disk: &mut D,
    book: Book,
    tail: Tail,
    number: u32,
    events: &[(u32, Event)],
) -> Result<Book, AppendFault>
    requires askable { AreAskable book.opening events.now }
    requires number { number ≡ batches_among (asked_in book.journal) }
    requires ready { IsReady (D.shown disk.old) tail }
    ensures book { IfOk result (λ kept. kept ≡ record { opening = book.opening; journal = all_entries book events.now }) }

    // Then the entries stand behind the records that there were, and nothing is pending.
    ensures acknowledged { IfOk result (λ _. (was : DiskSide) → D.shown disk.old ≡ Some was → (records : List (List ℕ)) → IsAtRest records tail was.file →
        (now : DiskSide) × (place : ℕ) × (D.shown disk.new ≡ Some now) × IsAtRest (records ++ lacking book events.now) place now.file) }

    // A crash at any moment leaves the records from before, and the first of the new ones.
    ensures any_moment { (was : DiskSide) → D.shown disk.old ≡ Some was → (records : List (List ℕ)) → IsAtRest records tail was.file →
        RunsTo was (D.shown disk.new) (HoldsBeginning (records ++ lacking book events.now) (length records)) }

    // A fault has its cause.
    ensures failed { IsErrOf result AppendFault.Disk → Rose (D.faults disk.old) (D.faults disk.new) }
    ensures kept { D.faults disk.old ≤ D.faults disk.new }
    ensures unshown { D.shown disk.old ≡ None → D.shown disk.new ≡ None }
    ensures directory { D.directory disk.new ≡ D.directory disk.old }
{
    let mut book = book;
    let mut tail = tail;
    let mut number = number;
    for asked in events {
        let room = has_room(book.entries() as usize, &asked.1);
        let next = store_event(alloc, disk, &mut book, tail, number, asked)?;
        tail = next;
        number += batches_added(room, &asked.1);
    }
    Ok(book)
}
