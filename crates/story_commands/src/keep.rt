//! Keeping a story.

ghost use Rattle.std.specs.Prelude.{◌≡◌, ◌≤◌, ◌++◌, ℕ, List, None, Some, IfSome, IfOk, IfErr, IsErrOf, length, take, drop};
ghost use Rattle.desk_folder.specs.Calls.{Rose};
ghost use Rattle.desk_data.specs.Situation.{fresh_day};
ghost use Rattle.desk_disk.specs.FileStates.{HasNothingPending};
ghost use Rattle.desk_model.specs.States.{opening};
ghost use Rattle.desk_model.specs.Histories.{AreAskable, run};
ghost use Rattle.desk_tasks.specs.declared.ending.DiskEnd.TheVariants as disk_end;
ghost use Rattle.desk_tasks.specs.declared.ending.Ending.TheVariants as ending;
ghost use Rattle.desk_tasks.specs.Runs.{Between};
ghost use Rattle.desk_disk.specs.FileStates.{DiskSide};
ghost use Rattle.desk_disk.specs.Crashes.{RunsTo};
ghost use Rattle.desk_disk.specs.Files.{IsAtRest, IsReady};
ghost use Rattle.story_commands.specs.Left.{HoldsBeginning};
ghost use Rattle.desk_journal.specs.Payloads.{asked_in, batches_among, history_payloads};
ghost use Rattle.desk_tasks.specs.Play.{story_on};
ghost use Rattle.story_commands.specs.Held.{entered};
ghost use Rattle.story_commands.specs.Ends.{append_end, open_end};
ghost use Rattle.story_commands.specs.Journal.{kept_story, IsEarly, IsKept, IsStopped, KeepsStory, LeavesJournal, PassesComparison, WhereShown};

use crate::compare::{Compared, compare};
use crate::held::entered;
use crate::run_events;
use crate::store::store_events;
use desk_core::Book;
use desk_data::{Batch, Instance};
use desk_disk::Disk;
use desk_folder::{Folder, Sink};
use desk_journal::{AppendFault, OpenFault, Tail, open_records};
use desk_model::Event;
use desk_tasks::{DiskEnd, Ending};
use history_texts::write_opened;
use std::alloc::Global;

// A book all of whose journal is on the disk, and how many of its entries the disk held.
#[derive(Drop)]
struct Kept {
    book: Book,
    held: u32,
}

// How a run ends whose journal could not be opened.
fn open_end(fault: OpenFault) -> Ending
    ensures { result ≡ open_end fault }
{
    match fault {
        OpenFault::Disk => Ending::OnDisk(DiskEnd::Fault),
        OpenFault::Damaged { .. } => Ending::OnDisk(DiskEnd::Damaged),
        OpenFault::Memory => Ending::Memory,
    }
}

// How a run ends to whose journal an entry could not be added.
fn append_end(fault: AppendFault) -> Ending
    ensures { result ≡ append_end fault }
{
    match fault {
        AppendFault::Disk => Ending::OnDisk(DiskEnd::Fault),
        AppendFault::Memory => Ending::Memory,
    }
}

// Has a book answer the events, so many of whose entries the disk holds, and keeps the others on the disk, each before the
// next event is answered.
fn store_rest<D: Disk>(
    alloc: Global,
    inst: Instance,
    events: &[(u32, Event)],
    taken: usize,
    number: u32,
    disk: &mut D,
    tail: Tail,
) -> Result<Kept, Ending>
    requires fresh { inst ≡ fresh_day inst.parts }
    requires asked { AreAskable inst events.now }
    requires within { taken ≤ length events.now }
    requires number { number ≡ batches_among (asked_in (run (opening inst) (take taken events.now))) }
    requires ready { IsReady (D.shown disk.old) tail }
    ensures book { IfOk result (λ kept. kept.book ≡ record { opening = inst; journal = run (opening inst) events.now }) }
    ensures held { IfOk result (λ kept. kept.held ≡ length (run (opening inst) (take taken events.now))) }
    ensures most { IfOk result (λ kept. kept.held ≤ length (run (opening inst) events.now)) }
    ensures stored { IfOk result (λ _. (was : DiskSide) → D.shown disk.old ≡ Some was → (records : List (List ℕ)) → IsAtRest records tail was.file →
        (now : DiskSide) × (place : ℕ) × (D.shown disk.new ≡ Some now)
        × IsAtRest (records ++ drop (length (run (opening inst) (take taken events.now))) (history_payloads (run (opening inst) events.now))) place now.file) }
    ensures any_moment { (was : DiskSide) → D.shown disk.old ≡ Some was → (records : List (List ℕ)) → IsAtRest records tail was.file →
        RunsTo was (D.shown disk.new) (HoldsBeginning (records ++ drop (length (run (opening inst) (take taken events.now))) (history_payloads (run (opening inst) events.now))) (length records)) }
    ensures early { IfErr result IsStopped }
    ensures failed { IsErrOf result (ending.OnDisk disk_end.Fault) → Rose (D.faults disk.old) (D.faults disk.new) }
    ensures kept { D.faults disk.old ≤ D.faults disk.new }
    ensures unshown { D.shown disk.old ≡ None → D.shown disk.new ≡ None }
    ensures directory { D.directory disk.new ≡ D.directory disk.old }
{
    let (front, later) = events.split_at(taken);
    let book = match run_events(alloc, inst, front) {
        Ok(book) => book,
        Err(_) => return Err(Ending::Memory),
    };
    let held = book.entries();
    match store_events(alloc, disk, book, tail, number, later) {
        Ok(book) => Ok(Kept { book, held }),
        Err(fault) => Err(append_end(fault)),
    }
}

// Opens the journal on a disk, compares what it holds with the events, and keeps the entries that it lacks.
fn keep_journal<D: Disk>(
    alloc: Global,
    inst: Instance,
    batches: &[Batch],
    events: &[(u32, Event)],
    disk: &mut D,
) -> Result<Kept, Ending>
    requires fresh { inst ≡ fresh_day inst.parts }
    requires asked { AreAskable inst events.now }
    requires nothing_pending { IfSome (D.shown disk.old) (λ was. HasNothingPending was.file) }
    ensures book { IfOk result (λ kept. kept.book ≡ record { opening = inst; journal = run (opening inst) events.now }) }
    ensures most { IfOk result (λ kept. kept.held ≤ length (run (opening inst) events.now)) }
    ensures stored { IfOk result (λ kept. WhereShown (D.shown disk.old) (D.shown disk.new) (λ was now.
        (records : List (List ℕ)) × PassesComparison (kept_story inst batches.now events.now) records was now
        × IsKept (kept_story inst batches.now events.now) records now × (kept.held ≡ length (entered records)))) }
    ensures early { IfErr result IsEarly }
    ensures left { IfErr result (λ how. WhereShown (D.shown disk.old) (D.shown disk.new) (λ was now.
        LeavesJournal (kept_story inst batches.now events.now) was now how)) }
    ensures failed { IsErrOf result (ending.OnDisk disk_end.Fault) → Rose (D.faults disk.old) (D.faults disk.new) }
    ensures kept { D.faults disk.old ≤ D.faults disk.new }
    ensures unshown { D.shown disk.old ≡ None → D.shown disk.new ≡ None }
    ensures directory { D.directory disk.new ≡ D.directory disk.old }
{
    let (tail, records) = match open_records(alloc, disk, &inst, batches) {
        Ok(opened) => opened,
        Err(fault) => return Err(open_end(fault)),
    };
    let held = match entered(alloc, records.as_slice()) {
        Ok(held) => held,
        Err(_) => return Err(Ending::Memory),
    };
    match compare(alloc, events, held.as_slice()) {
        Ok(Compared::First { taken, number }) => {
            store_rest(alloc, inst, events, taken, number, disk, tail)
        }
        Ok(Compared::Other { line }) => Err(Ending::OnDisk(DiskEnd::Other { line })),
        Err(_) => Err(Ending::Memory),
    }
}

/// Takes these events on a day, each with its caller, keeps each entry in the journal on the disk before the next event is
/// answered, and writes the rotations and the itineraries of the last plan where there is one, the journal with its answers,
/// and the report, whose first line says how many entries the disk held.
///
/// It ends with `Done` or `NoPlan` when all is written, and with `OnDisk` where the disk failed, its journal is damaged, or
/// what it holds is not the beginning of the history of these events: then nothing is written. A write that fails ends it with that
/// fault, and `Memory` may come at any time: what is written by then is a beginning of the texts, in their order.
pub fn keep_events<F: Folder, O: Sink, D: Disk>(
    alloc: Global,
    inst: Instance,
    batches: &[Batch],
    events: &[(u32, Event)],
    folder: &mut F,
    out: &mut O,
    disk: &mut D,
) -> Ending
    requires fresh { inst ≡ fresh_day inst.parts }
    requires asked { AreAskable inst events.now }
    requires nothing_pending { IfSome (D.shown disk.old) (λ was. HasNothingPending was.file) }

    // What is written, and what stands on the disk at each moment.
    ensures keeps { Between F.outside O.report folder.old out.old folder.new out.new (λ before now.
        KeepsStory (kept_story inst batches.now events.now) before now (D.shown disk.old) (D.shown disk.new) result) }

    // A fault of the disk has its cause.
    ensures failed { result ≡ ending.OnDisk disk_end.Fault → Rose (D.faults disk.old) (D.faults disk.new) }
    ensures kept { D.faults disk.old ≤ D.faults disk.new }
    ensures unshown { D.shown disk.old ≡ None → D.shown disk.new ≡ None }
    ensures directory { D.directory disk.new ≡ D.directory disk.old }
{
    match keep_journal(alloc, inst, batches, events, disk) {
        Ok(kept) => write_opened(alloc, &kept.book, kept.held, folder, out),
        Err(end) => end,
    }
}
