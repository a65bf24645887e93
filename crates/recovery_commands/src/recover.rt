//! Recovering a day, and writing what came of it.

ghost use Rattle.std.specs.Prelude.{◌≡◌, ◌≤◌, length, All};
ghost use Rattle.desk_data.specs.Situation.{fresh_day};
ghost use Rattle.desk_data.specs.Valid.{IsBatch};
ghost use Rattle.desk_tasks.specs.Runs.{Between};
ghost use Rattle.desk_tasks.specs.Finishing.{Completes};
ghost use Rattle.desk_tasks.specs.Recover.{recovery_on, recovered, tried};
ghost use Rattle.desk_tasks.specs.Tasks.{recover, trial, files_for};

use crate::take_batches::run_batches;
use desk_data::{Batch, Instance};
use desk_folder::{Folder, Sink};
use desk_tasks::Ending;
use desk_units::Listener;
use history_texts::{report_history, write_history};
use std::alloc::Global;

/// Takes these batches on a day, 1 to 1,001 of them, descends after each with at most so many accepted moves,
/// and writes the rotations and the itineraries of the last plan where there is one, the journal, and the
/// report.
///
/// It ends with `Done` or `NoPlan` when all is written. A write that fails ends it with that fault, and
/// `Memory` may come at any time: what is written by then is a beginning of the texts, in their order.
///
/// The listener is told how far the recovery has come, and of each move that is tried; what is written depends on none.
pub fn recover_day<F: Folder, O: Sink, L: Listener>(
    alloc: Global,
    inst: Instance,
    batches: &[Batch],
    moves: u32,
    folder: &mut F,
    out: &mut O,
    listener: &mut L,
) -> Ending
    requires fresh { inst ≡ fresh_day inst.parts }
    requires asked { All (IsBatch inst.parts) batches.now }
    requires some { 1 ≤ length batches.now }
    requires few { length batches.now ≤ 1001 }
    ensures { Between F.outside O.report folder.old out.old folder.new out.new (λ before now.
        Completes (files_for (recover (recovery_on inst batches.now moves))) before now (recovered (recovery_on inst batches.now moves)) result) }
{
    match run_batches(alloc, inst, batches, moves, listener) {
        Ok(done) => write_history(alloc, &done.book, done.search, folder, out),
        Err(_) => Ending::Memory,
    }
}

/// Does the same, and reports alone what came of it: no file is written.
///
/// It ends with `Done` or `NoPlan` when the report is written, with `ReportFault` where the sink fails, and
/// with `Memory` at any time: what is written by then is a beginning of the report.
pub fn try_day<F: Folder, O: Sink, L: Listener>(
    alloc: Global,
    inst: Instance,
    batches: &[Batch],
    moves: u32,
    folder: &mut F,
    out: &mut O,
    listener: &mut L,
) -> Ending
    requires fresh { inst ≡ fresh_day inst.parts }
    requires asked { All (IsBatch inst.parts) batches.now }
    requires some { 1 ≤ length batches.now }
    requires few { length batches.now ≤ 1001 }
    ensures { Between F.outside O.report folder.old out.old folder.new out.new (λ before now.
        Completes (files_for (trial (recovery_on inst batches.now moves))) before now (tried (recovery_on inst batches.now moves)) result) }
{
    match run_batches(alloc, inst, batches, moves, listener) {
        Ok(done) => report_history(alloc, &done.book, done.search, folder, out),
        Err(_) => Ending::Memory,
    }
}
