//! The command `store`, in directories that are named already.

ghost use Rattle.std.specs.Prelude.{◌≡◌, ◌≤◌, ◌⊎◌, None, IfSome, Err};
ghost use Rattle.desk_folder.specs.Calls.{Rose};
ghost use Rattle.desk_disk.specs.FileStates.{HasNothingPending};
ghost use Rattle.desk_words.specs.declared.asked.Command.TheVariants.{Store};
ghost use Rattle.desk_tasks.specs.declared.ending.DiskEnd.TheVariants as disk_end;
ghost use Rattle.desk_tasks.specs.declared.ending.Ending.TheVariants as ending;
ghost use Rattle.desk_tasks.specs.declared.refusal.Refusal.{Refusal};
ghost use Rattle.desk_tasks.specs.Commands.{asked_here, files_read};
ghost use Rattle.desk_tasks.specs.Inputs.{Inputs, Tells};
ghost use Rattle.desk_tasks.specs.Runs.{Between};
ghost use Rattle.desk_tasks.specs.Story.{kept_of};
ghost use Rattle.story_commands.specs.Journal.{OnlyOpens, WhereShown};
ghost use Rattle.desk_top.specs.Store.{HasBegun, HoldsAll, IsWrittenAt, RunsKept, StandsAlways};
ghost use Rattle.desk_top.specs.Obeyed.{ObeysStore};

use crate::plain::tell;
use desk_disk::Disk;
use desk_folder::{Folder, Sink};
use desk_tasks::{Ending, InputKept, InputStory, read_kept};
use std::alloc::Global;
use story_commands::keep_events;

// Reads the story that the files give, and keeps it.
fn obey_store<F: Folder, O: Sink, D: Disk>(
    alloc: Global,
    folder: &mut F,
    out: &mut O,
    disk: &mut D,
) -> Ending
    requires nothing_pending { IfSome (D.shown disk.old) (λ was. HasNothingPending was.file) }
    ensures obeys { Between F.outside O.report folder.old out.old folder.new out.new (λ before now.
        ObeysStore before now (D.shown disk.old) (D.shown disk.new) result) }
    ensures unasked { (x : Inputs) → Tells (files_read Store) (F.outside folder.old) x → (r : Refusal) → kept_of x ≡ Err r → disk.new ≡ disk.old }
    ensures failed { result ≡ ending.OnDisk disk_end.Fault → Rose (D.faults disk.old) (D.faults disk.new) }
    ensures kept { D.faults disk.old ≤ D.faults disk.new }
    ensures unshown { D.shown disk.old ≡ None → D.shown disk.new ≡ None }
    ensures directory { D.directory disk.new ≡ D.directory disk.old }
{
    match read_kept(alloc, folder) {
        Ok(kept) => {
            let InputKept { story, batches } = kept;
            let InputStory { inst, events } = story;
            let batches = batches.0.as_slice();
            keep_events(alloc, inst, batches, events.as_slice(), folder, out, disk)
        }
        Err(fault) => Ending::from(fault),
    }
}

/// Does what a replay does, in the directories that the folder and the disk have, and keeps each answered event in the journal
/// on the disk before the next one is answered, so that a run that was stopped goes on. It answers the status. It waits for
/// nobody.
///
/// 0: done, with a plan at the end. 1: done, with no plan at the end. 3: the input is refused, or the journal on the disk: it is
/// damaged, or what it holds is not the beginning of the history of the input. 4: the folder failed to read a file. 5: the folder failed to
/// write a file, or the sink to write the report. 6: memory ran out. 8: the disk failed. From 3 on a line in the report says why.
pub fn run_store<F: Folder, O: Sink, D: Disk>(
    alloc: Global,
    folder: &mut F,
    out: &mut O,
    disk: &mut D,
) -> u8
    requires nothing_pending { IfSome (D.shown disk.old) (λ was. HasNothingPending was.file) }
    // The journal on the disk ended the run, once the input was read and accepted: the disk failed, or where it shows its file that
    // was damaged, or of other events. Or the run keeps all that is promised of a replay, with how many entries that file held as
    // the first line of its report.
    ensures promise { Between F.outside O.report folder.old out.old folder.new out.new (λ before now.
        RunsKept (asked_here Store) before now (D.faults disk.old) (D.faults disk.new) (D.shown disk.old) (D.shown disk.new) result) }

    // At 0, 1 and 5, and where an output file has got a byte, the file on the disk opens as the whole history.
    ensures stored { Between F.outside O.report folder.old out.old folder.new out.new (λ before now.
        (x : Inputs) → Tells (files_read Store) before.folder x → IsWrittenAt result ⊎ HasBegun before now →
        WhereShown (D.shown disk.old) (D.shown disk.new) (HoldsAll x)) }

    // Until the comparison has passed each crash leaves all bytes but the one that opening sets; from then on a file that opens
    // as a beginning of the history, with all that the disk held.
    ensures untouched { (x : Inputs) → Tells (files_read Store) (F.outside folder.old) x →
        WhereShown (D.shown disk.old) (D.shown disk.new) (StandsAlways x) }

    // Where the input is refused, nothing is asked of the disk.
    ensures unasked { (x : Inputs) → Tells (files_read Store) (F.outside folder.old) x → (r : Refusal) → kept_of x ≡ Err r → disk.new ≡ disk.old }

    // At 3 no byte on the disk is changed but the one that opening sets.
    ensures refused { result ≡ 3 → WhereShown (D.shown disk.old) (D.shown disk.new) OnlyOpens }

    // 8 comes only where the disk failed.
    ensures failed { result ≡ 8 → Rose (D.faults disk.old) (D.faults disk.new) }
    ensures kept { D.faults disk.old ≤ D.faults disk.new }

    // A disk that shows nothing goes on so, and no other directory is named.
    ensures unshown { D.shown disk.old ≡ None → D.shown disk.new ≡ None }
    ensures directory { D.directory disk.new ≡ D.directory disk.old }
{
    let ending = obey_store(alloc, folder, out, disk);
    tell(alloc, ending, out)
}
