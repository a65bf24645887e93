//! The top call.

ghost use Rattle.std.specs.Prelude.{◌≡◌, ◌⊎◌, ℕ, ◌≤◌, Bool, true, false, None, Some, IfSome, Err, map};
ghost use Rattle.std.specs.String.{string_bytes};
ghost use Rattle.desk_folder.specs.declared.files.File.{File};
ghost use Rattle.desk_folder.specs.Outside.{Directories as NamedDirectories};
ghost use Rattle.std.specs.Option.{option_map};
ghost use Rattle.desk_folder.specs.Calls.{Rose};
ghost use Rattle.desk_disk.specs.FileStates.{HasNothingPending};
ghost use Rattle.desk_words.specs.declared.asked.Command.TheVariants.{Replay, Store, Recover, Check, Ferry, Gen, Trial};
ghost use Rattle.desk_words.specs.Asked.{named};
ghost use Rattle.desk_words.specs.Commands.{command};
ghost use Rattle.desk_tasks.specs.Commands.{IsCommand, asked_by, asked_here, asks_disk, files_read, is_of_disk};
ghost use Rattle.desk_tasks.specs.declared.refusal.Refusal.{Refusal};
ghost use Rattle.desk_tasks.specs.Inputs.{Inputs, Tells};
ghost use Rattle.desk_tasks.specs.Reading.{IsUnread};
ghost use Rattle.desk_tasks.specs.Runs.{Between};
ghost use Rattle.desk_tasks.specs.Causes.{IsDoneAt};
ghost use Rattle.desk_tasks.proofs.Composed.{at};
ghost use Rattle.desk_tasks.specs.Story.{kept_of};
ghost use Rattle.story_commands.specs.Journal.{OnlyOpens, WhereShown};
ghost use Rattle.desk_top.specs.Store.{kept_directories, HasBegun, HoldsAll, IsAtMostNamed, IsPlacedAt, IsStored, IsWrittenAt, RunsOnDisk, StandsAlways, UnlessNamed};
ghost use Rattle.desk_top.specs.Desk.{Runs, RunsAsPromised, IsReplayed, IsReplayedWithCrews, IsRecovered, IsRecoveredByTeam, IsTried, IsChecked, IsCheckedWithCrews, IsFerriedPlan, IsGenerated};

use crate::plain::{run_plain, tell};
use crate::store::run_store;
use crate::workers::run_workers;
use desk_disk::{Disk, DiskFault};
use desk_folder::{Folder, FolderFault, Gate, Sink};
use desk_tasks::{DiskEnd, Ending};
use desk_units::{Listener, Nobody};
use desk_words::{Command, Directories, command};
use std::alloc::Global;
use std::sync::Wait;
use std::thread::Threads;

// Does what a command says, with as many workers as it asks for, and puts the line that says why it was not done.
fn run<R: Threads + Wait + Sync, F: Folder, O: Sink, G: Gate, L: Listener>(
    rt: &R,
    alloc: Global,
    command: &Command,
    folder: &mut F,
    out: &mut O,
    gate: &G,
    listener: &mut L,
) -> u8
    requires ranges { IsCommand command.now }
    requires diskless { is_of_disk command.now ≡ false }
    ensures { Between F.outside O.report folder.old out.old folder.new out.new
        (λ before now. RunsAsPromised (asked_here command.now) before now result) }
{
    match command {
        Command::Recover {
            workers,
            moves,
            live,
            watch,
        } => {
            if *workers == 0 {
                run_plain(rt, alloc, command, folder, out, listener)
            } else {
                run_workers(
                    rt, alloc, *workers, *moves, *live, *watch, folder, out, gate,
                )
            }
        }
        Command::Replay { .. }
        | Command::Check { .. }
        | Command::Ferry
        | Command::Gen { .. }
        | Command::Trial { .. } => { run_plain(rt, alloc, command, folder, out, listener) }
        Command::Store => unreachable!(),
    }
}

// Does what the words say, and puts the line that says why it was not done.
fn reported_run<R: Threads + Wait + Sync, F: Folder, O: Sink, G: Gate, L: Listener>(
    rt: &R,
    alloc: Global,
    words: &[String],
    folder: &mut F,
    out: &mut O,
    gate: &G,
    listener: &mut L,
) -> u8
    requires diskless { asks_disk (asked_by (map string_bytes words.now)) ≡ false }
    ensures { Between F.outside O.report folder.old out.old folder.new out.new
        (λ before now. Runs (asked_by (map string_bytes words.now)) before now result) }
{
    let Some(asked) = command(words) else {
        return tell(alloc, Ending::Usage, out);
    };
    let Some(dirs) = asked.directories else {
        return run(rt, alloc, &asked.command, folder, out, gate, listener);
    };
    match folder.place(alloc, dirs.input, dirs.output) {
        Ok(()) => run(rt, alloc, &asked.command, folder, out, gate, listener),
        Err(FolderFault::Failed) => tell(alloc, Ending::PlaceFault, out),
        Err(FolderFault::Memory) => tell(alloc, Ending::Memory, out),
    }
}

// The directories of words that ask for a journal on the disk.
fn kept_directories(words: &[String]) -> Option<Directories<'_>>
    ensures { option_map named result ≡ kept_directories (command (map string_bytes words.now)) }
{
    let asked = command(words)?;
    match asked.command {
        Command::Store => asked.directories,
        _ => None,
    }
}

// Keeps the story of the folder's directories, once the disk's is named, and puts the line that says why it was not done.
fn run_on_disk<F: Folder, O: Sink, D: Disk>(
    alloc: Global,
    dirs: &Directories<'_>,
    folder: &mut F,
    out: &mut O,
    disk: &mut D,
) -> u8
    requires nothing_pending { IfSome (D.shown disk.old) (λ was. HasNothingPending was.file) }
    ensures promise { Between F.outside O.report folder.old out.old folder.new out.new (λ before now.
        RunsOnDisk (asked_here Store) before now (D.faults disk.old) (D.faults disk.new) (D.shown disk.old) (D.shown disk.new) result) }
    ensures stored { Between F.outside O.report folder.old out.old folder.new out.new (λ before now.
        (x : Inputs) → Tells (files_read Store) before.folder x → IsWrittenAt result ⊎ HasBegun before now →
        WhereShown (D.shown disk.old) (D.shown disk.new) (HoldsAll x)) }
    ensures untouched { (x : Inputs) → Tells (files_read Store) (F.outside folder.old) x →
        WhereShown (D.shown disk.old) (D.shown disk.new) (StandsAlways x) }
    ensures unasked { (x : Inputs) → Tells (files_read Store) (F.outside folder.old) x → (r : Refusal) → kept_of x ≡ Err r → IsAtMostNamed (D.shown disk.old) (D.shown disk.new) }
    ensures refused { result ≡ 3 → WhereShown (D.shown disk.old) (D.shown disk.new) OnlyOpens }
    ensures failed { result ≡ 8 → Rose (D.faults disk.old) (D.faults disk.new) }
    ensures kept { D.faults disk.old ≤ D.faults disk.new }
    ensures unshown { D.shown disk.old ≡ None → D.shown disk.new ≡ None }
    ensures directory { IsPlacedAt result → IfSome (D.directory disk.old) (λ _. D.directory disk.new ≡ Some (named dirs.now).output) }
    ensures unread { UnlessNamed (D.directory disk.old) (D.directory disk.new) (named dirs.now).output ((f : File) → IsUnread (F.outside folder.old) (F.outside folder.new) f) }
{
    match disk.place(alloc, dirs.output) {
        Ok(()) => run_store(alloc, folder, out, disk),
        Err(DiskFault::Failed) => tell(alloc, Ending::OnDisk(DiskEnd::Fault), out),
        Err(DiskFault::Memory) => tell(alloc, Ending::Memory, out),
    }
}

// Keeps the story of these directories, and puts the line that says why it was not done.
fn stored_run<F: Folder, O: Sink, D: Disk>(
    alloc: Global,
    dirs: &Directories<'_>,
    folder: &mut F,
    out: &mut O,
    disk: &mut D,
) -> u8
    requires nothing_pending { IfSome (D.shown disk.old) (λ was. HasNothingPending was.file) }
    ensures promise { Between F.outside O.report folder.old out.old folder.new out.new (λ before now.
        RunsOnDisk (Some (at Store (named dirs.now))) before now (D.faults disk.old) (D.faults disk.new) (D.shown disk.old) (D.shown disk.new) result) }
    ensures stored { Between F.outside O.report folder.old out.old folder.new out.new (λ before now.
        (x : Inputs) → Tells (files_read Store) before.folder x → IsWrittenAt result ⊎ HasBegun before now →
        WhereShown (D.shown disk.old) (D.shown disk.new) (HoldsAll x)) }
    ensures untouched { (x : Inputs) → Tells (files_read Store) (F.outside folder.old) x →
        WhereShown (D.shown disk.old) (D.shown disk.new) (StandsAlways x) }
    ensures unasked { (x : Inputs) → Tells (files_read Store) (F.outside folder.old) x → (r : Refusal) → kept_of x ≡ Err r → IsAtMostNamed (D.shown disk.old) (D.shown disk.new) }
    ensures refused { result ≡ 3 → WhereShown (D.shown disk.old) (D.shown disk.new) OnlyOpens }
    ensures failed { result ≡ 8 → Rose (D.faults disk.old) (D.faults disk.new) }
    ensures kept { D.faults disk.old ≤ D.faults disk.new }
    ensures unshown { D.shown disk.old ≡ None → D.shown disk.new ≡ None }
    ensures directory { IsPlacedAt result → IfSome (D.directory disk.old) (λ _. D.directory disk.new ≡ Some (named dirs.now).output) }
    ensures unnamed { UnlessNamed (F.outside folder.old).directories (F.outside folder.new).directories (named dirs.now) (disk.new ≡ disk.old) }
    ensures unread { UnlessNamed (D.directory disk.old) (D.directory disk.new) (named dirs.now).output ((f : File) → IsUnread (F.outside folder.old) (F.outside folder.new) f) }
{
    match folder.place(alloc, dirs.input, dirs.output) {
        Ok(()) => run_on_disk(alloc, dirs, folder, out, disk),
        Err(FolderFault::Failed) => tell(alloc, Ending::PlaceFault, out),
        Err(FolderFault::Memory) => tell(alloc, Ending::Memory, out),
    }
}

/// The desk: does what the words say, the program's name left out, and answers the status.
///
/// 0: done; of a replay, a recovery or a trial with a plan at the end, of a check or `ferry` with a plan that breaks no
/// rule. 1: a replay, a recovery or a trial was done, with no plan at the end. 2: the words are no command.
/// 3: the input is refused, or the journal on the disk. 4: the folder failed to name the directories or to read a file. 5: the folder
/// failed to write a file, or the sink to write the report. 6: memory ran out. 7: a check was done, or legs were to be
/// added, and the plan breaks a rule. 8: the disk failed. From 2 to 6, and at 8, a line in the report says why.
///
/// `store` keeps each answered event on the disk before the next one is answered; no other command touches the disk.
/// A recovery with workers starts a thread for each beside the caller, which does the work of those that can't be
/// started; it may wait, and enters the gate as `run_workers` says. A check of a large day starts threads too, and so does
/// `ferry` there, which wait for these alone. Every other command waits for nobody.
pub fn desk_main<R: Threads + Wait + Sync, F: Folder, O: Sink, G: Gate, D: Disk>(
    rt: &R,
    alloc: Global,
    words: &[String],
    folder: &mut F,
    out: &mut O,
    gate: &G,
    disk: &mut D,
) -> u8
    requires nothing_pending { asks_disk (asked_by (map string_bytes words.now)) ≡ true → IfSome (D.shown disk.old) (λ was. HasNothingPending was.file) }
    // The headline: where the folder shows the bytes of its input, each replay that was done has written
    // the journal of a legal history of the events that it read, and the last plan of that history.
    ensures headline { (dirs : NamedDirectories) → command (map string_bytes words.now) ≡ Some (Replay false, Some dirs) →
        (x : Inputs) → Tells (files_read (Replay false)) (F.outside folder.old) x → IsDoneAt result →
        Between F.outside O.report folder.old out.old folder.new out.new (λ before now. IsReplayed before now x) }

    // Each replay beside the crews that was done has written the same, and in its report a line for each change that left a plan:
    // the first item that the crews break, or that they break none.
    ensures crewed { (dirs : NamedDirectories) → command (map string_bytes words.now) ≡ Some (Replay true, Some dirs) →
        (x : Inputs) → Tells (files_read (Replay true)) (F.outside folder.old) x → IsDoneAt result →
        Between F.outside O.report folder.old out.old folder.new out.new (λ before now. IsReplayedWithCrews before now x result) }

    // The headline of a recovery: each that was done has written the journal of a legal history in which the
    // batches that it read stand in their order, each with exactly its descent after it, and the last plan of
    // that history; and it has reported how the last search ended.
    ensures recovered { (moves : ℕ) → (dirs : NamedDirectories) →
        command (map string_bytes words.now) ≡ Some (Recover 0 moves false false, Some dirs) →
        (x : Inputs) → Tells (files_read (Recover 0 moves false false)) (F.outside folder.old) x → IsDoneAt result →
        Between F.outside O.report folder.old out.old folder.new out.new (λ before now. IsRecovered before now moves x result) }

    // The headline of a recovery by a team: each that was done has written the journal of one legal history, whatever
    // worker came first. In it the batches that it read stand in their order, each once, and each other entry is the
    // first better move of its worker's shard, after a beginning that has all that worker's earlier entries and by
    // which the budget is not spent; and it has written the last plan of that history, and why its search ended. Where a viewer
    // watched, it has reported what that saw, in lines before that of the number of changes: views of beginnings of the
    // history, each of more entries than the one before it, at most 64, the last one that of the whole.
    ensures searched { (workers : ℕ) → (moves : ℕ) → (live : Bool) → (watch : Bool) → (dirs : NamedDirectories) →
        command (map string_bytes words.now) ≡ Some (Recover workers moves live watch, Some dirs) → 1 ≤ workers →
        (x : Inputs) → Tells (files_read (Recover workers moves live watch)) (F.outside folder.old) x → IsDoneAt result →
        Between F.outside O.report folder.old out.old folder.new out.new (λ before now. IsRecoveredByTeam before now workers moves live watch x result) }

    // Each trial that was done has reported the same of the day that is made up of its seed and size.
    ensures tried { (seed : ℕ) → (size : ℕ) → command (map string_bytes words.now) ≡ Some (Trial seed size, None) → IsDoneAt result →
        Between F.outside O.report folder.old out.old folder.new out.new (λ before now. IsTried before now seed size result) }

    // Each check that was done has reported the first item that the plan breaks, or that it breaks none, and the
    // whole cost of the plan, on the day with all batches.
    ensures checked { (dirs : NamedDirectories) → command (map string_bytes words.now) ≡ Some (Check false, Some dirs) →
        (x : Inputs) → Tells (files_read (Check false)) (F.outside folder.old) x → IsDoneAt result →
        Between F.outside O.report folder.old out.old folder.new out.new (λ before now. IsChecked before now x result) }

    // Each check of a plan and its crews that was done has reported the same, and the first item that the crews break, or that
    // they break none; its status is 7 where either finds an item.
    ensures checked_crews { (dirs : NamedDirectories) → command (map string_bytes words.now) ≡ Some (Check true, Some dirs) →
        (x : Inputs) → Tells (files_read (Check true)) (F.outside folder.old) x → IsDoneAt result →
        Between F.outside O.report folder.old out.old folder.new out.new (λ before now. IsCheckedWithCrews before now x result) }

    // Each run that was done and adds legs to a plan: where the plan breaks a rule, it has reported what a check reports and
    // written no file, with status 7. Else it has written and reported the legs that are added, in their order, each with the cost
    // then: each is the first candidate that lowers the cost, with each no rule is broken, at the end no candidate lowers the cost
    // further, and nothing that is scheduled is touched.
    ensures ferried { (dirs : NamedDirectories) → command (map string_bytes words.now) ≡ Some (Ferry, Some dirs) →
        (x : Inputs) → Tells (files_read Ferry) (F.outside folder.old) x → IsDoneAt result →
        Between F.outside O.report folder.old out.old folder.new out.new (λ before now. IsFerriedPlan before now x result) }

    // Each day that was generated is written whole.
    ensures generated { (seed : ℕ) → (size : ℕ) → (dirs : NamedDirectories) →
        command (map string_bytes words.now) ≡ Some (Gen seed size, Some dirs) → IsDoneAt result →
        Between F.outside O.report folder.old out.old folder.new out.new (λ before now. IsGenerated before now seed size result) }

    // The headline of a run that keeps its journal on the disk: each that was done has written what a replay of the same
    // input writes, with how many entries the disk held as the first line of its report: as many as its file had, where shown.
    ensures stored_headline { (dirs : NamedDirectories) → command (map string_bytes words.now) ≡ Some (Store, Some dirs) →
        (x : Inputs) → Tells (files_read Store) (F.outside folder.old) x → IsDoneAt result →
        Between F.outside O.report folder.old out.old folder.new out.new (λ before now. IsStored before now (D.shown disk.old) (D.shown disk.new) x result) }

    // All that is promised of such a run. The disk failed to name its directory, and nothing was read. Or the journal on the
    // disk ended it, once the input was read and accepted: the disk failed, or where it shows its file that was damaged, or of
    // other events. Or it keeps all that is promised of a replay, with that line.
    ensures stored_promise { (dirs : NamedDirectories) → command (map string_bytes words.now) ≡ Some (Store, Some dirs) →
        Between F.outside O.report folder.old out.old folder.new out.new (λ before now.
        RunsOnDisk (asked_by (map string_bytes words.now)) before now (D.faults disk.old) (D.faults disk.new) (D.shown disk.old) (D.shown disk.new) result) }

    // At 0, 1 and 5, and where an output file has got a byte, the file on the disk opens as the whole history, whatever crash
    // comes.
    ensures stored { (dirs : NamedDirectories) → command (map string_bytes words.now) ≡ Some (Store, Some dirs) →
        Between F.outside O.report folder.old out.old folder.new out.new (λ before now.
        (x : Inputs) → Tells (files_read Store) before.folder x → IsWrittenAt result ⊎ HasBegun before now →
        WhereShown (D.shown disk.old) (D.shown disk.new) (HoldsAll x)) }

    // Until the comparison with what the disk holds has passed each crash leaves all bytes but the one that opening sets; from
    // then on, at any moment, a file that opens as a beginning of the history, with all entries that the disk held.
    ensures untouched { (dirs : NamedDirectories) → command (map string_bytes words.now) ≡ Some (Store, Some dirs) →
        (x : Inputs) → Tells (files_read Store) (F.outside folder.old) x →
        WhereShown (D.shown disk.old) (D.shown disk.new) (StandsAlways x) }

    // Where the input is refused, at most the directory of the disk was named.
    ensures stored_unasked { (dirs : NamedDirectories) → command (map string_bytes words.now) ≡ Some (Store, Some dirs) →
        (x : Inputs) → Tells (files_read Store) (F.outside folder.old) x → (r : Refusal) → kept_of x ≡ Err r →
        IsAtMostNamed (D.shown disk.old) (D.shown disk.new) }

    // At 3 no byte on the disk is changed but the one that opening sets.
    ensures stored_refused { (dirs : NamedDirectories) → command (map string_bytes words.now) ≡ Some (Store, Some dirs) →
        result ≡ 3 → WhereShown (D.shown disk.old) (D.shown disk.new) OnlyOpens }

    // 8 comes only where the disk failed.
    ensures stored_failed { (dirs : NamedDirectories) → command (map string_bytes words.now) ≡ Some (Store, Some dirs) →
        result ≡ 8 → Rose (D.faults disk.old) (D.faults disk.new) }

    // At 0, 1, 3 and 5 the directory of the disk is that of the output.
    ensures stored_in { (dirs : NamedDirectories) → command (map string_bytes words.now) ≡ Some (Store, Some dirs) →
        IsPlacedAt result → IfSome (D.directory disk.old) (λ _. D.directory disk.new ≡ Some dirs.output) }

    // Nothing is asked of the disk before the folder's directories are named, where the folder shows which were last named: it is
    // as it was, unless these were.
    ensures stored_unnamed { (dirs : NamedDirectories) → command (map string_bytes words.now) ≡ Some (Store, Some dirs) →
        UnlessNamed (F.outside folder.old).directories (F.outside folder.new).directories dirs (disk.new ≡ disk.old) }

    // No file is read before the disk's directory is named, where the disk shows which was last named.
    ensures stored_unread { (dirs : NamedDirectories) → command (map string_bytes words.now) ≡ Some (Store, Some dirs) →
        UnlessNamed (D.directory disk.old) (D.directory disk.new) dirs.output ((f : File) → IsUnread (F.outside folder.old) (F.outside folder.new) f) }

    // No run lets the count of faults of the disk fall, and a disk that shows nothing goes on so.
    ensures disk_kept { D.faults disk.old ≤ D.faults disk.new }
    ensures disk_unshown { D.shown disk.old ≡ None → D.shown disk.new ≡ None }

    // Every other run leaves the disk as it was.
    ensures other_disk { asks_disk (asked_by (map string_bytes words.now)) ≡ false → disk.new ≡ disk.old }

    // All that is promised of each run of any other command, with one and the same work in all of it: how the run
    // ended (`runs`); what its status means (`means`: `done`, `read`, `usage`, `usage_only`, `refused_where`,
    // `refused`, `fault`, `complete`); what stands outside after it (`stands`: `named`, `unwritten`, `begun`,
    // `fault_reported`); and what is untouched (`alone`: `unnamed`, `unread`, `in_order`, `unput`).
    ensures promise { asks_disk (asked_by (map string_bytes words.now)) ≡ false →
        Between F.outside O.report folder.old out.old folder.new out.new
        (λ before now. RunsAsPromised (asked_by (map string_bytes words.now)) before now result) }
{
    desk_main_heard(rt, alloc, words, folder, out, gate, disk, &mut Nobody)
}

/// The desk, as `desk_main`, with a listener: a recovery without workers and a trial tell it how far they have come and
/// of each move that is tried; a team of workers does not. The listener answers nothing, and all clauses of `desk_main`
/// hold for every one.
pub fn desk_main_heard<R: Threads + Wait + Sync, F: Folder, O: Sink, G: Gate, D: Disk, L: Listener>(
    rt: &R,
    alloc: Global,
    words: &[String],
    folder: &mut F,
    out: &mut O,
    gate: &G,
    disk: &mut D,
    listener: &mut L,
) -> u8
    requires nothing_pending { asks_disk (asked_by (map string_bytes words.now)) ≡ true → IfSome (D.shown disk.old) (λ was. HasNothingPending was.file) }
    // The headline: where the folder shows the bytes of its input, each replay that was done has written
    // the journal of a legal history of the events that it read, and the last plan of that history.
    ensures headline { (dirs : NamedDirectories) → command (map string_bytes words.now) ≡ Some (Replay false, Some dirs) →
        (x : Inputs) → Tells (files_read (Replay false)) (F.outside folder.old) x → IsDoneAt result →
        Between F.outside O.report folder.old out.old folder.new out.new (λ before now. IsReplayed before now x) }

    // Each replay beside the crews that was done has written the same, and in its report a line for each change that left a plan:
    // the first item that the crews break, or that they break none.
    ensures crewed { (dirs : NamedDirectories) → command (map string_bytes words.now) ≡ Some (Replay true, Some dirs) →
        (x : Inputs) → Tells (files_read (Replay true)) (F.outside folder.old) x → IsDoneAt result →
        Between F.outside O.report folder.old out.old folder.new out.new (λ before now. IsReplayedWithCrews before now x result) }

    // The headline of a recovery: each that was done has written the journal of a legal history in which the
    // batches that it read stand in their order, each with exactly its descent after it, and the last plan of
    // that history; and it has reported how the last search ended.
    ensures recovered { (moves : ℕ) → (dirs : NamedDirectories) →
        command (map string_bytes words.now) ≡ Some (Recover 0 moves false false, Some dirs) →
        (x : Inputs) → Tells (files_read (Recover 0 moves false false)) (F.outside folder.old) x → IsDoneAt result →
        Between F.outside O.report folder.old out.old folder.new out.new (λ before now. IsRecovered before now moves x result) }

    // The headline of a recovery by a team: each that was done has written the journal of one legal history, whatever
    // worker came first. In it the batches that it read stand in their order, each once, and each other entry is the
    // first better move of its worker's shard, after a beginning that has all that worker's earlier entries and by
    // which the budget is not spent; and it has written the last plan of that history, and why its search ended. Where a viewer
    // watched, it has reported what that saw, in lines before that of the number of changes: views of beginnings of the
    // history, each of more entries than the one before it, at most 64, the last one that of the whole.
    ensures searched { (workers : ℕ) → (moves : ℕ) → (live : Bool) → (watch : Bool) → (dirs : NamedDirectories) →
        command (map string_bytes words.now) ≡ Some (Recover workers moves live watch, Some dirs) → 1 ≤ workers →
        (x : Inputs) → Tells (files_read (Recover workers moves live watch)) (F.outside folder.old) x → IsDoneAt result →
        Between F.outside O.report folder.old out.old folder.new out.new (λ before now. IsRecoveredByTeam before now workers moves live watch x result) }

    // Each trial that was done has reported the same of the day that is made up of its seed and size.
    ensures tried { (seed : ℕ) → (size : ℕ) → command (map string_bytes words.now) ≡ Some (Trial seed size, None) → IsDoneAt result →
        Between F.outside O.report folder.old out.old folder.new out.new (λ before now. IsTried before now seed size result) }

    // Each check that was done has reported the first item that the plan breaks, or that it breaks none, and the
    // whole cost of the plan, on the day with all batches.
    ensures checked { (dirs : NamedDirectories) → command (map string_bytes words.now) ≡ Some (Check false, Some dirs) →
        (x : Inputs) → Tells (files_read (Check false)) (F.outside folder.old) x → IsDoneAt result →
        Between F.outside O.report folder.old out.old folder.new out.new (λ before now. IsChecked before now x result) }

    // Each check of a plan and its crews that was done has reported the same, and the first item that the crews break, or that
    // they break none; its status is 7 where either finds an item.
    ensures checked_crews { (dirs : NamedDirectories) → command (map string_bytes words.now) ≡ Some (Check true, Some dirs) →
        (x : Inputs) → Tells (files_read (Check true)) (F.outside folder.old) x → IsDoneAt result →
        Between F.outside O.report folder.old out.old folder.new out.new (λ before now. IsCheckedWithCrews before now x result) }

    // Each run that was done and adds legs to a plan: where the plan breaks a rule, it has reported what a check reports and
    // written no file, with status 7. Else it has written and reported the legs that are added, in their order, each with the cost
    // then: each is the first candidate that lowers the cost, with each no rule is broken, at the end no candidate lowers the cost
    // further, and nothing that is scheduled is touched.
    ensures ferried { (dirs : NamedDirectories) → command (map string_bytes words.now) ≡ Some (Ferry, Some dirs) →
        (x : Inputs) → Tells (files_read Ferry) (F.outside folder.old) x → IsDoneAt result →
        Between F.outside O.report folder.old out.old folder.new out.new (λ before now. IsFerriedPlan before now x result) }

    // Each day that was generated is written whole.
    ensures generated { (seed : ℕ) → (size : ℕ) → (dirs : NamedDirectories) →
        command (map string_bytes words.now) ≡ Some (Gen seed size, Some dirs) → IsDoneAt result →
        Between F.outside O.report folder.old out.old folder.new out.new (λ before now. IsGenerated before now seed size result) }

    // The headline of a run that keeps its journal on the disk: each that was done has written what a replay of the same
    // input writes, with how many entries the disk held as the first line of its report: as many as its file had, where shown.
    ensures stored_headline { (dirs : NamedDirectories) → command (map string_bytes words.now) ≡ Some (Store, Some dirs) →
        (x : Inputs) → Tells (files_read Store) (F.outside folder.old) x → IsDoneAt result →
        Between F.outside O.report folder.old out.old folder.new out.new (λ before now. IsStored before now (D.shown disk.old) (D.shown disk.new) x result) }

    // All that is promised of such a run. The disk failed to name its directory, and nothing was read. Or the journal on the
    // disk ended it, once the input was read and accepted: the disk failed, or where it shows its file that was damaged, or of
    // other events. Or it keeps all that is promised of a replay, with that line.
    ensures stored_promise { (dirs : NamedDirectories) → command (map string_bytes words.now) ≡ Some (Store, Some dirs) →
        Between F.outside O.report folder.old out.old folder.new out.new (λ before now.
        RunsOnDisk (asked_by (map string_bytes words.now)) before now (D.faults disk.old) (D.faults disk.new) (D.shown disk.old) (D.shown disk.new) result) }

    // At 0, 1 and 5, and where an output file has got a byte, the file on the disk opens as the whole history, whatever crash
    // comes.
    ensures stored { (dirs : NamedDirectories) → command (map string_bytes words.now) ≡ Some (Store, Some dirs) →
        Between F.outside O.report folder.old out.old folder.new out.new (λ before now.
        (x : Inputs) → Tells (files_read Store) before.folder x → IsWrittenAt result ⊎ HasBegun before now →
        WhereShown (D.shown disk.old) (D.shown disk.new) (HoldsAll x)) }

    // Until the comparison with what the disk holds has passed each crash leaves all bytes but the one that opening sets; from
    // then on, at any moment, a file that opens as a beginning of the history, with all entries that the disk held.
    ensures untouched { (dirs : NamedDirectories) → command (map string_bytes words.now) ≡ Some (Store, Some dirs) →
        (x : Inputs) → Tells (files_read Store) (F.outside folder.old) x →
        WhereShown (D.shown disk.old) (D.shown disk.new) (StandsAlways x) }

    // Where the input is refused, at most the directory of the disk was named.
    ensures stored_unasked { (dirs : NamedDirectories) → command (map string_bytes words.now) ≡ Some (Store, Some dirs) →
        (x : Inputs) → Tells (files_read Store) (F.outside folder.old) x → (r : Refusal) → kept_of x ≡ Err r →
        IsAtMostNamed (D.shown disk.old) (D.shown disk.new) }

    // At 3 no byte on the disk is changed but the one that opening sets.
    ensures stored_refused { (dirs : NamedDirectories) → command (map string_bytes words.now) ≡ Some (Store, Some dirs) →
        result ≡ 3 → WhereShown (D.shown disk.old) (D.shown disk.new) OnlyOpens }

    // 8 comes only where the disk failed.
    ensures stored_failed { (dirs : NamedDirectories) → command (map string_bytes words.now) ≡ Some (Store, Some dirs) →
        result ≡ 8 → Rose (D.faults disk.old) (D.faults disk.new) }

    // At 0, 1, 3 and 5 the directory of the disk is that of the output.
    ensures stored_in { (dirs : NamedDirectories) → command (map string_bytes words.now) ≡ Some (Store, Some dirs) →
        IsPlacedAt result → IfSome (D.directory disk.old) (λ _. D.directory disk.new ≡ Some dirs.output) }

    // Nothing is asked of the disk before the folder's directories are named, where the folder shows which were last named: it is
    // as it was, unless these were.
    ensures stored_unnamed { (dirs : NamedDirectories) → command (map string_bytes words.now) ≡ Some (Store, Some dirs) →
        UnlessNamed (F.outside folder.old).directories (F.outside folder.new).directories dirs (disk.new ≡ disk.old) }

    // No file is read before the disk's directory is named, where the disk shows which was last named.
    ensures stored_unread { (dirs : NamedDirectories) → command (map string_bytes words.now) ≡ Some (Store, Some dirs) →
        UnlessNamed (D.directory disk.old) (D.directory disk.new) dirs.output ((f : File) → IsUnread (F.outside folder.old) (F.outside folder.new) f) }

    // No run lets the count of faults of the disk fall, and a disk that shows nothing goes on so.
    ensures disk_kept { D.faults disk.old ≤ D.faults disk.new }
    ensures disk_unshown { D.shown disk.old ≡ None → D.shown disk.new ≡ None }

    // Every other run leaves the disk as it was.
    ensures other_disk { asks_disk (asked_by (map string_bytes words.now)) ≡ false → disk.new ≡ disk.old }

    // All that is promised of each run of any other command, with one and the same work in all of it: how the run
    // ended (`runs`); what its status means (`means`: `done`, `read`, `usage`, `usage_only`, `refused_where`,
    // `refused`, `fault`, `complete`); what stands outside after it (`stands`: `named`, `unwritten`, `begun`,
    // `fault_reported`); and what is untouched (`alone`: `unnamed`, `unread`, `in_order`, `unput`).
    ensures promise { asks_disk (asked_by (map string_bytes words.now)) ≡ false →
        Between F.outside O.report folder.old out.old folder.new out.new
        (λ before now. RunsAsPromised (asked_by (map string_bytes words.now)) before now result) }
{
    match kept_directories(words) {
        Some(dirs) => stored_run(alloc, &dirs, folder, out, disk),
        None => reported_run(rt, alloc, words, folder, out, gate, listener),
    }
}
