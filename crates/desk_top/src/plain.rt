//! The commands, one after another, in directories that are named already: all but `check` and `ferry` on one thread.

ghost use Rattle.std.specs.Prelude.{◌≡◌, ◌≢◌, false};
ghost use Rattle.desk_tasks.specs.Commands.{IsCommand, asked_here, is_of_disk, workers_of};
ghost use Rattle.desk_tasks.specs.Runs.{Between, TellsEnd};
ghost use Rattle.desk_tasks.specs.Finishing.{Completes};
ghost use Rattle.desk_tasks.proofs.Composed.{here};
ghost use Rattle.desk_tasks.specs.Team.{nothing};
ghost use Rattle.desk_tasks.specs.Tasks.{outcome, files_for, team_size};
ghost use Rattle.desk_tasks.specs.Facts.{as_task, CanBeDone};
ghost use Rattle.desk_top.specs.Desk.{Obeys, RunsWith, RunsAsPromised};

use crate::day::write_day;
use desk_folder::{Folder, FolderFault, Sink, put_report};
use desk_tasks::{
    Ending, InputCrewedPlan, InputCrewedStory, InputPlan, InputRecovery, InputStory, InputTask,
    fault_text, judge_crews, judge_plan, read_task, run_ferry,
};
use desk_units::Listener;
use desk_words::Command;
use recovery_commands::{recover_day, try_day};
use std::alloc::Global;
use std::thread::Threads;
use story_commands::{play_beside_crews, play_events};

// Does what the input asks for, and writes what it comes to.
fn do_task<R: Threads + Sync, F: Folder, O: Sink, L: Listener>(
    rt: &R,
    alloc: Global,
    task: InputTask,
    folder: &mut F,
    out: &mut O,
    listener: &mut L,
) -> Ending
    requires sound { CanBeDone task }
    requires alone { team_size (as_task task) ≡ 0 }
    ensures { Between F.outside O.report folder.old out.old folder.new out.new
        (λ before now. Completes (files_for (as_task task)) before now (outcome (as_task task)) result) }
{
    match task {
        InputTask::Play(story) => {
            let InputStory { inst, events } = story;
            play_events(alloc, inst, events.as_slice(), folder, out)
        }
        InputTask::PlayCrews(crewed) => {
            let InputCrewedStory { story, crews } = crewed;
            let InputStory { inst, events } = story;
            play_beside_crews(
                alloc,
                inst,
                crews.as_slice(),
                events.as_slice(),
                folder,
                out,
            )
        }
        InputTask::Recover(recovery) => {
            let InputRecovery {
                inst,
                batches,
                moves,
            } = recovery;
            recover_day(
                alloc,
                inst,
                batches.0.as_slice(),
                moves,
                folder,
                out,
                listener,
            )
        }
        InputTask::Try(recovery) => {
            let InputRecovery {
                inst,
                batches,
                moves,
            } = recovery;
            try_day(
                alloc,
                inst,
                batches.0.as_slice(),
                moves,
                folder,
                out,
                listener,
            )
        }
        InputTask::Judge(judged) => {
            let InputPlan { inst, plan } = judged;
            judge_plan(rt, alloc, &inst, &plan, folder, out)
        }
        InputTask::JudgeCrews(crewed) => {
            let InputCrewedPlan { plan, crews } = crewed;
            let InputPlan { inst, plan } = plan;
            judge_crews(rt, alloc, &inst, &plan, crews.as_slice(), folder, out)
        }
        InputTask::Ferry(judged) => {
            let InputPlan { inst, plan } = judged;
            run_ferry(rt, alloc, &inst, &plan, folder, out)
        }
        InputTask::Generate { seed, size } => write_day(alloc, seed, size, folder, out),
        InputTask::Team { .. } => unreachable!(),
    }
}

// Reads what a command asks for, and does it.
fn obey<R: Threads + Sync, F: Folder, O: Sink, L: Listener>(
    rt: &R,
    alloc: Global,
    command: &Command,
    folder: &mut F,
    out: &mut O,
    listener: &mut L,
) -> Ending
    requires ranges { IsCommand command.now }
    requires alone { workers_of command.now ≡ 0 }
    ensures { Between F.outside O.report folder.old out.old folder.new out.new
        (λ before now. Obeys nothing (here command.now) before now result) }
{
    match read_task(alloc, command, folder) {
        Ok(task) => do_task(rt, alloc, task, folder, out, listener),
        Err(fault) => Ending::from(fault),
    }
}

/// Puts the line that says why a run was not done, and answers the status.
pub(crate) fn tell<O: Sink>(alloc: Global, ending: Ending, out: &mut O) -> u8
    ensures { TellsEnd ending (O.report out.old) (O.report out.new) result }
{
    let Ok(line) = fault_text(alloc, &ending) else {
        return 6;
    };
    match put_report(alloc, out, line.as_bytes()) {
        Ok(()) | Err(FolderFault::Failed) => ending.status(),
        Err(FolderFault::Memory) => 6,
    }
}

// Reads what a command asks for, does it, and puts the line that says why it was not done.
fn obey_and_tell<R: Threads + Sync, F: Folder, O: Sink, L: Listener>(
    rt: &R,
    alloc: Global,
    command: &Command,
    folder: &mut F,
    out: &mut O,
    listener: &mut L,
) -> u8
    requires ranges { IsCommand command.now }
    requires alone { workers_of command.now ≡ 0 }
    ensures { Between F.outside O.report folder.old out.old folder.new out.new
        (λ before now. RunsWith nothing (asked_here command.now) before now result) }
{
    let ending = obey(rt, alloc, command, folder, out, listener);
    tell(alloc, ending, out)
}

/// Does what a command says that asks for no workers and for no disk, in the directories that the folder has, and answers the status.
/// A check of a large day starts threads, and so does `ferry` there, which wait for these alone; all else waits for nobody. A recovery and a trial tell the
/// listener how far they have come; what is answered, reported and written depends on no listener.
///
/// 0: done; of a replay, a recovery or a trial with a plan at the end, of a check or `ferry` with a plan that breaks no
/// rule. 1: a replay, a recovery or a trial was done, with no plan at the end. 3: the input is refused. 4: the
/// folder failed to read a file. 5: the folder failed to write a file, or the sink to write the report. 6:
/// memory ran out. 7: a check was done, or legs were to be added, and the plan breaks a rule. From 3 to 6 a line in the report says why.
pub fn run_plain<R: Threads + Sync, F: Folder, O: Sink, L: Listener>(
    rt: &R,
    alloc: Global,
    command: &Command,
    folder: &mut F,
    out: &mut O,
    listener: &mut L,
) -> u8
    requires ranges { IsCommand command.now }
    requires alone { workers_of command.now ≡ 0 }
    requires diskless { is_of_disk command.now ≡ false }
    // All that is promised of each run: how it ended, what its status means, what stands outside after it, and
    // what is untouched.
    ensures promise { Between F.outside O.report folder.old out.old folder.new out.new
        (λ before now. RunsAsPromised (asked_here command.now) before now result) }

    // 2 is the status of words that are no command.
    ensures no_usage { result ≢ 2 }
{
    obey_and_tell(rt, alloc, command, folder, out, listener)
}
