//! A recovery by a team of workers, in directories that are named already.

ghost use Rattle.std.specs.Prelude.{◌≡◌, ◌≢◌, ◌≤◌, Bool};
ghost use Rattle.desk_words.specs.declared.asked.Command.TheVariants.{Recover};
ghost use Rattle.desk_tasks.specs.Commands.{IsCommand, asked_here, files_read, workers_of};
ghost use Rattle.desk_tasks.specs.Inputs.{Inputs, Tells};
ghost use Rattle.desk_tasks.specs.Runs.{Between};
ghost use Rattle.desk_tasks.specs.Causes.{IsDoneAt};
ghost use Rattle.desk_tasks.proofs.Composed.{here};
ghost use Rattle.desk_tasks.specs.Tasks.{team_size};
ghost use Rattle.desk_tasks.specs.Done.{IsDoneSomehow};
ghost use Rattle.desk_tasks.specs.Facts.{as_task, CanBeDone};
ghost use Rattle.desk_top.specs.Desk.{ObeysSomehow, Runs, RunsAsPromised, IsRecoveredByTeam};

use crate::plain::tell;
use desk_folder::{Folder, Gate, Sink};
use desk_tasks::{Ending, InputRecovery, InputTask, read_task};
use desk_words::Command;
use recovery_commands::{Team, recover_by_team};
use std::alloc::Global;
use std::sync::Wait;
use std::thread::Threads;

// Has a team do what the input asks for, and writes what it comes to.
fn do_team_task<R: Threads + Wait + Sync, F: Folder, O: Sink, G: Gate>(
    rt: &R,
    alloc: Global,
    task: InputTask,
    folder: &mut F,
    out: &mut O,
    gate: &G,
) -> Ending
    requires sound { CanBeDone task }
    requires team { 1 ≤ team_size (as_task task) }
    ensures { Between F.outside O.report folder.old out.old folder.new out.new
        (λ before now. IsDoneSomehow before now (as_task task) result) }
{
    match task {
        InputTask::Team {
            recovery,
            workers,
            live,
            watch,
        } => {
            let InputRecovery {
                inst,
                batches,
                moves,
            } = recovery;
            let team = Team {
                workers,
                moves,
                live,
                watch,
            };
            recover_by_team(
                rt,
                alloc,
                inst,
                batches.0.as_slice(),
                team,
                folder,
                out,
                gate,
            )
        }
        InputTask::Play(_)
        | InputTask::PlayCrews(_)
        | InputTask::Recover(_)
        | InputTask::Try(_)
        | InputTask::Judge(_)
        | InputTask::JudgeCrews(_)
        | InputTask::Ferry(_)
        | InputTask::Generate { .. } => unreachable!(),
    }
}

// Reads what a command asks for, and has a team do it.
fn obey_by_team<R: Threads + Wait + Sync, F: Folder, O: Sink, G: Gate>(
    rt: &R,
    alloc: Global,
    command: &Command,
    folder: &mut F,
    out: &mut O,
    gate: &G,
) -> Ending
    requires ranges { IsCommand command.now }
    requires team { 1 ≤ workers_of command.now }
    ensures { Between F.outside O.report folder.old out.old folder.new out.new
        (λ before now. ObeysSomehow (here command.now) before now result) }
{
    match read_task(alloc, command, folder) {
        Ok(task) => do_team_task(rt, alloc, task, folder, out, gate),
        Err(fault) => Ending::from(fault),
    }
}

// Reads what a command asks for, has a team do it, and puts the line that says why it was not done.
fn reported_by_team<R: Threads + Wait + Sync, F: Folder, O: Sink, G: Gate>(
    rt: &R,
    alloc: Global,
    command: &Command,
    folder: &mut F,
    out: &mut O,
    gate: &G,
) -> u8
    requires ranges { IsCommand command.now }
    requires team { 1 ≤ workers_of command.now }
    ensures { Between F.outside O.report folder.old out.old folder.new out.new
        (λ before now. Runs (asked_here command.now) before now result) }
{
    let ending = obey_by_team(rt, alloc, command, folder, out, gate);
    tell(alloc, ending, out)
}

/// Recovers a day with 1 to 64 workers that search side by side, in the directories that the folder has, and answers
/// the status. A worker that sees so many moves accepted since the last batch, 1 to 100,000, proposes no more; what
/// another has found by then may still be accepted. Where it is live, the batches but the first are taken while the
/// workers search. Where one watches, a viewer looks at the desk's board all the while, and the report has at
/// most 64 lines of what it saw: views, each of more entries than the one before it, the last that of the whole journal. The gate is
/// entered by each worker in each of its rounds, once it has looked and before it searches, and by the desk as worker 0 before each batch that it takes live.
///
/// 0: done, with a plan at the end. 1: done, with no plan at the end. 3: the input is refused. 4: the folder failed
/// to read a file. 5: the folder failed to write a file, or the sink to write the report. 6: memory ran out. From 3
/// to 6 a line in the report says why. It may wait, and where a thread can't be started it does that one's work.
pub fn run_workers<R: Threads + Wait + Sync, F: Folder, O: Sink, G: Gate>(
    rt: &R,
    alloc: Global,
    workers: u32,
    moves: u32,
    live: bool,
    watch: bool,
    folder: &mut F,
    out: &mut O,
    gate: &G,
) -> u8
    requires workers { (1 ≤ workers) × (workers ≤ 64) }
    requires moves { (1 ≤ moves) × (moves ≤ 100000) }
    // Each that was done has written the journal of one legal history that a team of so many workers may make of the
    // batches that it read, with all that is promised of each history, the last plan of it, and why its search ended. Where a
    // viewer watches it has reported what that saw: views of beginnings of the history, each of more entries than the one before
    // it, at most 64, the last one that of the whole.
    ensures searched { (x : Inputs) → Tells (files_read (Recover workers moves live watch)) (F.outside folder.old) x → IsDoneAt result →
        Between F.outside O.report folder.old out.old folder.new out.new
        (λ before now. IsRecoveredByTeam before now workers moves live watch x result) }
    // All that is promised of each run: how it ended, what its status means, what stands outside after it, and
    // what is untouched.
    ensures promise { Between F.outside O.report folder.old out.old folder.new out.new
        (λ before now. RunsAsPromised (asked_here (Recover workers moves live watch)) before now result) }
    // 2 is the status of words that are no command.
    ensures no_usage { result ≢ 2 }
{
    let command = Command::Recover {
        workers,
        moves,
        live,
        watch,
    };
    reported_by_team(rt, alloc, &command, folder, out, gate)
}
