//! What the input of a command asks for.

ghost use Rattle.std.specs.Prelude.{◌≡◌, ◌≤◌, Err, IfOk, OnOk, IfErr};
ghost use Rattle.desk_tasks.specs.Commands.{IsCommand, files_read, files_written, history_files, workers_of};
ghost use Rattle.desk_tasks.specs.Inputs.{Inputs, Tells};
ghost use Rattle.desk_tasks.specs.declared.refusal.Refusal.{Refusal as Refused};
ghost use Rattle.desk_tasks.specs.Reading.{ReadsAmong, StopsAt};
ghost use Rattle.desk_tasks.specs.Runs.{AreRead};
ghost use Rattle.desk_tasks.specs.Tasks.{files_for, recover_by, team_size};
ghost use Rattle.desk_tasks.specs.Story.{rows_of, task_of_rows, task_of};
ghost use Rattle.desk_tasks.specs.StoryReading.{StopsAtFault, GivesRead, GivesTask, HasReadCause, NeedsNoFault};
ghost use Rattle.desk_tasks.specs.Facts.{as_rows, AreInputRows, as_recovery, CanRecover, as_task, CanBeDone};

use crate::crews::{InputCrewedPlan, InputCrewedStory, joined_crewed, joined_plan_crews};
use crate::fault::StoryFault;
use crate::files_read;
use crate::plan::{InputPlan, joined_plan};
use crate::recovery::{InputRecovery, joined_recovery, trial};
use crate::rows::InputRows;
use crate::story::{InputStory, joined_story};
use crate::story_files::read_files;
use desk_folder::Folder;
use desk_words::Command;
use std::alloc::Global;

/// What the input of a command asks for.
#[derive(Drop)]
pub enum InputTask {
    /// Events are to be taken on a day.
    Play(InputStory),
    /// Events are to be taken on a day, beside its crews.
    PlayCrews(InputCrewedStory),
    /// A day is to be recovered.
    Recover(InputRecovery),
    /// A day is to be recovered by a team of 1 to 64 workers; the batches but the first are taken while they search
    /// where it is live, and a viewer watches where it is watched.
    Team {
        recovery: InputRecovery,
        workers: u32,
        live: bool,
        watch: bool,
    },
    /// A day is to be recovered, and that is reported alone.
    Try(InputRecovery),
    /// A plan is to be judged.
    Judge(InputPlan),
    /// A plan is to be judged, and its crews.
    JudgeCrews(InputCrewedPlan),
    /// Legs are to be added to a plan.
    Ferry(InputPlan),
    /// The input files of a day are to be made, of this seed and this size from 1 to 40.
    Generate {
        seed: u32,
        size: u32,
    },
}

// Has a day recovered by so many workers, and by the desk alone where there is none.
fn by_team(recovery: InputRecovery, workers: u32, live: bool, watch: bool) -> InputTask
    requires sound { CanRecover recovery }
    requires few { workers ≤ 64 }
    ensures exact { as_task result ≡ recover_by workers live watch (as_recovery recovery) }
    ensures sound { CanBeDone result }
    ensures files { files_for (as_task result) ≡ history_files }
    ensures team { team_size (as_task result) ≡ workers }
{
    if workers == 0 {
        InputTask::Recover(recovery)
    } else {
        InputTask::Team {
            recovery,
            workers,
            live,
            watch,
        }
    }
}

// Joins the rows as the command asks for.
#[tactic(auto, unfolding(crate::specs::Story::task_of_rows))]
fn joined_task(alloc: Global, command: &Command, rows: &InputRows) -> Result<InputTask, StoryFault>
    requires words { IsCommand command.now }
    requires facts { AreInputRows rows.now }
    ensures exact { GivesRead as_task result (task_of_rows command.now (as_rows rows.now)) }
    ensures sound { IfOk result CanBeDone }
    ensures files { IfOk result (λ task. files_for (as_task task) ≡ files_written command.now) }
    ensures team { IfOk result (λ task. team_size (as_task task) ≡ workers_of command.now) }
    ensures cause { IfErr result NeedsNoFault }
{
    match command {
        Command::Replay { crew: false } | Command::Store => {
            let story = joined_story(alloc, rows)?;
            Ok(InputTask::Play(story))
        }
        Command::Replay { crew: true } => {
            let story = joined_crewed(alloc, rows)?;
            Ok(InputTask::PlayCrews(story))
        }
        Command::Recover {
            workers,
            moves,
            live,
            watch,
        } => {
            let recovery = joined_recovery(alloc, rows, *moves)?;
            Ok(by_team(recovery, *workers, *live, *watch))
        }
        Command::Check { crew: false } => {
            let plan = joined_plan(alloc, rows)?;
            Ok(InputTask::Judge(plan))
        }
        Command::Check { crew: true } => {
            let plan = joined_plan_crews(alloc, rows)?;
            Ok(InputTask::JudgeCrews(plan))
        }
        Command::Ferry => {
            let plan = joined_plan(alloc, rows)?;
            Ok(InputTask::Ferry(plan))
        }
        Command::Gen { seed, size } => Ok(InputTask::Generate {
            seed: *seed,
            size: *size,
        }),
        Command::Trial { seed, size } => {
            let recovery = trial(alloc, *seed, *size)?;
            Ok(InputTask::Try(recovery))
        }
    }
}

/// Reads the files of a command, one after another, for their rows.
pub(crate) fn read_rows<F: Folder>(
    alloc: Global,
    command: &Command,
    folder: &mut F,
) -> Result<InputRows, StoryFault>
    ensures exact { (x : Inputs) → Tells (files_read command.now) (F.outside folder.old) x →
        GivesRead as_rows result (rows_of command.now x) }
    ensures read { OnOk result (AreRead (files_read command.now) (F.outside folder.old) (F.outside folder.new)) }
    ensures cause { IfErr result (HasReadCause (files_read command.now) (F.outside folder.old) (F.outside folder.new)) }
    ensures only { ReadsAmong (files_read command.now) (F.outside folder.old) (F.outside folder.new) }
    ensures in_order { (x : Inputs) → Tells (files_read command.now) (F.outside folder.old) x → (r : Refused) →
        rows_of command.now x ≡ Err r → StopsAt r.file (F.outside folder.old) (F.outside folder.new) }
    ensures stops { IfErr result (StopsAtFault (F.outside folder.old) (F.outside folder.new)) }
    ensures facts { IfOk result AreInputRows }
{
    read_files(alloc, folder, files_read(command), InputRows::new(alloc))
}

/// Reads the files of a command in file order and joins their rows: each file's grammar is decided
/// before the next file is read, and all of them before any name is looked up.
///
/// # Errors
/// `Refused` with the first refusal of the input; `ReadFault` only where the count of failed reads of
/// that file rose, and no file before it is refused by its grammar; `Memory` at any time. No file is
/// read after one that its grammar refuses, or that could not be read.
pub fn read_task<F: Folder>(
    alloc: Global,
    command: &Command,
    folder: &mut F,
) -> Result<InputTask, StoryFault>
    requires { IsCommand command.now }
    ensures exact { (x : Inputs) → Tells (files_read command.now) (F.outside folder.old) x →
        GivesTask as_task result (rows_of command.now x) (task_of command.now x) }
    ensures read { OnOk result (AreRead (files_read command.now) (F.outside folder.old) (F.outside folder.new)) }
    ensures cause { IfErr result (HasReadCause (files_read command.now) (F.outside folder.old) (F.outside folder.new)) }
    ensures only { ReadsAmong (files_read command.now) (F.outside folder.old) (F.outside folder.new) }
    ensures in_order { (x : Inputs) → Tells (files_read command.now) (F.outside folder.old) x → (r : Refused) →
        rows_of command.now x ≡ Err r → StopsAt r.file (F.outside folder.old) (F.outside folder.new) }
    ensures stops { IfErr result (StopsAtFault (F.outside folder.old) (F.outside folder.new)) }
    ensures sound { IfOk result CanBeDone }
    ensures files { IfOk result (λ task. files_for (as_task task) ≡ files_written command.now) }
    ensures team { IfOk result (λ task. team_size (as_task task) ≡ workers_of command.now) }
{
    let rows = match read_rows(alloc, command, folder) {
        Ok(rows) => rows,
        Err(fault) => return Err(fault),
    };
    joined_task(alloc, command, &rows)
}
