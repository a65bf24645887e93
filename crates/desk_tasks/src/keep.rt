//! The story that is kept on a disk, with the batches of its day.

ghost use Rattle.std.specs.Prelude.{◌≡◌, Err, IfOk, OnOk, IfErr};
ghost use Rattle.desk_words.specs.declared.asked.Command.TheVariants.{Store};
ghost use Rattle.desk_tasks.specs.Commands.{files_read};
ghost use Rattle.desk_tasks.specs.Inputs.{Inputs, Tells};
ghost use Rattle.desk_tasks.specs.declared.refusal.Refusal.{Refusal as Refused};
ghost use Rattle.desk_tasks.specs.Reading.{ReadsAmong, StopsAt};
ghost use Rattle.desk_tasks.specs.Runs.{AreRead};
ghost use Rattle.desk_tasks.specs.Story.{rows_of, kept_of_rows, kept_of};
ghost use Rattle.desk_tasks.specs.StoryReading.{StopsAtFault, GivesRead, GivesTask, HasReadCause, NeedsNoFault};
ghost use Rattle.desk_tasks.specs.Facts.{as_rows, AreInputRows, as_kept, CanBeRun};

use crate::fault::StoryFault;
use crate::rows::InputRows;
use crate::story::InputStory;
use crate::task::read_rows;
use desk_build::{Built, build};
use desk_data::Batch;
use desk_folder::Folder;
use desk_units::List;
use desk_words::Command;
use file_joins::join_journal;
use std::alloc::Global;

/// A story, and the batches of its day, at most 1,001, by whose numbers a journal on a disk has them.
#[derive(Drop)]
pub struct InputKept {
    pub story: InputStory,
    pub batches: List<Batch>,
}

// Joins the rows, and then the journal.
#[tactic(auto, unfolding(crate::specs::Story::kept_of_rows))]
fn joined_kept(alloc: Global, rows: &InputRows) -> Result<InputKept, StoryFault>
    requires { AreInputRows rows.now }
    ensures exact { GivesRead as_kept result (kept_of_rows (as_rows rows.now)) }
    ensures runs { IfOk result (λ kept. CanBeRun kept.story) }
    ensures cause { IfErr result NeedsNoFault }
{
    let built = build(alloc, &rows.files)?;
    let events = join_journal(alloc, &built, rows.journal.as_slice())?;
    let Built { inst, batches } = built;
    let story = InputStory { inst, events };
    Ok(InputKept { story, batches })
}

/// Reads the files of `store` in file order and joins their rows, as `read_task` does those of a replay, for the
/// same story and the batches of its day.
///
/// # Errors
/// Those of `read_task`.
pub fn read_kept<F: Folder>(alloc: Global, folder: &mut F) -> Result<InputKept, StoryFault>
    ensures exact { (x : Inputs) → Tells (files_read Store) (F.outside folder.old) x →
        GivesTask as_kept result (rows_of Store x) (kept_of x) }
    ensures read { OnOk result (AreRead (files_read Store) (F.outside folder.old) (F.outside folder.new)) }
    ensures cause { IfErr result (HasReadCause (files_read Store) (F.outside folder.old) (F.outside folder.new)) }
    ensures only { ReadsAmong (files_read Store) (F.outside folder.old) (F.outside folder.new) }
    ensures in_order { (x : Inputs) → Tells (files_read Store) (F.outside folder.old) x → (r : Refused) →
        rows_of Store x ≡ Err r → StopsAt r.file (F.outside folder.old) (F.outside folder.new) }
    ensures stops { IfErr result (StopsAtFault (F.outside folder.old) (F.outside folder.new)) }
    ensures runs { IfOk result (λ kept. CanBeRun kept.story) }
{
    let rows = match read_rows(alloc, &Command::Store, folder) {
        Ok(rows) => rows,
        Err(fault) => return Err(fault),
    };
    joined_kept(alloc, &rows)
}
