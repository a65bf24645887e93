//! The day that is to be recovered, of the input files or of texts that are made up.

ghost use Rattle.std.specs.Prelude.{◌≡◌, IfOk, IfErr};
ghost use Rattle.desk_folder.specs.Entries.{named_texts};
ghost use Rattle.output_texts.specs.Generated.{IsSize};
ghost use Rattle.desk_data.specs.Valid.{IsValid};
ghost use Rattle.desk_tasks.specs.Story.{read_texts, recovery_of_rows, trial_of};
ghost use Rattle.desk_tasks.specs.StoryReading.{GivesRead, NeedsNoFault};
ghost use Rattle.desk_tasks.specs.Facts.{as_rows, AreInputRows, as_recovery, CanRecover};

use crate::fault::StoryFault;
use crate::rows::InputRows;
use crate::story_files::take_text;
use desk_build::{Built, build};
use desk_data::{Batch, Instance};
use desk_folder::File;
use desk_units::List;
use desk_words::USUAL_MOVES;
use output_texts::generate;
use std::alloc::Global;

/// A day that is to be recovered.
#[derive(Drop)]
pub struct InputRecovery {
    /// The joined day, before any batch.
    pub inst: Instance,
    /// The batches that are taken on it in their order, 1 to 1,001.
    pub batches: List<Batch>,
    /// How many moves may be accepted after each, 1 to 100,000.
    pub moves: u32,
}

// Each day is valid.
fn days_are_valid(inst: &Instance)
    ensures { IsValid inst.now }
{
    inst.parts();
}

/// Joins the rows to a day and the batches that are taken on it.
#[tactic(auto, unfolding(crate::specs::Story::recovery_of_rows))]
pub(crate) fn joined_recovery(
    alloc: Global,
    rows: &InputRows,
    moves: u32,
) -> Result<InputRecovery, StoryFault>
    requires { AreInputRows rows.now }
    ensures exact { GivesRead as_recovery result (recovery_of_rows moves (as_rows rows.now)) }
    ensures sound { IfOk result CanRecover }
    ensures cause { IfErr result NeedsNoFault }
{
    let built = build(alloc, &rows.files)?;
    days_are_valid(&built.inst);
    let Built { inst, batches } = built;
    Ok(InputRecovery {
        inst,
        batches,
        moves,
    })
}

// The rows with those of these texts, each the whole of its file. The first that is refused ends the reading.
fn read_texts(
    alloc: Global,
    texts: &[(File, Vec<u8>)],
    mut rows: InputRows,
) -> Result<InputRows, StoryFault>
    requires facts { AreInputRows rows }
    ensures exact { GivesRead as_rows result (read_texts (named_texts texts.now) (as_rows rows)) }
    ensures cause { IfErr result NeedsNoFault }
    ensures facts { IfOk result AreInputRows }
{
    for named in texts {
        match take_text(alloc, rows, named.0, named.1.as_slice()) {
            Ok(more) => rows = more,
            Err(fault) => return Err(fault),
        }
    }
    Ok(rows)
}

/// The day of a seed and a size, 1 to 40, that is to be recovered as the usual options have it. It is read
/// from texts in memory, so that no folder is asked.
pub(crate) fn trial(alloc: Global, seed: u32, size: u32) -> Result<InputRecovery, StoryFault>
    requires { IsSize size }
    ensures exact { GivesRead as_recovery result (trial_of seed size) }
    ensures sound { IfOk result CanRecover }
    ensures cause { IfErr result NeedsNoFault }
{
    let texts = match generate(alloc, seed, size) {
        Ok(texts) => texts,
        Err(_) => return Err(StoryFault::Memory),
    };
    let rows = match read_texts(alloc, texts.as_slice(), InputRows::new(alloc)) {
        Ok(rows) => rows,
        Err(fault) => return Err(fault),
    };
    joined_recovery(alloc, &rows, USUAL_MOVES)
}
