//! The day and the events that the input files give.

ghost use Rattle.std.specs.Prelude.{IfOk, IfErr};
ghost use Rattle.desk_tasks.specs.Story.{story_of_rows};
ghost use Rattle.desk_tasks.specs.StoryReading.{GivesRead, NeedsNoFault};
ghost use Rattle.desk_tasks.specs.Facts.{as_rows, AreInputRows, as_story, CanBeRun};

use crate::fault::StoryFault;
use crate::rows::InputRows;
use desk_build::{Built, build};
use desk_data::Instance;
use desk_model::Event;
use file_joins::join_journal;
use std::alloc::Global;

/// A day, and the events that are taken on it, each with its caller.
#[derive(Drop)]
pub struct InputStory {
    /// The joined day, before any batch.
    pub inst: Instance,
    /// The recorded events in their order, batches with their moments and orders, and moves, each with its
    /// caller from 0 to 64.
    pub events: Vec<(u32, Event)>,
}

/// Joins the rows, and then the journal.
#[tactic(auto, unfolding(crate::specs::Story::story_of_rows))]
pub(crate) fn joined_story(alloc: Global, rows: &InputRows) -> Result<InputStory, StoryFault>
    requires { AreInputRows rows.now }
    ensures exact { GivesRead as_story result (story_of_rows (as_rows rows.now)) }
    ensures runs { IfOk result CanBeRun }
    ensures cause { IfErr result NeedsNoFault }
{
    let built = build(alloc, &rows.files)?;
    let events = join_journal(alloc, &built, rows.journal.as_slice())?;
    let Built { inst, .. } = built;
    Ok(InputStory { inst, events })
}
