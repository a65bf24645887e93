//! What an accepted input gives can be stored.

ghost use Rattle.std.specs.Prelude.{◌≡◌, ◌≤◌, Ok, length};
ghost use Rattle.desk_tasks.specs.Inputs.{Inputs};
ghost use Rattle.desk_tasks.specs.Keep.{KeptStory};
ghost use Rattle.desk_tasks.specs.Story.{kept_of};
ghost use Rattle.story_commands.specs.Own.{CanBeStored};

/// The events of the history of a story that an input gives may stand one behind another in a journal of its day: its batches are
/// those of the day, by the numbers that are due, its moves fit, and its callers are below 2^32. The day has at most 1,001 batches.
pub fn an_accepted_story_can_be_stored()
    ensures can { (x : Inputs) (k : KeptStory) → kept_of x ≡ Ok k → CanBeStored k }
    ensures few { (x : Inputs) (k : KeptStory) → kept_of x ≡ Ok k → length k.batches ≤ 1001 }
{}
