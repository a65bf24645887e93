//! What holds of the files of a journal.

ghost use Rattle.std.specs.Prelude.{◌≡◌, ◌≤◌, ℕ, List, [], Option, Some, length};
ghost use Rattle.desk_disk.specs.FileStates.{DiskSide, MayLeave};
ghost use Rattle.desk_disk.specs.Crashes.{LeavesOnly};
ghost use Rattle.desk_model.specs.declared.answer.Event.{Event};
ghost use Rattle.desk_journal.specs.Payloads.{payloads_of, with_room};
ghost use Rattle.desk_tasks.specs.declared.ending.Ending.{Ending};
ghost use Rattle.desk_tasks.specs.Runs.{World};
ghost use Rattle.desk_tasks.specs.Keep.{KeptStory};
ghost use Rattle.story_commands.specs.Held.{entered, story_payloads, AreFirst};
ghost use Rattle.story_commands.specs.Journal.{HoldsRecords, IsDamaged, IsKept, IsOfOthers, KeepsStory, OnlyOpens, PassesComparison};
ghost use Rattle.story_commands.specs.Own.{CanBeStored, Extends, GoesOn, IsOwn, OpensFor};

/// What a file says of the journal of a story is one thing: it is damaged, or it holds records whose entries are not the first of
/// the history, or such whose entries are. So a run that ends with any of the three where the file says another is refused.
pub fn a_file_says_one_thing_of_a_story()
    ensures damaged { (k : KeptStory) (c : List ℕ) (records : List (List ℕ)) → IsDamaged k c → HoldsRecords k records c → ⊥ }
    ensures others { (k : KeptStory) (c : List ℕ) (line : ℕ) (records : List (List ℕ)) → IsOfOthers k c line → HoldsRecords k records c → AreFirst records (story_payloads k.story) → ⊥ }
    ensures apart { (k : KeptStory) (c : List ℕ) (line : ℕ) → IsDamaged k c → IsOfOthers k c line → ⊥ }
{}

/// What one run of a story leaves the next one opens, whatever moment the first was stopped at. An empty file is the story's
/// own. A run that begins with the story's own file leaves such a file at each moment, with all entries that it had, and does not
/// end as if the file were damaged or of other events; once all is kept, each crash leaves the whole history. So in however many
/// runs, one after another, nothing that was kept is lost, and the next one goes on from there. It does so too where the story has grown
/// by then: where more events stand behind its own, and more batches behind those of its day.
pub fn what_one_run_leaves_the_next_one_opens()
    ensures begins { (k : KeptStory) → IsOwn k 0 [] }
    ensures opens { (k : KeptStory) (n : ℕ) (c : List ℕ) → CanBeStored k → IsOwn k n c → OpensFor k n c }
    ensures goes_on { (k : KeptStory) (n : ℕ) (before now : World) (was : DiskSide) (shown : Option DiskSide) (how : Ending) → CanBeStored k → IsOwn k n was.file.bytes → KeepsStory k before now (Some was) shown how → (left : DiskSide) × (shown ≡ Some left) × GoesOn k n was left how }
    ensures whole { (k : KeptStory) (n : ℕ) (records : List (List ℕ)) (was now : DiskSide) (c : List ℕ) → IsOwn k n was.file.bytes → PassesComparison k records was now → IsKept k records now → MayLeave now.file c → IsOwn k (length (story_payloads k.story)) c }
    ensures grows { (k later : KeptStory) (n : ℕ) (c : List ℕ) → Extends later k → IsOwn k n c → IsOwn later n c }
{}

/// The same of each file that a run accepts, also of one that has records for which a journal has no room, as another program may have
/// written it, on a day of at most 1,001 batches. Once the comparison has passed each crash leaves a file that the next run opens, whose
/// entries are the first of the history, with all that it had; and once all is kept, a file whose entries are the whole history. A file
/// that a run of the story opens so is opened so by a run of the story that has grown.
pub fn what_passed_the_comparison_the_next_run_opens()
    ensures moments { (k : KeptStory) (records : List (List ℕ)) (was now : DiskSide) → length k.batches ≤ 1001 → CanBeStored k → PassesComparison k records was now →
        (compared : DiskSide) × OnlyOpens was compared × LeavesOnly compared now (OpensFor k (length (entered records))) }
    ensures whole { (k : KeptStory) (records : List (List ℕ)) (was now : DiskSide) (c : List ℕ) → length k.batches ≤ 1001 → CanBeStored k → PassesComparison k records was now → IsKept k records now →
        MayLeave now.file c → OpensFor k (length (story_payloads k.story)) c }
    ensures grows { (k later : KeptStory) (n : ℕ) (c : List ℕ) → Extends later k → OpensFor k n c → OpensFor later n c }
{}

/// The payloads that a file of a story has entries for are those of the events that its records are read into, on a day of at
/// most 1,001 batches.
pub fn entries_are_those_of_the_events_read()
    ensures { (k : KeptStory) (records : List (List ℕ)) (c : List ℕ) → length k.batches ≤ 1001 → HoldsRecords k records c → (events : List (ℕ × Event)) × (records ≡ payloads_of events) × (entered records ≡ payloads_of (with_room events)) }
{}
