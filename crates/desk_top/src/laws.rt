//! What holds of runs that keep their journal on a disk, one after another.

ghost use Rattle.std.specs.Prelude.{◌≡◌, ℕ, List, [], Option, Some, Ok, length};
ghost use Rattle.desk_disk.specs.FileStates.{DiskSide, MayLeave};
ghost use Rattle.desk_disk.specs.Crashes.{LeavesOnly};
ghost use Rattle.desk_tasks.specs.declared.ending.DiskEnd.{DiskEnd};
ghost use Rattle.desk_tasks.specs.declared.ending.DiskEnd.TheVariants.{Fault};
ghost use Rattle.desk_tasks.specs.Inputs.{Inputs};
ghost use Rattle.desk_tasks.specs.Keep.{KeptStory};
ghost use Rattle.desk_tasks.specs.Story.{kept_of};
ghost use Rattle.story_commands.specs.Held.{entered, story_payloads};
ghost use Rattle.story_commands.specs.Own.{Extends, IsOwn, OpensFor};
ghost use Rattle.story_commands.specs.Journal.{OnlyOpens};
ghost use Rattle.desk_top.specs.Store.{HoldsAll, IsOpenedNext, JournalSays, Keeps, StandsAlways};

/// What one run of an input leaves the next one opens, whatever moment the first was stopped at, and the input has only to be
/// accepted. An empty file is its story's own, and the next run opens it. From a file that is the story's own, with n entries or
/// more, each crash at any moment of a run of that input leaves such a file again, and the journal ends the run only where the disk
/// failed; once all is kept, each crash leaves a file with the whole history. Where the input has grown by then, more events and more
/// batches behind those that it had, the next run opens the file all the same.
pub fn what_a_run_leaves_the_next_one_opens()
    ensures begins { (x : Inputs) (k : KeptStory) → kept_of x ≡ Ok k → IsOpenedNext k 0 [] }
    ensures moments { (x : Inputs) (k : KeptStory) (n : ℕ) (was now : DiskSide) → kept_of x ≡ Ok k → IsOwn k n was.file.bytes →
        StandsAlways x was now → LeavesOnly was now (IsOpenedNext k n) }
    ensures ends { (x : Inputs) (k : KeptStory) (n : ℕ) (was : DiskSide) (shown : Option DiskSide) (how : DiskEnd) → kept_of x ≡ Ok k →
        IsOwn k n was.file.bytes → JournalSays x (Some was) shown how → how ≡ Fault }
    ensures whole { (x : Inputs) (k : KeptStory) (n : ℕ) (was now : DiskSide) (c : List ℕ) → kept_of x ≡ Ok k →
        IsOwn k n was.file.bytes → HoldsAll x was now → MayLeave now.file c → IsOpenedNext k (length (story_payloads k.story)) c }
    ensures grows { (x y : Inputs) (k later : KeptStory) (n : ℕ) (c : List ℕ) → kept_of x ≡ Ok k → kept_of y ≡ Ok later → Extends later k →
        IsOwn k n c → IsOpenedNext later n c }
{}

/// The same of each file that a run accepts, whoever wrote it. Once the comparison has passed each crash leaves a file that the next run
/// opens, whose entries are the first of the history, with all that it had; and once all is kept, a file whose entries are the whole history.
pub fn what_a_run_accepted_the_next_one_opens()
    ensures moments { (x : Inputs) (was now : DiskSide) → (h : Keeps x was now) →
        (compared : DiskSide) × OnlyOpens was compared × LeavesOnly compared now (OpensFor h.k (length (entered h.records))) }
    ensures whole { (x : Inputs) (was now : DiskSide) (c : List ℕ) → (h : HoldsAll x was now) → MayLeave now.file c →
        OpensFor h.keeps.k (length (story_payloads h.keeps.k.story)) c }
{}
