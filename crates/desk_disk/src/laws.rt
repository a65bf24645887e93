//! What holds of files.
ghost use Rattle.std.specs.Prelude.{◌≡◌, ◌⊎◌, ◌++◌, ◌∷◌, ℕ, List, [], Option};
ghost use Rattle.desk_disk.specs.FileStates.{FileState, MayLeave};
ghost use Rattle.desk_disk.specs.Records.{AreAccepted, IsDamagedAt, Opens};
ghost use Rattle.desk_disk.specs.Files.{IsAtRest, IsWhole, IsWithOrWithout, OpensAs};
ghost use Rattle.desk_disk.specs.Stored.{OpensFirst, RunsLeave};

use crate::reader::PayloadReader;

/// A file opens as one list of payloads, with one end.
pub fn a_file_opens_in_one_way()
    ensures { (ps qs : List (List ℕ)) (k l : ℕ) (c : List ℕ) → Opens ps k c → Opens qs l c → (ps ≡ qs) × (k ≡ l) }
{}

/// A file that opens as payloads that may stand there is not damaged.
pub fn opened_files_are_not_damaged<R: PayloadReader>()
    ensures { (rules : R.Rules) (ps qs : List (List ℕ)) (k l : ℕ) (c : List ℕ) → Opens ps k c → AreAccepted (R.accepts rules) [] ps → IsDamagedAt (R.accepts rules) qs l c → ⊥ }
{}

/// A whole file opens, as its payloads or as these and the one that is not acknowledged.
pub fn a_whole_file_opens()
    ensures { (ps : List (List ℕ)) (next : Option (List ℕ)) (c : List ℕ) → IsWhole ps next c → OpensAs ps next c }
{}

/// Stopped at any moment of an append, a file opens as the payloads from before it, or with the one more
/// that was being added; and once the append has answered Ok, as these and that one, whatever crash comes.
pub fn a_stopped_append_keeps_what_was_acknowledged()
    ensures stopped { (ps qs : List (List ℕ)) (p c : List ℕ) (k : ℕ) → IsWithOrWithout ps p c → Opens qs k c → (qs ≡ ps) ⊎ (qs ≡ ps ++ p ∷ []) }
    ensures acknowledged { (ps qs : List (List ℕ)) (place k : ℕ) (h : FileState) (c : List ℕ) → IsAtRest ps place h → MayLeave h c → Opens qs k c → qs ≡ ps }
{}

/// Stopped at any moment of an append, a file is not damaged, if the payloads from before it, and the one that
/// was being added behind them, may stand there.
pub fn a_stopped_append_leaves_no_damage<R: PayloadReader>()
    ensures { (rules : R.Rules) (ps qs : List (List ℕ)) (p c : List ℕ) (k : ℕ) → IsWithOrWithout ps p c → AreAccepted (R.accepts rules) [] (ps ++ p ∷ []) → IsDamagedAt (R.accepts rules) qs k c → ⊥ }
{}

/// A file that these calls alone wrote, in however many runs, and whatever moments these were stopped at, opens
/// as a beginning of what they added, with all that was acknowledged; and it is never damaged, if each payload
/// may stand behind those before it.
pub fn stopped_runs_leave_a_beginning<R: PayloadReader>()
    ensures beginning { (all : List (List ℕ)) (n : ℕ) (c : List ℕ) → RunsLeave all n c → OpensFirst all n c }
    ensures undamaged { (rules : R.Rules) (all qs : List (List ℕ)) (n l : ℕ) (c : List ℕ) → AreAccepted (R.accepts rules) [] all → RunsLeave all n c → IsDamagedAt (R.accepts rules) qs l c → ⊥ }
{}
