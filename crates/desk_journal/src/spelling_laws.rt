//! What holds of spellings.
ghost use Rattle.std.specs.Prelude.{◌≡◌, ℕ, ◌<◌, List, Some, slice_index};
ghost use Rattle.desk_journal.specs.declared.payload.StoredEvent.{StoredEvent};
ghost use Rattle.desk_journal.specs.Spelling.{HasSpelling, payload};
ghost use Rattle.desk_journal.specs.Reading.{spelled_by};

/// What has a spelling is read from it, and what is read is spelled so. So no two have one spelling.
pub fn what_is_spelled_is_read()
    ensures again { (s : StoredEvent) → HasSpelling s → spelled_by (payload s) ≡ Some s }
    ensures takes { (bytes : List ℕ) (s : StoredEvent) → ((i : ℕ) → slice_index bytes i < 256) → spelled_by bytes ≡ Some s → (bytes ≡ payload s) × HasSpelling s }
{}
