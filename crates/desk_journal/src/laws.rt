//! What holds of the payloads of a history, and of the events of a file.
ghost use Rattle.std.specs.Prelude.{◌≡◌, ◌++◌, ◌∷◌, [], ℕ, List, length};
ghost use Rattle.day_orders.specs.declared.orders.Batch.{Batch};
ghost use Rattle.desk_data.specs.Situation.{Situation};
ghost use Rattle.desk_model.specs.declared.answer.Entry.{Entry};
ghost use Rattle.desk_model.specs.declared.answer.Event.{Event};
ghost use Rattle.desk_model.specs.States.{State};
ghost use Rattle.desk_model.specs.Histories.{run};
ghost use Rattle.desk_disk.specs.Records.{AreAccepted, IsDamagedAt};
ghost use Rattle.desk_disk.specs.Stored.{RunsLeave};
ghost use Rattle.desk_journal.specs.Payloads.{AreNext, MayStand, asked_in, batches_among, with_room, history_payloads, payload_by, payloads_of};
ghost use Rattle.desk_journal.specs.Store.{HoldsFirst};

/// A history with one entry more has its payloads, and that of the entry, by how many batches come before it.
pub fn an_entry_adds_its_payload()
    ensures { (h : List Entry) (entry : Entry) → history_payloads (h ++ entry ∷ []) ≡ history_payloads h ++ payload_by (batches_among (asked_in h)) entry.caller entry.event ∷ [] }
{}

/// What events are read into is what a run of them enters: one that finds no room has no entry.
pub fn a_run_enters_what_finds_room()
    ensures { (S : State) (events : List (ℕ × Event)) → asked_in (run S events) ≡ with_room events }
{}

/// Events may come one behind another exactly where their payloads may stand so in a file.
pub fn payloads_that_may_stand_are_of_events()
    ensures stand { (I : Situation) (batches : List Batch) (events : List (ℕ × Event)) → AreNext I batches 0 events → AreAccepted (MayStand I batches) [] (payloads_of events) }
    ensures events { (I : Situation) (batches : List Batch) (ps : List (List ℕ)) → AreAccepted (MayStand I batches) [] ps → (events : List (ℕ × Event)) × (ps ≡ payloads_of events) × AreNext I batches 0 events }
{}

/// A file that these calls alone wrote for one day and its batches, in however many runs, and whatever moments
/// these were stopped at, opens as the first entries of the history, with all that were acknowledged; and it is
/// never damaged.
pub fn stopped_runs_leave_a_beginning_of_the_history()
    ensures beginning { (I : Situation) (batches : List Batch) (S : State) (all : List (ℕ × Event)) (n : ℕ) (c : List ℕ) → AreNext I batches 0 (asked_in (run S all)) → RunsLeave (history_payloads (run S all)) n c → HoldsFirst I batches (run S all) n c }
    ensures undamaged { (I : Situation) (batches : List Batch) (h : List Entry) (qs : List (List ℕ)) (n l : ℕ) (c : List ℕ) → AreNext I batches 0 (asked_in h) → RunsLeave (history_payloads h) n c → IsDamagedAt (MayStand I batches) qs l c → ⊥ }
{}
