//! What holds of trails, and of what several searchers make.

ghost use Rattle.std.specs.Prelude.{◌≡◌, ℕ, ◌+◌, ◌<◌, ◌≤◌, None, Some, List as Items, true, false, length, take, slice_get};
ghost use mathlib.Core.List.{IsPrefix};
ghost use Rattle.day_orders.specs.declared.orders.Batch.{Batch};
ghost use Rattle.desk_data.specs.Situation.{Situation};
ghost use Rattle.desk_model.specs.declared.answer.Event.TheVariants as event;
ghost use Rattle.desk_model.specs.declared.answer.Entry.{Entry};
ghost use Rattle.desk_model.specs.States.{State, opening};
ghost use Rattle.desk_model.specs.Histories.{IsLegal, changes, has_room, is_accepted, proposal_limit};
ghost use Rattle.near_moves.specs.Descent.{first_better, IsQuiet};
ghost use Rattle.near_moves.specs.Descents.{batches_in};
ghost use Rattle.desk_teams.specs.declared.trail.Trail.{Trail};
ghost use Rattle.desk_teams.specs.Trails.{IsTrueTrail};
ghost use Rattle.desk_teams.specs.Teams.{HasStopped, IsProposal, ChangesBetween};

/// A trail that is true of a history is true of each longer one that begins with it.
pub fn a_trail_stays_true_of_longer_histories()
    ensures { (number n : ℕ) (S : State) (trail : Items Trail) (h g : Items Entry) → IsPrefix h g → IsTrueTrail number n S trail h → IsTrueTrail number n S trail g }
{}

/// Where a search has stopped, it has stopped after each longer beginning of the history with as many changes.
pub fn what_has_stopped_stays_so_until_a_change()
    ensures { (most : ℕ) (I : Situation) (h : Items Entry) (i j : ℕ) → IsLegal (opening I) h → i ≤ j → j ≤ length h → changes (take i h) ≡ changes (take j h) → HasStopped most (opening I) (take i h) → HasStopped most (opening I) (take j h) }
{}

/// Where there is a plan and no shard of the moves near it has a better one, the state is quiet.
pub fn shards_that_are_all_quiet_leave_nothing()
    ensures { (n : ℕ) (S : State) → 0 < n → S.broken ≡ None → ((s : ℕ) → s < n → first_better S.inst S.plan s n ≡ None) → IsQuiet S }
{}

/// A proposal of a searcher is refused only where there is a batch, or an accepted proposal of another, between what the
/// searcher saw and the entry.
pub fn a_proposal_is_refused_only_where_another_change_stands_between()
    ensures { (n most : ℕ) (I : Situation) (h : Items Entry) (k : ℕ) (entry : Entry) → IsLegal (opening I) h → slice_get h k ≡ Some entry → (p : IsProposal n most (opening I) h k entry) → is_accepted entry.answer ≡ false → ChangesBetween h p.saw k entry.caller }
{}

/// A legal history has at most 900,000 entries and its batches: no proposal has more entries before it.
pub fn a_legal_history_has_few_proposals()
    ensures { (S : State) (h : Items Entry) → IsLegal S h → length h ≤ proposal_limit + length (batches_in h) }
{}

/// After a legal history with fewer than 100,000 batches there is room for one more.
pub fn a_batch_has_room()
    ensures { (S : State) (h : Items Entry) (batch : Batch) → IsLegal S h → length (batches_in h) < 100000 → has_room (length h) (event.Batch batch) ≡ true }
{}
