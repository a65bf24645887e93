//! What holds of descents and recoveries.

ghost use Rattle.std.specs.Prelude.{◌≡◌, ◌↔◌, ℕ, ◌+◌, ◌≤◌, max, ◌&&◌, Bool, true, false, None, Some, is_none, List as Items, [], ◌∷◌, ◌++◌, length, take, slice_get, All};
ghost use Rattle.std.specs.List.{find};
ghost use Rattle.day_orders.specs.declared.orders.Batch.{Batch};
ghost use Rattle.plan_moves.specs.declared.moves.Move.{Move};
ghost use Rattle.plan_moves.specs.Fits.{Fits};
ghost use Rattle.desk_data.specs.Situation.{Situation};
ghost use Rattle.desk_data.specs.PlanRows.{PlanRows};
ghost use Rattle.desk_data.specs.declared.broken.Broken.{Broken};
ghost use Rattle.desk_data.specs.Valid.{IsBatch, IsPlanFor, IsValid};
ghost use Rattle.desk_model.specs.declared.answer.Entry.{Entry as Recorded};
ghost use Rattle.desk_model.specs.declared.answer.Event.TheVariants as event;
ghost use Rattle.desk_model.specs.States.{State, opening, answer};
ghost use Rattle.desk_model.specs.Histories.{IsLegal, is_accepted, state, proposal_limit, accepted_since_batch, entry_of};
ghost use Rattle.near_moves.specs.Near.{near};
ghost use Rattle.near_moves.specs.Descent.{is_better, better, IsQuiet, is_spent, next_proposal, descent, recovery};
ghost use Rattle.near_moves.specs.Descents.{Descends, AllAlong, IsRecoveryEntry, HasEnded, BatchesWait, batches_in};

/// A proposal is accepted exactly where there is a plan and the move is better. The first better move
/// near a plan is the first of all that are.
pub fn a_proposal_is_accepted_exactly_where_it_is_better()
    ensures accepted { (S : State) (m : Move) → is_accepted (answer S (event.Move m)) ≡ is_none S.broken && is_better S.inst S.plan m }
    ensures first { (I : Situation) (P : PlanRows) → find (is_better I P) (near I P) ≡ slice_get (better I P) 0 }
{}

/// A descent leaves the history that it begins with, and adds steps to it: in each caller 0 proposes
/// the first better move near the plan as it stands, and it is accepted. Where there is no plan, it adds
/// nothing. It never makes a history of 900,000 entries or more longer. Since the last batch no more are accepted after it
/// than `most`, or than there were: after a batch, where none was accepted yet, at most `most`.
pub fn a_descent_adds_the_first_better_moves()
    ensures adds { (most : ℕ) (S : State) (h : Items Recorded) → Descends S h (descent most S h) }
    ensures unplanned { (most : ℕ) (S : State) (h : Items Recorded) (item : Broken) → (state S h).broken ≡ Some item → descent most S h ≡ h }
    ensures length { (most b : ℕ) (S : State) (h : Items Recorded) → length h ≤ b → proposal_limit ≤ b → length (descent most S h) ≤ b }
    ensures few { (most : ℕ) (S : State) (h : Items Recorded) → accepted_since_batch (descent most S h) ≤ max most (accepted_since_batch h) }
    ensures batch { (S : State) (h : Items Recorded) (B : Batch) → accepted_since_batch (h ++ entry_of (state S h) 0 (event.Batch B) ∷ []) ≡ 0 }
{}

/// After a descent there is nothing more to propose. So from a plan it ends at a plan, and where the
/// history after it is not spent, no move near that plan is better.
pub fn a_descent_ends_quiet_or_spent()
    ensures ends { (most : ℕ) (S : State) (h : Items Recorded) → next_proposal most S (descent most S h) ≡ None }
    ensures planned { (most : ℕ) (S : State) (h : Items Recorded) → (state S h).broken ≡ None → (state S (descent most S h)).broken ≡ None }
    ensures quiet { (most : ℕ) (S : State) (h : Items Recorded) → (state S h).broken ≡ None → is_spent most (descent most S h) ≡ false → IsQuiet (state S (descent most S h)) }
{}

/// The batches of a recovery are those that it is given, in their order, each once. All its entries are
/// from caller 0, and those that are no batches are steps of descents. It is at most 900,000 entries
/// longer than there are batches.
///
/// The recovery of some first batches stands at its beginning. After each batch it goes on by the descent from there, and
/// this ends before the next batch is taken, and after the last: at most `most` were accepted since the batch, and there is
/// nothing more to propose. So where there is a plan then and the history is not spent, no move near that plan is better.
pub fn a_recovery_takes_the_batches_and_descends_after_each()
    ensures batches { (most : ℕ) (S : State) (batches : Items Batch) → batches_in (recovery most S batches) ≡ batches }
    ensures entries { (most : ℕ) (S : State) (batches : Items Batch) → AllAlong IsRecoveryEntry S (recovery most S batches) }
    ensures length { (most : ℕ) (S : State) (batches : Items Batch) → length (recovery most S batches) ≤ proposal_limit + length batches }
    ensures begins { (most : ℕ) (S : State) (before after : Items Batch) → take (length (recovery most S before)) (recovery most S (before ++ after)) ≡ recovery most S before }
    ensures descends { (most : ℕ) (S : State) (before : Items Batch) (B : Batch) → recovery most S (before ++ B ∷ []) ≡ descent most S (recovery most S before ++ entry_of (state S (recovery most S before)) 0 (event.Batch B) ∷ []) }
    ensures ended { (most : ℕ) (S : State) (before : Items Batch) (B : Batch) → HasEnded most S (recovery most S (before ++ B ∷ [])) }
    ensures waits { (most : ℕ) (S : State) (batches : Items Batch) → BatchesWait most S (recovery most S batches) }
{}

/// Each move near a plan can be asked of the day. So what a descent adds to a legal history leaves it legal, and
/// so is a recovery of at most 100,000 batches that can be taken: each finds room in the journal.
pub fn descents_and_recoveries_are_legal()
    ensures fit { (I : Situation) (P : PlanRows) → IsValid I → IsPlanFor I P → All (Fits I) (near I P) }
    ensures descent { (most : ℕ) (I : Situation) (h : Items Recorded) → IsValid I → IsLegal (opening I) h → IsLegal (opening I) (descent most (opening I) h) }
    ensures recovery { (most : ℕ) (I : Situation) (batches : Items Batch) → IsValid I → All (IsBatch I.parts) batches → length batches ≤ 100000 → IsLegal (opening I) (recovery most (opening I) batches) }
{}
