//! What holds of the shards of the moves near a plan.

ghost use Rattle.std.specs.Prelude.{◌≡◌, ℕ, ◌<◌, Bool, true, None, List as Items, [], AllPairs, Contains};
ghost use Rattle.plan_moves.specs.declared.moves.Move.{Move};
ghost use Rattle.desk_data.specs.Situation.{Situation};
ghost use Rattle.desk_data.specs.PlanRows.{PlanRows};
ghost use Rattle.near_moves.specs.Near.{near, of_shard, shard, units};
ghost use Rattle.near_moves.specs.Units.{MoveUnit};
ghost use Rattle.near_moves.specs.Shards.{IsInAShard, IsInOneShard};
ghost use Rattle.near_moves.specs.Descent.{better, first_better};

/// So many shards part the units near a plan: each unit is in one of them and in no other, a shard has no
/// others, and what is in one shard stands in the order of the units. One shard alone is all moves near the plan.
pub fn shards_part_the_units()
    ensures part { (I : Situation) (P : PlanRows) (n : ℕ) (u : MoveUnit) → 0 < n → Contains (units I P) u → IsInOneShard n (units I P) u }
    ensures others { (I : Situation) (P : PlanRows) (s n : ℕ) (u : MoveUnit) → Contains (of_shard s n (units I P)) u → Contains (units I P) u }
    ensures order { (I : Situation) (P : PlanRows) (s n : ℕ) (test : MoveUnit → MoveUnit → Bool) → AllPairs (λ u v. test u v ≡ true) (units I P) → AllPairs (λ u v. test u v ≡ true) (of_shard s n (units I P)) }
    ensures one { (I : Situation) (P : PlanRows) → shard I P 0 1 ≡ near I P }
{}

/// So many shards hold the moves near a plan: each move is in one of them, and a shard has no others. So where
/// no shard has a better move, no move near the plan is better, and the other way round.
pub fn shards_hold_the_moves()
    ensures part { (I : Situation) (P : PlanRows) (n : ℕ) (m : Move) → 0 < n → Contains (near I P) m → IsInAShard I P n m }
    ensures others { (I : Situation) (P : PlanRows) (s n : ℕ) (m : Move) → Contains (shard I P s n) m → Contains (near I P) m }
    ensures none { (I : Situation) (P : PlanRows) (n : ℕ) → 0 < n → ((s : ℕ) → s < n → first_better I P s n ≡ None) → better I P ≡ [] }
    ensures quiet { (I : Situation) (P : PlanRows) (s n : ℕ) → better I P ≡ [] → first_better I P s n ≡ None }
{}
