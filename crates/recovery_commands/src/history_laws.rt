//! What histories are made of.

ghost use Rattle.std.specs.Prelude.{◌≡◌, ℕ, false, List as Items, length};
ghost use Rattle.day_orders.specs.declared.orders.Batch.{Batch};
ghost use Rattle.desk_data.specs.Situation.{Situation};
ghost use Rattle.desk_model.specs.declared.answer.Entry.{Entry};
ghost use Rattle.desk_model.specs.States.{opening};
ghost use Rattle.desk_teams.specs.Teams.{HasStopped, IsTeamwork};
ghost use Rattle.desk_pool.specs.Rounds.{Knows};
ghost use Rattle.recovery_commands.specs.Running.{HasMadeAll, RunSoFar};
ghost use Rattle.desk_pool.specs.declared.worker.Worker.{Worker};
ghost use Rattle.desk_pool.specs.Workers.{AreAllShards, CanAllSearch};
ghost use Rattle.recovery_commands.specs.Taking.{HasMakers, AllInBudget, AreMade};

/// Where each entry is one of the desk's batches or is noted by a worker, each proposal is the first better move of its
/// caller's shard at a beginning that holds all its caller's earlier entries, and within the budget where all are so that
/// the workers noted.
pub fn histories_with_makers_are_made_of_first_better_moves()
    ensures { (I : Situation) (most : ℕ) (h : Items Entry) (desk : Items ℕ) (workers : Items Worker) → AreAllShards workers → CanAllSearch I workers h → AllInBudget most workers h → HasMakers h desk workers → AreMade I h (length workers) most }
{}

/// Batches that were taken one after another, with rounds after each, made a history of the desk and its workers, where each
/// entry was made by a call of the pass or of one that was joined into it, as the closed turn tells.
pub fn runs_that_made_their_whole_history_are_teamwork()
    ensures { (most : ℕ) (I : Situation) (v : Knows) (workers : Items Worker) (done : Items Batch) → RunSoFar most I v workers done → HasMadeAll v → AreAllShards workers → CanAllSearch I workers v.seen → HasStopped most (opening I) v.seen
        → IsTeamwork (length workers) most false (opening I) done v.seen }
{}
