//! What searchers report, and what they agree on.

use desk_data::Broken;

/// How a round ended.
#[derive(Clone, Copy, Debug, PartialEq, Eq)]
pub enum End {
    /// There is a plan, and no move of the shard makes it feasible and cheaper.
    Quiet,
    /// The first such move was proposed, and answered: accepted or refused, or the journal was full.
    Answered,
    /// There is a plan, and as many proposals were accepted since the last batch as may be, or the journal
    /// takes no more.
    Spent,
    /// There is no plan: this is the first item that the rows break.
    NoPlan(Broken),
}

/// What a searcher reports of a round: its shard, how many changes the history had that it saw, and how the round ended.
#[derive(Clone, Copy, Debug, PartialEq, Eq)]
pub struct Report {
    /// The number of the shard, below `shards`.
    pub shard: u32,
    pub shards: u32,
    /// How many entries of that history changed the state: batches, and proposals that were accepted.
    pub changes: u32,
    pub end: End,
}

/// What searchers agree on at the last plan.
#[derive(Clone, Copy)]
pub enum Vote {
    /// No move near the plan is feasible and cheaper. The history has so many changes.
    Quiet { changes: u32 },
    /// As many proposals were accepted since the last batch as may be, or the journal takes no more.
    Spent,
    /// There is no plan: this is the first item that the rows break.
    NoPlan(Broken),
}
