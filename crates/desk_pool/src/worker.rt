//! A worker.

ghost use Rattle.std.specs.Prelude.{◌≡◌, ◌≤◌, [], length, IfOk};
ghost use Rattle.turn_book.specs.Passes.{known, seen, tags, IsPassOf};
ghost use Rattle.desk_core.specs.Turned.{opening_of};
ghost use Rattle.desk_pool.specs.Rounds.{IsSameShard, HasRound};
ghost use Rattle.desk_pool.specs.Workers.{day_of, trail_of, CanSearch, CanWork, WorksOn};

use crate::follower::Follower;
use crate::searcher::Searcher;
use desk_core::Book;
use desk_data::NoMem;
use desk_folder::Gate;
use desk_teams::{Report, Trail};
use near_search::Finder;
use std::alloc::Global;
use std::sync::Wait;
use turn_book::{Pass, Turn};

/// A searcher that can work beside others: it follows the history on a copy of the book's evaluator, and proposes
/// the first better moves of its shard.
#[derive(Drop)]
pub struct Worker {
    pub(crate) searcher: Searcher,
    /// Its pass, while it works beside others.
    pub(crate) pass: Option<Pass<Book>>,
    /// Its last report there, or `None` where memory ran out.
    pub(crate) report: Option<Report>,
}

impl Worker {
    /// The worker with a number from 1 to `shards`, whose shard is one less. It stands where the book stands, and has
    /// proposed nothing. The only error is out of memory.
    pub fn open(alloc: Global, number: u32, shards: u32, book: &Book) -> Result<Worker, NoMem>
        requires some { 1 ≤ number }
        requires few { number ≤ shards }
        ensures ready { IfOk result (λ w. CanSearch book.now.opening w book.now.journal) }
        ensures all { IfOk result (λ w. w.searcher.follower.followed ≡ length book.now.journal) }
        ensures number { IfOk result (λ w. (w.searcher.number ≡ number) × (w.searcher.shards ≡ shards)) }
        ensures trail { IfOk result (λ w. trail_of w ≡ []) }
    {
        let follower = Follower::of(alloc, book)?;
        Ok(Worker {
            searcher: Searcher {
                number,
                shards,
                follower,
                rounds: 0,
                trail: Vec::new(alloc),
                finder: Finder::new(),
            },
            pass: None,
            report: None,
        })
    }

    /// One item for each proposal of this worker that has an entry, in their order.
    pub fn trail(&self) -> &[Trail]
        ensures { result.now ≡ trail_of self.now }
    {
        self.searcher.trail.as_slice()
    }

    /// A round: it looks, follows the new entries, and enters the gate with how many rounds it has made before. Then it
    /// reports `NoPlan` where there is no plan, else `Spent` where `budget` proposals were accepted since the last batch or
    /// the journal has 900,000 entries, else `Quiet` where no move of its shard is better; else it proposes the first such
    /// move. The only error is out of memory, and then it can go on.
    pub fn round<R: Wait, G: Gate>(
        &mut self,
        rt: &R,
        alloc: Global,
        turn: &Turn<Book>,
        pass: &mut Pass<Book>,
        gate: &G,
        budget: u32,
    ) -> Result<Report, NoMem>
        requires of { IsPassOf opening_of turn.now pass.old }
        requires ready { CanSearch (day_of turn.now) self.old (seen pass.old) }
        ensures of { IsPassOf opening_of turn.now pass.new }
        ensures tags { tags pass.new ≡ tags pass.old }
        ensures ready { CanSearch (day_of turn.now) self.new (seen pass.new) }
        ensures same { IsSameShard self.old.searcher self.new.searcher }
        ensures round { HasRound budget (day_of turn.now) self.old.searcher (known pass.old) (known pass.new) (trail_of self.old) (trail_of self.new) result }
    {
        self.searcher.round(rt, alloc, turn, pass, gate, budget)
    }

    /// Works with its own pass until a round ends without a proposal, and keeps the report of that.
    pub(crate) fn work<R: Wait, G: Gate>(
        &mut self,
        rt: &R,
        alloc: Global,
        turn: &Turn<Book>,
        gate: &G,
        budget: u32,
    )
        requires { CanWork turn.now self.old }
        ensures { WorksOn budget turn.now self.old self.new }
    {
        if let Some(pass) = &mut self.pass {
            self.report = self.searcher.work(rt, alloc, turn, pass, gate, budget);
        }
    }
}
