//! Rounds of all workers, side by side.

ghost use Rattle.std.specs.Prelude.{◌≡◌, ℕ, ◌<◌, length, All, IfOk, slice_index_or};
ghost use Rattle.desk_model.specs.States.{opening};
ghost use Rattle.desk_model.specs.Histories.{IsLegal};
ghost use Rattle.turn_book.specs.Passes.{known, seen, IsPassOf};
ghost use Rattle.turn_book.specs.SplitPasses.{AreSplit};
ghost use Rattle.desk_pool.specs.declared.worker.Worker.{Worker as Known};
ghost use Rattle.desk_core.specs.Turned.{opening_of};
ghost use Rattle.desk_pool.specs.Workers.{day_of, AreAllShards, CanAllSearch, CanWork, HasPass, WorksOn, IsSameWorker};
ghost use Rattle.desk_pool.specs.Laps.{HasGained, ReportsOf, IsReturned};
ghost use Rattle.desk_pool.specs.Voted.{AreReports, HaveVoted, IsVoteOf};

use crate::worker::Worker;
use desk_core::Book;
use desk_data::NoMem;
use desk_folder::Gate;
use desk_teams::{Report, Vote, vote_on};
use std::alloc::Global;
use std::sync::Wait;
use std::thread::{Threads, for_each_mut};
use turn_book::{Pass, Turn};

/// Gives each worker a pass that is split from this one.
fn split_passes(workers: &mut [Worker], turn: &Turn<Book>, pass: &mut Pass<Book>)
    requires of { IsPassOf opening_of turn.now pass.old }
    requires ready { CanAllSearch (day_of turn.now) workers.old (seen pass.old) }
    ensures of { IsPassOf opening_of turn.now pass.new }
    ensures split { AreSplit (length workers.old) (known pass.old) (known pass.new) }
    ensures same { (i : ℕ) (d : Known) → i < length workers.old → IsSameWorker (slice_index_or workers.old i d) (slice_index_or workers.new i d) }
    ensures each { (i : ℕ) (d : Known) → i < length workers.old → HasPass turn.now (known pass.old) i (slice_index_or workers.new i d) }
{
    for i in 0..workers.len() {
        let one = turn.split(pass);
        let worker = &mut workers[i];
        worker.pass = Some(one);
    }
}

/// Each worker works with its pass, in a thread of its own. Where one can't be started, the caller does the work itself.
fn side_by_side<R: Threads + Wait + Sync, G: Gate>(
    rt: &R,
    alloc: Global,
    workers: &mut [Worker],
    turn: &Turn<Book>,
    gate: &G,
    budget: u32,
)
    requires some { 0 < length workers.old }
    requires each { All (CanWork turn.now) workers.old }
    ensures { (i : ℕ) (d : Known) → i < length workers.old → WorksOn budget turn.now (slice_index_or workers.old i d) (slice_index_or workers.new i d) }
{
    let threads = workers.len();
    for_each_mut(
        rt,
        workers,
        threads,
        &|_: usize, worker: &mut Worker|
            requires { CanWork turn.now worker.now }
            ensures { WorksOn budget turn.entry.now worker.entry.now worker.exit.now }
        { worker.work(rt, alloc, turn, gate, budget) },
    );
}

/// Each worker works with a pass of its own until a round ends without a proposal, and all passes are joined again.
fn lap<R: Threads + Wait + Sync, G: Gate>(
    rt: &R,
    alloc: Global,
    workers: &mut [Worker],
    turn: &Turn<Book>,
    pass: &mut Pass<Book>,
    gate: &G,
    budget: u32,
)
    requires some { 0 < length workers.old }
    requires shards { AreAllShards workers.old }
    requires of { IsPassOf opening_of turn.now pass.old }
    requires ready { CanAllSearch (day_of turn.now) workers.old (seen pass.old) }
    ensures of { IsPassOf opening_of turn.now pass.new }
    ensures shards { AreAllShards workers.new }
    ensures ready { CanAllSearch (day_of turn.now) workers.new (seen pass.new) }
    ensures gained { HasGained budget (length (seen pass.old)) (known pass.old) (known pass.new) workers.old workers.new }
    ensures returned { IsReturned (known pass.old) (known pass.new) }
    ensures reports { ReportsOf budget (day_of turn.now) workers.new (seen pass.new) }
    ensures legal { IsLegal (opening (day_of turn.now)) (seen pass.new) }
{
    split_passes(workers, turn, pass);
    side_by_side(rt, alloc, workers, turn, gate, budget);
    for i in 0..workers.len() {
        let worker = &mut workers[i];
        if let Some(one) = worker.pass.take() {
            turn.join(pass, one);
        }
    }
}

/// The report of each worker, in their order. The only error is out of memory: here, or in a worker, which then has none.
fn reports_of(alloc: Global, workers: &[Worker]) -> Result<Vec<Report>, NoMem>
    ensures { IfOk result (λ reports. AreReports workers.now reports.items) }
{
    let mut reports = Vec::with_capacity(alloc, workers.len())?;
    for worker in workers {
        let Some(report) = worker.report else {
            return Err(NoMem);
        };
        reports.push(report)?;
    }
    Ok(reports)
}

/// Rounds of all workers side by side, each in a thread of its own where one can be started, until they agree on the last plan:
/// that each shard is quiet, or that the history is spent, or that there is no plan. The workers are those of all shards, each
/// once; the one at a place is afterwards of the same shard, and its trail goes on. What they agree on is the vote of the reports
/// that they then have, each of a round of its worker. The only error is out of memory, here or in one of the workers; all passes
/// are then joined again too, and rounds can go on.
pub fn rounds<R: Threads + Wait + Sync, G: Gate>(
    rt: &R,
    alloc: Global,
    workers: &mut [Worker],
    turn: &Turn<Book>,
    pass: &mut Pass<Book>,
    gate: &G,
    budget: u32,
) -> Result<Vote, NoMem>
    requires some { 0 < length workers.old }
    requires shards { AreAllShards workers.old }
    requires of { IsPassOf opening_of turn.now pass.old }
    requires ready { CanAllSearch (day_of turn.now) workers.old (seen pass.old) }
    ensures of { IsPassOf opening_of turn.now pass.new }
    ensures shards { AreAllShards workers.new }
    ensures ready { CanAllSearch (day_of turn.now) workers.new (seen pass.new) }
    ensures gained { HasGained budget (length (seen pass.old)) (known pass.old) (known pass.new) workers.old workers.new }
    ensures returned { IsReturned (known pass.old) (known pass.new) }
    ensures legal { IsLegal (opening (day_of turn.now)) (seen pass.new) }
    ensures reported { IfOk result (HaveVoted budget (day_of turn.now) workers.new (seen pass.new)) }
    ensures voted { IfOk result (IsVoteOf budget (day_of turn.now) (length workers.old) (seen pass.new)) }
{
    for _ in rt.forever() {
        lap(rt, alloc, workers, turn, pass, gate, budget);
        let reports = reports_of(alloc, workers)?;
        if let Some(agreed) = vote_on(reports.as_slice()) {
            return Ok(agreed);
        }
    }
    unreachable!()
}
