//! A day that is searched by a team, from the opening of its book to the closing of the turn.

ghost use Rattle.std.specs.Prelude.{◌≡◌, ◌<◌, ◌≤◌, [], true, length, All, vec_len, IfOk};
ghost use Rattle.desk_data.specs.Situation.{fresh_day};
ghost use Rattle.desk_data.specs.Valid.{IsBatch};
ghost use Rattle.turn_book.specs.Histories.{items_at};
ghost use Rattle.turn_book.specs.Passes.{first_book, known, seen, made, name, out, IsPassOf};
ghost use Rattle.desk_core.specs.Turned.{opening_of};
ghost use Rattle.desk_teams.specs.declared.report.Vote.{Vote as KnownVote};
ghost use Rattle.desk_pool.specs.Workers.{day_of, AreAllShards, CanAllSearch};
ghost use Rattle.desk_pool.specs.Laps.{IsReturned};
ghost use Rattle.recovery_commands.specs.declared.searched.Searched.TheVariants as searched;
ghost use Rattle.recovery_commands.specs.Running.{IsTeamRun};
ghost use Rattle.recovery_commands.specs.Closing.{end_of, IsTeamBook};

use crate::beside::live;
use crate::in_turn::in_turn;
use crate::searched::Searched;
use desk_core::{Book, Telling, TellsNobody};
use desk_data::{Batch, Instance, NoMem};
use desk_folder::Gate;
use desk_pool::{Vote, Worker, open_workers};
use desk_tasks::SearchEnd;
use std::alloc::Global;
use std::sync::Wait;
use std::thread::Threads;
use turn_book::{Pass, Turn};

/// A team of workers.
#[derive(Clone, Copy)]
pub struct Team {
    /// How many search side by side, 1 to 64.
    pub workers: u32,
    /// After how many accepted moves since the last batch a worker proposes no more. With 0 none proposes.
    pub moves: u32,
    /// Whether the batches but the first are taken while they search.
    pub live: bool,
    /// Whether a viewer watches the desk's board meanwhile.
    pub watch: bool,
}

/// The book of a day that a team searched, and why the last search ended, where there is a plan.
#[derive(Drop)]
pub(crate) struct TeamBook {
    pub book: Book,
    pub ended: Option<SearchEnd>,
}

// What is reported of a vote.
fn end_of(vote: Vote) -> Option<SearchEnd>
    ensures { result ≡ end_of vote }
{
    match vote {
        Vote::Quiet { changes: _ } => Some(SearchEnd::Quiet),
        Vote::Spent => Some(SearchEnd::Budget),
        Vote::NoPlan(_) => None,
    }
}

/// Has the batches taken and searched after, in turn or live, and tells what is new after each batch, and after each search but the
/// last.
pub(crate) fn search<R: Threads + Wait + Sync, G: Gate, T: Telling + Send + Drop>(
    rt: &R,
    alloc: Global,
    workers: Vec<Worker>,
    turn: &Turn<Book>,
    pass: Pass<Book>,
    gate: &G,
    batches: &[Batch],
    team: Team,
    telling: T,
) -> (Pass<Book>, Result<Searched, NoMem>, T)
    requires some { 0 < vec_len workers }
    requires shards { AreAllShards workers.items }
    requires of { IsPassOf opening_of turn.now pass }
    requires ready { CanAllSearch (day_of turn.now) workers.items (seen pass) }
    requires asked { All (IsBatch (day_of turn.now).parts) batches.now }
    requires batches { 0 < length batches.now }
    requires start { (seen pass ≡ []) × (made pass ≡ []) }
    requires can { T.can telling (first_book turn.now) (seen pass) }
    ensures of { IsPassOf opening_of turn.now result.0 }
    ensures returned { IsReturned (known pass) (known result.0) }
    ensures can { T.can result.2 (first_book turn.now) (seen result.0) }
    ensures run { IfOk result.1 (IsTeamRun (vec_len workers) team.moves team.live (day_of turn.now) batches.now (known result.0)) }
{
    if team.live {
        live(
            rt, alloc, workers, turn, pass, gate, batches, team.moves, telling,
        )
    } else {
        in_turn(
            rt, alloc, workers, turn, pass, gate, batches, team.moves, telling,
        )
    }
}

/// Closes the turn after a search of a team for these batches. The book's journal is all that the pass had seen by then: the entry
/// of each call that the desk and the workers made, once, and no other.
pub(crate) fn close_day(
    turn: Turn<Book>,
    pass: Pass<Book>,
    batches: &[Batch],
    team: Team,
    came: Searched,
) -> TeamBook
    requires of { IsPassOf opening_of turn pass }
    requires first { name pass ≡ [] }
    requires all { out pass ≡ [] }
    requires empty { (first_book turn).journal ≡ [] }
    requires few { length batches.now ≤ 1001 }
    requires run { IsTeamRun team.workers team.moves team.live (day_of turn) batches.now (known pass) came }
    ensures journal { result.book.journal ≡ seen pass }
    ensures made { result.book.journal ≡ items_at (seen pass) (made pass) }
    ensures day { IsTeamBook (day_of turn) batches.now team result.book result.ended }
    ensures ended { (vote : KnownVote) → came ≡ searched.Voted vote → result.ended ≡ end_of vote }
{
    let book = turn.close(pass);
    let _legal = book.entries();
    match came {
        Searched::Voted(vote) => {
            let ended = end_of(vote);
            TeamBook { book, ended }
        }
        Searched::Full => unreachable!(),
    }
}

/// Opens the book of a day, has its batches, 1 to 1,001, taken and searched after by a team, and closes the turn. The only error
/// is out of memory.
pub(crate) fn search_day<R: Threads + Wait + Sync, G: Gate>(
    rt: &R,
    alloc: Global,
    inst: Instance,
    batches: &[Batch],
    team: Team,
    gate: &G,
) -> Result<TeamBook, NoMem>
    requires fresh { inst ≡ fresh_day inst.parts }
    requires asked { All (IsBatch inst.parts) batches.now }
    requires some { 1 ≤ length batches.now }
    requires few { length batches.now ≤ 1001 }
    requires team { (1 ≤ team.workers) × (team.workers ≤ 64) }
    ensures { IfOk result (λ done. IsTeamBook inst batches.now team done.book done.ended) }
{
    let book = Book::open(alloc, inst)?;
    let workers = open_workers(alloc, team.workers, &book)?;
    let (turn, pass) = match Turn::open(alloc, book) {
        Ok(opened) => opened,
        Err(_) => return Err(NoMem),
    };
    let (pass, searched, _nobody) = search(
        rt,
        alloc,
        workers,
        &turn,
        pass,
        gate,
        batches,
        team,
        TellsNobody,
    );
    let Ok(came) = searched else {
        let _book = turn.close(pass);
        return Err(NoMem);
    };
    Ok(close_day(turn, pass, batches, team, came))
}
