//! A state that follows a history, entry by entry.

ghost use Rattle.std.specs.Prelude.{◌≡◌, ◌+◌, ◌-◌, ◌<◌, ◌≤◌, ◌^◌, ◌||◌, nat_le, [], length, IfOk, OnOk, OnErr, false, true};
ghost use Rattle.desk_data.specs.Situation.{Situation};
ghost use Rattle.desk_rules.specs.Least.{least};
ghost use Rattle.desk_model.specs.States.{answer};
ghost use Rattle.desk_model.specs.Histories.{IsAskable, is_accepted, is_batch, proposal_limit};
ghost use Rattle.desk_core.specs.Judged.{state_in};
ghost use Rattle.desk_core.specs.Turned.{opening_of};
ghost use Rattle.turn_book.specs.Passes.{first_book, known, seen, IsPassOf, Looked};
ghost use Rattle.near_search.specs.Finders.{IsFinderOf};
ghost use Rattle.desk_pool.specs.Follows.{StandsAt, IsOneLater};

use desk_core::{Book, Entry, Evaluator, Event, follow};
use desk_data::{Broken, NoMem};
use desk_model::Answer;
use near_search::Finder;
use std::alloc::Global;
use std::sync::Wait;
use turn_book::{Pass, Turn};

/// A journal of fewer entries than this takes a proposal.
const PROPOSAL_LIMIT: u32 = 900_000;

/// The state after some first entries of a history.
#[derive(Drop)]
pub(crate) struct Follower {
    /// The plan, with an empty past.
    pub eval: Evaluator,
    /// The first item that the rows break: there is a plan where there is none.
    pub broken: Option<Broken>,
    /// How many entries these are.
    pub followed: u32,
    /// How many of them changed the state.
    pub changes: u32,
    /// How many proposals were accepted among them since the last batch.
    pub accepted: u32,
}

/// Whether an event is a batch.
fn is_batch(event: &Event) -> bool
    ensures { result ≡ is_batch event.now }
{
    match event {
        Event::Batch(_) => true,
        Event::Move(_) => false,
    }
}

/// Whether a proposal was accepted.
fn is_accepted(answer: &Answer) -> bool
    ensures { result ≡ is_accepted answer.now }
{
    match answer {
        Answer::Accepted { cost: _ } => true,
        _ => false,
    }
}

/// A finder goes on after an event: it begins anew after a batch, since that changes the day.
fn go_on(finder: &mut Finder, event: &Event)
    ensures same { (I : Situation) → is_batch event.now ≡ false → IsFinderOf I finder.old → IsFinderOf I finder.new }
    ensures anew { (I : Situation) → is_batch event.now ≡ true → IsFinderOf I finder.new }
{
    if is_batch(event) {
        *finder = Finder::new();
    }
}

impl Follower {
    /// The state of a book, on a copy of its evaluator. The only error is out of memory.
    pub(crate) fn of(alloc: Global, book: &Book) -> Result<Follower, NoMem>
        ensures stands { IfOk result (λ f. StandsAt book.now.opening f book.now.journal) }
        ensures all { IfOk result (λ f. f.followed ≡ length book.now.journal) }
    {
        let eval = book.eval().copy(alloc)?;
        Ok(Follower {
            eval,
            broken: book.broken(),
            followed: book.entries(),
            changes: book.changes(),
            accepted: book.accepted(),
        })
    }

    /// Goes on to the state after an entry that was answered at this one. The only error is out of memory, and
    /// then it stays where it is.
    fn follow(&mut self, alloc: Global, entry: &Entry) -> Result<(), NoMem>
        requires state { self.old.broken ≡ least self.old.eval.inst self.old.eval.rows }
        requires past { self.old.eval.past ≡ [] }
        requires asked { IsAskable self.old.eval.inst entry.now.event }
        requires answered { entry.now.answer ≡ answer (state_in self.old.eval) entry.now.event }
        requires few { (self.old.followed < 2 ^ 32 - 1) × (self.old.changes ≤ self.old.followed) × (self.old.accepted ≤ self.old.followed) }
        ensures ok { OnOk result (IsOneLater self.old entry.now self.new) }
        ensures err { OnErr result (self.new ≡ self.old) }
    {
        follow(alloc, &mut self.eval, &mut self.broken, entry)?;
        self.followed += 1;
        if is_batch(&entry.event) {
            self.changes += 1;
            self.accepted = 0;
        } else if is_accepted(&entry.answer) {
            self.changes += 1;
            self.accepted += 1;
        }
        Ok(())
    }

    /// Looks at the entries that it has not followed yet, and follows each. The finder goes on with it: after a batch it
    /// begins anew. After an error, which is out of memory, it may have followed some first ones of them.
    pub(crate) fn catch_up<R: Wait>(
        &mut self,
        rt: &R,
        alloc: Global,
        turn: &Turn<Book>,
        pass: &mut Pass<Book>,
        finder: &mut Finder,
    ) -> Result<(), NoMem>
        requires of { IsPassOf opening_of turn.now pass.old }
        requires stands { StandsAt (first_book turn.now).opening self.old (seen pass.old) }
        requires finder { IsFinderOf self.old.eval.inst finder.old }
        ensures of { IsPassOf opening_of turn.now pass.new }
        ensures looked { Looked (known pass.old) (known pass.new) }
        ensures stands { StandsAt (first_book turn.now).opening self.new (seen pass.new) }
        ensures all { OnOk result (self.new.followed ≡ length (seen pass.new)) }
        ensures finder { IsFinderOf self.new.eval.inst finder.new }
    {
        let items = turn.look(rt, alloc, pass, self.followed)?;
        let _seen = pass.seen();
        for entry in items.as_slice() {
            self.follow(alloc, entry)?;
            go_on(finder, &entry.event);
        }
        Ok(())
    }

    /// Whether no proposal more is made: so many were accepted since the last batch, or the journal takes no
    /// more.
    pub(crate) fn is_spent(&self, budget: u32) -> bool
        ensures { result ≡ nat_le budget self.now.accepted || nat_le proposal_limit self.now.followed }
    {
        self.accepted >= budget || self.followed >= PROPOSAL_LIMIT
    }
}
