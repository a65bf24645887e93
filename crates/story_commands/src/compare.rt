//! Comparing what a disk holds with the history of events, before any event is answered.

ghost use Rattle.std.specs.Prelude.{◌≡◌, ◌≢◌, ◌≤◌, ◌<◌, ℕ, IfOk, cond, length, map};
ghost use Rattle.std.specs.Bool.{MatchBool};
ghost use Rattle.desk_data.specs.Situation.{Situation};
ghost use Rattle.desk_model.specs.States.{State};
ghost use Rattle.desk_model.specs.Histories.{AreAskable, IsAskable, is_batch};
ghost use Rattle.desk_journal.specs.Payloads.{payload_by};
ghost use Rattle.story_commands.specs.Compared.{Compares, Steps};

use crate::room::{batches_of, has_room};
use desk_data::NoMem;
use desk_journal::event_payload;
use desk_model::Event;
use std::alloc::Global;

/// What a comparison says.
#[derive(Clone, Copy)]
pub enum Compared {
    /// What is held is the beginning of the history: what the first `taken` events come to, so many of which are batches.
    First { taken: usize, number: u32 },
    /// It is not. This record of the journal is the first that differs, counted from 1; with 0 more is held than the
    /// history has.
    Other { line: u64 },
}

// Whether an event of a caller, after so many batches, has this payload.
fn has_payload(
    alloc: Global,
    caller: u32,
    event: &Event,
    number: u32,
    payload: &[u8],
) -> Result<bool, NoMem>
    requires askable { (I : Situation) × IsAskable I event.now }
    ensures { IfOk result (λ same. MatchBool same (payload.now ≡ payload_by number caller event.now) (payload.now ≢ payload_by number caller event.now)) }
{
    let own = event_payload(alloc, caller, event, number)?;
    Ok(own.as_slice() == payload)
}

/// How far a comparison has come: so many entries are the same, and so many of them are batches.
#[derive(Clone, Copy)]
pub struct Reached {
    pub entries: usize,
    pub number: u32,
}

// How far the comparison has come after one event more; `None` where its entry is another than the one that is held.
fn compare_one(
    alloc: Global,
    at: Reached,
    asked: &(u32, Event),
    held: &[&[u8]],
) -> Result<Option<Reached>, NoMem>
    requires askable { (I : Situation) × IsAskable I asked.now.1 }
    requires more { at.entries < length held.now }
    requires few { at.number ≤ at.entries }
    ensures { IfOk result (λ next. Steps (map (λ p. p.now) held.now) at asked.now next) }
{
    if !has_room(at.entries, &asked.1) {
        return Ok(Some(at));
    }
    if !has_payload(alloc, asked.0, &asked.1, at.number, held[at.entries])? {
        return Ok(None);
    }
    Ok(Some(Reached {
        entries: at.entries + 1,
        number: at.number + batches_of(&asked.1),
    }))
}

/// Compares the entries that are held with those of the history of events, each with its caller.
pub(crate) fn compare(
    alloc: Global,
    events: &[(u32, Event)],
    held: &[&[u8]],
) -> Result<Compared, NoMem>
    requires askable { (I : Situation) × AreAskable I events.now }
    ensures { IfOk result (λ is. (S : State) → Compares S events.now (map (λ p. p.now) held.now) is) }
{
    let mut at = Reached {
        entries: 0,
        number: 0,
    };
    let mut taken = 0usize;
    for asked in events {
        if at.entries == held.len() {
            let number = at.number;
            return Ok(Compared::First { taken, number });
        }
        match compare_one(alloc, at, asked, held)? {
            Some(next) => at = next,
            None => {
                let line = taken as u64 + 1;
                return Ok(Compared::Other { line });
            }
        }
        taken += 1;
    }
    if at.entries < held.len() {
        return Ok(Compared::Other { line: 0 });
    }
    let number = at.number;
    Ok(Compared::First { taken, number })
}
