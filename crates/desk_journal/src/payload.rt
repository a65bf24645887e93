//! Reading a payload.
ghost use Rattle.std.specs.Prelude.{◌≡◌, IfOk, IfSome, IfNone};
ghost use Rattle.desk_journal.specs.Spelling.{HasSpelling, payload};
ghost use Rattle.desk_journal.specs.Reading.{Gives, event_of, event_at, spelled_by, steps_at};

use crate::reading::{first_byte, number_of, steps_of};
use desk_data::{List, NoMem};
use plan_moves::{Move, Step};
use std::alloc::Global;

/// What a payload spells: who asked, and a batch by its number or a move.
#[derive(Drop)]
pub enum StoredEvent {
    /// A batch of the day.
    Batch {
        /// Who asked.
        caller: u32,
        /// Its number among the batches of the day, from 0 on.
        number: u32,
    },
    /// A move that was proposed.
    Move {
        /// Who asked.
        caller: u32,
        /// The move, whether it fits a day or not.
        m: Move,
    },
}

#[tactic(auto, unfolding(crate::specs::Reading::steps_at))]
fn all_steps_of(alloc: Global, bytes: &[u8]) -> Result<Option<(Vec<Step>, &[u8])>, NoMem>
    ensures { IfOk result (λ o. Gives (λ x. (x.0.items, x.1.now)) o (steps_at bytes.now)) }
{
    let Some((count, rest)) = first_byte(bytes) else {
        return Ok(None);
    };
    steps_of(alloc, count, rest)
}

fn event_by_kind(
    alloc: Global,
    caller: u32,
    kind: u8,
    bytes: &[u8],
) -> Result<Option<(StoredEvent, &[u8])>, NoMem>
    ensures { IfOk result (λ o. Gives (λ x. (x.0, x.1.now)) o (event_of caller kind bytes.now)) }
{
    if kind == 0 {
        let Some((number, rest)) = number_of(bytes) else {
            return Ok(None);
        };
        return Ok(Some((StoredEvent::Batch { caller, number }, rest)));
    }
    if kind != 1 {
        return Ok(None);
    }
    let Some((steps, rest)) = all_steps_of(alloc, bytes)? else {
        return Ok(None);
    };
    let m = Move { steps: List(steps) };
    Ok(Some((StoredEvent::Move { caller, m }, rest)))
}

#[tactic(auto, unfolding(crate::specs::Reading::event_at))]
fn event_in(alloc: Global, bytes: &[u8]) -> Result<Option<(StoredEvent, &[u8])>, NoMem>
    ensures { IfOk result (λ o. Gives (λ x. (x.0, x.1.now)) o (event_at bytes.now)) }
{
    let Some((caller, rest)) = number_of(bytes) else {
        return Ok(None);
    };
    let Some((kind, rest)) = first_byte(rest) else {
        return Ok(None);
    };
    event_by_kind(alloc, caller, kind, rest)
}

#[tactic(auto, unfolding(crate::specs::Reading::spelled_by))]
fn whole_payload(alloc: Global, bytes: &[u8]) -> Result<Option<StoredEvent>, NoMem>
    ensures { IfOk result (λ o. Gives (λ stored. stored) o (spelled_by bytes.now)) }
{
    let Some((stored, rest)) = event_in(alloc, bytes)? else {
        return Ok(None);
    };
    match rest {
        [] => Ok(Some(stored)),
        [_, ..] => Ok(None),
    }
}

/// What a payload spells, all of it; `None` where it spells nothing. The only error is that there is no
/// memory left.
pub fn read_payload(alloc: Global, bytes: &[u8]) -> Result<Option<StoredEvent>, NoMem>
    ensures found { IfOk result (λ o. IfSome o (λ stored. (bytes.now ≡ payload stored) × HasSpelling stored)) }
    ensures none { IfOk result (λ o. IfNone o ((s : StoredEvent) → HasSpelling s → bytes.now ≡ payload s → ⊥)) }
{
    whole_payload(alloc, bytes)
}
