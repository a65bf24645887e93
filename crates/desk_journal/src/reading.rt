//! Reading what is spelled, from left to right.
ghost use Rattle.std.specs.Prelude.{◌≡◌, IfOk};
ghost use Rattle.desk_journal.specs.Reading.{Gives, byte_at, many, number_at, row_at, after_at, cabin_at, pair_at, path_at, step_of, step_at};

use desk_data::{Cabin, Leg, List, Minute, NoMem, Path, Plane, Res, Row};
use plan_moves::Step;
use std::alloc::Global;

pub(crate) fn number_of(bytes: &[u8]) -> Option<(u32, &[u8])>
    ensures { Gives (λ x. (x.0, x.1.now)) result (number_at bytes.now) }
{
    if bytes.len() < 4 {
        return None;
    }
    let (front, rest) = bytes.split_at(4);
    let number = u32::from_be_bytes([front[0], front[1], front[2], front[3]]);
    Some((number, rest))
}

#[tactic(auto, unfolding(crate::specs::Reading::row_at))]
fn row_of(bytes: &[u8]) -> Option<(Row, &[u8])>
    ensures { Gives (λ x. (x.0, x.1.now)) result (row_at bytes.now) }
{
    match bytes {
        [0, rest @ ..] => Some((Row::Cancelled, rest)),
        [1, rest @ ..] => {
            let (plane, rest) = number_of(rest)?;
            let (dep, rest) = number_of(rest)?;
            let row = Row::Flown {
                plane: Plane(plane),
                dep: Minute(dep),
            };
            Some((row, rest))
        }
        _ => None,
    }
}

#[tactic(auto, unfolding(crate::specs::Reading::after_at))]
fn after_of(bytes: &[u8]) -> Option<(Option<Leg>, &[u8])>
    ensures { Gives (λ x. (x.0, x.1.now)) result (after_at bytes.now) }
{
    match bytes {
        [0, rest @ ..] => Some((None, rest)),
        [1, rest @ ..] => {
            let (leg, rest) = number_of(rest)?;
            Some((Some(Leg(leg)), rest))
        }
        _ => None,
    }
}

#[tactic(auto, unfolding(crate::specs::Reading::cabin_at))]
fn cabin_of(bytes: &[u8]) -> Option<(Cabin, &[u8])>
    ensures { Gives (λ x. (x.0, x.1.now)) result (cabin_at bytes.now) }
{
    match bytes {
        [0, rest @ ..] => Some((Cabin::F, rest)),
        [1, rest @ ..] => Some((Cabin::B, rest)),
        [2, rest @ ..] => Some((Cabin::E, rest)),
        _ => None,
    }
}

fn pair_of(bytes: &[u8]) -> Option<((Leg, Cabin), &[u8])>
    ensures { Gives (λ x. (x.0, x.1.now)) result (pair_at bytes.now) }
{
    let (leg, rest) = number_of(bytes)?;
    let (cabin, rest) = cabin_of(rest)?;
    Some(((Leg(leg), cabin), rest))
}

pub(crate) fn first_byte(bytes: &[u8]) -> Option<(u8, &[u8])>
    ensures { Gives (λ x. (x.0, x.1.now)) result (byte_at bytes.now) }
{
    match bytes {
        [byte, rest @ ..] => Some((*byte, rest)),
        [] => None,
    }
}

fn pairs_of(
    alloc: Global,
    count: u8,
    bytes: &[u8],
) -> Result<Option<(Vec<(Leg, Cabin)>, &[u8])>, NoMem>
    ensures { IfOk result (λ o. Gives (λ x. (x.0.items, x.1.now)) o (many pair_at count bytes.now)) }
{
    let mut pairs = Vec::new(alloc);
    let mut rest = bytes;
    for _ in 0..count {
        let Some((pair, after)) = pair_of(rest) else {
            return Ok(None);
        };
        pairs.push(pair)?;
        rest = after;
    }
    Ok(Some((pairs, rest)))
}

#[tactic(auto, unfolding(crate::specs::Reading::path_at))]
fn path_of(alloc: Global, bytes: &[u8]) -> Result<Option<(Path, &[u8])>, NoMem>
    ensures { IfOk result (λ o. Gives (λ x. (x.0, x.1.now)) o (path_at bytes.now)) }
{
    let Some((count, rest)) = first_byte(bytes) else {
        return Ok(None);
    };
    let Some((pairs, rest)) = pairs_of(alloc, count, rest)? else {
        return Ok(None);
    };
    let path = Path { legs: List(pairs) };
    Ok(Some((path, rest)))
}

fn set_of(bytes: &[u8]) -> Option<(Step, &[u8])>
    ensures { Gives (λ x. (x.0, x.1.now)) result (step_of 0 bytes.now) }
{
    let (leg, rest) = number_of(bytes)?;
    let (was, rest) = row_of(rest)?;
    let (new, rest) = row_of(rest)?;
    let leg = Leg(leg);
    Some((Step::Set { leg, was, new }, rest))
}

fn push_of(bytes: &[u8]) -> Option<(Step, &[u8])>
    ensures { Gives (λ x. (x.0, x.1.now)) result (step_of 1 bytes.now) }
{
    let (plane, rest) = number_of(bytes)?;
    let (after, rest) = after_of(rest)?;
    let plane = Plane(plane);
    Some((Step::Push { plane, after }, rest))
}

fn swap_of(bytes: &[u8]) -> Option<(Step, &[u8])>
    ensures { Gives (λ x. (x.0, x.1.now)) result (step_of 2 bytes.now) }
{
    let (first, rest) = number_of(bytes)?;
    let (second, rest) = number_of(rest)?;
    let (at, rest) = number_of(rest)?;
    let first = Plane(first);
    let second = Plane(second);
    let at = Minute(at);
    Some((Step::Swap { first, second, at }, rest))
}

fn rebook_of(alloc: Global, bytes: &[u8]) -> Result<Option<(Step, &[u8])>, NoMem>
    ensures { IfOk result (λ o. Gives (λ x. (x.0, x.1.now)) o (step_of 3 bytes.now)) }
{
    let Some((res, rest)) = number_of(bytes) else {
        return Ok(None);
    };
    let Some((count, rest)) = number_of(rest) else {
        return Ok(None);
    };
    let Some((path, rest)) = path_of(alloc, rest)? else {
        return Ok(None);
    };
    let Some((to, rest)) = path_of(alloc, rest)? else {
        return Ok(None);
    };
    let res = Res(res);
    Ok(Some((
        Step::Rebook {
            res,
            path,
            to,
            count,
        },
        rest,
    )))
}

fn refill_of(bytes: &[u8]) -> Option<(Step, &[u8])>
    ensures { Gives (λ x. (x.0, x.1.now)) result (step_of 5 bytes.now) }
{
    let (leg, rest) = number_of(bytes)?;
    let leg = Leg(leg);
    Some((Step::Refill { leg }, rest))
}

fn step_by_kind(alloc: Global, kind: u8, bytes: &[u8]) -> Result<Option<(Step, &[u8])>, NoMem>
    ensures { IfOk result (λ o. Gives (λ x. (x.0, x.1.now)) o (step_of kind bytes.now)) }
{
    match kind {
        0 => Ok(set_of(bytes)),
        1 => Ok(push_of(bytes)),
        2 => Ok(swap_of(bytes)),
        3 => rebook_of(alloc, bytes),
        4 => Ok(Some((Step::Tidy, bytes))),
        5 => Ok(refill_of(bytes)),
        _ => Ok(None),
    }
}

#[tactic(auto, unfolding(crate::specs::Reading::step_at))]
fn one_step_of(alloc: Global, bytes: &[u8]) -> Result<Option<(Step, &[u8])>, NoMem>
    ensures { IfOk result (λ o. Gives (λ x. (x.0, x.1.now)) o (step_at bytes.now)) }
{
    let Some((kind, rest)) = first_byte(bytes) else {
        return Ok(None);
    };
    step_by_kind(alloc, kind, rest)
}

pub(crate) fn steps_of(
    alloc: Global,
    count: u8,
    bytes: &[u8],
) -> Result<Option<(Vec<Step>, &[u8])>, NoMem>
    ensures { IfOk result (λ o. Gives (λ x. (x.0.items, x.1.now)) o (many step_at count bytes.now)) }
{
    let mut steps = Vec::new(alloc);
    let mut rest = bytes;
    for _ in 0..count {
        let Some((step, after)) = one_step_of(alloc, rest)? else {
            return Ok(None);
        };
        steps.push(step)?;
        rest = after;
    }
    Ok(Some((steps, rest)))
}
