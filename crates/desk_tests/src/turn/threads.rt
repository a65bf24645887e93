//! What the threads of the tests do.

ghost use Rattle.std.specs.Prelude.{◌≡◌, ◌≤◌};
ghost use Rattle.turn_book.specs.Passes.{tags, IsPassOf};

use crate::turn::sums::Sums;
use desk_units::NoMem;
use std::alloc::Global;
use std::sync::Wait;
use std::thread::{Threads, join};
use turn_book::{Pass, SharedBook, Turn};

/// What a call was given: the number that it asked for, its place, and the sum there.
#[derive(Clone, Copy)]
pub struct Answered {
    pub number: u16,
    pub place: u32,
    pub total: u64,
}

/// Asks for a hundred numbers, one after another, and writes down what it was given.
pub fn ask_hundred<R: Wait>(
    rt: &R,
    alloc: Global,
    turn: &Turn<Sums>,
    mut pass: Pass<Sums>,
    caller: u32,
    first: u16,
) -> (Pass<Sums>, Result<Vec<Answered>, NoMem>)
    requires small { first ≤ 10000 }
    requires of { IsPassOf (λ (b : Sums). b.room) turn.now pass }
    ensures of { IsPassOf (λ (b : Sums). b.room) turn.now result.0 }
    ensures tags { tags result.0 ≡ tags pass }
{
    let mut calls = Vec::new(alloc);
    for i in 0..100u16 {
        let number = first + i;
        let Ok(Some(total)) = turn.call(rt, alloc, &mut pass, caller, &number) else {
            return (pass, Err(NoMem));
        };
        let place = pass.seen().saturating_sub(1);
        if calls
            .push(Answered {
                number,
                place,
                total,
            })
            .is_err()
        {
            return (pass, Err(NoMem));
        }
    }
    (pass, Ok(calls))
}

/// Looks fifty times, each time from where it is, and writes down all that it saw.
pub fn look_on<R: Wait>(
    rt: &R,
    alloc: Global,
    turn: &Turn<Sums>,
    mut pass: Pass<Sums>,
) -> (Pass<Sums>, Result<Vec<u16>, NoMem>)
    requires of { IsPassOf (λ (b : Sums). b.room) turn.now pass }
    ensures of { IsPassOf (λ (b : Sums). b.room) turn.now result.0 }
    ensures tags { tags result.0 ≡ tags pass }
{
    let mut numbers = Vec::new(alloc);
    for _ in 0..50u16 {
        let from = pass.seen();
        let Ok(more) = turn.look(rt, alloc, &mut pass, from) else {
            return (pass, Err(NoMem));
        };
        if numbers.extend_from_slice(more.as_slice()).is_err() {
            return (pass, Err(NoMem));
        }
    }
    (pass, Ok(numbers))
}

/// The two that run beside the first: one that asks, and one that looks.
pub fn ask_and_look<R: Threads + Wait + Sync>(
    rt: &R,
    alloc: Global,
    turn: &Turn<Sums>,
    asking: Pass<Sums>,
    looking: Pass<Sums>,
) -> (
    (Pass<Sums>, Result<Vec<Answered>, NoMem>),
    (Pass<Sums>, Result<Vec<u16>, NoMem>),
)
    requires of { IsPassOf (λ (b : Sums). b.room) turn.now asking × IsPassOf (λ (b : Sums). b.room) turn.now looking }
    ensures of { IsPassOf (λ (b : Sums). b.room) turn.now result.0.0 × IsPassOf (λ (b : Sums). b.room) turn.now result.1.0 }
    ensures tags { (tags result.0.0 ≡ tags asking) × (tags result.1.0 ≡ tags looking) }
{
    join(
        rt,
        || -> (Pass<Sums>, Result<Vec<Answered>, NoMem>)
            requires { IsPassOf (λ (b : Sums). b.room) turn.now asking }
            ensures of { IsPassOf (λ (b : Sums). b.room) turn.entry.now result.0 }
            ensures tags { tags result.0 ≡ tags asking }
        { ask_hundred(rt, alloc, turn, asking, 2, 1001) },
        || -> (Pass<Sums>, Result<Vec<u16>, NoMem>)
            requires { IsPassOf (λ (b : Sums). b.room) turn.now looking }
            ensures of { IsPassOf (λ (b : Sums). b.room) turn.entry.now result.0 }
            ensures tags { tags result.0 ≡ tags looking }
        { look_on(rt, alloc, turn, looking) },
    )
}

/// Two books, each under a turn of its own, and each asked for 7 by a pass that was split off, and then
/// for 8 by the first. It answers the four replies, and the books.
pub fn ask_two_books<R: Wait>(
    rt: &R,
    alloc: Global,
    first: Sums,
    second: Sums,
) -> Result<([Result<Option<u64>, NoMem>; 4], Sums, Sums), NoMem> {
    let (one, mut of_one) = match Turn::open(alloc, first) {
        Ok(opened) => opened,
        Err(_) => return Err(NoMem),
    };
    let (two, mut of_two) = match Turn::open(alloc, second) {
        Ok(opened) => opened,
        Err(_) => {
            let _first = one.close(of_one);
            return Err(NoMem);
        }
    };
    let mut more_of_one = one.split(&mut of_one);
    let mut more_of_two = two.split(&mut of_two);
    let replies = [
        one.call(rt, alloc, &mut more_of_one, 1, &7),
        one.call(rt, alloc, &mut of_one, 1, &8),
        two.call(rt, alloc, &mut more_of_two, 1, &7),
        two.call(rt, alloc, &mut of_two, 1, &8),
    ];
    one.join(&mut of_one, more_of_one);
    two.join(&mut of_two, more_of_two);
    Ok((replies, one.close(of_one), two.close(of_two)))
}

/// One pass asks for 7, and another that has not seen it looks at all that there is. It answers what that saw, and the book.
pub fn look_after_a_call<R: Wait>(
    rt: &R,
    alloc: Global,
    book: Sums,
) -> Result<(Result<Vec<u16>, NoMem>, Sums), NoMem> {
    let (turn, mut pass) = match Turn::open(alloc, book) {
        Ok(opened) => opened,
        Err(_) => return Err(NoMem),
    };
    let mut other = turn.split(&mut pass);
    let reply = turn.call(rt, alloc, &mut pass, 1, &7);
    let looked = turn.look(rt, alloc, &mut other, 0);
    turn.join(&mut pass, other);
    let book = turn.close(pass);
    reply?;
    Ok((looked, book))
}
