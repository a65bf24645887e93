//! Threads that call one book.

ghost use Rattle.std.specs.Prelude.{◌≡◌};
ghost use Rattle.turn_book.specs.Passes.{tags, IsPassOf};

use crate::turn::sums::Sums;
use crate::turn::threads::{Answered, ask_and_look, ask_hundred, ask_two_books, look_after_a_call};
use desk_units::NoMem;
use std::test::Fail;
use std::thread::join;
use turn_book::{Pass, SharedBook, Turn};

/// The sum of the numbers up to a place, that of the place included.
fn sum_up_to(numbers: &[u16], place: u32) -> u64 {
    let up_to = numbers.iter().take(place as usize + 1);
    up_to.fold(0u64, |total, n| total.saturating_add(u64::from(*n)))
}

/// Whether a hundred calls, one number after another, were given what the book has.
fn are_as_given(numbers: &[u16], calls: &[Answered], first: u16) -> bool {
    let mut number = first;
    for call in calls {
        if call.number != number
            || numbers.get(call.place as usize) != Some(&call.number)
            || sum_up_to(numbers, call.place) != call.total
        {
            return false;
        }
        number = number.saturating_add(1);
    }
    calls.len() == 100
}

#[test]
fn calls_of_two_threads_make_one_history(rt: HostRuntime) -> Result<(), Fail> {
    let alloc = rt.alloc();
    let (turn, mut pass) = match Turn::open(alloc, Sums::new(alloc, 1000)) {
        Ok(opened) => opened,
        Err(_) => panic!(rt; "no memory"),
    };
    let first = turn.split(&mut pass);
    let second = turn.split(&mut pass);
    let third = turn.split(&mut pass);
    let ((first, one), ((second, two), (third, looked))) = join(
        &rt,
        || -> (Pass<Sums>, Result<Vec<Answered>, NoMem>)
            requires { IsPassOf (λ (b : Sums). b.room) turn first }
            ensures of { IsPassOf (λ (b : Sums). b.room) turn result.0 }
            ensures tags { tags result.0 ≡ tags first }
        { ask_hundred(&rt, alloc, &turn, first, 1, 1) },
        || -> (
            (Pass<Sums>, Result<Vec<Answered>, NoMem>),
            (Pass<Sums>, Result<Vec<u16>, NoMem>),
        )
            requires { IsPassOf (λ (b : Sums). b.room) turn second × IsPassOf (λ (b : Sums). b.room) turn third }
            ensures of { IsPassOf (λ (b : Sums). b.room) turn result.0.0 × IsPassOf (λ (b : Sums). b.room) turn result.1.0 }
            ensures tags { (tags result.0.0 ≡ tags second) × (tags result.1.0 ≡ tags third) }
        { ask_and_look(&rt, alloc, &turn, second, third) },
    );
    turn.join(&mut pass, third);
    turn.join(&mut pass, first);
    turn.join(&mut pass, second);
    assert_eq!(rt; pass.seen(), 200);
    let book = turn.close(pass);
    assert_eq!(rt; book.entries(), 200);
    let one = one?;
    let two = two?;
    let looked = looked?;
    assert!(rt; are_as_given(book.numbers(), one.as_slice(), 1));
    assert!(rt; are_as_given(book.numbers(), two.as_slice(), 1001));
    assert!(rt; book.numbers().starts_with(looked.as_slice()));
    Ok(())
}

#[test]
fn a_full_book_takes_nothing(rt: HostRuntime) -> Result<(), Fail> {
    let alloc = rt.alloc();
    let (replies, first, second) = ask_two_books(
        &rt,
        alloc,
        Sums::new(alloc, 1),
        Sums::new(alloc, 2),
    )?;
    assert_eq!(rt; replies, [Ok(Some(7)), Ok(None), Ok(Some(7)), Ok(Some(15))]);
    assert_eq!(rt; first.numbers(), [7].as_slice());
    assert_eq!(rt; second.numbers(), [7, 8].as_slice());
    Ok(())
}

#[test]
fn a_look_sees_what_another_pass_added(rt: HostRuntime) -> Result<(), Fail> {
    let alloc = rt.alloc();
    let (looked, _book) = look_after_a_call(&rt, alloc, Sums::new(alloc, 10))?;
    assert_eq!(rt; looked?.as_slice(), [7].as_slice());
    Ok(())
}
