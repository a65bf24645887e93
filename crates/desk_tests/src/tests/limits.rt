//! The journal of a book at its limit, which no run can reach: a run has 900,000 moves and 1,001 batches at most.

use super::days::{Texts, day_of};
use desk_core::Book;
use desk_data::{Batch, Grains, List};
use desk_folder::File;
use desk_model::{Answer, Which};
use std::alloc::Global;
use std::test::Fail;

/// Nothing but the window.
const EMPTY: Texts<'static> = &[(File::Config, "01/03/08 06:00 02/03/08 06:00\n")];

/// With so many entries a journal takes no batches. With how many it takes no moves a case of desk_rows shows.
const BATCHES: u32 = 1_000_000;

/// What a book answers to a batch of nothing.
fn answer_to_nothing(alloc: Global, book: &mut Book) -> Result<Answer, Fail> {
    let batch = Batch {
        at: None,
        orders: List(Vec::new(alloc)),
    };
    Ok(book.intake(alloc, 0, &batch)?)
}

/// Has a book take so many batches of nothing. It is an error where one is answered otherwise than by the plan that stands, which
/// costs nothing.
fn fill(alloc: Global, book: &mut Book, batches: u32) -> Result<(), Fail> {
    let kept = Answer::Taken {
        which: Which::Keep,
        cost: Grains(0),
    };
    for _ in 0..batches {
        if answer_to_nothing(alloc, book)? != kept {
            return Err(Fail::new("a batch of nothing is answered otherwise"));
        }
    }
    Ok(())
}

/// What the book of the empty day answers to one batch more than it takes, and how many entries it has then.
fn answer_at_the_limit(alloc: Global) -> Result<(Answer, u32), Fail> {
    let mut book = Book::open(alloc, day_of(alloc, &[], EMPTY)?)?;
    fill(alloc, &mut book, BATCHES)?;
    let answer = answer_to_nothing(alloc, &mut book)?;
    Ok((answer, book.entries()))
}

#[test]
fn a_journal_takes_a_million_entries(rt: HostRuntime) -> Result<(), Fail> {
    let (answer, entries) = answer_at_the_limit(rt.alloc())?;
    assert_eq!(rt; answer, Answer::Full { entries: BATCHES });
    assert_eq!(rt; entries, BATCHES);
    Ok(())
}
