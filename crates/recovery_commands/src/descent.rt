//! The descent.

ghost use Rattle.std.specs.Prelude.{◌≡◌, ◌+◌, length, Some, IfOk, OnOk, OnErr};
ghost use Rattle.desk_core.specs.Recorded.{state_of};
ghost use Rattle.near_moves.specs.declared.ended.SearchEnd.TheVariants.{Quiet};
ghost use Rattle.near_moves.specs.Descent.{IsQuiet};
ghost use Rattle.near_moves.specs.Descents.{batches_in};
ghost use Rattle.recovery_commands.specs.Ending.{ending, after_descent, IsUnderWay};
ghost use Rattle.recovery_commands.specs.Reached.{headway_of};

use crate::step::{FirstBetter, is_spent, step};
use desk_core::Book;
use desk_data::NoMem;
use desk_pool::Finder;
use desk_units::{Headway, Listener};
use near_moves::SearchEnd;
use std::alloc::Global;

/// Proposes the first better move near the book's plan, as caller 0, until there is none, or `most` proposals
/// were accepted since the last batch, or the journal has 900,000 entries. Where there is no plan, nothing is
/// proposed. The answer says why it ended, or `None` where there is no plan: `Budget` comes before `Quiet`
/// where both hold. The only error is out of memory, and then some first steps of the descent may have been
/// taken: the book is sound, and can go on.
///
/// `batch` is the number of the last batch that the book took, counted from 0. The listener is told how far the book
/// has come, at first and after each proposal, and of each move that is tried; the answer and the book depend on no
/// listener.
pub fn descend<L: Listener>(
    alloc: Global,
    book: &mut Book,
    most: u32,
    batch: u32,
    listener: &mut L,
) -> Result<Option<SearchEnd>, NoMem>
    requires { length (batches_in book.old.journal) ≡ batch + 1 }
    ensures ok { OnOk result (book.new ≡ after_descent most book.old) }
    ensures ended { IfOk result (λ ended. ended ≡ ending most (state_of book.new) book.new.journal) }
    ensures quiet { IfOk result (λ ended. ended ≡ Some Quiet → IsQuiet (state_of book.new)) }
    ensures err { OnErr result (IsUnderWay most book.old book.new) }
{
    let finder = Finder::new();
    let mut search = FirstBetter { finder, listener };
    for _ in 0..most {
        tell(book, batch, search.listener);
        if !step(alloc, book, &mut search, most)? {
            return Ok(ending(book, most));
        }
    }
    tell(book, batch, search.listener);
    Ok(ending(book, most))
}

/// Tells how far a book has come whose last batch has this number.
fn tell<L: Listener>(book: &Book, batch: u32, listener: &mut L)
    requires { length (batches_in book.now.journal) ≡ batch + 1 }
    ensures { L.hears listener.old (headway_of book.now) listener.new }
{
    listener.reached(Headway {
        batch,
        changes: book.changes(),
        cost: book.cost(),
    });
}

/// Why a descent ended that has nothing more to propose.
#[tactic(auto, unfolding(crate::specs::Ending::ending))]
fn ending(book: &Book, most: u32) -> Option<SearchEnd>
    ensures { result ≡ ending most (state_of book.now) book.now.journal }
{
    if book.broken().is_some() {
        return None;
    }
    if is_spent(book, most) {
        Some(SearchEnd::Budget)
    } else {
        Some(SearchEnd::Quiet)
    }
}
