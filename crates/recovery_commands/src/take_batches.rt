//! Taking the batches of a day, each with its descent.

ghost use Rattle.std.specs.Prelude.{◌≡◌, ◌≤◌, length, All, IfOk};
ghost use Rattle.desk_data.specs.Situation.{fresh_day};
ghost use Rattle.desk_data.specs.Valid.{IsBatch};
ghost use Rattle.desk_tasks.specs.Recover.{search_end};
ghost use Rattle.recovery_commands.specs.Recovered.{IsRecoveredBook};
ghost use Rattle.desk_core.specs.Recorded.{state_of};

use crate::{SearchEnd, descend};
use desk_core::Book;
use desk_data::{Batch, Instance, NoMem};
use desk_units::Listener;
use std::alloc::Global;

/// The book of a day that was recovered, and why its last search ended, where there is a plan.
#[derive(Drop)]
pub(crate) struct Recovered {
    pub book: Book,
    pub search: Option<SearchEnd>,
}

/// The book of an instance after these batches, of which each is taken and then followed by a descent of at
/// most so many accepted moves. The listener is told how far it has come.
pub(crate) fn run_batches<L: Listener>(
    alloc: Global,
    inst: Instance,
    batches: &[Batch],
    moves: u32,
    listener: &mut L,
) -> Result<Recovered, NoMem>
    requires fresh { inst ≡ fresh_day inst.parts }
    requires asked { All (IsBatch inst.parts) batches.now }
    requires some { 1 ≤ length batches.now }
    requires few { length batches.now ≤ 1001 }
    ensures { IfOk result (λ recovered. IsRecoveredBook inst batches.now moves recovered.book recovered.search) }
{
    let mut book = Book::open(alloc, inst)?;
    let mut search = None;
    let mut number = 0;
    for batch in batches {
        book.intake(alloc, 0, batch)?;
        search = descend(alloc, &mut book, moves, number, listener)?;
        number += 1;
    }
    Ok(Recovered { book, search })
}
