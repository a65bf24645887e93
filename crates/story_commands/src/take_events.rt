//! Taking the events of a story.

ghost use Rattle.std.specs.Prelude.{◌≡◌, [], IfOk, OnOk};
ghost use Rattle.desk_data.specs.Situation.{fresh_day};
ghost use Rattle.desk_model.specs.States.{opening};
ghost use Rattle.desk_model.specs.Histories.{IsAskable, AreAskable, run};
ghost use Rattle.desk_core.specs.Recorded.{with_entry};

use desk_core::Book;
use desk_data::{Instance, NoMem};
use desk_model::Event;
use std::alloc::Global;

/// Takes one event, asked by this caller. The only error is out of memory.
pub fn take_event(alloc: Global, book: &mut Book, caller: u32, event: &Event) -> Result<(), NoMem>
    requires { IsAskable book.old.opening event.now }
    ensures { OnOk result (book.new ≡ with_entry book.old caller event.now) }
{
    match event {
        Event::Batch(batch) => {
            book.intake(alloc, caller, batch)?;
            Ok(())
        }
        Event::Move(m) => {
            book.propose(alloc, caller, m)?;
            Ok(())
        }
    }
}

/// The book of an instance after these events, each with its caller. The only error is out of memory.
pub fn run_events(alloc: Global, inst: Instance, events: &[(u32, Event)]) -> Result<Book, NoMem>
    requires fresh { inst ≡ fresh_day inst.parts }
    requires asked { AreAskable inst events.now }
    ensures { IfOk result (λ book. book ≡ record { opening = inst; journal = run (opening inst) events.now }) }
{
    let mut book = Book::open(alloc, inst)?;
    for asked in events {
        take_event(alloc, &mut book, asked.0, &asked.1)?;
    }
    Ok(book)
}
