//! Taking the events of a story, and writing what came of them.

ghost use Rattle.std.specs.Prelude.{◌≡◌};
ghost use Rattle.desk_data.specs.Situation.{fresh_day};
ghost use Rattle.desk_model.specs.Histories.{AreAskable};
ghost use Rattle.desk_tasks.specs.Runs.{Between};
ghost use Rattle.desk_tasks.specs.Finishing.{Completes};
ghost use Rattle.desk_tasks.specs.Play.{story_on, played};
ghost use Rattle.desk_tasks.specs.Tasks.{play, files_for};

use crate::take_events::run_events;
use desk_data::Instance;
use desk_folder::{Folder, Sink};
use desk_model::Event;
use desk_tasks::Ending;
use history_texts::write_history;
use std::alloc::Global;

/// Takes these events on a day, each with its caller, and writes the rotations and the itineraries of the
/// last plan where there is one, the journal with its answers, and the report.
///
/// It ends with `Done` or `NoPlan` when all is written. A write that fails ends it with that fault, and
/// `Memory` may come at any time: what is written by then is a beginning of the texts, in their order.
pub fn play_events<F: Folder, O: Sink>(
    alloc: Global,
    inst: Instance,
    events: &[(u32, Event)],
    folder: &mut F,
    out: &mut O,
) -> Ending
    requires fresh { inst ≡ fresh_day inst.parts }
    requires asked { AreAskable inst events.now }
    ensures { Between F.outside O.report folder.old out.old folder.new out.new (λ before now.
        Completes (files_for (play (story_on inst events.now))) before now (played (story_on inst events.now)) result) }
{
    match run_events(alloc, inst, events) {
        Ok(book) => write_history(alloc, &book, None, folder, out),
        Err(_) => Ending::Memory,
    }
}
