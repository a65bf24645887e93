//! Taking the events of a story beside the crews of its day.

ghost use Rattle.std.specs.Prelude.{◌≡◌, ◌<◌, ◌++◌, [], IfOk, OnOk, slice_set};
ghost use Rattle.desk_data.specs.PlanRows.{IsRow};
ghost use Rattle.desk_data.specs.Situation.{fresh_day, legs_of};
ghost use Rattle.desk_data.specs.Valid.{IsPlanFor};
ghost use Rattle.desk_model.specs.States.{opening};
ghost use Rattle.desk_model.specs.Histories.{IsAskable, AreAskable, changes, run};
ghost use Rattle.desk_core.specs.Recorded.{state_of, with_entry};
ghost use Rattle.story_commands.specs.Crews.{AreMoreLines};
ghost use Rattle.crew_rules.specs.Valid.{AreCrews};
ghost use Rattle.crew_duty.specs.Board.{IsCrewBoard};
ghost use Rattle.desk_tasks.specs.Runs.{Between};
ghost use Rattle.desk_tasks.specs.Finishing.{Completes};
ghost use Rattle.desk_tasks.specs.Play.{story_on};
ghost use Rattle.desk_tasks.specs.Crew.{crew_line, plan_line, crew_lines, crewed_on, played_crews};
ghost use Rattle.desk_tasks.specs.Tasks.{play_crews, files_for};

use crate::take_events::take_event;
use crew_duty::CrewBoard;
use crew_rules::{CrewBroken, CrewInfo};
use desk_core::Book;
use desk_data::{Instance, Leg, NoMem, Row};
use desk_folder::{Folder, Sink};
use desk_model::Event;
use desk_tasks::Ending;
use history_texts::write_with;
use output_texts::push_crews;
use plan_pages::Pages;
use std::alloc::Global;

// Gives the board the row of a leg, where it has another one.
fn follow_leg(
    alloc: Global,
    inst: &Instance,
    crews: &[CrewInfo],
    board: &mut CrewBoard,
    leg: Leg,
    row: Row,
) -> Result<(), NoMem>
    requires crews { AreCrews inst.now.parts crews.now }
    requires leg { leg.0 < legs_of inst.now }
    requires row { IsRow row }
    requires board { IsCrewBoard inst.now.parts crews.now board.old }
    ensures board { OnOk result (IsCrewBoard inst.now.parts crews.now board.new) }
    ensures rows { OnOk result (board.new.rows ≡ slice_set board.old.rows leg.0 row) }
{
    if board.row(leg) == row {
        Ok(())
    } else {
        board.set_row(alloc, inst, crews, leg, row)
    }
}

// Gives the board the rows of a plan, those that differ.
#[tactic(auto, using(crate::proofs::CrewLaws::rows_set, crate::proofs::CrewLaws::rows_all))]
fn follow(
    alloc: Global,
    inst: &Instance,
    crews: &[CrewInfo],
    board: &mut CrewBoard,
    plan: &Pages,
) -> Result<(), NoMem>
    requires crews { AreCrews inst.now.parts crews.now }
    requires plan { IsPlanFor inst.now plan.now }
    requires board { IsCrewBoard inst.now.parts crews.now board.old }
    ensures board { OnOk result (IsCrewBoard inst.now.parts crews.now board.new) }
    ensures rows { OnOk result (board.new.rows ≡ plan.now.rows) }
{
    for number in 0..inst.legs() {
        let leg = Leg(number);
        let row = plan.read_row(leg);
        follow_leg(alloc, inst, crews, board, leg, row)?;
    }
    Ok(())
}

// Adds the line of the crews after so many changes.
fn push_line(
    lines: &mut Vec<u8>,
    crews: &[CrewInfo],
    number: u32,
    item: Option<CrewBroken>,
) -> Result<(), NoMem>
    ensures { OnOk result (lines.new.items ≡ lines.old.items ++ crew_line crews.now number item) }
{
    let head = format!(in *lines.allocator(); "crew {number} ")?;
    lines.extend_from_slice(head.as_bytes())?;
    push_crews(lines, crews, item)?;
    lines.push(b'\n')?;
    Ok(())
}

// Adds the line of the crews after a change, where it leaves a plan.
fn push_change(
    alloc: Global,
    book: &Book,
    crews: &[CrewInfo],
    board: &mut CrewBoard,
    lines: &mut Vec<u8>,
) -> Result<(), NoMem>
    requires crews { AreCrews book.now.opening.parts crews.now }
    requires board { IsCrewBoard book.now.opening.parts crews.now board.old }
    ensures board { OnOk result (IsCrewBoard book.now.opening.parts crews.now board.new) }
    ensures lines { OnOk result (lines.new.items ≡ lines.old.items ++ plan_line crews.now (changes book.now.journal) (state_of book.now) (state_of book.now).broken) }
{
    match book.broken() {
        Some(_) => Ok(()),
        None => {
            follow(alloc, book.instance(), crews, board, book.eval().plan())?;
            push_line(lines, crews, book.changes(), board.least())
        }
    }
}

// Takes one event, asked by this caller, and adds the line of the crews where it changed the plan. The only error is out of
// memory.
fn take_beside(
    alloc: Global,
    crews: &[CrewInfo],
    book: &mut Book,
    board: &mut CrewBoard,
    lines: &mut Vec<u8>,
    asked: &(u32, Event),
) -> Result<(), NoMem>
    requires asked { IsAskable book.old.opening asked.now.1 }
    requires crews { AreCrews book.old.opening.parts crews.now }
    requires board { IsCrewBoard book.old.opening.parts crews.now board.old }
    ensures book { OnOk result (book.new ≡ with_entry book.old asked.now.0 asked.now.1) }
    ensures board { OnOk result (IsCrewBoard book.old.opening.parts crews.now board.new) }
    ensures lines { OnOk result (AreMoreLines crews.now book.old book.new lines.old.items lines.new.items) }
{
    let before = book.changes();
    take_event(alloc, book, asked.0, &asked.1)?;
    if book.changes() > before {
        return push_change(alloc, book, crews, board, lines);
    }
    Ok(())
}

// The book of an instance after these events, each with its caller, and a line of the crews for each change that left a plan.
// The only error is out of memory.
fn run_beside(
    alloc: Global,
    inst: Instance,
    crews: &[CrewInfo],
    events: &[(u32, Event)],
) -> Result<(Book, Vec<u8>), NoMem>
    requires fresh { inst ≡ fresh_day inst.parts }
    requires asked { AreAskable inst events.now }
    requires crews { AreCrews inst.parts crews.now }
    ensures book { IfOk result (λ done. done.0 ≡ record { opening = inst; journal = run (opening inst) events.now }) }
    ensures lines { IfOk result (λ done. done.1.items ≡ crew_lines (opening inst) crews.now [] (run (opening inst) events.now)) }
{
    let plan = inst.schedule(alloc)?;
    let mut board = CrewBoard::open(alloc, &inst, crews, &plan)?;
    let mut book = Book::open(alloc, inst)?;
    let mut lines = Vec::new(alloc);
    for asked in events {
        take_beside(alloc, crews, &mut book, &mut board, &mut lines, asked)?;
    }
    Ok((book, lines))
}

/// Does the same as `play_events` beside the crews of the day: the report has a line for each change that left a plan,
/// `crew N ok` or `crew N K3 NAME`, by the number of changes so far, before the line with all of them. A board of the crews is
/// kept along the run. It ends as that does.
pub fn play_beside_crews<F: Folder, O: Sink>(
    alloc: Global,
    inst: Instance,
    crews: &[CrewInfo],
    events: &[(u32, Event)],
    folder: &mut F,
    out: &mut O,
) -> Ending
    requires fresh { inst ≡ fresh_day inst.parts }
    requires asked { AreAskable inst events.now }
    requires crews { AreCrews inst.parts crews.now }
    ensures { Between F.outside O.report folder.old out.old folder.new out.new (λ before now.
        Completes (files_for (play_crews (crewed_on (story_on inst events.now) crews.now))) before now (played_crews (crewed_on (story_on inst events.now) crews.now)) result) }
{
    match run_beside(alloc, inst, crews, events) {
        Ok(done) => {
            let (book, lines) = done;
            write_with(alloc, &book, None, lines.as_slice(), folder, out)
        }
        Err(_) => Ending::Memory,
    }
}
