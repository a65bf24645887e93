//! The lines of a journal.

ghost use Rattle.std.specs.Prelude.{◌≡◌, ◌++◌, OnOk, IfOk, All, List as Items};
ghost use Rattle.desk_data.specs.Situation.{Situation};
ghost use Rattle.desk_model.specs.declared.answer.Entry.{Entry as Recorded};
ghost use Rattle.desk_model.specs.States.{opening};
ghost use Rattle.desk_model.specs.Histories.{IsLegal};
ghost use Rattle.output_texts.specs.Lines.{detail_text, kind_text, line_text, journal_text};
ghost use Rattle.output_texts.specs.Writable.{CanBeWritten, EventNames};

use crate::answers::push_answer;
use crate::quoting::push_quoted;
use crate::steps::push_move;
use desk_data::{Instance, NoMem};
use desk_model::{Entry, Event};
use desk_text::{push_all, push_number};
use std::alloc::Global;

/// A journal as text: the line of each entry, in order, a batch's number being how many batches
/// stand before it. The only error is out of memory.
#[tactic(auto, unfolding(crate::specs::Lines::journal_text))]
pub fn journal_text(alloc: Global, inst: &Instance, entries: &[Entry]) -> Result<Vec<u8>, NoMem>
    requires { All (CanBeWritten inst.now) entries.now }
    ensures { IfOk result (λ text. text.items ≡ journal_text inst.now entries.now) }
{
    let mut text = Vec::new(alloc);
    let mut field = Vec::new(alloc);
    let mut batches = 0;
    for entry in entries {
        push_line(&mut text, &mut field, inst, batches, entry)?;
        if entry.event.is_batch() {
            batches += 1;
        }
    }
    Ok(text)
}

/// The line of an entry: `CALLER,batch,NUMBER,REPLY` or `CALLER,move,STEPS,REPLY`, and LF. A field
/// that has a comma or a quote mark stands between quote marks, each quote mark in it twice. A batch
/// has this number; of a move it is not looked at. The only error is out of memory.
pub fn journal_line(
    alloc: Global,
    inst: &Instance,
    number: u32,
    entry: &Entry,
) -> Result<Vec<u8>, NoMem>
    requires { CanBeWritten inst.now entry.now }
    ensures { IfOk result (λ text. text.items ≡ line_text inst.now number entry.now) }
{
    let mut text = Vec::new(alloc);
    let mut field = Vec::new(alloc);
    push_line(&mut text, &mut field, inst, number as usize, entry)?;
    Ok(text)
}

/// Adds the line of an entry; a batch has this number. The fields that may need quotes are made in
/// `field`, whatever it had.
#[tactic(auto, unfolding(crate::specs::Lines::line_text))]
fn push_line(
    text: &mut Vec<u8>,
    field: &mut Vec<u8>,
    inst: &Instance,
    number: usize,
    entry: &Entry,
) -> Result<(), NoMem>
    requires { CanBeWritten inst.now entry.now }
    ensures { OnOk result (text.new.items ≡ text.old.items ++ line_text inst.now number entry.now) }
{
    push_number(text, u128::from(entry.caller))?;
    push_all(text, &[b",", kind_text(&entry.event), b","])?;
    field.clear();
    push_detail(field, inst, number, &entry.event)?;
    push_quoted(text, field)?;
    push_all(text, &[b","])?;
    field.clear();
    push_answer(field, inst, &entry.answer)?;
    push_quoted(text, field)?;
    push_all(text, &[b"\n"])
}

/// The word for the kind of an event.
#[tactic(auto, unfolding(crate::specs::Lines::kind_text))]
fn kind_text(event: &Event) -> &'static [u8]
    ensures { result.now ≡ kind_text event.now }
{
    match event {
        Event::Batch(_) => b"batch",
        Event::Move(_) => b"move",
    }
}

/// Adds what an event says: the number of a batch, or the steps of a move.
#[tactic(auto, unfolding(crate::specs::Lines::detail_text))]
fn push_detail(
    text: &mut Vec<u8>,
    inst: &Instance,
    number: usize,
    event: &Event,
) -> Result<(), NoMem>
    requires { EventNames inst.now event.now }
    ensures { OnOk result (text.new.items ≡ text.old.items ++ detail_text inst.now number event.now) }
{
    match event {
        Event::Batch(_) => push_number(text, number as u128),
        Event::Move(m) => push_move(text, inst, m),
    }
}

/// Each entry of a legal history from the opening of an instance can be reported: what it asks and what
/// it answers names legs, aircraft, airports and reservations of the instance.
pub fn legal_entries_can_be_written()
    ensures { (I : Situation) (h : Items Recorded) → IsLegal (opening I) h → All (CanBeWritten I) h }
{}
