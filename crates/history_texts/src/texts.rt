//! The texts that a run writes.

ghost use Rattle.std.specs.Prelude.{◌≡◌, ◌++◌, All, IfOk, IfSome, OnOk, Option, None};
ghost use Rattle.desk_core.specs.Recorded.{state_of};
ghost use Rattle.output_texts.specs.Lines.{journal_text};
ghost use Rattle.output_texts.specs.Writable.{AnswerNames, CanBeWritten, Names};
ghost use Rattle.desk_tasks.specs.Play.{planned_rotations, planned_itineraries, batch_line, batch_lines, search_line, end_lines, seen_line, seen_lines, search_remarks, remarks_with, report_text, history_outcome};
ghost use Rattle.desk_tasks.specs.Recover.{reported_alone};
ghost use Rattle.desk_tasks.specs.Keep.{opened_line, opened_first};
ghost use Rattle.desk_tasks.specs.Writing.{as_texts};
ghost use Rattle.desk_model.specs.States.{opening};
ghost use Rattle.desk_model.specs.Views.{IsSightOf};

use desk_core::Book;
use desk_data::{Instance, NoMem};
use desk_folder::File;
use desk_model::{Answer, Entry, View};
use desk_tasks::{OutputTexts, SearchEnd};
use output_texts::{
    itineraries_text, journal_text, legal_entries_can_be_written, push_answer, push_broken,
    rotations_text,
};
use std::alloc::Global;

// The rotations of the book's plan, or nothing where it has none.
fn planned_rotations(alloc: Global, book: &Book) -> Result<Vec<u8>, NoMem>
    ensures { IfOk result (λ text. text.items ≡ planned_rotations (state_of book.now) (state_of book.now).broken) }
{
    match book.broken() {
        Some(_) => Ok(Vec::new(alloc)),
        None => rotations_text(alloc, book.instance(), book.eval().plan()),
    }
}

// The itineraries of the book's plan, or nothing where it has none.
fn planned_itineraries(alloc: Global, book: &Book) -> Result<Vec<u8>, NoMem>
    ensures { IfOk result (λ text. text.items ≡ planned_itineraries (state_of book.now) (state_of book.now).broken) }
{
    match book.broken() {
        Some(_) => Ok(Vec::new(alloc)),
        None => itineraries_text(alloc, book.instance(), book.eval().plan()),
    }
}

// Adds the line of a batch, by its number: what was answered to it.
fn push_batch(
    text: &mut Vec<u8>,
    inst: &Instance,
    number: usize,
    answer: &Answer,
) -> Result<(), NoMem>
    requires { AnswerNames inst.now answer.now }
    ensures { OnOk result (text.new.items ≡ text.old.items ++ batch_line inst.now number answer.now) }
{
    let head = format!(in *text.allocator(); "batch {number} ")?;
    text.extend_from_slice(head.as_bytes())?;
    push_answer(text, inst, answer)?;
    text.push(b'\n')?;
    Ok(())
}

// Adds a line for each batch of these entries, numbered from 0.
fn push_batches(text: &mut Vec<u8>, inst: &Instance, entries: &[Entry]) -> Result<(), NoMem>
    requires { All (CanBeWritten inst.now) entries.now }
    ensures { OnOk result (text.new.items ≡ text.old.items ++ batch_lines inst.now entries.now) }
{
    let mut number = 0;
    for entry in entries {
        if entry.event.is_batch() {
            push_batch(text, inst, number, &entry.answer)?;
            number += 1;
        }
    }
    Ok(())
}

// Adds how many changes there were, and the cost of the plan or what is broken.
#[tactic(auto, unfolding(desk_tasks::specs::Play::end_lines))]
fn push_end(text: &mut Vec<u8>, book: &Book) -> Result<(), NoMem>
    ensures { OnOk result (text.new.items ≡ text.old.items ++ end_lines book.now.opening book.now.journal) }
{
    let alloc = *text.allocator();
    let changes = book.changes();
    match book.broken() {
        None => {
            let cost = book.cost().0;
            let end = format!(in alloc; "changes {changes}\ncost {cost}\n")?;
            text.extend_from_slice(end.as_bytes())?;
            Ok(())
        }
        Some(item) => {
            let end = format!(in alloc; "changes {changes}\nno plan ")?;
            text.extend_from_slice(end.as_bytes())?;
            push_broken(text, book.instance(), &item)?;
            text.push(b'\n')?;
            Ok(())
        }
    }
}

// Adds how the last search ended, where it is reported.
fn push_search(text: &mut Vec<u8>, search: Option<SearchEnd>) -> Result<(), NoMem>
    ensures { OnOk result (text.new.items ≡ text.old.items ++ search_line search) }
{
    match search {
        None => {}
        Some(SearchEnd::Budget) => text.extend_from_slice(b"ended budget\n")?,
        Some(SearchEnd::Quiet) => text.extend_from_slice(b"ended quiet\n")?,
    }
    Ok(())
}

// Adds the line of a view that was seen: its numbers of entries and of changes, and its cost or what is broken.
fn push_seen(text: &mut Vec<u8>, inst: &Instance, view: &View) -> Result<(), NoMem>
    requires { IfSome view.now.broken (Names inst.now) }
    ensures { OnOk result (text.new.items ≡ text.old.items ++ seen_line inst.now view.now) }
{
    let alloc = *text.allocator();
    let entries = view.entries;
    let changes = view.changes;
    match view.broken {
        None => {
            let cost = view.cost.0;
            let line = format!(in alloc; "seen {entries} {changes} {cost}\n")?;
            text.extend_from_slice(line.as_bytes())?;
            Ok(())
        }
        Some(item) => {
            let head = format!(in alloc; "seen {entries} {changes} no plan ")?;
            text.extend_from_slice(head.as_bytes())?;
            push_broken(text, inst, &item)?;
            text.push(b'\n')?;
            Ok(())
        }
    }
}

// Adds a line for each view that was seen.
fn push_views(text: &mut Vec<u8>, inst: &Instance, seen: &[View]) -> Result<(), NoMem>
    requires { All (λ v. IfSome v.broken (Names inst.now)) seen.now }
    ensures { OnOk result (text.new.items ≡ text.old.items ++ seen_lines inst.now seen.now) }
{
    for view in seen {
        push_seen(text, inst, view)?;
    }
    Ok(())
}

/// The lines of these views, each of a beginning of the book's journal.
pub(crate) fn views_text(alloc: Global, book: &Book, seen: &[View]) -> Result<Vec<u8>, NoMem>
    requires { All (IsSightOf (opening book.now.opening) book.now.journal) seen.now }
    ensures { IfOk result (λ text. text.items ≡ seen_lines book.now.opening seen.now) }
{
    let mut text = Vec::new(alloc);
    push_views(&mut text, book.instance(), seen)?;
    Ok(text)
}

// What was answered to each batch, how the last search ended, these lines, how many changes there were, and the cost of the
// plan or what is broken.
#[tactic(auto, unfolding(desk_tasks::specs::Play::report_text))]
fn report_text(
    alloc: Global,
    book: &Book,
    search: Option<SearchEnd>,
    lines: &[u8],
) -> Result<Vec<u8>, NoMem>
    ensures { IfOk result (λ text. text.items ≡ report_text book.now.opening (remarks_with search lines.now) book.now.journal) }
{
    let inst = book.instance();
    let mut text = Vec::new(alloc);
    push_batches(&mut text, inst, book.journal())?;
    push_search(&mut text, search)?;
    text.extend_from_slice(lines)?;
    push_end(&mut text, book)?;
    Ok(text)
}

// The journal of the book.
fn book_journal(alloc: Global, book: &Book) -> Result<Vec<u8>, NoMem>
    ensures { IfOk result (λ text. text.items ≡ journal_text book.now.opening book.now.journal) }
{
    legal_entries_can_be_written();
    journal_text(alloc, book.instance(), book.journal())
}

/// The texts of a book's journal and state, the report with these lines before the number of changes.
#[tactic(auto, unfolding(desk_tasks::specs::Play::history_outcome))]
pub(crate) fn output_texts(
    alloc: Global,
    book: &Book,
    search: Option<SearchEnd>,
    lines: &[u8],
) -> Result<OutputTexts, NoMem>
    ensures { IfOk result (λ t. as_texts t ≡ (history_outcome book.now.opening (remarks_with search lines.now) book.now.journal).texts) }
{
    let mut files = Vec::new(alloc);
    files.push((File::SolRotations, planned_rotations(alloc, book)?))?;
    files.push((File::SolItineraries, planned_itineraries(alloc, book)?))?;
    files.push((File::Journal, book_journal(alloc, book)?))?;
    let report = report_text(alloc, book, search, lines)?;
    Ok(OutputTexts { files, report })
}

// The line that says how many entries a disk held, and a report after it.
fn opened_report(alloc: Global, held: u32, report: &[u8]) -> Result<Vec<u8>, NoMem>
    ensures { IfOk result (λ text. text.items ≡ opened_line held ++ report.now) }
{
    let head = format!(in alloc; "opened {held}\n")?;
    let mut text = Vec::from_slice(alloc, head.as_bytes())?;
    text.extend_from_slice(report)?;
    Ok(text)
}

/// The texts of a book's journal and state, the report with how many entries a disk held as its first line.
#[tactic(auto, unfolding(desk_tasks::specs::Keep::opened_first))]
pub(crate) fn opened_texts(alloc: Global, book: &Book, held: u32) -> Result<OutputTexts, NoMem>
    ensures { IfOk result (λ t. as_texts t ≡ (opened_first held (history_outcome book.now.opening (search_remarks None) book.now.journal)).texts) }
{
    let texts = output_texts(alloc, book, None, b"")?;
    let OutputTexts { files, report } = texts;
    let report = opened_report(alloc, held, report.as_slice())?;
    Ok(OutputTexts { files, report })
}

/// The report alone.
#[tactic(auto, unfolding(desk_tasks::specs::Play::history_outcome, desk_tasks::specs::Recover::reported_alone))]
pub(crate) fn report_alone(
    alloc: Global,
    book: &Book,
    search: Option<SearchEnd>,
) -> Result<OutputTexts, NoMem>
    ensures { IfOk result (λ t. as_texts t ≡ (reported_alone (history_outcome book.now.opening (search_remarks search) book.now.journal)).texts) }
{
    let files = Vec::new(alloc);
    let report = report_text(alloc, book, search, b"")?;
    Ok(OutputTexts { files, report })
}
