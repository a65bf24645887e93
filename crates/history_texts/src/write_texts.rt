//! Writing what a history came to.

ghost use Rattle.std.specs.Prelude.{◌≡◌, [], All, None};
ghost use Rattle.desk_tasks.specs.Commands.{history_files};
ghost use Rattle.desk_tasks.specs.Runs.{Between};
ghost use Rattle.desk_tasks.specs.Finishing.{Completes};
ghost use Rattle.desk_model.specs.States.{opening};
ghost use Rattle.desk_model.specs.Views.{IsSightOf};
ghost use Rattle.desk_tasks.specs.Play.{search_remarks, watch_remarks, remarks_with, history_outcome, played_end};
ghost use Rattle.desk_tasks.specs.Recover.{reported_alone};
ghost use Rattle.desk_tasks.specs.Keep.{opened_first};

use crate::texts::{opened_texts, output_texts, report_alone, views_text};
use desk_core::Book;
use desk_data::Broken;
use desk_folder::{Folder, Sink};
use desk_model::View;
use desk_tasks::{Ending, SearchEnd, put_outputs};
use std::alloc::Global;

// How a run ends that wrote all of its texts, by what its last plan breaks.
fn end_with(broken: Option<Broken>) -> Ending
    ensures { result ≡ played_end broken }
{
    match broken {
        None => Ending::Done,
        Some(_) => Ending::NoPlan,
    }
}

/// Writes the rotations and the itineraries of the book's plan where it has one, its journal, and the report,
/// with the end of the last search where one is reported.
///
/// It ends with `Done` or `NoPlan` when all is written. A write that fails ends it with that fault, and
/// `Memory` may come at any time: what is written by then is a beginning of the texts, in their order.
pub fn write_history<F: Folder, O: Sink>(
    alloc: Global,
    book: &Book,
    search: Option<SearchEnd>,
    folder: &mut F,
    out: &mut O,
) -> Ending
    ensures { Between F.outside O.report folder.old out.old folder.new out.new (λ before now.
        Completes history_files before now (history_outcome book.now.opening (search_remarks search) book.now.journal) result) }
{
    write_with(alloc, book, search, b"", folder, out)
}

/// Writes the same as `write_history`, with these lines in the report before the number of changes. It ends as that does.
pub fn write_with<F: Folder, O: Sink>(
    alloc: Global,
    book: &Book,
    search: Option<SearchEnd>,
    lines: &[u8],
    folder: &mut F,
    out: &mut O,
) -> Ending
    ensures { Between F.outside O.report folder.old out.old folder.new out.new (λ before now.
        Completes history_files before now (history_outcome book.now.opening (remarks_with search lines.now) book.now.journal) result) }
{
    let texts = match output_texts(alloc, book, search, lines) {
        Ok(texts) => texts,
        Err(_) => return Ending::Memory,
    };
    match put_outputs(alloc, folder, out, &texts) {
        Ok(()) => end_with(book.broken()),
        Err(end) => end,
    }
}

/// Writes the same as `write_history`, with a line `seen ENTRIES CHANGES COST`, or `seen ENTRIES CHANGES no plan BROKEN`, in the
/// report before the number of changes for each of these views. Each is that of a beginning of the journal. It ends as that does.
pub fn write_watched<F: Folder, O: Sink>(
    alloc: Global,
    book: &Book,
    search: Option<SearchEnd>,
    seen: &[View],
    folder: &mut F,
    out: &mut O,
) -> Ending
    requires { All (IsSightOf (opening book.now.opening) book.now.journal) seen.now }
    ensures { Between F.outside O.report folder.old out.old folder.new out.new (λ before now.
        Completes history_files before now (history_outcome book.now.opening (watch_remarks book.now.opening search seen.now) book.now.journal) result) }
{
    match views_text(alloc, book, seen) {
        Ok(lines) => write_with(alloc, book, search, lines.as_slice(), folder, out),
        Err(_) => Ending::Memory,
    }
}

/// Writes the same as `write_history` where no search is reported, with a line `opened N` first in the report: so many entries
/// of the journal a disk held. It ends as that does.
pub fn write_opened<F: Folder, O: Sink>(
    alloc: Global,
    book: &Book,
    held: u32,
    folder: &mut F,
    out: &mut O,
) -> Ending
    ensures { Between F.outside O.report folder.old out.old folder.new out.new (λ before now.
        Completes history_files before now (opened_first held (history_outcome book.now.opening (search_remarks None) book.now.journal)) result) }
{
    let texts = match opened_texts(alloc, book, held) {
        Ok(texts) => texts,
        Err(_) => return Ending::Memory,
    };
    match put_outputs(alloc, folder, out, &texts) {
        Ok(()) => end_with(book.broken()),
        Err(end) => end,
    }
}

/// Writes the report alone, and no file.
///
/// It ends with `Done` or `NoPlan` when it is written, with `ReportFault` where the sink fails, and with
/// `Memory` at any time: what is written by then is a beginning of the report.
pub fn report_history<F: Folder, O: Sink>(
    alloc: Global,
    book: &Book,
    search: Option<SearchEnd>,
    folder: &mut F,
    out: &mut O,
) -> Ending
    ensures { Between F.outside O.report folder.old out.old folder.new out.new (λ before now.
        Completes [] before now (reported_alone (history_outcome book.now.opening (search_remarks search) book.now.journal)) result) }
{
    let texts = match report_alone(alloc, book, search) {
        Ok(texts) => texts,
        Err(_) => return Ending::Memory,
    };
    match put_outputs(alloc, folder, out, &texts) {
        Ok(()) => end_with(book.broken()),
        Err(end) => end,
    }
}
