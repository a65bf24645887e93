//! The page of a recovered day: the program that makes it.
//!
//! # The picture
//!
//! The picture of a recovered day: which aircraft flies which leg, and what was scheduled.
//!
//! `Picture::of(alloc, &inst, &plan)` gathers what is drawn, and `put_picture` puts it on a page: for each day of 24 hours, or
//! for the whole of a shorter one, a table with a row for each aircraft and a drawing (SVG) in it. A bar is a leg that is
//! flown; below the bars stand outlines of scheduled places that the plan leaves, also those of cancelled legs. What changed
//! is told by form and by colour: a pointed end is another time, a dark bar another aircraft, a dashed outline a cancelled leg.
//! Out-of-service spans, maintenance, closed hours and what lies outside the window are shaded. docs/PAGE.md has each element.
//!
//! It counts in whole units, 1,440 to the width of a drawing. Nothing is proved of where things stand but that the calls are
//! safe and return; what bars tell comes from `changed_legs`, and all text goes through `Page`, both of page_parts.
//!
//! # The page
//!
//! The page of a recovered day: from its files and those of a plan to a page of HTML that stands alone.
//!
//! `page_day(alloc, &mut folder, &mut out)` reads the day and the plan as `check` of the desk does, checks the plan against the
//! rules, and puts the page into a sink. `directories` takes the two words of the program, and `PageFile` is the host's file
//! for the page.
//!
//! Proved: which files are read, and that none is written; that the input is refused just as `check` refuses it; that the run
//! ends with `Done` where the plan breaks no rule and with `BrokenRule` where it breaks one, and that then a page was put. What
//! stands on the page is proved in page_parts: the terms of a cost, what changed, and that text is escaped; where it stands is not.
//!
//! # The program
//!
//! `day_page IN OUT` reads the day of the directory IN and the plan that two files of OUT give, as `check` of the desk does, and
//! writes OUT/day.html: one page that needs nothing else. With a third word `-` the page goes to standard output.
//!
//! It ends with status 0 where the plan meets the rules and with 7 where it breaks one; the page is written then. With 2 the
//! words are no directories, with 3 the input is refused, with 4 a file can't be read, with 5 the page can't be written, and
//! with 6 memory ran out; standard error says which. All that is promised of a run is proved of `page_day`; how `main` calls it
//! is tested by the stored run in `data/`.
#![tactic(auto)]

mod airports;
mod axis;
mod bars;
mod draw;
mod file;
mod made;
mod page;
mod picture;
mod rows;
mod shades;
mod style;
mod words;

use desk_data::NoMem;
use desk_folder::{Folder, FolderFault, HostFolder, HostSink, Sink};
use desk_tasks::{Ending, fault_text};
use file::PageFile;
use page::page_day;
use std::alloc::Global;
use std::env;
use std::env::Env;
use std::io::ErrorKind;
use std::process::ExitCode;
use words::directories;

// The words after the program's name; none where one of them is no text.
fn words_of<R: Env + Alloc<A = Global>>(rt: &R) -> Result<Vec<String>, NoMem> {
    let mut words = Vec::new(rt.alloc());
    match env::args(rt) {
        Ok(args) => {
            for (i, word) in args.enumerate() {
                if i > 0 {
                    words.push(word)?;
                }
            }
        }
        Err(error) => {
            if error.kind() == ErrorKind::OutOfMemory {
                return Err(NoMem);
            }
        }
    }
    Ok(words)
}

// Reads the day and the plan of two directories, and puts the page into a sink.
fn read_and_put<F: Folder, O: Sink>(
    alloc: Global,
    folder: &mut F,
    input: &str,
    output: &str,
    out: &mut O,
) -> Ending {
    match folder.place(alloc, input, output) {
        Ok(()) => page_day(alloc, folder, out),
        Err(FolderFault::Failed) => Ending::PlaceFault,
        Err(FolderFault::Memory) => Ending::Memory,
    }
}

// Makes the page that the words ask for.
fn run(rt: HostRuntime, words: &[String]) -> Ending {
    let alloc = rt.alloc();
    let mut folder = HostFolder::new(rt, alloc);
    let (first, is_printed) = match words {
        [_, _, dash] if dash.as_str() == "-" => (&words[..2], true),
        _ => (words, false),
    };
    let Some(named) = directories(first) else {
        return Ending::Usage;
    };
    if is_printed {
        let mut out = HostSink::new(rt);
        return read_and_put(alloc, &mut folder, named.input, named.output, &mut out);
    }
    match PageFile::of(rt, alloc, named.output) {
        Ok(mut out) => read_and_put(alloc, &mut folder, named.input, named.output, &mut out),
        Err(_) => Ending::Memory,
    }
}

fn main(rt: HostRuntime) -> ExitCode {
    let ending = match words_of(&rt) {
        Ok(words) => run(rt, words.as_slice()),
        Err(_) => Ending::Memory,
    };
    if let Ok(text) = fault_text(rt.alloc(), &ending) {
        let _ = rt.eprint(text.as_str());
    }
    ExitCode::from(ending.status())
}
