//! The airline disruption recovery desk.
//!
//! `replay IN OUT` reads the day, its batches of orders and the journal of the directory IN, takes each
//! recorded batch and answers each recorded move in order, and writes the journal with its answers and the
//! two files of the last plan to OUT. `store IN OUT` does the same and keeps each answered event in OUT/journal.bin before it answers
//! the next, so that a run that was stopped goes on. `recover IN OUT` takes the batches of the day and searches for a
//! cheaper plan after each, until `--moves` moves are accepted, and writes the same files; with `--workers`
//! so many threads search side by side, and with `--live` the batches but the first are taken while they do. `check IN OUT`
//! judges the plan that two files of OUT give, under all the orders of the day in IN: the first rule that it
//! breaks, and its cost. With `--crew` both check the crews of crew.csv besides. `ferry IN OUT` judges the same plan, and where it breaks
//! no rule adds empty legs to it that lower its cost, and writes them to a file of OUT. `gen OUT` makes up a day, by `--seed` and `--size`, and writes its files to OUT;
//! `trial` makes up such a day in memory, recovers it and reports that alone.
//!
//! `main` gives `desk_main_heard` of desk_top the host's threads, the words, the host's folder, disk and standard output, ends with
//! the status that it answers, and empties output files that an earlier run left. On standard error it explains an end that is not
//! the wanted one, by `explain` of desk_words and a copy of the report, and says how far a recovery has come where the environment
//! asks for that. All that is promised of a run is proved of `desk_main_heard`, as of `desk_main`; how `main` calls it is tested by
//! the stored run in `data/`.
#![tactic(auto)]

mod headway;

use desk_data::NoMem;
use desk_disk::HostDisk;
use desk_folder::{File, FreeGate, HostFolder, HostSink, Sink, put_report};
use desk_tasks::{files_read, files_written};
use desk_top::desk_main_heard;
use desk_words::{CopyingSink, command, explain, faulty_path};
use headway::{HeadwayLines, lines_asked};
use std::alloc::Global;
use std::env::Env;
use std::fs::OpenOptions;
use std::io::{ErrorKind, Read};
use std::process::ExitCode;
use std::rt::Files;
use std::{env, fs, io};

// What reads as nothing and can't be written.
const NULL_DEVICE: &str = "/dev/null";

// What is said where another run has the journal on the disk.
const HELD: &str =
    "Another run has journal.bin in OUT: wait until that has ended, or take another OUT. This run has changed nothing.";

// The words after the program's name; none where one of them is no text.
fn words_of<R: Env + Alloc<A = Global>>(rt: &R) -> Result<Vec<String>, NoMem> {
    let alloc = rt.alloc();
    let mut words = Vec::new(alloc);
    match env::args(rt) {
        Ok(args) => {
            for (i, word) in args.enumerate() {
                if i > 0 {
                    words.push(word)?;
                }
            }
        }
        Err(error) => {
            if error.kind() == ErrorKind::OutOfMemory {
                return Err(NoMem);
            }
        }
    }
    Ok(words)
}

// The files that the command of these words reads.
fn inputs_of(words: &[String]) -> &'static [File] {
    match command(words) {
        Some(asked) => files_read(&asked.command),
        None => &[],
    }
}

// The files that it may write.
fn outputs_of(words: &[String]) -> &'static [File] {
    match command(words) {
        Some(asked) => files_written(&asked.command),
        None => &[],
    }
}

// Has what was written beside an input take its place, unless memory ran out, and empties what an earlier run left in these
// files, where this run has written none of them, so that nobody takes it for this run's. A file with which that can't be
// done is named on standard error.
fn settle<R: Files + Drop>(
    rt: &impl Eprint,
    alloc: Global,
    folder: &mut HostFolder<R>,
    outputs: &[File],
    lasted: bool,
) {
    for file in outputs {
        if !folder.settle(alloc, *file, lasted) {
            let _ = rt.eprint("desk: warning: what an earlier run left can't be emptied: ");
            let _ = rt.eprintln(file.name());
        }
    }
}

// Says that memory ran out.
fn out_of_memory<S: Sink>(alloc: Global, out: &mut S) -> u8 {
    let _ = put_report(alloc, out, b"memory\n");
    6
}

// What the system says of a file that this run could not read (status 4) or write (5), when it is asked once more; none where it
// finds nothing wrong now, or no file yet to write. It reads a byte at most, writes none, and opens files and directories alone,
// unless the path is changed between the two calls.
fn system_says<R: Files>(rt: &R, status: u8, path: &str) -> Option<io::Error> {
    let is_write = status == 5;
    let found = match fs::metadata(rt, path) {
        Ok(found) => found,
        Err(error) if is_write && error.kind() == ErrorKind::NotFound => return None,
        Err(error) => return Some(error),
    };
    if !found.is_file() && !found.is_dir() {
        return None;
    }
    let mut options = OpenOptions::new();
    options.read(!is_write).write(is_write);
    match options.open(rt, path) {
        Ok(mut file) if !is_write => file.read(&mut [0; 1]).err(),
        Ok(_) => None,
        Err(error) => Some(error),
    }
}

// Explains on standard error how the run ended. Where memory runs out there is no explanation.
fn explain_end<R: Files + Eprint>(
    rt: &R,
    alloc: Global,
    words: &[String],
    status: u8,
    report: &[u8],
) {
    if let Ok(text) = explain(alloc, words, status, report) {
        let _ = rt.eprint(text.as_str());
    }
    if !matches!(status, 4 | 5) {
        return;
    }
    if let Ok(Some(path)) = faulty_path(alloc, words, report) {
        if let Some(error) = system_says(rt, status, path.as_str()) {
            let _ = eprintln!(rt; "The system says of it: {error}.");
        }
    }
}

fn main(rt: HostRuntime) -> ExitCode {
    let alloc = rt.alloc();
    // where standard input, output or error is closed, its place would go to the first file that is opened, and what is
    // printed into that file: these take such a place, and can't be written
    let _input = fs::open(&rt, NULL_DEVICE);
    let _output = fs::open(&rt, NULL_DEVICE);
    let _error = fs::open(&rt, NULL_DEVICE);
    let mut out = CopyingSink::new(alloc, HostSink::new(rt));
    let Ok(words) = words_of(&rt) else {
        return ExitCode::from(out_of_memory(alloc, &mut out));
    };
    let inputs = inputs_of(words.as_slice());
    let outputs = outputs_of(words.as_slice());
    let mut folder = HostFolder::new(rt, alloc).with_files(inputs, outputs);
    let mut disk = HostDisk::new(rt, alloc);
    let status = desk_main_heard(
        &rt,
        alloc,
        words.as_slice(),
        &mut folder,
        &mut out,
        &FreeGate,
        &mut disk,
        &mut HeadwayLines::new(rt, lines_asked(&rt)),
    );
    // a run that was refused has read, and touches nothing, nor does one whose journal another run has
    let is_held = status == 8 && disk.is_held();
    if !matches!(status, 2..=4) && !is_held {
        settle(&rt, alloc, &mut folder, outputs, status != 6);
    }
    if let Some(report) = out.copy() {
        explain_end(&rt, alloc, words.as_slice(), status, report);
    }
    if is_held {
        let _ = rt.eprintln(HELD);
    }
    ExitCode::from(status)
}
