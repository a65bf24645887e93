//! Explains the ends of runs that the standard input lists: each cause of each file, each rule and each fault.
//!
//! A line is `STATUS WORD .. > REPORT`, with `;` between the lines of the report. Each is printed, and its explanation below it.
//! `bench/help.py` compares what this prints with the pages.

use desk_words::explain;
use std::alloc::{AllocError, Global};
use std::io;
use std::io::ErrorKind;

// The words of a case after its status.
fn words_of(alloc: Global, text: &str) -> Result<Vec<String>, AllocError> {
    let mut words = Vec::new(alloc);
    for word in text.split_whitespace() {
        words.push(String::from_str(alloc, word)?)?;
    }
    Ok(words)
}

// A report with its line feeds.
fn report_of(alloc: Global, text: &str) -> Result<Vec<u8>, AllocError> {
    let mut report = Vec::new(alloc);
    for byte in text.as_bytes() {
        report.push(if *byte == b';' { b'\n' } else { *byte })?;
    }
    report.push(b'\n')?;
    Ok(report)
}

// Explains one case.
fn show(rt: HostRuntime, case: &str) -> io::Result<()> {
    let alloc = rt.alloc();
    println!(rt; "$ {case}")?;
    let (run, report) = case.split_once(" > ").unwrap_or((case, ""));
    let (status, words) = run.split_once(' ').unwrap_or((run, ""));
    let words = words_of(alloc, words)?;
    let report = report_of(alloc, report)?;
    let status = status.parse::<u8>().unwrap_or(u8::MAX);
    match explain(alloc, words.as_slice(), status, report.as_slice()) {
        Ok(text) => rt.print(text.as_str()),
        Err(_) => Err(io::Error::from(ErrorKind::OutOfMemory)),
    }
}

/// Explains each case of the standard input.
pub(crate) fn explain_all(rt: HostRuntime) -> io::Result<()> {
    for line in rt.lines(rt.alloc()) {
        show(rt, line?.as_str())?;
    }
    Ok(())
}
