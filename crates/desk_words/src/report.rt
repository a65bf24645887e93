//! What the lines of a report name.

ghost use Rattle.std.specs.Prelude.{◌≡◌, bytes_eq, find};
ghost use Rattle.desk_folder.specs.Files.{file_name};

use desk_folder::{ALL_FILES, File};
use desk_text::{Fields, are_text};

/// A line of a report that says that the input is refused.
#[derive(Clone, Copy)]
pub struct Refused<'a> {
    pub file: File,
    /// the number of the line in decimal; 0 stands for the file as a whole
    pub line: &'a [u8],
    /// the name of the cause
    pub cause: &'a [u8],
}

/// What could not be read or written.
#[derive(Clone, Copy, PartialEq, Eq)]
pub enum Fault {
    Read(File),
    Write(File),
    Report,
    Directories,
}

// Whether a file has this name.
fn is_named(file: File, name: &[u8]) -> bool
    ensures { result ≡ bytes_eq (file_name file) name.now }
{
    file.name().as_bytes() == name
}

/// The file with this name; none where no file has it.
pub fn file_of(name: &[u8]) -> Option<File>
    ensures { result ≡ find (λ file. bytes_eq (file_name file) name.now) ALL_FILES }
{
    ALL_FILES.iter().copied().find(|file| is_named(*file, name))
}

// The bytes before the first line feed.
fn first_line(report: &[u8]) -> &[u8] {
    match report.iter().position(|byte| *byte == b'\n') {
        Some(end) => &report[..end],
        None => report,
    }
}

// The bytes of the last line, without the line feed at its end.
fn last_line(report: &[u8]) -> &[u8] {
    // where the last line that ends begins, and where the bytes after its line feed begin
    let mut line = 0;
    let mut rest = 0;
    for at in 0..report.len() {
        if report[at] == b'\n' {
            line = rest;
            rest = at + 1;
        }
    }
    if rest == 0 || rest < report.len() {
        &report[rest..]
    } else {
        &report[line..rest - 1]
    }
}

// The words of a line; none where it has a byte that no line has.
fn words_of(line: &[u8]) -> Option<Fields<'_>> {
    if are_text(line) {
        Some(Fields::of(line))
    } else {
        None
    }
}

/// The words of the first line.
pub fn first_words(report: &[u8]) -> Option<Fields<'_>> {
    words_of(first_line(report))
}

/// The words of the last line.
pub fn last_words(report: &[u8]) -> Option<Fields<'_>> {
    words_of(last_line(report))
}

/// The refusal that the last line reports.
pub fn refusal_of(report: &[u8]) -> Option<Refused<'_>> {
    let mut words = last_words(report)?;
    if words.next()? != b"refused".as_slice() {
        return None;
    }
    let file = file_of(words.next()?)?;
    let line = words.next()?;
    let cause = words.next()?;
    Some(Refused { file, line, cause })
}

/// Whether the last line reports that the journal on the disk is damaged.
pub fn is_damaged(report: &[u8]) -> bool {
    let Some(mut words) = last_words(report) else {
        return false;
    };
    let first = words.next();
    let second = words.next();
    first == Some(b"refused".as_slice()) && second == Some(b"journal.bin".as_slice())
}

/// The fault that the last line reports.
pub fn fault_of(report: &[u8]) -> Option<Fault> {
    let mut words = last_words(report)?;
    let call = words.next()?;
    let fault = words.next()?;
    if fault != b"fault".as_slice() {
        return None;
    }
    if call == b"place".as_slice() {
        return Some(Fault::Directories);
    }
    let name = words.next()?;
    if name == b"report".as_slice() {
        return Some(Fault::Report);
    }
    let file = file_of(name)?;
    if call == b"read".as_slice() {
        Some(Fault::Read(file))
    } else {
        Some(Fault::Write(file))
    }
}
