//! The lines of a transcript.

use crate::gate::Entrance;
use desk_folder::{ALL_FILES, File};
use std::alloc::{AllocError, Global};

/// A kind of call of which some can be made to fail.
#[derive(Clone, Copy)]
pub(crate) enum Call {
    Next,
    Put,
    Report,
}

/// How a transcript gives the files that a run writes.
#[derive(Clone, Copy)]
pub(crate) enum Shown {
    /// by their texts
    Texts,
    /// `sizes`: by how many bytes each has
    Sizes,
    /// `repeats`: by their texts, but of lines one after another that are the same there is one, after how many times it comes
    Repeats,
}

/// What a command does. All but `Desk` and `Fronts` are about the next run alone.
#[derive(Clone, Copy)]
pub(crate) enum Command<'a> {
    /// `./desk WORD ..`: runs the desk; `''` is a word of no bytes
    Desk(&'a str),
    /// `fronts FILE WORD ..`: runs the desk with each beginning of the file in its place, from no bytes on to all, and gives once
    /// what several of them gave, one after another. Of what is about the next run only texts are about all of these.
    Fronts(File, &'a str),
    /// `text FILE TEXT`: the file has this text, in which `\n`, `\r`, `\t`, `\\` and `\xNN` are one byte each
    Text(File, &'a str),
    /// `rows FILE FROM TO TEXT`: the file has this text after its own for each number from FROM to TO,
    /// which stands in the place of `{}`
    Rows(File, u64, u64, &'a str),
    /// `take FILE`: the file has what the run before wrote
    Take(File),
    /// `fail place`: the naming of the directories fails
    FailPlace,
    /// `fail disk NUMBER BYTES`: the call of the disk of this number fails, counted from 1, and so many bytes of what it was to
    /// write stand
    FailDisk(u64, usize),
    /// `disk TEXT`: the file on the disk has these bytes, written as those of `text`
    Disk(&'a str),
    /// `fail CALL NUMBER`: the call of this number fails, counted from 1
    Fail(Call, u64),
    /// `room NUMBER`: the sink takes so many bytes, and then fails
    Room(u64),
    /// `hold WORKER ROUND OTHER ROUND`: who enters the gate as WORKER in that round waits there until OTHER has entered it in
    /// the other one; the desk enters as worker 0 before each live batch, with its number
    Hold(Entrance, Entrance),
    /// `cut BYTES`: each call of the folder gives and takes at most so many bytes, at least 1
    Cut(u32),
    /// `sizes` and `repeats`: how the files that the run writes are given
    Show(Shown),
    /// `heard`: what a listener hears of the next run is given after its report: for each batch that was taken and each move that was
    /// accepted `heard`, the batch, the changes and the cost, and `tried` where moves were tried after that
    Heard,
    /// `last`: of the views that were seen the last one is given alone; which stand before it depends on when the viewer looked
    Last,
}

/// A line of a transcript.
#[derive(Clone, Copy)]
pub(crate) enum Line<'a> {
    /// an empty line, or one that begins with `#`
    Note,
    /// `$ ` and a command
    Command(Command<'a>),
    /// `$ ` and no command
    Unknown,
    /// what a run gave
    Given,
}

/// The file of a name.
pub(crate) fn file_of(name: &str) -> Option<File> {
    for file in ALL_FILES {
        if file.name() == name {
            return Some(file);
        }
    }
    None
}

fn call_of(name: &str) -> Option<Call> {
    match name {
        "next" => Some(Call::Next),
        "put" => Some(Call::Put),
        "report" => Some(Call::Report),
        _ => None,
    }
}

// The front of a text up to its first blank, and what is after it.
fn cut_word(text: &str) -> (&str, &str) {
    text.split_once(' ').unwrap_or((text, ""))
}

fn rows_of(words: &str) -> Option<Command<'_>> {
    let (name, rest) = cut_word(words);
    let (from, rest) = cut_word(rest);
    let (to, text) = cut_word(rest);
    let file = file_of(name)?;
    Some(Command::Rows(file, from.parse().ok()?, to.parse().ok()?, text))
}

fn fail_of(words: &str) -> Option<Command<'_>> {
    if words == "place" {
        return Some(Command::FailPlace);
    }
    let (name, rest) = cut_word(words);
    let (number, bytes) = cut_word(rest);
    let number = number.parse().ok()?;
    if name == "disk" {
        return Some(Command::FailDisk(number, bytes.parse().ok()?));
    }
    Some(Command::Fail(call_of(name)?, number))
}

fn cut_of(words: &str) -> Option<Command<'_>> {
    let bytes = words.parse().ok()?;
    if bytes == 0 {
        return None;
    }
    Some(Command::Cut(bytes))
}

fn hold_of(words: &str) -> Option<Command<'_>> {
    let (worker, rest) = cut_word(words);
    let (round, rest) = cut_word(rest);
    let (other, other_round) = cut_word(rest);
    let held = (worker.parse().ok()?, round.parse().ok()?);
    Some(Command::Hold(held, (other.parse().ok()?, other_round.parse().ok()?)))
}

fn text_of(words: &str) -> Option<Command<'_>> {
    let (name, text) = cut_word(words);
    Some(Command::Text(file_of(name)?, text))
}

fn fronts_of(words: &str) -> Option<Command<'_>> {
    let (name, words) = cut_word(words);
    Some(Command::Fronts(file_of(name)?, words))
}

fn command_of(words: &str) -> Option<Command<'_>> {
    let (verb, rest) = cut_word(words);
    match verb {
        "./desk" => Some(Command::Desk(rest)),
        "fronts" => fronts_of(rest),
        "text" => text_of(rest),
        "disk" => Some(Command::Disk(rest)),
        "rows" => rows_of(rest),
        "take" => Some(Command::Take(file_of(rest)?)),
        "fail" => fail_of(rest),
        "room" => Some(Command::Room(rest.parse().ok()?)),
        "hold" => hold_of(rest),
        "cut" => cut_of(rest),
        "sizes" => Some(Command::Show(Shown::Sizes)),
        "repeats" => Some(Command::Show(Shown::Repeats)),
        "heard" => Some(Command::Heard),
        "last" => Some(Command::Last),
        _ => None,
    }
}

/// What a line of a transcript is.
pub(crate) fn line_of(line: &str) -> Line<'_> {
    if line.is_empty() || line.starts_with('#') {
        return Line::Note;
    }
    match line.strip_prefix("$ ") {
        None => Line::Given,
        Some(words) => command_of(words).map_or(Line::Unknown, Line::Command),
    }
}

// Where the reading of a text with escapes is: at a byte, after a backslash, after its `x`, and after
// the first digit, of this value.
#[derive(Clone, Copy)]
enum At {
    Byte,
    Mark,
    High,
    Low(u8),
}

// The value of a hexadecimal digit.
fn digit(byte: u8) -> u8 {
    match byte {
        b'0'..=b'9' => byte - b'0',
        b'a'..=b'f' => byte - b'a' + 10,
        _ => 0,
    }
}

// The byte that is now complete, and where the reading is after this one.
fn step(at: At, byte: u8) -> (Option<u8>, At) {
    match (at, byte) {
        (At::Byte, b'\\') => (None, At::Mark),
        (At::Mark, b'x') => (None, At::High),
        (At::High, _) => (None, At::Low(digit(byte))),
        (At::Low(high), _) => (Some(high.wrapping_mul(16) | digit(byte)), At::Byte),
        (At::Mark, b'n') => (Some(b'\n'), At::Byte),
        (At::Mark, b'r') => (Some(b'\r'), At::Byte),
        (At::Mark, b't') => (Some(b'\t'), At::Byte),
        (At::Byte | At::Mark, _) => (Some(byte), At::Byte),
    }
}

/// The bytes of a text in which `\n`, `\r`, `\t`, `\\` and `\xNN` stand for one byte each.
pub(crate) fn unescaped(alloc: Global, text: &str) -> Result<Vec<u8>, AllocError> {
    let mut bytes = Vec::new(alloc);
    let mut at = At::Byte;
    for byte in text.as_bytes() {
        let (complete, after) = step(at, *byte);
        if let Some(complete) = complete {
            bytes.push(complete)?;
        }
        at = after;
    }
    Ok(bytes)
}
