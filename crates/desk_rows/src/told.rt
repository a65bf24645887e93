//! What runs gave, as a transcript has it.

use crate::lines::Shown;
use desk_folder::File;
use std::alloc::AllocError;

// Adds a number, and a text after it.
fn push_number(out: &mut Vec<u8>, number: usize, after: &str) -> Result<(), AllocError> {
    let text = format!(in *out.allocator(); "{number}{after}")?;
    out.extend_from_slice(text.as_bytes())
}

/// Adds a text of whole lines; a backslash says that the last one has no end.
pub(crate) fn push_text(out: &mut Vec<u8>, text: &[u8]) -> Result<(), AllocError> {
    out.extend_from_slice(text)?;
    match text.last() {
        None | Some(b'\n') => Ok(()),
        Some(_) => out.extend_from_slice(b"\\\n"),
    }
}

// Adds a line, after how many times it comes where that is more than once.
fn push_line(out: &mut Vec<u8>, line: &[u8], times: usize) -> Result<(), AllocError> {
    if times > 1 {
        push_number(out, times, " times ")?;
    }
    push_text(out, line)
}

// Adds a text of which lines one after another that are the same stand once, after how many times they come.
fn push_repeats(out: &mut Vec<u8>, text: &[u8]) -> Result<(), AllocError> {
    let mut last: &[u8] = &[];
    let mut times = 0usize;
    for line in text.split_inclusive(|byte| *byte == b'\n') {
        if line == last {
            times = times.saturating_add(1);
        } else {
            push_line(out, last, times)?;
            last = line;
            times = 1;
        }
    }
    push_line(out, last, times)
}

/// Adds a file that was written: its name, and its text as it is to be given.
pub(crate) fn push_file(
    out: &mut Vec<u8>,
    file: File,
    text: &[u8],
    shown: Shown,
) -> Result<(), AllocError> {
    out.extend_from_slice(file.name().as_bytes())?;
    if matches!(shown, Shown::Sizes) {
        out.extend_from_slice(b": ")?;
        return push_number(out, text.len(), " bytes\n");
    }
    out.extend_from_slice(b":\n")?;
    match shown {
        Shown::Repeats => push_repeats(out, text),
        Shown::Texts | Shown::Sizes => push_text(out, text),
    }
}

/// Adds what the beginnings of a file gave that have at least so many bytes, and fewer than so many: nothing where there is none.
pub(crate) fn push_front(
    out: &mut Vec<u8>,
    from: usize,
    to: usize,
    given: &[u8],
) -> Result<(), AllocError> {
    if from >= to {
        return Ok(());
    }
    if to - from > 1 {
        push_number(out, from, " to ")?;
    }
    push_number(out, to - 1, " bytes:\n")?;
    out.extend_from_slice(given)
}

// A hexadecimal digit.
fn digit(number: u8) -> u8 {
    let number = number.min(15);
    if number < 10 {
        b'0' + number
    } else {
        b'a' + (number - 10)
    }
}

/// Adds the bytes of the file on the disk in hexadecimal.
pub(crate) fn push_bytes(out: &mut Vec<u8>, bytes: &[u8]) -> Result<(), AllocError> {
    out.extend_from_slice(b"journal.bin:")?;
    for byte in bytes {
        out.push(b' ')?;
        out.push(digit(*byte / 16))?;
        out.push(digit(*byte % 16))?;
    }
    out.extend_from_slice(b"\n")
}
