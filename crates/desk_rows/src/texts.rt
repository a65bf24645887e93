//! Texts of files. Of several texts of one file the first counts.

use desk_folder::{File, MemFolder};
use std::alloc::{AllocError, Global};

/// Files with their texts.
pub(crate) type Texts = Vec<(File, Vec<u8>)>;

/// The text of a file, empty where there is none.
pub(crate) fn text_of(texts: &[(File, Vec<u8>)], file: File) -> &[u8] {
    for (other, text) in texts {
        if *other == file {
            return text.as_slice();
        }
    }
    &[]
}

/// A report in which of the lines of views that were seen, which stand one after another, the last stands alone.
pub(crate) fn last_seen(alloc: Global, report: &[u8]) -> Result<Vec<u8>, AllocError> {
    let mut text = Vec::new(alloc);
    let mut seen: &[u8] = b"";
    for line in report.split(|byte| *byte == b'\n') {
        if line.starts_with(b"seen ") {
            seen = line;
        } else {
            push_line(&mut text, seen)?;
            push_line(&mut text, line)?;
            seen = b"";
        }
    }
    Ok(text)
}

// Adds a line and its end, and nothing for one of no bytes.
fn push_line(text: &mut Vec<u8>, line: &[u8]) -> Result<(), AllocError> {
    if line.is_empty() {
        return Ok(());
    }
    text.extend_from_slice(line)?;
    text.push(b'\n')?;
    Ok(())
}

/// Adds copies of texts after these.
pub(crate) fn add_all(texts: &mut Texts, more: &[(File, Vec<u8>)]) -> Result<(), AllocError> {
    let alloc = *texts.allocator();
    for (file, text) in more {
        texts.push((*file, Vec::from_slice(alloc, text.as_slice())?))?;
    }
    Ok(())
}

// Where a number goes in a row: after how many bytes its `{}` begins.
fn place_of_number(row: &[u8]) -> Option<usize> {
    row.windows(2).position(|two| two == b"{}".as_slice())
}

// Adds a row, with a number in the place of its `{}`.
fn push_row(out: &mut Vec<u8>, row: &[u8], place: Option<usize>, n: u64) -> Result<(), AllocError> {
    let Some(place) = place else {
        return out.extend_from_slice(row);
    };
    let (front, after) = row.split_at(place.min(row.len()));
    out.extend_from_slice(front)?;
    let number = format!(in *out.allocator(); "{n}")?;
    out.extend_from_slice(number.as_bytes())?;
    let (_, after) = after.split_at(after.len().min(2));
    out.extend_from_slice(after)
}

/// Adds a row for each number from `from` to `to`, which stands in the place of `{}`.
pub(crate) fn push_rows(
    out: &mut Vec<u8>,
    row: &[u8],
    from: u64,
    to: u64,
) -> Result<(), AllocError> {
    let place = place_of_number(row);
    for n in from..=to {
        push_row(out, row, place, n)?;
    }
    Ok(())
}

/// What a run wrote, of each file.
pub(crate) fn written_texts(
    alloc: Global,
    folder: &MemFolder,
    files: &[File],
) -> Result<Texts, AllocError> {
    let mut texts = Vec::new(alloc);
    for file in files {
        let text = Vec::from_slice(alloc, folder.written(*file))?;
        texts.push((*file, text))?;
    }
    Ok(texts)
}
