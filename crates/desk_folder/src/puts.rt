//! A text put into a file of a folder, or into a sink, line by line.
ghost use Rattle.std.specs.Prelude.{◌≡◌, ◌==◌, ◌+◌, ◌<◌, ◌≤◌, IfSome, length, position, take, drop};
ghost use Rattle.desk_folder.specs.Lines.{first_line_length};
ghost use Rattle.desk_folder.specs.Texts.{PutsText, PutsReport};

use crate::{File, Folder, FolderFault, Sink};
use memchr::memchr;
use std::alloc::Global;

// The index of the first line feed, which in a line is many bytes on.
fn line_feed_place(text: &[u8]) -> Option<usize>
    ensures first { result ≡ position (λ b. b == 10) text.now }
    ensures within { IfSome result (λ at. at < length text.now) }
{
    memchr(b'\n', text)
}

// The length of the first line with its line feed, or of the text where it has none.
fn line_length(text: &[u8]) -> usize
    requires { 0 < length text.now }
    ensures exact { result ≡ first_line_length text.now }
    ensures some { 0 < result }
    ensures within { result ≤ length text.now }
{
    match line_feed_place(text) {
        Some(at) => at + 1,
        None => text.len(),
    }
}

// What is left of the line at `at`, with its line feed.
fn line_from(text: &[u8], at: usize) -> &[u8]
    requires { at < length text.now }
    ensures exact { let rest = drop at text.now in result.now ≡ take (first_line_length rest) rest }
    ensures some { 0 < length result.now }
    ensures within { at + length result.now ≤ length text.now }
{
    let (_, rest) = text.split_at(at);
    let (line, _) = rest.split_at(line_length(rest));
    line
}

/// Puts a text at the end of a file, one piece a line, and the rest of a piece again until all of it is
/// taken. An empty text calls no `put`. After an error a prefix of the text is put; `Failed` comes only
/// where the folder's count of failed writes of this file rose.
pub fn put_text<F: Folder>(
    alloc: Global,
    folder: &mut F,
    file: File,
    text: &[u8],
) -> Result<(), FolderFault>
    ensures { PutsText (F.outside folder.old) (F.outside folder.new) file text.now result }
{
    let mut at = 0;
    while at < text.len() {
        match folder.put(alloc, file, line_from(text, at)) {
            Ok(taken) => at += taken,
            Err(fault) => return Err(fault),
        }
    }
    Ok(())
}

/// The same for a sink.
pub fn put_report<O: Sink>(alloc: Global, sink: &mut O, text: &[u8]) -> Result<(), FolderFault>
    ensures { PutsReport (O.report sink.old) (O.report sink.new) text.now result }
{
    let mut at = 0;
    while at < text.len() {
        match sink.put(alloc, line_from(text, at)) {
            Ok(taken) => at += taken,
            Err(fault) => return Err(fault),
        }
    }
    Ok(())
}
