//! The lines of a text that have fields.

ghost use Rattle.std.specs.Prelude.{◌≡◌, ℕ, ◌+◌, ◌<◌, ◌≤◌, ◌^◌, [], ◌∷◌, true, ◌||◌, length, take, drop, cond, MatchOption, option_map, position, ◌==◌, IfSome};
ghost use Rattle.std.specs.Str.Lines.{strip_carriage_return};
ghost use Rattle.std.specs.List.{list_all};
ghost use Rattle.file_rows.specs.Bytes.{line_feed};
ghost use Rattle.desk_text.specs.Lines.{is_blank, is_text, is_last, fields, lines_from, text_lines};
ghost use Rattle.desk_text.specs.Cuts.{cut, line_then};

use file_rows::{CARRIAGE_RETURN, FIRST_VISIBLE, HASH, LAST_VISIBLE, LINE_FEED, SPACE, TAB};
use memchr::memchr;
use std::marker::Model;

/// The bytes before this place, and those after it.
#[inline]
pub(crate) fn parts_at(bytes: &[u8], place: usize) -> (&[u8], &[u8])
    requires { place < length bytes.now }
    ensures front { result.0.now ≡ take place bytes.now }
    ensures back { result.1.now ≡ drop (place + 1) bytes.now }
{
    let (front, back) = bytes.split_at(place);
    (front, &back[1..])
}

/// The place of the first `at`.
fn place_of(bytes: &[u8], at: u8) -> Option<usize>
    ensures { result ≡ position (λ byte. byte == at) bytes.now }
{
    bytes.iter().position(|byte| *byte == at)
}

/// The bytes before the first `at`, and those after it, or `None` where there is none.
#[inline]
pub(crate) fn cut(bytes: &[u8], at: u8) -> Option<(&[u8], &[u8])>
    ensures exact { option_map (λ parts. (parts.0.now, parts.1.now)) result ≡ cut at bytes.now }
    ensures size { IfSome result (λ parts. length parts.0.now + length parts.1.now + 1 ≡ length bytes.now) }
{
    let place = place_of(bytes, at)?;
    Some(parts_at(bytes, place))
}

/// The place of the first LF, which in a text is many bytes on.
#[inline]
fn line_feed_place(bytes: &[u8]) -> Option<usize>
    ensures { result ≡ position (λ byte. byte == line_feed) bytes.now }
{
    memchr(LINE_FEED, bytes)
}

/// The bytes before the first LF, and those after it, or `None` where there is none.
#[inline]
fn cut_line(bytes: &[u8]) -> Option<(&[u8], &[u8])>
    ensures exact { option_map (λ parts. (parts.0.now, parts.1.now)) result ≡ cut line_feed bytes.now }
    ensures size { IfSome result (λ parts. length parts.0.now + length parts.1.now + 1 ≡ length bytes.now) }
{
    let place = line_feed_place(bytes)?;
    Some(parts_at(bytes, place))
}

/// A line without the CR at its end.
fn without_cr(line: &[u8]) -> &[u8]
    ensures { result.now ≡ strip_carriage_return line.now }
{
    if !line.is_empty() && line[line.len() - 1] == CARRIAGE_RETURN {
        &line[..line.len() - 1]
    } else {
        line
    }
}

/// The first line, and the bytes after its end.
fn first_line(bytes: &[u8]) -> (&[u8], &[u8])
    requires { 0 < length bytes.now }
    ensures exact { (n : ℕ) → lines_from n bytes.now ≡ line_then n result.0.now result.1.now }
    ensures shorter { length result.1.now + 1 ≤ length bytes.now }
{
    match cut_line(bytes) {
        Some((line, rest)) => (without_cr(line), rest),
        None => (without_cr(bytes), &bytes[bytes.len()..]),
    }
}

/// Whether a byte is a space or a tab.
#[inline]
fn is_blank(byte: u8) -> bool
    ensures { result ≡ is_blank byte }
{
    byte == SPACE || byte == TAB
}

/// Whether all bytes are blanks.
fn are_blanks(line: &[u8]) -> bool
    ensures { result ≡ list_all is_blank line.now }
{
    line.iter().all(|byte| is_blank(*byte))
}

/// Whether a byte may stand in a line.
#[inline]
fn is_text(byte: u8) -> bool
    ensures { result ≡ is_text byte }
{
    is_blank(byte) || (FIRST_VISIBLE <= byte && byte <= LAST_VISIBLE)
}

/// Whether each byte may stand in a line: it is a space, a tab, or from `!` to `~`.
pub fn are_text(line: &[u8]) -> bool
    ensures { result ≡ list_all is_text line.now }
{
    // no branch a byte, so that many are looked at in one step
    let mut fit = true;
    for byte in line {
        fit &= is_text(*byte);
    }
    fit
}

/// Whether a byte may stand in a line, or ends one.
#[inline]
fn is_of_lines(byte: u8) -> bool
    ensures { result ≡ (is_text byte || (byte == line_feed)) }
{
    is_text(byte) || byte == LINE_FEED
}

/// Whether each byte of a text may stand in a line, or ends one.
pub(crate) fn are_lines_of_text(bytes: &[u8]) -> bool
    ensures { result ≡ list_all (λ byte. is_text byte || (byte == line_feed)) bytes.now }
{
    let mut fit = true;
    for byte in bytes {
        fit &= is_of_lines(*byte);
    }
    fit
}

/// Whether the first byte is `#`.
fn is_last(line: &[u8]) -> bool
    ensures { result ≡ is_last line.now }
{
    match line {
        [byte, ..] => *byte == HASH,
        [] => false,
    }
}

/// A line that has fields, its number, and the bytes after it.
#[derive(Drop)]
struct Line<'a> {
    number: u32,
    text: &'a [u8],
    rest: &'a [u8],
}

/// The next line that has fields, after so many lines.
fn next_line(mut passed: u32, bytes: &[u8]) -> Option<Line<'_>>
    requires { passed + length bytes.now < 2 ^ 32 }
    ensures exact { MatchOption result (lines_from (passed + 1) bytes.now ≡ []) (λ line. lines_from (passed + 1) bytes.now ≡ (line.number, line.text.now) ∷ lines_from (line.number + 1) line.rest.now) }
    ensures room { IfSome result (λ line. line.number + length line.rest.now < 2 ^ 32) }
{
    let mut rest = bytes;
    while !rest.is_empty() {
        let (text, after) = first_line(rest);
        passed += 1;
        if is_last(text) {
            return None;
        }
        if !are_blanks(text) {
            return Some(Line {
                number: passed,
                text,
                rest: after,
            });
        }
        rest = after;
    }
    None
}

/// The lines of a text that have fields, each with its number. A line ends with LF, with CR LF or
/// with the text; a line whose first byte is `#` ends the text.
#[derive(Drop)]
pub struct Lines<'a> {
    passed: u32,
    rest: &'a [u8],
}

impl<'a> Model for Lines<'a> {
    ghost use Rattle.std.specs.Prelude.{ℕ, List, ◌+◌, ◌^◌, ◌<◌, length};
    ghost use Rattle.desk_text.specs.Lines.{lines_from};

    ghost Value = { List (ℕ × List ℕ) };

    ghost view = { λ l. lines_from (l.passed + 1) l.rest.now };

    ghost invariant = { λ l. l.passed + length l.rest.now < 2 ^ 32 };
}

impl<'a> Lines<'a> {
    /// The lines of these bytes, counted from 1.
    pub(crate) fn of(bytes: &'a [u8]) -> Lines<'a>
        requires { length bytes.now < 2 ^ 32 }
        ensures exact { result ≡ text_lines bytes.now }
        ensures few { length result ≤ length bytes.now }
    {
        Lines {
            passed: 0,
            rest: bytes,
        }
    }

    /// The next line and its number, or `None` exactly where there are no more.
    pub fn next(&mut self) -> Option<(u32, &'a [u8])>
        ensures { MatchOption result ((self.old ≡ []) × (self.new ≡ [])) (λ line. self.old ≡ (line.0, line.1.now) ∷ self.new) }
    {
        match next_line(self.passed, self.rest) {
            Some(line) => {
                self.passed = line.number;
                self.rest = line.rest;
                Some((line.number, line.text))
            }
            None => {
                self.rest = &[];
                None
            }
        }
    }
}
