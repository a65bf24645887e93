//! The fields of a line.

ghost use Rattle.std.specs.Prelude.{◌≡◌, ◌+◌, ◌<◌, ◌≤◌, [], ◌∷◌, length, true, not, ◌&&◌, if◌then◌else◌, nat_lt, MatchOption, MatchResult, position, option_map, IfOk, IfSome};
ghost use Rattle.std.specs.List.{list_all};
ghost use Rattle.desk_text.specs.Lines.{is_blank, is_text, fields};
ghost use Rattle.file_rows.specs.Bytes.{first_visible};
ghost use Rattle.file_rows.specs.Seen.{IsSeen};
ghost use Rattle.desk_text.specs.Cuts.{cut_where};
ghost use Rattle.desk_text.specs.Rows.{next_field};

use crate::reading::parts_at;
use file_rows::{Cause, FIRST_VISIBLE};
use std::marker::Model;

/// The place of the first byte that is below those that can be seen.
#[inline]
fn place_of_unseen(line: &[u8]) -> Option<usize>
    ensures { result ≡ position (λ byte. nat_lt byte first_visible) line.now }
{
    line.iter().position(|byte| *byte < FIRST_VISIBLE)
}

/// The place of the first blank.
#[inline]
fn place_of_blank(line: &[u8]) -> Option<usize>
    requires { list_all is_text line.now ≡ true }
    ensures { result ≡ position is_blank line.now }
{
    place_of_unseen(line)
}

/// The bytes before the first blank, and those after it, or `None` where there is none.
#[inline]
fn cut_at_blank(line: &[u8]) -> Option<(&[u8], &[u8])>
    requires { list_all is_text line.now ≡ true }
    ensures exact { option_map (λ parts. (parts.0.now, parts.1.now)) result ≡ cut_where is_blank line.now }
    ensures shorter { IfSome result (λ parts. length parts.1.now < length line.now) }
    ensures fit { IfSome result (λ parts. list_all is_text parts.1.now ≡ true) }
{
    let place = place_of_blank(line)?;
    Some(parts_at(line, place))
}

/// The first field, and the bytes after it.
#[inline]
fn first_field(line: &[u8]) -> Option<(&[u8], &[u8])>
    requires { list_all is_text line.now ≡ true }
    ensures exact { MatchOption result (fields line.now ≡ []) (λ parts. fields line.now ≡ parts.0.now ∷ fields parts.1.now) }
    ensures shorter { IfSome result (λ parts. length parts.1.now + 1 ≤ length line.now) }
    ensures fit { IfSome result (λ parts. list_all is_text parts.1.now ≡ true) }
{
    let mut rest = line;
    while let Some((field, after)) = cut_at_blank(rest) {
        if !field.is_empty() {
            return Some((field, after));
        }
        rest = after;
    }
    if rest.is_empty() {
        None
    } else {
        Some((rest, &rest[rest.len()..]))
    }
}

/// 1 where a field begins at a byte, which can be seen or not, after one inside a field or not; else 0.
#[inline]
fn begins(inside: bool, is_seen: bool) -> usize
    ensures { result ≡ (if is_seen && not inside then 1 else 0) }
{
    if is_seen && !inside { 1 } else { 0 }
}

/// How many fields a line has.
fn count_fields(line: &[u8]) -> usize
    requires { list_all is_text line.now ≡ true }
    ensures { result ≡ length (fields line.now) }
{
    let mut count = 0;
    let mut inside = false;
    for byte in line {
        let is_seen = FIRST_VISIBLE <= *byte;
        count += begins(inside, is_seen);
        inside = is_seen;
    }
    count
}

/// The fields of a line, from the left: what stands between spaces and tabs. Their bytes are from
/// `!` to `~`.
#[derive(Drop)]
pub struct Fields<'a> {
    rest: &'a [u8],
}

impl<'a> Model for Fields<'a> {
    ghost use Rattle.std.specs.Prelude.{◌≡◌, ℕ, List, true};
    ghost use Rattle.std.specs.List.{list_all};
    ghost use Rattle.desk_text.specs.Lines.{fields, is_text};

    ghost Value = { List (List ℕ) };

    ghost view = { λ f. fields f.rest.now };

    ghost invariant = { λ f. list_all is_text f.rest.now ≡ true };
}

impl<'a> Fields<'a> {
    /// The fields of this line, whose bytes may all stand in a line.
    pub fn of(line: &'a [u8]) -> Fields<'a>
        requires { list_all is_text line.now ≡ true }
        ensures { result ≡ fields line.now }
    {
        Fields { rest: line }
    }

    /// The next field, or `None` exactly where there are no more.
    pub fn next(&mut self) -> Option<&'a [u8]>
        ensures exact { MatchOption result ((self.old ≡ []) × (self.new ≡ [])) (λ field. self.old ≡ field.now ∷ self.new) }
        ensures seen { IfSome result (λ field. IsSeen field.now) }
    {
        match first_field(self.rest) {
            Some((field, rest)) => {
                self.rest = rest;
                Some(field)
            }
            None => None,
        }
    }

    /// The next field, or `Fields` where there is none.
    pub fn take(&mut self) -> Result<&'a [u8], Cause>
        ensures exact { MatchResult result (λ field. next_field self.old ≡ Ok (field.now, self.new)) (λ cause. next_field self.old ≡ Err cause) }
        ensures seen { IfOk result (λ field. IsSeen field.now) }
    {
        match self.next() {
            Some(field) => Ok(field),
            None => Err(Cause::Fields),
        }
    }

    /// The same fields once more, for whoever has to count them after they are read.
    pub fn again(&self) -> Fields<'a>
        ensures { result ≡ self.now }
    {
        Fields { rest: self.rest }
    }

    /// How many fields there are.
    pub fn count(&self) -> usize
        ensures { result ≡ length self.now }
    {
        count_fields(self.rest)
    }
}
