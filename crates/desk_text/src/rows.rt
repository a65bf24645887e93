//! The rows of a text, one a line.

ghost use Rattle.std.specs.Prelude.{◌≡◌, ◌<◌, ◌≤◌, ◌^◌, ℕ, true, List, Result, All, IfOk, length};
ghost use Rattle.std.specs.List.{list_all};
ghost use Rattle.desk_text.specs.Lines.{fields, is_text};
ghost use Rattle.desk_text.specs.Rows.{RowOf, line_row, text_rows, GivesRow, Gives};

use crate::fault::{ReadFault, RowFault};
use crate::fields::Fields;
use crate::reading::{Lines, are_lines_of_text, are_text};
use file_rows::Cause;
use std::alloc::Global;

/// The grammar of a text file: how the fields of a line give a row.
pub trait Grammar<Row> {
    ghost row_of: { Self → RowOf Row };

    ghost holds: { Self → Row → Type 0 };

    /// The row of a line, from its number and its fields, or why the line is refused. Of several
    /// causes it is the first from the left, but for `Fields`, which comes before those of fields.
    fn row(&self, alloc: Global, line: u32, fields: Fields<'_>) -> Result<Row, RowFault>
        ensures exact { GivesRow result (row_of self.now line fields.entry) }
        ensures facts { IfOk result (λ row. holds self.now row) };
}

/// Whether each byte may stand in a line; of a fit text it is known that each does.
#[inline]
fn is_fit(text: &[u8], fit: bool) -> bool
    requires { fit ≡ true → list_all is_text text.now ≡ true }
    ensures { result ≡ list_all is_text text.now }
{
    fit || are_text(text)
}

/// The row of a line whose bytes are tried first, unless the whole text is fit.
#[inline]
fn line_row<Row: Drop, G: Grammar<Row>>(
    alloc: Global,
    grammar: &G,
    line: u32,
    text: &[u8],
    fit: bool,
) -> Result<Row, RowFault>
    requires { fit ≡ true → list_all is_text text.now ≡ true }
    ensures exact { GivesRow result (line_row (G.row_of grammar.now) line text.now) }
    ensures facts { IfOk result (λ row. G.holds grammar.now row) }
{
    if !is_fit(text, fit) {
        return Err(RowFault::Refused(Cause::Byte));
    }
    grammar.row(alloc, line, Fields::of(text))
}

/// The rows of a text of at most `limit` bytes, in the order of their lines, or the first line that
/// is refused. A longer text is refused at line 0 with `Size`. A byte that no line may have is the
/// first cause of its line, `Byte`.
pub fn read_rows<Row: Drop, G: Grammar<Row>>(
    alloc: Global,
    grammar: &G,
    limit: usize,
    bytes: &[u8],
) -> Result<Vec<Row>, ReadFault>
    requires { limit < 2 ^ 32 }
    ensures exact { Gives (λ rows. rows.items) result (text_rows limit (G.row_of grammar.now) bytes.now) }
    ensures facts { IfOk result (λ rows. All (λ row. G.holds grammar.now row) rows.items) }
    ensures few { IfOk result (λ rows. length rows.items ≤ length bytes.now) }
{
    let mut rows = Vec::new(alloc);
    if bytes.len() > limit {
        return Err(ReadFault::at(0, Cause::Size));
    }
    let fit = are_lines_of_text(bytes);
    let mut lines = Lines::of(bytes);
    while let Some((line, text)) = lines.next() {
        match line_row(alloc, grammar, line, text, fit) {
            Ok(row) => rows.push(row)?,
            Err(fault) => return Err(fault.at(line)),
        }
    }
    Ok(rows)
}
