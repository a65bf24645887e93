//! The rows of a comma file, one a record.

ghost use Rattle.std.specs.Prelude.{◌≡◌, ◌+◌, ◌<◌, ◌^◌, IfOk, All};
ghost use Rattle.csv.specs.Records.{fields_of};
ghost use Rattle.desk_text.specs.Rows.{RowOf, GivesRow, Gives};
ghost use Rattle.comma_rows.specs.Records.{comma_rows};

use crate::columns::Columns;
use crate::records::{read_next, records_of};
use csv::ByteRecord;
use desk_text::{Cause, ReadFault, RowFault};
use std::alloc::Global;

/// The grammar of a comma file: how the fields of a record give a row.
pub trait CommaGrammar<Row> {
    ghost row_of: { Self → RowOf Row };

    ghost holds: { Self → Row → Type 0 };

    /// The row of a record, from its number and its fields, or why the record is refused.
    fn row(&self, alloc: Global, line: u32, columns: Columns<'_>) -> Result<Row, RowFault>
        ensures exact { GivesRow result (row_of self.now line columns.entry) }
        ensures facts { IfOk result (λ row. holds self.now row) };
}

/// The row of a record, by its grammar.
fn record_row<Row: Drop, G: CommaGrammar<Row>>(
    alloc: Global,
    grammar: &G,
    line: u32,
    fields: &ByteRecord,
) -> Result<Row, RowFault>
    ensures exact { GivesRow result (G.row_of grammar.now line (fields_of fields.now)) }
    ensures facts { IfOk result (λ row. G.holds grammar.now row) }
{
    grammar.row(alloc, line, Columns::of(fields))
}

/// The rows of a comma file of at most `limit` bytes, in the order of its records, or the first
/// record that is refused. A longer file is refused at line 0 with `Size`.
///
/// The file is read as the crate `csv` reads one by its default settings, without a header row and
/// with records of any length; a byte order mark at the start is dropped. A record's line is its
/// number from 1: an empty line is no record, and a line end in quotes ends none.
pub fn read_records<Row: Drop, G: CommaGrammar<Row>>(
    alloc: Global,
    grammar: &G,
    limit: usize,
    bytes: &[u8],
) -> Result<Vec<Row>, ReadFault>
    requires { limit + 1 < 2 ^ 32 }
    ensures exact { Gives (λ rows. rows.items) result (comma_rows limit (G.row_of grammar.now) bytes.now) }
    ensures facts { IfOk result (λ rows. All (λ row. G.holds grammar.now row) rows.items) }
{
    let mut rows = Vec::new(alloc);
    let is_too_long = bytes.len() > limit;
    if is_too_long {
        return Err(ReadFault::at(0, Cause::Size));
    }
    let mut reader = records_of(alloc, bytes);
    let mut record = ByteRecord::new(alloc);
    let mut line = 0;
    while read_next(&mut reader, &mut record)? {
        line += 1;
        match record_row(alloc, grammar, line, &record) {
            Ok(row) => rows.push(row)?,
            Err(fault) => return Err(fault.at(line)),
        }
    }
    Ok(rows)
}
