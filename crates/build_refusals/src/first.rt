//! The first row of a file that has a cause.

ghost use Rattle.std.specs.Prelude.{◌≡◌};
ghost use Rattle.build_refusals.specs.First.{first_refusal_in};

use file_rows::Cause;

/// A row that stands in a line of its file.
pub(crate) trait Lined {
    ghost use Rattle.std.specs.Prelude.{ℕ};

    ghost line_of: { Self → ℕ };

    /// Its line, counted from 1.
    fn line(&self) -> u32
        ensures { result ≡ line_of self.now };
}

/// What decides whether a row is refused.
pub(crate) trait Check<Row> {
    ghost use Rattle.std.specs.Prelude.{ℕ, Option};
    ghost use Rattle.file_rows.specs.declared.cause.Cause.{Cause as RowCause};

    ghost cause_of: { Self → ℕ → Row → Option RowCause };

    /// Why a row is refused, where it is. Its place counts from 0: so many rows stand before it.
    fn cause(&self, place: usize, row: &Row) -> Option<Cause>
        ensures { result ≡ cause_of self.now place row.now };
}

/// The line of the first row that is refused, and why.
pub(crate) fn first_refusal_in<Row: Lined, C: Check<Row>>(
    check: &C,
    rows: &[Row],
) -> Option<(u32, Cause)>
    ensures { result ≡ first_refusal_in (C.cause_of check.now) Row.line_of rows.now }
{
    for (place, row) in rows.iter().enumerate() {
        if let Some(cause) = check.cause(place, row) {
            return Some((row.line(), cause));
        }
    }
    None
}
