//! The rows of legs.

ghost use Rattle.std.specs.Prelude.{◌≡◌, length, replicate, is_some, slice_index_or, IfNone, IfOk, None};
ghost use Rattle.std.specs.List.{list_all};
ghost use Rattle.desk_text.specs.Rows.{Gives};
ghost use Rattle.desk_data.specs.Situation.{legs_of};
ghost use Rattle.file_joins.specs.Stated.{stated_leg};
ghost use Rattle.file_joins.specs.Statement.{Adds, cause_of};
ghost use Rattle.file_joins.specs.Legs.{all_rows, statement_of_legs, rows_stated};

use crate::DayNames;
use crate::stated::stated_leg;
use desk_data::Row;
use desk_text::ReadFault;
use desk_units::NoMem;
use file_readers::PlannedLeg;
use file_rows::Cause;
use std::alloc::Global;

/// The rows that the lines give, by leg, or the first line that is refused.
pub(crate) fn rows_stated(
    alloc: Global,
    names: &DayNames<'_>,
    legs: u32,
    lines: &[PlannedLeg],
) -> Result<Vec<Option<Row>>, ReadFault>
    requires { legs ≡ legs_of names.now }
    ensures { Gives (λ rows. rows.items) result (rows_stated names.now lines.now) }
{
    let mut rows = no_rows(alloc, legs)?;
    for line in lines {
        if let Some(cause) = put_line(names, line, rows.as_mut_slice()) {
            return Err(ReadFault::at(line.line, cause));
        }
    }
    Ok(rows)
}

/// No rows of so many legs.
fn no_rows(alloc: Global, legs: u32) -> Result<Vec<Option<Row>>, NoMem>
    ensures { IfOk result (λ rows. rows.items ≡ replicate legs None) }
{
    Ok(vec![in alloc; None; legs as usize]?)
}

/// Gives the leg of a line its row, or says why the line is refused.
fn put_line(names: &DayNames<'_>, line: &PlannedLeg, rows: &mut [Option<Row>]) -> Option<Cause>
    requires { length rows.old ≡ legs_of names.now }
    ensures cause { result ≡ cause_of (λ stated. is_some (slice_index_or rows.old stated.0.0 None)) (stated_leg names.now line.now) }
    ensures put { IfNone result (Adds (statement_of_legs names.now) (stated_leg names.now line.now) rows.old rows.new) }
{
    match stated_leg(names, line) {
        Ok(stated) => {
            let place = stated.0.0 as usize;
            if rows[place].is_some() {
                return Some(Cause::Twice);
            }
            rows[place] = Some(stated.1);
            None
        }
        Err(cause) => Some(cause),
    }
}

/// The rows, where each leg has one.
#[tactic(auto, unfolding(crate::specs::Legs::all_rows))]
pub(crate) fn all_rows(alloc: Global, stated: &[Option<Row>]) -> Result<Vec<Row>, ReadFault>
    ensures { Gives (λ rows. rows.items) result (all_rows stated.now) }
{
    if !have_rows(stated) {
        return Err(ReadFault::at(0, Cause::Missing));
    }
    let mut rows = Vec::with_capacity(alloc, stated.len())?;
    for row in stated {
        rows.push(row.unwrap_or(Row::Cancelled))?;
    }
    Ok(rows)
}

/// Whether each leg has a row.
fn have_rows(stated: &[Option<Row>]) -> bool
    ensures { result ≡ list_all is_some stated.now }
{
    stated.iter().all(|row| row.is_some())
}
