//! The file of positions.

ghost use Rattle.std.specs.Prelude.{◌≡◌, ◌<◌, [], All, Ok, Err, IfOk, IfSome, MatchOption, MatchResult, length};
ghost use Rattle.desk_text.specs.Rows.{Gives, GivesRow, text_rows};
ghost use Rattle.file_readers.specs.Position.{group_of, groups_of, before_all, position_row};
ghost use Rattle.file_rows.specs.Seen.{IsSeen};
ghost use Rattle.file_rows.specs.Facts.{IsGroup, IsPosition};
ghost use Rattle.file_rows.specs.Limits.{most_bytes};

use desk_text::{
    Cause, Fields, Grammar, MOST_BYTES, ReadFault, RowFault, name, number, read_rows, seats,
};
use desk_units::List;
use file_rows::{PositionGroup, PositionRow};
use std::alloc::Global;

/// The group that three fields give.
#[tactic(auto, unfolding(crate::specs::Position::group_of))]
fn group(model: &[u8], cabins: &[u8], count: &[u8]) -> Result<PositionGroup, Cause>
    requires { IsSeen model.now }
    ensures exact { result ≡ group_of model.now cabins.now count.now }
    ensures facts { IfOk result IsGroup }
{
    Ok(PositionGroup {
        model: name(model)?,
        seats: seats(cabins)?,
        count: number(count, 0, 1_000)?,
    })
}

/// The group of the next three fields, or `None` exactly where there are no more fields.
#[tactic(auto, unfolding(crate::specs::Position::groups_of))]
fn next_group(fields: &mut Fields<'_>) -> Result<Option<PositionGroup>, Cause>
    ensures exact { MatchResult result (λ next. MatchOption next (groups_of fields.old ≡ Ok []) (λ group. groups_of fields.old ≡ before_all group (groups_of fields.new))) (λ cause. groups_of fields.old ≡ Err cause) }
    ensures shorter { IfOk result (λ next. IfSome next (λ _. length fields.new < length fields.old)) }
    ensures facts { IfOk result (λ next. IfSome next IsGroup) }
{
    let Some(model) = fields.next() else {
        return Ok(None);
    };
    let seats = fields.take()?;
    let count = fields.take()?;
    Ok(Some(group(model, seats, count)?))
}

/// The groups of all fields, three by three.
fn groups(alloc: Global, mut fields: Fields<'_>) -> Result<List<PositionGroup>, RowFault>
    ensures exact { GivesRow result (groups_of fields.entry) }
    ensures facts { IfOk result (All IsGroup) }
{
    let mut groups = Vec::new(alloc);
    while let Some(group) = next_group(&mut fields)? {
        groups.push(group)?;
    }
    Ok(List(groups))
}

/// The grammar of the file.
#[derive(Drop)]
struct Positions;

impl Grammar<PositionRow> for Positions {
    ghost row_of = { λ _. position_row };

    ghost holds = { λ _. IsPosition };

    #[tactic(auto, unfolding(crate::specs::Position::position_row))]
    fn row(
        &self,
        alloc: Global,
        line: u32,
        mut fields: Fields<'_>,
    ) -> Result<PositionRow, RowFault> {
        let airport = fields.take()?;
        let count = fields.count();
        if !(0 < count && count % 3 == 0) {
            return Err(RowFault::Refused(Cause::Fields));
        }
        Ok(PositionRow {
            line,
            airport: name(airport)?,
            groups: groups(alloc, fields)?,
        })
    }
}

/// The positions, in the order of their lines, or the first line that is refused.
///
/// A line is `AIRPORT`, and then one or more groups `MODEL SEATS COUNT`.
///
/// # Errors
///
/// `Size` at line 0 for more than 67,108,864 bytes. Of a line `Byte` for a byte that no line may
/// have, then `Fields` for no group or one that is not whole, then from the left the first cause of
/// a field: `Size` of a name, `Number` of seats and counts.
pub fn read_position(alloc: Global, bytes: &[u8]) -> Result<Vec<PositionRow>, ReadFault>
    ensures exact { Gives (λ rows. rows.items) result (text_rows most_bytes position_row bytes.now) }
    ensures facts { IfOk result (λ rows. All IsPosition rows.items) }
{
    read_rows(alloc, &Positions, MOST_BYTES, bytes)
}
