//! The file of a plan's itineraries.

ghost use Rattle.std.specs.Prelude.{All, IfOk};
ghost use Rattle.file_rows.specs.Limits.{most_bytes};
ghost use Rattle.desk_text.specs.Rows.{Gives, text_rows};
ghost use Rattle.file_readers.specs.SolFacts.{IsPlannedGroup};
ghost use Rattle.file_readers.specs.Groups.{planned_group};

use crate::legs;
use crate::sol_row::PlannedGroup;
use desk_text::{
    Cause, Fields, Grammar, MOST_BYTES, ReadFault, RowFault, inbound, name, number, read_rows,
};
use file_rows::MOST_PASSENGERS;
use std::alloc::Global;

/// The grammar of the file.
#[derive(Drop)]
struct Itineraries;

impl Grammar<PlannedGroup> for Itineraries {
    ghost row_of = { λ _. planned_group };

    ghost holds = { λ _. IsPlannedGroup };

    #[tactic(auto, unfolding(crate::specs::Groups::planned_group))]
    fn row(
        &self,
        alloc: Global,
        line: u32,
        mut fields: Fields<'_>,
    ) -> Result<PlannedGroup, RowFault> {
        let reservation = fields.take()?;
        let kind = fields.take()?;
        let passengers = fields.take()?;
        if fields.count() % 3 != 0 {
            return Err(RowFault::Refused(Cause::Fields));
        }
        Ok(PlannedGroup {
            line,
            name: name(reservation)?,
            inbound: inbound(kind)?,
            count: number(passengers, 1, MOST_PASSENGERS)?,
            legs: legs(alloc, fields)?,
        })
    }
}

/// The groups of passengers, in the order of their lines, or the first line that is refused.
///
/// A line is `RESERVATION TYPE COUNT`, and then `FLIGHT DATE CABIN` for each leg of the path, of which
/// there may be none. The type is `A` outbound and `R` inbound; the passengers are 1 to
/// 1,000; a cabin is `F`, `B` or `E`.
///
/// # Errors
///
/// `Size` at line 0 for more than 67,108,864 bytes. Of a line `Byte` for a byte that no line may
/// have, then `Fields` for a missing field or a leg that is not whole, then from the left the first
/// cause of a field: `Size` of a name, `Word` of a type or a cabin, `Number` of a count, `Date`.
pub fn read_planned_groups(alloc: Global, bytes: &[u8]) -> Result<Vec<PlannedGroup>, ReadFault>
    ensures exact { Gives (λ rows. rows.items) result (text_rows most_bytes planned_group bytes.now) }
    ensures facts { IfOk result (λ rows. All IsPlannedGroup rows.items) }
{
    read_rows(alloc, &Itineraries, MOST_BYTES, bytes)
}
