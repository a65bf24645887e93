//! The file of rotations.

ghost use Rattle.std.specs.Prelude.{◌≡◌, IfOk, All};
ghost use Rattle.desk_text.specs.Rows.{Gives, text_rows};
ghost use Rattle.file_readers.specs.Rotations.{rotation_row};
ghost use Rattle.file_rows.specs.Facts.{IsRotation};
ghost use Rattle.file_rows.specs.Limits.{most_bytes};

use desk_text::{Fields, Grammar, MOST_BYTES, ReadFault, RowFault, date, name, read_rows};
use file_rows::RotationRow;
use std::alloc::Global;

/// The fields of a line: flight, date, aircraft.
#[derive(Drop)]
struct RotationLine;

impl Grammar<RotationRow> for RotationLine {
    ghost row_of = { λ _. rotation_row };

    ghost holds = { λ _. IsRotation };

    #[tactic(auto, unfolding(crate::specs::Rotations::rotation_row))]
    fn row(
        &self,
        _alloc: Global,
        line: u32,
        mut fields: Fields<'_>,
    ) -> Result<RotationRow, RowFault> {
        let flight = fields.take()?;
        let day = fields.take()?;
        let aircraft = fields.take()?;
        let flight = name(flight)?;
        let day = date(day)?;
        let aircraft = name(aircraft)?;
        Ok(RotationRow {
            line,
            flight,
            day,
            aircraft,
        })
    }
}

/// The rows of a file of rotations, in the order of their lines, or the first line that is refused.
///
/// A line is a flight, a date and an aircraft; what comes after these is passed over. The causes,
/// of which the first one counts: `Byte` for a byte that no line may have, `Fields` where one is
/// missing, `Size` for a name that is not 1 to 32 bytes and `Date`, from the left. A file of more
/// than 67,108,864 bytes is refused at line 0 with `Size`.
pub fn read_rotations(alloc: Global, bytes: &[u8]) -> Result<Vec<RotationRow>, ReadFault>
    ensures exact { Gives (λ rows. rows.items) result (text_rows most_bytes rotation_row bytes.now) }
    ensures facts { IfOk result (λ rows. All IsRotation rows.items) }
{
    read_rows(alloc, &RotationLine, MOST_BYTES, bytes)
}
