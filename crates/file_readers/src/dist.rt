//! The file of distances.

ghost use Rattle.std.specs.Prelude.{◌≡◌, All, IfOk};
ghost use Rattle.desk_text.specs.Rows.{Gives, text_rows};
ghost use Rattle.file_readers.specs.Dist.{dist_row};
ghost use Rattle.file_rows.specs.Facts.{IsDistance};
ghost use Rattle.file_rows.specs.Limits.{most_bytes};

use desk_text::{Fields, Grammar, MOST_BYTES, ReadFault, RowFault, haul, name, number, read_rows};
use file_rows::DistRow;
use std::alloc::Global;

/// The form of the file of distances.
struct Distances {}

impl Grammar<DistRow> for Distances {
    ghost row_of = { λ _. dist_row };

    ghost holds = { λ _. IsDistance };

    #[tactic(auto, unfolding(crate::specs::Dist::dist_row))]
    fn row(&self, _alloc: Global, line: u32, mut fields: Fields<'_>) -> Result<DistRow, RowFault> {
        let origin = fields.take()?;
        let dest = fields.take()?;
        let minutes = fields.take()?;
        let kind = fields.take()?;
        let origin = name(origin)?;
        let dest = name(dest)?;
        let minutes = number(minutes, 0, 100_000)?;
        let haul = haul(kind)?;
        Ok(DistRow {
            line,
            origin,
            dest,
            minutes,
            haul,
        })
    }
}

/// The distances of the bytes, in the order of their lines, or the first line that is refused.
///
/// A line is `ORIGIN DESTINATION MINUTES TYPE`, the minutes from 0 to 100,000 and the type `D`, `C`
/// or `I`; further fields are passed over. A file of more than 67,108,864 bytes is refused at line 0
/// with `Size`. A line is refused with `Byte` or `Fields`, and else with the cause of its first
/// field from the left that is not in its form.
pub fn read_dist(alloc: Global, bytes: &[u8]) -> Result<Vec<DistRow>, ReadFault>
    ensures exact { Gives (λ rows. rows.items) result (text_rows most_bytes dist_row bytes.now) }
    ensures facts { IfOk result (λ rows. All IsDistance rows.items) }
{
    read_rows(alloc, &Distances {}, MOST_BYTES, bytes)
}
