//! The file of a plan's rotations.

ghost use Rattle.std.specs.Prelude.{◌≡◌, All, IfOk, IfSome, Ok, Err, MatchResult, option_map};
ghost use Rattle.file_rows.specs.Limits.{most_bytes};
ghost use Rattle.desk_text.specs.Rows.{Gives, GivesRow, text_rows};
ghost use Rattle.file_readers.specs.SolFacts.{IsPlannedFlight, IsPlannedLeg};
ghost use Rattle.file_readers.specs.Legs.{departure_of, flown_of, planned_leg};

use crate::sol_row::{PlannedFlight, PlannedLeg};
use desk_text::{
    Cause, Fields, Grammar, MOST_BYTES, ReadFault, RowFault, date, moment, name, read_rows,
};
use std::alloc::Global;

/// The date and the time after the third field, or `None` where nothing stands there.
fn departure<'a>(fields: &mut Fields<'a>) -> Result<Option<(&'a [u8], &'a [u8])>, Cause>
    ensures { MatchResult result (λ found. departure_of fields.old ≡ Ok (option_map (λ parts. (parts.0.now, parts.1.now)) found)) (λ cause. departure_of fields.old ≡ Err cause) }
{
    let Some(day) = fields.next() else {
        return Ok(None);
    };
    let time = fields.take()?;
    Ok(Some((day, time)))
}

/// How a leg is flown: by an aircraft of this name that departs then; `None` for the word
/// `cancelled` where no departure stands.
#[tactic(auto, unfolding(crate::specs::Legs::flown_of))]
fn flown(field: &[u8], departure: Option<(&[u8], &[u8])>) -> Result<Option<PlannedFlight>, Cause>
    ensures exact { result ≡ flown_of field.now (option_map (λ parts. (parts.0.now, parts.1.now)) departure.entry) }
    ensures facts { IfOk result (λ flown. IfSome flown IsPlannedFlight) }
{
    match departure {
        Some((day, time)) => Ok(Some(PlannedFlight {
            aircraft: name(field)?,
            dep: moment(day, time)?,
        })),
        None if field == b"cancelled".as_slice() => Ok(None),
        None => Err(Cause::Word),
    }
}

/// The grammar of the file.
#[derive(Drop)]
struct Rotations;

impl Grammar<PlannedLeg> for Rotations {
    ghost row_of = { λ _. planned_leg };

    ghost holds = { λ _. IsPlannedLeg };

    #[tactic(auto, unfolding(crate::specs::Legs::planned_leg))]
    fn row(
        &self,
        _alloc: Global,
        line: u32,
        mut fields: Fields<'_>,
    ) -> Result<PlannedLeg, RowFault> {
        let flight = fields.take()?;
        let day = fields.take()?;
        let third = fields.take()?;
        let departure = departure(&mut fields)?;
        Ok(PlannedLeg {
            line,
            flight: name(flight)?,
            day: date(day)?,
            flown: flown(third, departure)?,
        })
    }
}

/// What becomes of legs, in the order of the lines, or the first line that is refused.
///
/// A line is `FLIGHT DATE cancelled`, or `FLIGHT DATE AIRCRAFT DATE TIME`, after which other fields
/// may stand.
///
/// # Errors
///
/// `Size` at line 0 for more than 67,108,864 bytes. Of a line `Byte` for a byte that no line may
/// have, then `Fields` for fewer than three fields, or four, then from the left the first cause of a
/// field: `Size` of a name, `Date`, `Time`, and `Word` of a third and last field that is not
/// `cancelled`.
pub fn read_planned_legs(alloc: Global, bytes: &[u8]) -> Result<Vec<PlannedLeg>, ReadFault>
    ensures exact { Gives (λ rows. rows.items) result (text_rows most_bytes planned_leg bytes.now) }
    ensures facts { IfOk result (λ rows. All IsPlannedLeg rows.items) }
{
    read_rows(alloc, &Rotations, MOST_BYTES, bytes)
}
