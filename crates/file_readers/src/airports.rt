//! The file of airports.

ghost use Rattle.std.specs.Prelude.{◌≡◌, ◌+◌, ◌*◌, [], All, IfOk, IfSome, Ok, Err, length, MatchOption, MatchResult};
ghost use Rattle.desk_text.specs.Rows.{Gives, GivesRow, text_rows};
ghost use Rattle.file_readers.specs.Airports.{cap_of, caps_of, airport_row, before_all};
ghost use Rattle.file_rows.specs.Facts.{IsCap, IsAirport};
ghost use Rattle.file_rows.specs.Limits.{most_bytes};

use crate::times::end;
use desk_text::{
    Cause, Fields, Grammar, MOST_BYTES, ReadFault, RowFault, minute, name, number, read_rows,
};
use desk_units::List;
use file_rows::{AirportRow, CapRow};
use std::alloc::Global;

/// The caps that four fields give.
#[tactic(auto, unfolding(crate::specs::Airports::cap_of))]
fn cap(deps: &[u8], arrs: &[u8], from: &[u8], to: &[u8]) -> Result<CapRow, Cause>
    ensures exact { result ≡ cap_of deps.now arrs.now from.now to.now }
    ensures facts { IfOk result (λ cap. IsCap cap) }
{
    let deps = number(deps, 0, 100_000)?;
    let arrs = number(arrs, 0, 100_000)?;
    let from = minute(from)?;
    let to = end(to)?;
    Ok(CapRow {
        deps,
        arrs,
        from,
        to,
    })
}

/// The caps of the next four fields, or `None` exactly where there are no more fields.
#[tactic(auto, unfolding(crate::specs::Airports::caps_of))]
fn next_cap(fields: &mut Fields<'_>) -> Result<Option<CapRow>, Cause>
    ensures exact { MatchResult result (λ next. MatchOption next (caps_of fields.old ≡ Ok []) (λ cap. caps_of fields.old ≡ before_all cap (caps_of fields.new))) (λ cause. caps_of fields.old ≡ Err cause) }
    ensures size { IfOk result (λ next. MatchOption next (fields.old ≡ []) (λ _. length fields.new + 4 ≡ length fields.old)) }
    ensures facts { IfOk result (λ next. IfSome next IsCap) }
{
    let Some(deps) = fields.next() else {
        return Ok(None);
    };
    let arrs = fields.take()?;
    let from = fields.take()?;
    let to = fields.take()?;
    Ok(Some(cap(deps, arrs, from, to)?))
}

/// The caps of all fields, four by four.
fn caps(alloc: Global, mut fields: Fields<'_>) -> Result<List<CapRow>, RowFault>
    ensures exact { GivesRow result (caps_of fields.entry) }
    ensures size { IfOk result (λ caps. 4 * length caps ≡ length fields.entry) }
    ensures facts { IfOk result (λ caps. All IsCap caps) }
{
    let mut caps = Vec::new(alloc);
    while let Some(cap) = next_cap(&mut fields)? {
        caps.push(cap)?;
    }
    Ok(List(caps))
}

/// The form of the file of airports.
struct Airports {}

impl Grammar<AirportRow> for Airports {
    ghost row_of = { λ _. airport_row };

    ghost holds = { λ _. IsAirport };

    #[tactic(auto, unfolding(crate::specs::Airports::airport_row))]
    fn row(
        &self,
        alloc: Global,
        line: u32,
        mut fields: Fields<'_>,
    ) -> Result<AirportRow, RowFault> {
        let airport = fields.take()?;
        let count = fields.count();
        if count == 0 || count % 4 != 0 {
            return Err(RowFault::Refused(Cause::Fields));
        }
        let airport = name(airport)?;
        let groups = caps(alloc, fields)?;
        Ok(AirportRow {
            line,
            airport,
            groups,
        })
    }
}

/// The airports of the bytes, in the order of their lines, or the first line that is refused.
///
/// A line is `AIRPORT` and one or more groups `DEPARTURES ARRIVALS FROM TO`: caps per hour from 0 to
/// 100,000, and the times of the day between which they hold, `24:00` being allowed as the last. A
/// file of more than 67,108,864 bytes is refused at line 0 with `Size`. A line is refused with
/// `Byte`, with `Fields` where it has no group or the last one is not whole, and else with the cause
/// of its first field from the left that is not in its form.
pub fn read_airports(alloc: Global, bytes: &[u8]) -> Result<Vec<AirportRow>, ReadFault>
    ensures exact { Gives (λ rows. rows.items) result (text_rows most_bytes airport_row bytes.now) }
    ensures facts { IfOk result (λ rows. All IsAirport rows.items) }
{
    read_rows(alloc, &Airports {}, MOST_BYTES, bytes)
}
