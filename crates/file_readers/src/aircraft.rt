//! The file of aircraft.

ghost use Rattle.std.specs.Prelude.{◌≡◌, ◌≤◌, Ok, Err, IfOk, MatchResult, All};
ghost use Rattle.desk_text.specs.Fields.{name_of, number_of};
ghost use Rattle.desk_text.specs.Rows.{Gives, GivesRow, text_rows};
ghost use Rattle.file_readers.specs.Aircraft.{next_as, aircraft_of, aircraft_row};
ghost use Rattle.file_rows.specs.Facts.{IsAircraft};
ghost use Rattle.file_rows.specs.Limits.{most_bytes};
ghost use Rattle.file_rows.specs.Seen.{IsSeen};

use crate::maintenance::maint;
use desk_text::{
    Cause, Fields, Grammar, MOST_BYTES, ReadFault, RowFault, name, number, price, read_rows, seats,
};
use desk_units::Name;
use file_rows::AircraftRow;
use std::alloc::Global;

/// The name that the next field spells.
fn next_name(fields: &mut Fields<'_>) -> Result<Name, Cause>
    ensures exact { MatchResult result (λ name. next_as name_of fields.old ≡ Ok (name, fields.new)) (λ cause. next_as name_of fields.old ≡ Err cause) }
    ensures seen { IfOk result IsSeen }
{
    let field = fields.take()?;
    let name = name(field)?;
    Ok(name)
}

/// The number from `low` to `high` that the next field spells.
fn next_number(fields: &mut Fields<'_>, low: u32, high: u32) -> Result<u32, Cause>
    ensures exact { MatchResult result (λ n. next_as (number_of low high) fields.old ≡ Ok (n, fields.new)) (λ cause. next_as (number_of low high) fields.old ≡ Err cause) }
    ensures most { IfOk result (λ n. n ≤ high) }
{
    let field = fields.take()?;
    let number = number(field, low, high)?;
    Ok(number)
}

/// The aircraft of a line of at least ten fields.
#[tactic(auto, unfolding(crate::specs::Aircraft::aircraft_of))]
fn aircraft_of(line: u32, mut fields: Fields<'_>) -> Result<AircraftRow, Cause>
    ensures exact { result ≡ aircraft_of line fields.entry }
    ensures facts { IfOk result IsAircraft }
{
    Ok(AircraftRow {
        line,
        name: next_name(&mut fields)?,
        model: next_name(&mut fields)?,
        family: next_name(&mut fields)?,
        seats: seats(fields.take()?)?,
        range: next_number(&mut fields, 0, 100_000)?,
        hourly: price(fields.take()?)?,
        turnaround: next_number(&mut fields, 0, 2_880)?,
        transit: next_number(&mut fields, 0, 2_880)?,
        origin: next_name(&mut fields)?,
        maint: maint(fields.take()?)?,
    })
}

/// The grammar of the file.
#[derive(Drop)]
struct Aircraft;

impl Grammar<AircraftRow> for Aircraft {
    ghost row_of = { λ _. aircraft_row };

    ghost holds = { λ _. IsAircraft };

    #[tactic(auto, unfolding(crate::specs::Aircraft::aircraft_row))]
    fn row(&self, _alloc: Global, line: u32, fields: Fields<'_>) -> Result<AircraftRow, RowFault> {
        if fields.count() < 10 {
            return Err(RowFault::Refused(Cause::Fields));
        }
        Ok(aircraft_of(line, fields)?)
    }
}

/// The aircraft, in the order of their lines, or the first line that is refused.
///
/// A line is `AIRCRAFT MODEL FAMILY SEATS RANGE HOURLY TURN TRANSIT ORIGIN MAINTENANCE`; fields
/// after these are passed over. The maintenance is `NULL` for none, or
/// `AIRPORT-DATE-TIME-DATE-TIME-MINUTES`.
///
/// # Errors
///
/// `Size` at line 0 for more than 67,108,864 bytes. Of a line `Byte` for a byte that no line may
/// have, then `Fields` for fewer than ten fields, then from the left the first cause of a field:
/// `Size` of a name, `Number` of seats, a number or a price, `Word` of a maintenance that is not
/// `NULL` and has fewer than six parts, `Date` and `Time` of its moments.
pub fn read_aircraft(alloc: Global, bytes: &[u8]) -> Result<Vec<AircraftRow>, ReadFault>
    ensures exact { Gives (λ rows. rows.items) result (text_rows most_bytes aircraft_row bytes.now) }
    ensures facts { IfOk result (λ rows. All IsAircraft rows.items) }
{
    read_rows(alloc, &Aircraft, MOST_BYTES, bytes)
}
