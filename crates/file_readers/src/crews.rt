//! The file of crews.

ghost use Rattle.std.specs.Prelude.{◌≡◌, ◌<◌, ◌*◌, [], All, Ok, Err, IfOk, IfSome, MatchOption, MatchResult, length};
ghost use Rattle.desk_text.specs.Rows.{Gives, GivesRow, text_rows};
ghost use Rattle.file_readers.specs.Crews.{leg_of, legs_of, before_all, fields_row, crew_row};
ghost use Rattle.file_readers.specs.CrewFacts.{IsCrewLeg, IsCrewRow};
ghost use Rattle.file_rows.specs.Seen.{IsSeen};
ghost use Rattle.file_rows.specs.Limits.{most_bytes};

use crate::crew_row::{CrewLeg, CrewRow};
use desk_text::{
    Cause, Fields, Grammar, MOST_BYTES, ReadFault, RowFault, date, name, number, read_rows,
};
use desk_units::List;
use std::alloc::Global;

/// The most minutes of a duty, and of a rest.
const MOST_MINUTES: u32 = 10_000;

/// The leg that two fields give.
#[tactic(auto, unfolding(crate::specs::Crews::leg_of))]
fn leg(flight: &[u8], day: &[u8]) -> Result<CrewLeg, Cause>
    requires { IsSeen flight.now }
    ensures exact { result ≡ leg_of flight.now day.now }
    ensures facts { IfOk result IsCrewLeg }
{
    Ok(CrewLeg {
        flight: name(flight)?,
        day: date(day)?,
    })
}

/// The leg of the next two fields, or `None` exactly where there are no more fields.
#[tactic(auto, unfolding(crate::specs::Crews::legs_of))]
fn next_leg(fields: &mut Fields<'_>) -> Result<Option<CrewLeg>, Cause>
    ensures exact { MatchResult result (λ next. MatchOption next (legs_of fields.old ≡ Ok []) (λ leg. legs_of fields.old ≡ before_all leg (legs_of fields.new))) (λ cause. legs_of fields.old ≡ Err cause) }
    ensures shorter { IfOk result (λ next. IfSome next (λ _. length fields.new < length fields.old)) }
    ensures facts { IfOk result (λ next. IfSome next IsCrewLeg) }
{
    let Some(flight) = fields.next() else {
        return Ok(None);
    };
    let day = fields.take()?;
    Ok(Some(leg(flight, day)?))
}

/// The legs of all fields, two by two.
fn legs(alloc: Global, mut fields: Fields<'_>) -> Result<List<CrewLeg>, RowFault>
    ensures exact { GivesRow result (legs_of fields.entry) }
    ensures facts { IfOk result (All IsCrewLeg) }
{
    let mut legs = Vec::new(alloc);
    while let Some(leg) = next_leg(&mut fields)? {
        legs.push(leg)?;
    }
    Ok(List(legs))
}

/// The row of four fields and of those of its legs, which are one or more whole groups.
#[tactic(auto, unfolding(crate::specs::Crews::fields_row))]
fn fields_row(
    alloc: Global,
    line: u32,
    crew: &[u8],
    home: &[u8],
    duty: &[u8],
    rest: &[u8],
    fields: Fields<'_>,
) -> Result<CrewRow, RowFault>
    requires crew { IsSeen crew.now }
    requires home { IsSeen home.now }
    ensures exact { GivesRow result (fields_row line crew.now home.now duty.now rest.now fields.entry) }
    ensures facts { IfOk result IsCrewRow }
{
    Ok(CrewRow {
        line,
        name: name(crew)?,
        home: name(home)?,
        duty: number(duty, 1, MOST_MINUTES)?,
        rest: number(rest, 1, MOST_MINUTES)?,
        legs: legs(alloc, fields)?,
    })
}

/// The grammar of the file.
#[derive(Drop)]
struct Crews;

impl Grammar<CrewRow> for Crews {
    ghost row_of = { λ _. crew_row };

    ghost holds = { λ _. IsCrewRow };

    #[tactic(auto, unfolding(crate::specs::Crews::crew_row))]
    fn row(&self, alloc: Global, line: u32, mut fields: Fields<'_>) -> Result<CrewRow, RowFault> {
        let crew = fields.take()?;
        let home = fields.take()?;
        let duty = fields.take()?;
        let rest = fields.take()?;
        let count = fields.count();
        if !(0 < count && count % 2 == 0) {
            return Err(RowFault::Refused(Cause::Fields));
        }
        fields_row(alloc, line, crew, home, duty, rest, fields)
    }
}

/// The crews, in the order of their lines, or the first line that is refused.
///
/// A line is `CREW HOME DUTY REST`, and then one or more groups `FLIGHT DATE`. The greatest duty and the
/// least rest are minutes, each from 1 to 10,000.
///
/// # Errors
///
/// `Size` at line 0 for more than 67,108,864 bytes. Of a line `Byte` for a byte that no line may have, then
/// `Fields` for a missing field, no group or one that is not whole, then from the left the first cause of a
/// field: `Size` of a name, `Number` of the duty and the rest, `Date` of a date.
pub fn read_crew(alloc: Global, bytes: &[u8]) -> Result<Vec<CrewRow>, ReadFault>
    ensures exact { Gives (λ rows. rows.items) result (text_rows most_bytes crew_row bytes.now) }
    ensures facts { IfOk result (λ rows. All IsCrewRow rows.items) }
{
    read_rows(alloc, &Crews, MOST_BYTES, bytes)
}
