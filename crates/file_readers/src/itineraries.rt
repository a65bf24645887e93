//! The file of itineraries.

ghost use Rattle.std.specs.Prelude.{◌≡◌, ◌+◌, ◌*◌, ◌≤◌, ◌%◌, ◌==◌, ◌&&◌, nat_lt, [], All, IfOk, IfSome, Ok, Err, length, MatchOption, MatchResult, Result};
ghost use Rattle.file_rows.specs.declared.passengers.ItineraryRow.{ItineraryRow as Itinerary};
ghost use Rattle.file_rows.specs.declared.cause.Cause.{Cause as RowCause};
ghost use Rattle.desk_text.specs.Rows.{Gives, GivesRow, text_rows};
ghost use Rattle.file_rows.specs.Seen.{IsSeen};
ghost use Rattle.file_readers.specs.Itineraries.{leg_of, legs_of, before_all, fields_row, in_groups, itinerary_row};
ghost use Rattle.file_rows.specs.Facts.{IsLeg, IsItinerary};
ghost use Rattle.file_rows.specs.Limits.{most_bytes};

use crate::dates::{ReadDate, day};
use desk_text::{
    Cause, Fields, Grammar, MOST_BYTES, ReadFault, RowFault, cabin, inbound, name, number, price,
    read_rows,
};
use desk_units::List;
use file_rows::{ItineraryRow, LegRow};
use std::alloc::Global;

/// The most passengers that a reservation of the file may have: the largest number of 9 digits.
const MOST_PASSENGERS: u32 = 999_999_999;
/// For how many legs of a reservation there is room at first: most have fewer.
const USUAL_LEGS: usize = 4;

/// The leg that three fields give.
#[tactic(auto, unfolding(crate::specs::Itineraries::leg_of))]
fn leg<'a>(
    last: &mut Option<ReadDate<'a>>,
    flight: &[u8],
    date: &'a [u8],
    class: &[u8],
) -> Result<LegRow, Cause>
    requires { IsSeen flight.now }
    ensures exact { result ≡ leg_of flight.now date.now class.now }
    ensures facts { IfOk result IsLeg }
{
    Ok(LegRow {
        flight: name(flight)?,
        day: day(last, date)?,
        cabin: cabin(class)?,
    })
}

/// The leg of the next three fields, or `None` exactly where there are no more fields.
#[tactic(auto, unfolding(crate::specs::Itineraries::legs_of))]
fn next_leg<'a>(
    fields: &mut Fields<'a>,
    last: &mut Option<ReadDate<'a>>,
) -> Result<Option<LegRow>, Cause>
    ensures exact { MatchResult result (λ next. MatchOption next (legs_of fields.old ≡ Ok []) (λ leg. legs_of fields.old ≡ before_all leg (legs_of fields.new))) (λ cause. legs_of fields.old ≡ Err cause) }
    ensures size { IfOk result (λ next. MatchOption next (fields.old ≡ []) (λ _. length fields.new + 3 ≡ length fields.old)) }
    ensures facts { IfOk result (λ next. IfSome next IsLeg) }
{
    let Some(flight) = fields.next() else {
        return Ok(None);
    };
    let date = fields.take()?;
    let class = fields.take()?;
    Ok(Some(leg(last, flight, date, class)?))
}

/// The legs of all fields, three by three, as `FLIGHT DATE CABIN`; no fields have none. The first cause
/// from the left: `Fields` for a leg that is not whole, `Size` of a name, `Date`, `Word` of a cabin.
pub fn legs(alloc: Global, mut fields: Fields<'_>) -> Result<List<LegRow>, RowFault>
    ensures exact { GivesRow result (legs_of fields.entry) }
    ensures size { IfOk result (λ legs. 3 * length legs ≡ length fields.entry) }
    ensures facts { IfOk result (All IsLeg) }
{
    let mut legs = Vec::with_capacity(alloc, USUAL_LEGS)?;
    let mut last = None;
    while let Some(leg) = next_leg(&mut fields, &mut last)? {
        legs.push(leg)?;
    }
    Ok(List(legs))
}

/// The row of four fields and of those of its legs, whatever the number of these.
#[tactic(auto, unfolding(crate::specs::Itineraries::fields_row))]
fn fields_row(
    alloc: Global,
    line: u32,
    reservation: &[u8],
    kind: &[u8],
    paid: &[u8],
    passengers: &[u8],
    fields: Fields<'_>,
) -> Result<ItineraryRow, RowFault>
    requires { IsSeen reservation.now }
    ensures exact { GivesRow result (fields_row line reservation.now kind.now paid.now passengers.now fields.entry) }
    ensures size { IfOk result (λ row. 3 * length row.legs ≡ length fields.entry) }
    ensures facts { IfOk result (λ row. 1 ≤ length row.legs → IsItinerary row) }
{
    Ok(ItineraryRow {
        line,
        name: name(reservation)?,
        inbound: inbound(kind)?,
        price: price(paid)?,
        count: number(passengers, 1, MOST_PASSENGERS)?,
        legs: legs(alloc, fields)?,
    })
}

/// Whether so many fields are one or more whole groups of three.
fn are_groups(count: usize) -> bool
    ensures { result ≡ (nat_lt 0 count && (count % 3 == 0)) }
{
    count > 0 && count % 3 == 0
}

/// What was read of a row, or `Fields` where its last fields are no groups of three. They are counted only
/// where the row was refused: of one that was read, each leg took three.
fn in_groups(
    read: Result<ItineraryRow, RowFault>,
    fields: Fields<'_>,
) -> Result<ItineraryRow, RowFault>
    requires size { IfOk read (λ row. 3 * length row.legs ≡ length fields) }
    requires facts { IfOk read (λ row. 1 ≤ length row.legs → IsItinerary row) }
    ensures exact { (row : Result Itinerary RowCause) → GivesRow read row → GivesRow result (in_groups fields.entry row) }
    ensures facts { IfOk result IsItinerary }
{
    match read {
        Ok(row) => {
            if row.legs.as_slice().is_empty() {
                return Err(RowFault::Refused(Cause::Fields));
            }
            Ok(row)
        }
        Err(RowFault::Refused(cause)) => {
            if are_groups(fields.count()) {
                return Err(RowFault::Refused(cause));
            }
            Err(RowFault::Refused(Cause::Fields))
        }
        Err(RowFault::Memory) => Err(RowFault::Memory),
    }
}

/// The grammar of the file.
#[derive(Drop)]
struct Itineraries;

impl Grammar<ItineraryRow> for Itineraries {
    ghost row_of = { λ _. itinerary_row };

    ghost holds = { λ _. IsItinerary };

    #[tactic(auto, unfolding(crate::specs::Itineraries::itinerary_row))]
    fn row(
        &self,
        alloc: Global,
        line: u32,
        mut fields: Fields<'_>,
    ) -> Result<ItineraryRow, RowFault> {
        let reservation = fields.take()?;
        let kind = fields.take()?;
        let paid = fields.take()?;
        let passengers = fields.take()?;
        let groups = fields.again();
        let read = fields_row(alloc, line, reservation, kind, paid, passengers, fields);
        in_groups(read, groups)
    }
}

/// The reservations, in the order of their lines, or the first line that is refused.
///
/// A line is `RESERVATION TYPE PRICE COUNT`, and then one or more groups `FLIGHT DATE CABIN`. The
/// type is `A` outbound and `R` on the inbound half of a return trip; the price is the one that
/// each passenger paid, at most 999,999,999.9999; the passengers are from 1 to 999,999,999; a cabin
/// is `F`, `B` or `E`.
///
/// # Errors
///
/// `Size` at line 0 for more than 67,108,864 bytes. Of a line `Byte` for a byte that no line may
/// have, then `Fields` for a missing field, no group or one that is not whole, then from the left
/// the first cause of a field: `Size` of a name, `Word` of a type or a cabin, `Number` of a price or
/// a count, `Date` of a date.
pub fn read_itineraries(alloc: Global, bytes: &[u8]) -> Result<Vec<ItineraryRow>, ReadFault>
    ensures exact { Gives (λ rows. rows.items) result (text_rows most_bytes itinerary_row bytes.now) }
    ensures facts { IfOk result (λ rows. All IsItinerary rows.items) }
{
    read_rows(alloc, &Itineraries, MOST_BYTES, bytes)
}
