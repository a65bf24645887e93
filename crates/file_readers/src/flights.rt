//! The file of flights.

ghost use Rattle.std.specs.Prelude.{◌≡◌, ◌+◌, ◌<◌, ◌≤◌, IfOk, IfSome, All, Some};
ghost use Rattle.desk_text.specs.Rows.{Gives, text_rows};
ghost use Rattle.file_readers.specs.Flights.{departure_of, first_after, arrival_of, previous_of, flight_row};
ghost use Rattle.file_rows.specs.Facts.{IsFlight};
ghost use Rattle.file_rows.specs.Limits.{most_bytes};
ghost use Rattle.file_rows.specs.Seen.{IsSeen};

use desk_text::{Cause, Fields, Grammar, MOST_BYTES, ReadFault, RowFault, name, read_rows, time};
use desk_units::Name;
use file_rows::FlightRow;
use std::alloc::Global;

/// A departure, in minutes after the midnight of the flight's date: a time, and the days that it
/// adds.
#[tactic(auto, unfolding(crate::specs::Flights::departure_of))]
fn departure(field: &[u8]) -> Result<u32, Cause>
    ensures exact { result ≡ departure_of field.now }
    ensures range { IfOk result (λ departure. departure < 14400) }
{
    let (minute, days) = time(field)?;
    match days {
        Some(days) => Ok(minute + 1_440 * days),
        None => Ok(minute),
    }
}

/// The first moment after this one that shows this minute of the day.
fn first_after(moment: u32, minute: u32) -> u32
    requires moment { moment < 14400 }
    requires minute { minute < 1440 }
    ensures exact { first_after moment minute ≡ Some result }
    ensures later { moment < result }
    ensures soon { result ≤ moment + 1440 }
{
    let same_day = moment - moment % 1_440 + minute;
    if moment < same_day {
        same_day
    } else {
        same_day + 1_440
    }
}

/// An arrival, in minutes after the midnight of the flight's date: a time that adds days comes 1 to
/// 2,880 minutes after the departure, else `Time`; one that adds none is the first after it.
#[tactic(auto, unfolding(crate::specs::Flights::arrival_of))]
fn arrival(departure: u32, field: &[u8]) -> Result<u32, Cause>
    requires { departure < 14400 }
    ensures exact { result ≡ arrival_of departure field.now }
    ensures later { IfOk result (λ arrival. departure < arrival) }
    ensures soon { IfOk result (λ arrival. arrival ≤ departure + 2880) }
{
    let (minute, days) = time(field)?;
    match days {
        Some(days) => {
            let arrival = minute + 1_440 * days;
            if departure < arrival && arrival <= departure + 2_880 {
                Ok(arrival)
            } else {
                Err(Cause::Time)
            }
        }
        None => Ok(first_after(departure, minute)),
    }
}

/// The previous flight, or `None` where the field is `0`.
#[tactic(auto, unfolding(crate::specs::Flights::previous_of))]
fn previous(field: &[u8]) -> Result<Option<Name>, Cause>
    ensures exact { result ≡ previous_of field.now }
    ensures seen { IsSeen field.now → IfOk result (λ previous. IfSome previous IsSeen) }
{
    if field == b"0".as_slice() {
        return Ok(None);
    }
    let flight = name(field)?;
    Ok(Some(flight))
}

/// The fields of a line: flight, origin, destination, departure, arrival, previous flight.
#[derive(Drop)]
struct FlightLine;

impl Grammar<FlightRow> for FlightLine {
    ghost row_of = { λ _. flight_row };

    ghost holds = { λ _. IsFlight };

    #[tactic(auto, unfolding(crate::specs::Flights::flight_row))]
    fn row(
        &self,
        _alloc: Global,
        line: u32,
        mut fields: Fields<'_>,
    ) -> Result<FlightRow, RowFault> {
        let flight = fields.take()?;
        let origin = fields.take()?;
        let dest = fields.take()?;
        let dep = fields.take()?;
        let arr = fields.take()?;
        let prev = fields.take()?;
        let flight = name(flight)?;
        let origin = name(origin)?;
        let dest = name(dest)?;
        let dep = departure(dep)?;
        let arr = arrival(dep, arr)?;
        let prev = previous(prev)?;
        Ok(FlightRow {
            line,
            flight,
            origin,
            dest,
            dep,
            arr,
            prev,
        })
    }
}

/// The rows of a file of flights, in the order of their lines, or the first line that is refused.
///
/// A line is a flight, its origin and destination, its departure and arrival, and the flight before
/// it or `0`; what comes after these is passed over. A departure is a time of the flight's date,
/// or so many days later as come after a plus sign. An arrival with days is counted from the same
/// midnight and must be 1 to 2,880 minutes after the departure; one without is the first moment
/// after the departure that shows its time.
///
/// The causes, of which the first one counts: `Byte` for a byte that no line may have, `Fields`
/// where one is missing, `Size` for a name that is not 1 to 32 bytes and `Time`, from the left. A
/// file of more than 67,108,864 bytes is refused at line 0 with `Size`.
pub fn read_flights(alloc: Global, bytes: &[u8]) -> Result<Vec<FlightRow>, ReadFault>
    ensures exact { Gives (λ rows. rows.items) result (text_rows most_bytes flight_row bytes.now) }
    ensures facts { IfOk result (λ rows. All IsFlight rows.items) }
{
    read_rows(alloc, &FlightLine, MOST_BYTES, bytes)
}
