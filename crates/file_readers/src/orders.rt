//! The orders that fields give.

ghost use Rattle.std.specs.Prelude.{◌≡◌, ◌≤◌, IfOk};
ghost use Rattle.std.specs.Option.{ForSome};
ghost use Rattle.file_rows.specs.Facts.{IsAlt};
ghost use Rattle.file_readers.specs.Orders.{delay_of, flight_order, aircraft_order, airport_order};

use desk_text::{Cause, date, moment, name, number};
use file_rows::AltRow;

/// The longest delay of an order, in minutes.
const MOST_DELAY: u32 = 2_880;

/// The most departures, and the most arrivals, of an airport in an hour.
const MOST_PER_HOUR: u32 = 100_000;

/// A delay of 0 to 2,880 minutes, or `None` where the field is `-1`; else `Number`.
#[tactic(auto, unfolding(crate::specs::Orders::delay_of))]
fn delay(field: &[u8]) -> Result<Option<u32>, Cause>
    ensures exact { result ≡ delay_of field.now }
    ensures range { IfOk result (λ delay. ForSome delay (λ minutes. minutes ≤ 2880)) }
{
    if field == b"-1".as_slice() {
        return Ok(None);
    }
    let minutes = number(field, 0, MOST_DELAY)?;
    Ok(Some(minutes))
}

/// What is ordered of a flight on a day.
#[tactic(auto, unfolding(crate::specs::Orders::flight_order))]
pub(crate) fn flight_order(
    line: u32,
    flight: &[u8],
    day: &[u8],
    minutes: &[u8],
) -> Result<AltRow, Cause>
    ensures exact { result ≡ flight_order line flight.now day.now minutes.now }
    ensures facts { IfOk result IsAlt }
{
    let flight = name(flight)?;
    let day = date(day)?;
    let delay = delay(minutes)?;
    Ok(AltRow::Flight {
        line,
        flight,
        day,
        delay,
    })
}

/// What is ordered of an aircraft, from a date and a time on, up to a date and a time.
#[tactic(auto, unfolding(crate::specs::Orders::aircraft_order))]
pub(crate) fn aircraft_order(
    line: u32,
    aircraft: &[u8],
    first: (&[u8], &[u8]),
    last: (&[u8], &[u8]),
) -> Result<AltRow, Cause>
    ensures exact { result ≡ aircraft_order line aircraft.now (first.entry.0.now, first.entry.1.now) (last.entry.0.now, last.entry.1.now) }
    ensures facts { IfOk result IsAlt }
{
    let aircraft = name(aircraft)?;
    let from = moment(first.0, first.1)?;
    let to = moment(last.0, last.1)?;
    Ok(AltRow::Aircraft {
        line,
        aircraft,
        from,
        to,
    })
}

/// What is ordered of an airport, from a date and a time on, up to a date and a time: its departures and
/// its arrivals per hour.
#[tactic(auto, unfolding(crate::specs::Orders::airport_order))]
pub(crate) fn airport_order(
    line: u32,
    airport: &[u8],
    first: (&[u8], &[u8]),
    last: (&[u8], &[u8]),
    caps: (&[u8], &[u8]),
) -> Result<AltRow, Cause>
    ensures exact { result ≡ airport_order line airport.now (first.entry.0.now, first.entry.1.now) (last.entry.0.now, last.entry.1.now) (caps.entry.0.now, caps.entry.1.now) }
    ensures facts { IfOk result IsAlt }
{
    let airport = name(airport)?;
    let from = moment(first.0, first.1)?;
    let to = moment(last.0, last.1)?;
    let deps = number(caps.0, 0, MOST_PER_HOUR)?;
    let arrs = number(caps.1, 0, MOST_PER_HOUR)?;
    Ok(AltRow::Field {
        line,
        airport,
        from,
        to,
        deps,
        arrs,
    })
}
