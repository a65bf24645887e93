//! The text files of disruptions.

ghost use Rattle.std.specs.Prelude.{◌≡◌, All, IfOk};
ghost use Rattle.desk_text.specs.Rows.{Gives, text_rows};
ghost use Rattle.file_rows.specs.Facts.{IsAlt};
ghost use Rattle.file_rows.specs.Limits.{most_bytes};
ghost use Rattle.file_readers.specs.Orders.{flight_row, aircraft_row, airport_row};

use crate::orders::{aircraft_order, airport_order, flight_order};
use desk_text::{Fields, Grammar, MOST_BYTES, ReadFault, RowFault, read_rows};
use file_rows::AltRow;
use std::alloc::Global;

/// The fields of a line: flight, date, delay.
#[derive(Drop)]
struct FlightLine;

impl Grammar<AltRow> for FlightLine {
    ghost row_of = { λ _. flight_row };

    ghost holds = { λ _. IsAlt };

    #[tactic(auto, unfolding(crate::specs::Orders::flight_row))]
    fn row(&self, _alloc: Global, line: u32, mut fields: Fields<'_>) -> Result<AltRow, RowFault> {
        let flight = fields.take()?;
        let day = fields.take()?;
        let delay = fields.take()?;
        Ok(flight_order(line, flight, day, delay)?)
    }
}

/// The fields of a line: aircraft, and the date and the time from which on and up to which.
#[derive(Drop)]
struct AircraftLine;

impl Grammar<AltRow> for AircraftLine {
    ghost row_of = { λ _. aircraft_row };

    ghost holds = { λ _. IsAlt };

    #[tactic(auto, unfolding(crate::specs::Orders::aircraft_row))]
    fn row(&self, _alloc: Global, line: u32, mut fields: Fields<'_>) -> Result<AltRow, RowFault> {
        let aircraft = fields.take()?;
        let first_day = fields.take()?;
        let first_time = fields.take()?;
        let last_day = fields.take()?;
        let last_time = fields.take()?;
        let first = (first_day, first_time);
        let last = (last_day, last_time);
        Ok(aircraft_order(line, aircraft, first, last)?)
    }
}

/// The fields of a line: airport, the date and the time from which on and up to which, departures and
/// arrivals per hour.
#[derive(Drop)]
struct AirportLine;

impl Grammar<AltRow> for AirportLine {
    ghost row_of = { λ _. airport_row };

    ghost holds = { λ _. IsAlt };

    #[tactic(auto, unfolding(crate::specs::Orders::airport_row))]
    fn row(&self, _alloc: Global, line: u32, mut fields: Fields<'_>) -> Result<AltRow, RowFault> {
        let airport = fields.take()?;
        let first_day = fields.take()?;
        let first_time = fields.take()?;
        let last_day = fields.take()?;
        let last_time = fields.take()?;
        let deps = fields.take()?;
        let arrs = fields.take()?;
        let first = (first_day, first_time);
        let last = (last_day, last_time);
        Ok(airport_order(line, airport, first, last, (deps, arrs))?)
    }
}

/// The orders of a file of flights that are late or not flown, in the order of their lines, or the
/// first line that is refused.
///
/// A line is `FLIGHT DATE DELAY`, the delay from 0 to 2,880 minutes, or `-1` for a leg that is not
/// flown; what comes after these is passed over. The causes, of which the first one counts: `Byte`
/// for a byte that no line may have, `Fields` where one is missing, `Size` for a name that is not 1
/// to 32 bytes, `Date` and `Number`, from the left. A file of more than 67,108,864 bytes is refused
/// at line 0 with `Size`.
pub fn read_alt_flights(alloc: Global, bytes: &[u8]) -> Result<Vec<AltRow>, ReadFault>
    ensures exact { Gives (λ rows. rows.items) result (text_rows most_bytes flight_row bytes.now) }
    ensures facts { IfOk result (λ rows. All IsAlt rows.items) }
{
    read_rows(alloc, &FlightLine, MOST_BYTES, bytes)
}

/// The orders of a file of aircraft that are out of service, in the order of their lines, or the
/// first line that is refused.
///
/// A line is `AIRCRAFT DATE TIME DATE TIME`: from when on, and up to when; what comes after these
/// is passed over. Whether the end comes after the start is not looked at. The causes, of which the
/// first one counts: `Byte` for a byte that no line may have, `Fields` where one is missing, `Size`
/// for a name that is not 1 to 32 bytes, `Date` and `Time`, from the left. A file of more than
/// 67,108,864 bytes is refused at line 0 with `Size`.
pub fn read_alt_aircraft(alloc: Global, bytes: &[u8]) -> Result<Vec<AltRow>, ReadFault>
    ensures exact { Gives (λ rows. rows.items) result (text_rows most_bytes aircraft_row bytes.now) }
    ensures facts { IfOk result (λ rows. All IsAlt rows.items) }
{
    read_rows(alloc, &AircraftLine, MOST_BYTES, bytes)
}

/// The orders of a file of airports with other caps, in the order of their lines, or the first line
/// that is refused.
///
/// A line is `AIRPORT DATE TIME DATE TIME DEPARTURES ARRIVALS`: from when on, up to when, and how
/// many an hour from 0 to 100,000; what comes after these is passed over. Whether the end comes
/// after the start is not looked at. The causes, of which the first one counts: `Byte` for a byte
/// that no line may have, `Fields` where one is missing, `Size` for a name that is not 1 to 32
/// bytes, `Date`, `Time` and `Number`, from the left. A file of more than 67,108,864 bytes is
/// refused at line 0 with `Size`.
pub fn read_alt_airports(alloc: Global, bytes: &[u8]) -> Result<Vec<AltRow>, ReadFault>
    ensures exact { Gives (λ rows. rows.items) result (text_rows most_bytes airport_row bytes.now) }
    ensures facts { IfOk result (λ rows. All IsAlt rows.items) }
{
    read_rows(alloc, &AirportLine, MOST_BYTES, bytes)
}
