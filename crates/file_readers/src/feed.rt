//! The file of the feed.

ghost use Rattle.std.specs.Prelude.{◌≡◌, ◌+◌, ◌<◌, ◌≤◌, All, IfOk};
ghost use Rattle.desk_text.specs.Rows.{Gives};
ghost use Rattle.file_rows.specs.Facts.{IsAlt, IsFed};
ghost use Rattle.comma_rows.specs.Records.{printed};
ghost use Rattle.file_readers.specs.Orders.{flight_row, aircraft_row, airport_row, moment_row};
ghost use Rattle.file_readers.specs.Feed.{kind_of, width_of, order_of, fed_row, feed_rows};

use crate::orders::{aircraft_order, airport_order, flight_order};
use comma_rows::{Columns, CommaGrammar, read_records};
use desk_text::{Cause, MOST_BYTES, ReadFault, RowFault, moment, number};
use file_rows::AltRow;
use std::alloc::Global;

/// The greatest number that a batch may have.
const MOST_BATCH: u32 = 999_999_999;

/// What a record of the feed is about.
#[derive(Clone, Copy)]
enum OrderKind {
    Flight,
    Aircraft,
    Airport,
    Nothing,
    At,
}

impl OrderKind {
    /// The kind that a word names, else `Word`.
    fn named(word: &[u8]) -> Result<OrderKind, Cause>
        ensures { result ≡ kind_of word.now }
    {
        if word == b"flight".as_slice() {
            Ok(OrderKind::Flight)
        } else if word == b"aircraft".as_slice() {
            Ok(OrderKind::Aircraft)
        } else if word == b"airport".as_slice() {
            Ok(OrderKind::Airport)
        } else if word == b"none".as_slice() {
            Ok(OrderKind::Nothing)
        } else if word == b"at".as_slice() {
            Ok(OrderKind::At)
        } else {
            Err(Cause::Word)
        }
    }

    /// How many fields come after the word.
    fn width(self) -> usize
        ensures { result ≡ width_of self }
    {
        match self {
            OrderKind::Flight => 3,
            OrderKind::Aircraft => 5,
            OrderKind::Airport => 7,
            OrderKind::Nothing => 0,
            OrderKind::At => 2,
        }
    }
}

/// What is ordered of a flight, by its fields.
#[tactic(auto, unfolding(crate::specs::Orders::flight_row))]
fn flight(line: u32, mut columns: Columns<'_>) -> Result<AltRow, Cause>
    ensures exact { result ≡ flight_row line columns.entry }
    ensures facts { IfOk result IsAlt }
{
    let flight = columns.take()?;
    let day = columns.take()?;
    let delay = columns.take()?;
    flight_order(line, flight, day, delay)
}

/// What is ordered of an aircraft, by its fields.
#[tactic(auto, unfolding(crate::specs::Orders::aircraft_row))]
fn aircraft(line: u32, mut columns: Columns<'_>) -> Result<AltRow, Cause>
    ensures exact { result ≡ aircraft_row line columns.entry }
    ensures facts { IfOk result IsAlt }
{
    let aircraft = columns.take()?;
    let first_day = columns.take()?;
    let first_time = columns.take()?;
    let last_day = columns.take()?;
    let last_time = columns.take()?;
    aircraft_order(
        line,
        aircraft,
        (first_day, first_time),
        (last_day, last_time),
    )
}

/// What is ordered of an airport, by its fields.
#[tactic(auto, unfolding(crate::specs::Orders::airport_row))]
fn airport(line: u32, mut columns: Columns<'_>) -> Result<AltRow, Cause>
    ensures exact { result ≡ airport_row line columns.entry }
    ensures facts { IfOk result IsAlt }
{
    let airport = columns.take()?;
    let first_day = columns.take()?;
    let first_time = columns.take()?;
    let last_day = columns.take()?;
    let last_time = columns.take()?;
    let deps = columns.take()?;
    let arrs = columns.take()?;
    airport_order(
        line,
        airport,
        (first_day, first_time),
        (last_day, last_time),
        (deps, arrs),
    )
}

/// The moment of a batch, by its fields.
#[tactic(auto, unfolding(crate::specs::Orders::moment_row))]
fn batch_moment(line: u32, mut columns: Columns<'_>) -> Result<AltRow, Cause>
    ensures exact { result ≡ moment_row line columns.entry }
    ensures facts { IfOk result IsAlt }
{
    let day = columns.take()?;
    let time = columns.take()?;
    let at = moment(day, time)?;
    Ok(AltRow::At { line, at })
}

/// What a record of a kind says, by the fields after its word.
fn order(kind: OrderKind, line: u32, columns: Columns<'_>) -> Result<AltRow, Cause>
    ensures exact { result ≡ order_of kind line columns.entry }
    ensures facts { IfOk result IsAlt }
{
    match kind {
        OrderKind::Flight => flight(line, columns),
        OrderKind::Aircraft => aircraft(line, columns),
        OrderKind::Airport => airport(line, columns),
        OrderKind::Nothing => Ok(AltRow::Nothing { line }),
        OrderKind::At => batch_moment(line, columns),
    }
}

/// The batch of a record whose bytes were tried, and what it says.
#[tactic(auto, unfolding(crate::specs::Feed::fed_row))]
fn fed(line: u32, mut columns: Columns<'_>) -> Result<(u32, AltRow), Cause>
    ensures exact { result ≡ fed_row line columns.entry }
    ensures facts { IfOk result IsFed }
{
    let batch = columns.take()?;
    let word = columns.take()?;
    let kind = OrderKind::named(word)?;
    if columns.count() != kind.width() {
        return Err(Cause::Fields);
    }
    let batch = number(batch, 1, MOST_BATCH)?;
    let order = order(kind, line, columns)?;
    Ok((batch, order))
}

/// The fields of a record: the number of a batch, a word, and what the word names.
#[derive(Drop)]
struct FeedRecord;

impl CommaGrammar<(u32, AltRow)> for FeedRecord {
    ghost row_of = { λ _. printed fed_row };

    ghost holds = { λ _. IsFed };

    fn row(
        &self,
        _alloc: Global,
        line: u32,
        columns: Columns<'_>,
    ) -> Result<(u32, AltRow), RowFault> {
        if !columns.are_printed() {
            return Err(RowFault::Refused(Cause::Byte));
        }
        Ok(fed(line, columns)?)
    }
}

/// The rows of the feed, each with the number of its batch, in the order of the records; or the
/// first record that is refused.
///
/// The file is read as the crate `csv` reads one by its default settings, without a header row and
/// with records of any length; a byte order mark at the start is dropped. A record's line is its
/// number from 1: an empty line is no record, and a line end in quotes ends none. A record is the
/// number of a batch, from 1 to 999,999,999, a word, and exactly the fields of that word:
///
/// - `flight`: those of alt_flights.csv, as `1,flight,F1,01/03/08,-1`.
/// - `aircraft`: those of alt_aircraft.csv, dates and times being fields of their own, as
///   `1,aircraft,P1,01/03/08,08:00,01/03/08,10:00`.
/// - `airport`: those of alt_airports.csv, as `2,airport,AAA,01/03/08,08:00,01/03/08,10:00,0,0`.
/// - `none`: no fields; the batch has a row, `AltRow::Nothing`, and no order by it.
/// - `at`: the date and the time at which the batch becomes known, as `2,at,01/03/08,09:10`; the row,
///   `AltRow::At`, is no order.
///
/// Names may have spaces and commas. A file without records has no rows. The order of the batches and of
/// their moments, and how many orders there are, is not looked at.
///
/// # Errors
///
/// `Size` at line 0 for more than 67,108,864 bytes. Of a record `Byte` for a byte that is not from
/// 0x20 to 0x7e, in whichever field; then `Fields` for a record of one field; then `Word` for an
/// unknown word; then `Fields` where there are fewer or more fields than the word has; then from the
/// left the first cause of a field: `Number`, `Size`, `Date` or `Time`.
#[tactic(auto, unfolding(crate::specs::Feed::feed_rows))]
pub fn read_feed(alloc: Global, bytes: &[u8]) -> Result<Vec<(u32, AltRow)>, ReadFault>
    ensures exact { Gives (λ rows. rows.items) result (feed_rows bytes.now) }
    ensures facts { IfOk result (λ rows. All IsFed rows.items) }
{
    read_records(alloc, &FeedRecord, MOST_BYTES, bytes)
}
