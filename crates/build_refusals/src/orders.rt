//! Why an order of the alt files or of the feed is refused.

ghost use Rattle.std.specs.Prelude.{◌≡◌, ◌-◌, if◌then◌else◌};
ghost use Rattle.build_refusals.specs.First.{first_refusal_in};
ghost use Rattle.build_refusals.specs.Orders.{line_of, is_order, room_after, is_about_known, has_good_span, order_cause, alt_cause};

use build_tables::NameTables;
use file_rows::{AltRow, Cause};

/// The line of a row, counted from 1.
pub(crate) fn line_of(row: &AltRow) -> u32
    ensures { result ≡ line_of row.now }
{
    match row {
        AltRow::Flight { line, .. } => *line,
        AltRow::Aircraft { line, .. } => *line,
        AltRow::Field { line, .. } => *line,
        AltRow::Nothing { line } => *line,
        AltRow::At { line, .. } => *line,
    }
}

/// Whether a row is an order, and does not only say that there is a batch, or when it becomes known.
fn is_order(row: &AltRow) -> bool
    ensures { result ≡ is_order row.now }
{
    match row {
        AltRow::Flight { .. } => true,
        AltRow::Aircraft { .. } => true,
        AltRow::Field { .. } => true,
        AltRow::Nothing { .. } => false,
        AltRow::At { .. } => false,
    }
}

/// Whether the leg, the aircraft or the airport of an order is known.
fn is_about_known(tables: &NameTables<'_>, row: &AltRow) -> bool
    ensures { result ≡ is_about_known tables.now.files.now row.now }
{
    match row {
        AltRow::Flight { flight, day, .. } => tables.rotation_place(flight, *day).is_some(),
        AltRow::Aircraft { aircraft, .. } => tables.aircraft_place(aircraft).is_some(),
        AltRow::Field { airport, .. } => tables.airport_place(airport).is_some(),
        AltRow::Nothing { .. } => true,
        AltRow::At { .. } => true,
    }
}

/// Whether the span of an order, where it has one, ends after its start.
fn has_good_span(row: &AltRow) -> bool
    ensures { result ≡ has_good_span row.now }
{
    match row {
        AltRow::Flight { .. } => true,
        AltRow::Aircraft { from, to, .. } => from.0 < to.0,
        AltRow::Field { from, to, .. } => from.0 < to.0,
        AltRow::Nothing { .. } => true,
        AltRow::At { .. } => true,
    }
}

/// Why a row is refused, where it is. `full` says that as many orders stand before it as there may be.
#[tactic(auto, unfolding(crate::specs::Orders::order_cause))]
pub(crate) fn order_cause(tables: &NameTables<'_>, full: bool, row: &AltRow) -> Option<Cause>
    ensures { result ≡ order_cause tables.now.files.now full row.now }
{
    if full && is_order(row) {
        Some(Cause::Limit)
    } else if !is_about_known(tables, row) {
        Some(Cause::Unknown)
    } else if has_good_span(row) {
        None
    } else {
        Some(Cause::BadWindow)
    }
}

/// How many more orders may come after a row, where so many may come before it.
pub(crate) fn room_after_row(room: usize, row: &AltRow) -> usize
    ensures { result ≡ room - (if is_order row.now then 1 else 0) }
{
    if is_order(row) {
        room.saturating_sub(1)
    } else {
        room
    }
}

/// How many more orders may come after these rows, where so many may come before them.
pub(crate) fn room_after(room: usize, rows: &[AltRow]) -> usize
    ensures { result ≡ room_after room rows.now }
{
    let mut left = room;
    for row in rows {
        left = room_after_row(left, row);
    }
    left
}

/// The line of the first row of an alt file that is refused, and why. So many orders may come in it.
pub(crate) fn alt_refusal(
    tables: &NameTables<'_>,
    room: usize,
    rows: &[AltRow],
) -> Option<(u32, Cause)>
    ensures { result ≡ first_refusal_in (alt_cause tables.now.files.now room rows.now) line_of rows.now }
{
    let mut left = room;
    for row in rows {
        if let Some(cause) = order_cause(tables, left == 0, row) {
            return Some((line_of(row), cause));
        }
        left = room_after_row(left, row);
    }
    None
}
