//! Why a row of feed.csv is refused.

ghost use Rattle.std.specs.Prelude.{◌≡◌, ◌&&◌, nat_le};
ghost use Rattle.file_rows.specs.Limits.{most_batches};
ghost use Rattle.build_refusals.specs.First.{first_refusal_in};
ghost use Rattle.build_refusals.specs.Orders.{line_of};
ghost use Rattle.build_refusals.specs.Feed.{is_in_turn, moment_cause, told_cause, fed_cause, feed_cause};

use crate::orders::{line_of, order_cause, room_after_row};
use build_tables::NameTables;
use desk_units::Minute;
use file_rows::{AltRow, Cause, LATEST_MOMENT, MOST_BATCHES};

/// Whether a batch comes in turn after that of the row before, where there is one.
fn is_in_turn(before: Option<u32>, number: u32) -> bool
    ensures { result ≡ is_in_turn before number }
{
    match before {
        None => number == 1,
        Some(before) => number == before || u64::from(number) == u64::from(before) + 1,
    }
}

/// Why a batch can't become known at a moment, where it can't. `before` is the batch of the row before the
/// one that tells it, and `earlier` the moment of the batch before.
#[tactic(auto, unfolding(crate::specs::Feed::moment_cause))]
fn moment_cause(before: Option<u32>, earlier: Minute, number: u32, at: Minute) -> Option<Cause>
    ensures { result ≡ moment_cause before earlier number at }
{
    if before.is_some_and(|last| last == number) {
        Some(Cause::Batch)
    } else if at.0 > LATEST_MOMENT {
        Some(Cause::Limit)
    } else if at.0 < earlier.0 {
        Some(Cause::BadWindow)
    } else {
        None
    }
}

/// Why the moment of a row, where it tells one, is refused, where it is.
fn told_cause(before: Option<u32>, earlier: Minute, fed: &(u32, AltRow)) -> Option<Cause>
    ensures { result ≡ told_cause before earlier fed.now }
{
    let at = fed.1.moment()?;
    moment_cause(before, earlier, fed.0, at)
}

/// Why a row of the feed is refused, where it is. `before` is the batch of the row before it, `earlier` the
/// last moment that a row before it tells, at first the window's start, and `full` says that as many orders
/// stand before it as there may be.
#[tactic(auto, unfolding(crate::specs::Feed::fed_cause))]
fn fed_cause(
    tables: &NameTables<'_>,
    before: Option<u32>,
    earlier: Minute,
    full: bool,
    fed: &(u32, AltRow),
) -> Option<Cause>
    ensures { result ≡ fed_cause tables.now.files.now before earlier full fed.now }
{
    let number = fed.0;
    if !(is_in_turn(before, number) && number <= MOST_BATCHES) {
        return Some(Cause::Batch);
    }
    match told_cause(before, earlier, fed) {
        Some(cause) => Some(cause),
        None => order_cause(tables, full, &fed.1),
    }
}

/// The line of the first row of the feed that is refused, and why. So many orders may come in it.
pub(crate) fn feed_refusal(
    tables: &NameTables<'_>,
    room: usize,
    rows: &[(u32, AltRow)],
) -> Option<(u32, Cause)>
    ensures { result ≡ first_refusal_in (feed_cause tables.now.files.now room rows.now) (λ fed. line_of fed.1) rows.now }
{
    let mut left = room;
    let mut before = None;
    let mut moment = tables.files.config.from;
    for fed in rows {
        if let Some(cause) = fed_cause(tables, before, moment, left == 0, fed) {
            return Some((line_of(&fed.1), cause));
        }
        before = Some(fed.0);
        moment = fed.1.moment().unwrap_or(moment);
        left = room_after_row(left, &fed.1);
    }
    None
}
