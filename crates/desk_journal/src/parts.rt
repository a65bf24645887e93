//! The parts of steps: legs, moments, rows and paths.

ghost use Rattle.std.specs.Prelude.{◌≡◌, ◌<◌, ◌≤◌, All, IfOk, IfSome, length};
ghost use Rattle.desk_units.specs.declared.numbers.Cabin.{Cabin};
ghost use Rattle.desk_journal.specs.declared.rows.NamedLeg.{NamedLeg};
ghost use Rattle.desk_journal.specs.Tokens.{Takes, TakesInMemory};
ghost use Rattle.desk_journal.specs.Steps.{leg_at, moment_at, row_from, row_at, after_from, seat_at, seats_at, path_at};
ghost use Rattle.desk_journal.specs.Facts.{IsNamedLeg, IsNamedRow, IsNamedPath};

use crate::rows::{NamedLeg, NamedPath, NamedRow};
use crate::tokens::{
    TokenForm, next_cabin, next_date, next_flown, next_name, next_number, next_time,
};
use desk_text::{Cause, Fields, RowFault};
use desk_units::{Cabin, List, Minute};
use std::alloc::Global;

/// A leg: `FLIGHT DATE`.
#[tactic(auto, unfolding(crate::specs::Steps::leg_at))]
pub(crate) fn next_leg<F: TokenForm>(form: &F, tokens: &mut Fields<'_>) -> Result<NamedLeg, Cause>
    ensures exact { Takes result tokens.new (leg_at (F.readers form.now) tokens.old) }
    ensures facts { IfOk result IsNamedLeg }
{
    let flight = next_name(form, tokens)?;
    let day = next_date(form, tokens)?;
    Ok(NamedLeg { flight, day })
}

/// A moment of the years 2000 to 2099: `DATE TIME`.
#[tactic(auto, unfolding(crate::specs::Steps::moment_at))]
pub(crate) fn next_moment<F: TokenForm>(form: &F, tokens: &mut Fields<'_>) -> Result<Minute, Cause>
    ensures exact { Takes result tokens.new (moment_at (F.readers form.now) tokens.old) }
    ensures small { IfOk result (λ at. at.0 < 52596000) }
{
    let day = next_date(form, tokens)?;
    let time = next_time(form, tokens)?;
    Ok(Minute(1440 * day + time))
}

/// The rest of a row that is flown, `AIRCRAFT DATE TIME`, or of one that is not, which is nothing.
#[tactic(auto, unfolding(crate::specs::Steps::row_from))]
fn row_from<F: TokenForm>(
    form: &F,
    is_flown: bool,
    tokens: &mut Fields<'_>,
) -> Result<NamedRow, Cause>
    ensures exact { Takes result tokens.new (row_from (F.readers form.now) is_flown tokens.old) }
    ensures facts { IfOk result IsNamedRow }
{
    if is_flown {
        let plane = next_name(form, tokens)?;
        let dep = next_moment(form, tokens)?;
        Ok(NamedRow::Flown { plane, dep })
    } else {
        Ok(NamedRow::Cancelled)
    }
}

/// A row: `-`, or `+ AIRCRAFT DATE TIME`.
#[tactic(auto, unfolding(crate::specs::Steps::row_at))]
pub(crate) fn next_row<F: TokenForm>(form: &F, tokens: &mut Fields<'_>) -> Result<NamedRow, Cause>
    ensures exact { Takes result tokens.new (row_at (F.readers form.now) tokens.old) }
    ensures facts { IfOk result IsNamedRow }
{
    let is_flown = next_flown(tokens)?;
    row_from(form, is_flown, tokens)
}

/// The leg that a push begins after, `FLIGHT DATE`, where there is one.
#[tactic(auto, unfolding(crate::specs::Steps::after_from))]
pub(crate) fn after_from<F: TokenForm>(
    form: &F,
    is_after: bool,
    tokens: &mut Fields<'_>,
) -> Result<Option<NamedLeg>, Cause>
    ensures exact { Takes result tokens.new (after_from (F.readers form.now) is_after tokens.old) }
    ensures facts { IfOk result (λ after. IfSome after IsNamedLeg) }
{
    if is_after {
        Ok(Some(next_leg(form, tokens)?))
    } else {
        Ok(None)
    }
}

/// A leg of a path: `FLIGHT DATE CABIN`.
#[tactic(auto, unfolding(crate::specs::Steps::seat_at))]
fn next_seat<F: TokenForm>(form: &F, tokens: &mut Fields<'_>) -> Result<(NamedLeg, Cabin), Cause>
    ensures exact { Takes result tokens.new (seat_at (F.readers form.now) tokens.old) }
    ensures facts { IfOk result (λ seat. IsNamedLeg seat.0) }
{
    let leg = next_leg(form, tokens)?;
    let cabin = next_cabin(tokens)?;
    Ok((leg, cabin))
}

/// So many legs of a path.
fn next_seats<F: TokenForm>(
    alloc: Global,
    form: &F,
    count: u32,
    tokens: &mut Fields<'_>,
) -> Result<List<(NamedLeg, Cabin)>, RowFault>
    ensures exact { TakesInMemory result tokens.new (seats_at (F.readers form.now) count tokens.old) }
    ensures size { IfOk result (λ seats. length seats ≡ count) }
    ensures facts { IfOk result (All (λ (seat : NamedLeg × Cabin). IsNamedLeg seat.0)) }
{
    let mut seats = Vec::new(alloc);
    for _ in 0..count {
        seats.push(next_seat(form, tokens)?)?;
    }
    Ok(List(seats))
}

/// A path: its number of legs, 0 to 8, and each of them.
#[tactic(auto, unfolding(crate::specs::Steps::path_at))]
pub(crate) fn next_path<F: TokenForm>(
    alloc: Global,
    form: &F,
    tokens: &mut Fields<'_>,
) -> Result<NamedPath, RowFault>
    ensures exact { TakesInMemory result tokens.new (path_at (F.readers form.now) tokens.old) }
    ensures facts { IfOk result IsNamedPath }
{
    let count = next_number(tokens, 0, 8)?;
    let legs = next_seats(alloc, form, count, tokens)?;
    Ok(NamedPath { legs })
}
