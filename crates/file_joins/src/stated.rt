//! What a line says: names become numbers.

ghost use Rattle.std.specs.Prelude.{◌≡◌, ◌<◌, IfOk, ok_or};
ghost use Rattle.desk_text.specs.Rows.{GivesRow};
ghost use Rattle.file_rows.specs.declared.cause.Cause.TheVariants.{Unknown};
ghost use Rattle.desk_data.specs.Situation.{legs_of, reservations_of};
ghost use Rattle.file_joins.specs.Names.{res_named};
ghost use Rattle.file_joins.specs.Stated.{group_of, is_in_time, leg_of, path_of, row_of, seat_of, stated_group, stated_leg};

use crate::DayNames;
use desk_data::{Group, Path, Row};
use desk_text::RowFault;
use desk_units::{Cabin, Leg, List, Name, Res};
use file_readers::{PlannedFlight, PlannedGroup, PlannedLeg};
use file_rows::{Cause, END_OF_TIME, LegRow, MOST_LEGS};
use std::alloc::Global;

/// The leg of a flight and a day.
fn leg_of(names: &DayNames<'_>, flight: &Name, day: u32) -> Result<Leg, Cause>
    ensures exact { result ≡ leg_of names.now flight.now day }
    ensures within { IfOk result (λ leg. leg.0 < legs_of names.now) }
{
    names.leg(flight.as_slice(), day).ok_or(Cause::Unknown)
}

/// How a leg is flown.
#[tactic(auto, unfolding(crate::specs::Stated::row_of))]
fn row_of(names: &DayNames<'_>, flown: &Option<PlannedFlight>) -> Result<Row, Cause>
    ensures { result ≡ row_of names.now flown.now }
{
    match flown {
        Some(flown) => {
            let plane = names
                .plane(flown.aircraft.as_slice())
                .ok_or(Cause::Unknown)?;
            Ok(Row::Flown {
                plane,
                dep: flown.dep,
            })
        }
        None => Ok(Row::Cancelled),
    }
}

/// Whether a row departs before minute 52,500,000.
fn is_in_time(row: Row) -> bool
    ensures { result ≡ is_in_time row }
{
    match row {
        Row::Flown { plane: _, dep } => dep.0 < END_OF_TIME,
        Row::Cancelled => true,
    }
}

/// The leg that a line is about, and its row.
#[tactic(auto, unfolding(crate::specs::Stated::stated_leg))]
pub(crate) fn stated_leg(names: &DayNames<'_>, line: &PlannedLeg) -> Result<(Leg, Row), Cause>
    ensures exact { result ≡ stated_leg names.now line.now }
    ensures within { IfOk result (λ stated. stated.0.0 < legs_of names.now) }
{
    let leg = leg_of(names, &line.flight, line.day)?;
    let row = row_of(names, &line.flown)?;
    if is_in_time(row) {
        Ok((leg, row))
    } else {
        Err(Cause::Limit)
    }
}

/// A leg of a path with its cabin.
#[tactic(auto, unfolding(crate::specs::Stated::seat_of))]
fn seat_of(names: &DayNames<'_>, seat: &LegRow) -> Result<(Leg, Cabin), Cause>
    ensures { result ≡ seat_of names.now seat.now }
{
    Ok((leg_of(names, &seat.flight, seat.day)?, seat.cabin))
}

/// The path of these legs.
fn path_of(
    alloc: Global,
    names: &DayNames<'_>,
    seats: &[LegRow],
) -> Result<List<(Leg, Cabin)>, RowFault>
    ensures { GivesRow result (path_of names.now seats.now) }
{
    let mut path = Vec::with_capacity(alloc, seats.len())?;
    for seat in seats {
        path.push(seat_of(names, seat)?)?;
    }
    Ok(List(path))
}

/// The reservation of a name and a direction.
fn res_of(names: &DayNames<'_>, name: &Name, inbound: bool) -> Result<Res, Cause>
    ensures exact { result ≡ ok_or (res_named names.now name.now inbound) Unknown }
    ensures within { IfOk result (λ res. res.0 < reservations_of names.now) }
{
    names
        .reservation(name.as_slice(), inbound)
        .ok_or(Cause::Unknown)
}

/// Passengers on a path.
#[tactic(auto, unfolding(crate::specs::Stated::group_of))]
fn group_of(count: u32, legs: List<(Leg, Cabin)>) -> Result<Group, Cause>
    ensures { result ≡ group_of count legs }
{
    if legs.as_slice().len() <= MOST_LEGS {
        Ok(Group {
            count,
            path: Path { legs },
        })
    } else {
        Err(Cause::Limit)
    }
}

/// The reservation that a line is about, and the group of its passengers.
#[tactic(auto, unfolding(crate::specs::Stated::stated_group))]
pub(crate) fn stated_group(
    alloc: Global,
    names: &DayNames<'_>,
    line: &PlannedGroup,
) -> Result<(Res, Group), RowFault>
    ensures exact { GivesRow result (stated_group names.now line.now) }
    ensures within { IfOk result (λ stated. stated.0.0 < reservations_of names.now) }
{
    let res = res_of(names, &line.name, line.inbound)?;
    let path = path_of(alloc, names, line.legs.as_slice())?;
    let group = group_of(line.count, path)?;
    Ok((res, group))
}
