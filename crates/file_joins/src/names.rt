//! What a row names, found on the day.

ghost use Rattle.std.specs.Prelude.{◌≡◌};
ghost use Rattle.desk_text.specs.Rows.{GivesRow};
ghost use Rattle.file_joins.specs.Join.{leg_of, plane_of, res_of, all_of, after_of, seat_of, path_of, row_of};

use crate::DayNames;
use desk_data::{Path, Row};
use desk_journal::{NamedLeg, NamedPath, NamedRes, NamedRow};
use desk_text::RowFault;
use desk_units::{Cabin, Leg, List, Name, Plane, Res};
use file_rows::Cause;
use std::alloc::Global;

/// The leg of a flight and a day.
pub(crate) fn leg_of(names: &DayNames<'_>, leg: &NamedLeg) -> Result<Leg, Cause>
    ensures { result ≡ leg_of names.now leg.now }
{
    names
        .leg(leg.flight.as_slice(), leg.day)
        .ok_or(Cause::Unknown)
}

/// The aircraft of a name.
pub(crate) fn plane_of(names: &DayNames<'_>, name: &Name) -> Result<Plane, Cause>
    ensures { result ≡ plane_of names.now name.now }
{
    names.plane(name.as_slice()).ok_or(Cause::Unknown)
}

/// The reservation of a name and a direction.
pub(crate) fn res_of(names: &DayNames<'_>, res: &NamedRes) -> Result<Res, Cause>
    ensures { result ≡ res_of names.now res.now }
{
    names
        .reservation(res.name.as_slice(), res.inbound)
        .ok_or(Cause::Unknown)
}

/// The leg after which legs are pushed, where there is one.
#[tactic(auto, unfolding(crate::specs::Join::after_of))]
pub(crate) fn after_of(names: &DayNames<'_>, after: &Option<NamedLeg>) -> Result<Option<Leg>, Cause>
    ensures { result ≡ after_of names.now after.now }
{
    match after {
        Some(leg) => Ok(Some(leg_of(names, leg)?)),
        None => Ok(None),
    }
}

/// The row of a leg.
#[tactic(auto, unfolding(crate::specs::Join::row_of))]
pub(crate) fn row_of(names: &DayNames<'_>, row: &NamedRow) -> Result<Row, Cause>
    ensures { result ≡ row_of names.now row.now }
{
    match row {
        NamedRow::Flown { plane, dep } => {
            let plane = plane_of(names, plane)?;
            Ok(Row::Flown { plane, dep: *dep })
        }
        NamedRow::Cancelled => Ok(Row::Cancelled),
    }
}

/// A leg with a cabin.
#[tactic(auto, unfolding(crate::specs::Join::seat_of))]
fn seat_of(names: &DayNames<'_>, seat: &(NamedLeg, Cabin)) -> Result<(Leg, Cabin), Cause>
    ensures { result ≡ seat_of names.now seat.now }
{
    Ok((leg_of(names, &seat.0)?, seat.1))
}

/// Legs with their cabins.
fn seats_of(
    alloc: Global,
    names: &DayNames<'_>,
    named: &[(NamedLeg, Cabin)],
) -> Result<List<(Leg, Cabin)>, RowFault>
    ensures { GivesRow result (all_of (seat_of names.now) named.now) }
{
    let mut seats = Vec::with_capacity(alloc, named.len())?;
    for seat in named {
        seats.push(seat_of(names, seat)?)?;
    }
    Ok(List(seats))
}

/// The path of named legs.
pub(crate) fn path_of(
    alloc: Global,
    names: &DayNames<'_>,
    path: &NamedPath,
) -> Result<Path, RowFault>
    ensures { GivesRow result (path_of names.now path.now) }
{
    let legs = seats_of(alloc, names, path.legs.as_slice())?;
    Ok(Path { legs })
}
