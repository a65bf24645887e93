//! For how many more passengers the legs of a path have seats.

ghost use Rattle.std.specs.Prelude.{◌≡◌, ◌<◌, ◌≤◌, length};
ghost use Rattle.desk_data.specs.PlanRows.{row_at};
ghost use Rattle.desk_data.specs.Situation.{legs_of, planes_of};
ghost use Rattle.desk_data.specs.Valid.{IsPathOf, IsPlanFor, IsRowOf};
ghost use Rattle.desk_model.specs.Choices.{greatest_within};
ghost use Rattle.desk_model.specs.Refill.{has_seats_for, seats_of};

use crate::aboard::KnowsAboard;
use crate::{ReadPlan, seats_in};
use desk_data::{Cabin, Instance, Leg, Row};

/// The greatest number of passengers who are not carried, `waiting` at most, for whom all legs of a path have
/// seats left.
pub(crate) fn fitting<P: ReadPlan, S: KnowsAboard>(
    inst: &Instance,
    plan: &P,
    seats: &S,
    path: &[(Leg, Cabin)],
    waiting: u32,
) -> u32
    requires plan { IsPlanFor inst.now (P.plan_of plan.now) }
    requires path { IsPathOf (legs_of inst.now) path.now }
    requires seats { S.knows seats.now (P.plan_of plan.now) }
    ensures { result ≡ greatest_within waiting (has_seats_for inst.now (P.plan_of plan.now) path.now) }
{
    let mut most = waiting;
    for k in 0..path.len() {
        let (leg, cabin) = path[k];
        let all = seats_of(inst, plan.read_row(leg), cabin);
        most = most.min(all.saturating_sub(seats.aboard(leg, cabin)));
    }
    most
}

/// The seats of a row in a cabin; a cancelled leg has none.
fn seats_of(inst: &Instance, row: Row, cabin: Cabin) -> u32
    requires { IsRowOf (planes_of inst.now) row }
    ensures { result ≡ seats_of inst.now cabin row }
{
    match row {
        Row::Flown { plane, .. } => seats_in(inst.plane(plane).seats, cabin),
        Row::Cancelled => 0,
    }
}
