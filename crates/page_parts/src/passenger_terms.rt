//! A term of all passengers.

ghost use Rattle.std.specs.Prelude.{◌≡◌, ◌<◌, sum_by};
ghost use Rattle.desk_data.specs.PlanRows.{groups_at};
ghost use Rattle.desk_data.specs.Situation.{reservations_of};
ghost use Rattle.desk_data.specs.Valid.{IsPlanFor};
ghost use Rattle.desk_rules.specs.Cost.{over_groups};
ghost use Rattle.page_parts.specs.Amounts.{amount};

use crate::amounts::{PassengerTerm, group_term};
use desk_data::{Grains, Instance, Res};
use plan_reads::ReadPlan;

// A term of the passengers of a reservation.
fn reservation_term<P: ReadPlan>(inst: &Instance, plan: &P, term: PassengerTerm, res: Res) -> Grains
    requires plan { IsPlanFor inst.now (P.plan_of plan.now) }
    requires res { res.0 < reservations_of inst.now }
    ensures { result.0 ≡ sum_by (amount inst.now (P.plan_of plan.now) term res.0) (groups_at (P.plan_of plan.now) res.0) }
{
    let _rows = inst.parts();
    let mut total = Grains(0);
    for group in plan.groups(res) {
        let path = group.path.as_slice();
        total = total.plus(group_term(inst, plan, term, res, path, group.count));
    }
    total
}

/// A term of all passengers.
pub(crate) fn passenger_term<P: ReadPlan>(inst: &Instance, plan: &P, term: PassengerTerm) -> Grains
    requires { IsPlanFor inst.now (P.plan_of plan.now) }
    ensures { result.0 ≡ over_groups inst.now (P.plan_of plan.now) (amount inst.now (P.plan_of plan.now) term) }
{
    let _rows = inst.parts();
    let mut total = Grains(0);
    for r in 0..inst.reservations() {
        total = total.plus(reservation_term(inst, plan, term, Res(r)));
    }
    total
}
