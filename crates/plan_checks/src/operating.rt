//! Operating: the hours that aircraft fly.

ghost use Rattle.std.specs.Prelude.{◌≡◌, ◌<◌, ◌≤◌, ◌^◌};
ghost use Rattle.desk_data.specs.Situation.{legs_of, planes_of};
ghost use Rattle.desk_data.specs.Valid.{IsPlanFor, IsRowOf};
ghost use Rattle.desk_rules.specs.Cost.{operating_of, operating_cost, grains};
ghost use Rattle.plan_checks.specs.Weighed.{IsWeight};

use crate::weights::weight_of;
use desk_data::{Grains, Instance, Leg, Row, Term, Weight};
use desk_units::per_hour;
use plan_reads::ReadPlan;

/// What the legs cost that are flown.
#[tactic(auto, unfolding(desk_rules::specs::Cost::operating_cost))]
pub(crate) fn operating_cost<P: ReadPlan>(inst: &Instance, plan: &P) -> Grains
    requires { IsPlanFor inst.now (P.plan_of plan.now) }
    ensures cost { result ≡ grains (operating_cost inst.now (P.plan_of plan.now)) }
    ensures limit { result.0 ≤ 10 ^ 30 }
{
    let weight = weight_of(inst, Term::Operating);
    let _rows = inst.parts();
    let mut total = Grains(0);
    for x in 0..inst.legs() {
        let row = plan.read_row(Leg(x));
        total = total.plus(leg_cost(inst, weight, Leg(x), row));
    }
    total
}

/// What a leg costs by its row: its block minutes at the hourly price of the aircraft that flies it, or
/// nothing where it is cancelled.
pub fn flight_cost(inst: &Instance, leg: Leg, row: Row) -> Grains
    requires leg { leg.0 < legs_of inst.now }
    requires row { IsRowOf (planes_of inst.now) row }
    ensures { result ≡ grains (operating_of inst.now leg.0 row) }
{
    leg_cost(inst, weight_of(inst, Term::Operating), leg, row)
}

/// The same, with the weight that was looked up.
fn leg_cost(inst: &Instance, weight: Weight, leg: Leg, row: Row) -> Grains
    requires weight { IsWeight inst.now Term.Operating weight }
    requires leg { leg.0 < legs_of inst.now }
    requires row { IsRowOf (planes_of inst.now) row }
    ensures { result ≡ grains (operating_of inst.now leg.0 row) }
{
    match row {
        Row::Flown { plane, .. } => {
            let hourly = inst.plane(plane).hourly;
            per_hour(hourly, weight, u64::from(inst.leg(leg).block))
        }
        Row::Cancelled => Grains(0),
    }
}
