//! Downgrade: legs in a cabin below the highest that was booked.

ghost use Rattle.std.specs.Prelude.{◌≡◌, ◌<◌, ◌≤◌};
ghost use Rattle.desk_data.specs.Situation.{legs_of, reservations_of};
ghost use Rattle.desk_rules.specs.Cost.{downgrade, downgrade_on, grains};
ghost use Rattle.desk_units.specs.declared.tariff.Term.TheVariants as term;
ghost use Rattle.plan_checks.specs.Counted.{IsGroupOf, group_on};
ghost use Rattle.plan_checks.specs.Weighed.{IsWeight};

use desk_data::{Cabin, Grains, Instance, Leg, Res, Weight};
use desk_units::per_item;

/// What the downgrades on a path cost some passengers of a reservation.
pub(crate) fn downgrade_cost(
    inst: &Instance,
    weight: Weight,
    res: Res,
    path: &[(Leg, Cabin)],
    count: u32,
) -> Grains
    requires weight { IsWeight inst.now term.Downgrade weight }
    requires res { res.0 < reservations_of inst.now }
    requires group { IsGroupOf inst.now (group_on path.now count) }
    ensures { result ≡ grains (downgrade inst.now res.0 (group_on path.now count)) }
{
    let _rows = inst.parts();
    let mut total = Grains(0);
    for (leg, cabin) in path {
        total = total.plus(leg_cost(inst, weight, res, *leg, *cabin, count));
    }
    total
}

/// What some passengers cost who take a leg in a cabin: nothing, unless the cabin is below the
/// highest that they booked.
#[tactic(auto, unfolding(desk_rules::specs::Cost::downgrade_on))]
fn leg_cost(inst: &Instance, weight: Weight, res: Res, leg: Leg, cabin: Cabin, count: u32) -> Grains
    requires weight { IsWeight inst.now term.Downgrade weight }
    requires res { res.0 < reservations_of inst.now }
    requires leg { leg.0 < legs_of inst.now }
    requires count { count ≤ 1000 }
    ensures { result ≡ grains (downgrade_on inst.now res.0 count (leg, cabin)) }
{
    let booked = inst.booked(res);
    if cabin.rank() <= booked.cabin.rank() {
        return Grains(0);
    }
    let haul = inst.leg(leg).haul;
    let price = inst.prices().downgrade(haul, booked.cabin, cabin);
    per_item(price, weight, u64::from(count))
}
