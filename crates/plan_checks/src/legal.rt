//! Legal: what is owed to passengers by law, and the price of a journey that is not made.

ghost use Rattle.std.specs.Prelude.{◌≡◌, ◌≤◌, ◌<◌};
ghost use Rattle.desk_data.specs.Situation.{reservations_of};
ghost use Rattle.desk_rules.specs.Cost.{legal_late, legal_uncarried, grains};
ghost use Rattle.desk_units.specs.declared.tariff.Term.TheVariants as term;
ghost use Rattle.plan_checks.specs.Weighed.{IsWeight};

use desk_data::{Grains, Instance, Res, Weight};
use desk_units::per_item;

/// What is owed to some passengers of a reservation who arrive so many minutes late: care and
/// compensation.
pub(crate) fn late_cost(
    inst: &Instance,
    weight: Weight,
    res: Res,
    minutes: u32,
    count: u32,
) -> Grains
    requires weight { IsWeight inst.now term.Legal weight }
    requires res { res.0 < reservations_of inst.now }
    requires count { count ≤ 1000 }
    ensures { result ≡ grains (legal_late inst.now res.0 minutes count) }
{
    let _rows = inst.parts();
    // most passengers are in time, and no threshold is below one minute
    if minutes == 0 {
        return Grains(0);
    }
    let count = u64::from(count);
    let haul = inst.booked(res).haul;
    let care = inst.prices().care(haul, minutes);
    let compensation = inst.prices().compensation(haul, minutes);
    per_item(care, weight, count).plus(per_item(compensation, weight, count))
}

/// What is owed to some passengers of a reservation who are not carried: the price that they paid,
/// care and compensation.
pub(crate) fn uncarried_cost(inst: &Instance, weight: Weight, res: Res, count: u32) -> Grains
    requires weight { IsWeight inst.now term.Legal weight }
    requires res { res.0 < reservations_of inst.now }
    requires count { count ≤ 1000 }
    ensures { result ≡ grains (legal_uncarried inst.now res.0 count) }
{
    let count = u64::from(count);
    let paid = inst.res(res).price;
    let haul = inst.booked(res).haul;
    let care = inst.prices().uncarried_care(haul);
    let compensation = inst.prices().uncarried_compensation(haul);
    per_item(paid, weight, count)
        .plus(per_item(care, weight, count))
        .plus(per_item(compensation, weight, count))
}
