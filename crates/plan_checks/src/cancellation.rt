//! Cancellation: passengers who are not carried.

ghost use Rattle.std.specs.Prelude.{◌≡◌, ◌≤◌, ◌<◌};
ghost use Rattle.desk_data.specs.Situation.{reservations_of};
ghost use Rattle.desk_units.specs.declared.tariff.Term.TheVariants as term;
ghost use Rattle.desk_rules.specs.Cost.{grains};
ghost use Rattle.plan_checks.specs.Amounts.{cancellation_uncarried};
ghost use Rattle.plan_checks.specs.Weighed.{IsWeight};

use desk_data::{Grains, Instance, Res, Weight};
use desk_units::per_item;

/// What it costs that some passengers of a reservation are not carried, at the price of what they
/// booked.
pub(crate) fn cancellation_cost(inst: &Instance, weight: Weight, res: Res, count: u32) -> Grains
    requires weight { IsWeight inst.now term.Cancellation weight }
    requires res { res.0 < reservations_of inst.now }
    requires count { count ≤ 1000 }
    ensures { result ≡ grains (cancellation_uncarried inst.now res.0 count) }
{
    let booked = inst.booked(res);
    let price = inst.prices().cancel(booked.haul, booked.cabin);
    per_item(price, weight, u64::from(count))
}
