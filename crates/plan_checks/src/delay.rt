//! Delay: the hours by which passengers arrive late.

ghost use Rattle.std.specs.Prelude.{◌≡◌, ◌<◌, ◌≤◌};
ghost use Rattle.desk_data.specs.Situation.{reservations_of};
ghost use Rattle.desk_units.specs.declared.tariff.Term.TheVariants as term;
ghost use Rattle.desk_rules.specs.Cost.{grains};
ghost use Rattle.plan_checks.specs.Amounts.{delay_late};
ghost use Rattle.plan_checks.specs.Weighed.{IsWeight};

use desk_data::{Grains, Instance, Res, Weight};
use desk_units::per_hour;

/// What it costs that some passengers of a reservation arrive so many minutes late, at the hourly
/// price of what they booked.
pub(crate) fn delay_cost(
    inst: &Instance,
    weight: Weight,
    res: Res,
    minutes: u32,
    count: u32,
) -> Grains
    requires weight { IsWeight inst.now term.Delay weight }
    requires res { res.0 < reservations_of inst.now }
    requires minutes { minutes < 52502880 }
    requires count { count ≤ 1000 }
    ensures { result ≡ grains (delay_late inst.now res.0 minutes count) }
{
    // most passengers are in time
    if minutes == 0 {
        return Grains(0);
    }
    let booked = inst.booked(res);
    let hourly = inst.prices().delay(booked.haul, booked.cabin);
    per_hour(hourly, weight, u64::from(count) * u64::from(minutes))
}
