//! How many departures and arrivals an airport takes in an hour by its line.

ghost use Rattle.std.specs.Prelude.{◌≡◌};
ghost use Rattle.day_orders.specs.LastOrders.{last_word};
ghost use Rattle.desk_data.specs.Hours.{covers, cap_on_minute};

use crate::info::Cap;
use crate::limits::DAY;
use day_orders::HourCap;

/// What the last group of an airport's line says that covers a minute of the day.
pub fn cap_of_line(groups: &[Cap], minute: u32) -> Option<HourCap>
    ensures { result ≡ last_word (cap_on_minute minute) groups.now }
{
    let mut last = None;
    for group in groups {
        last = cap_of_group(group, minute).or(last);
    }
    last
}

fn cap_of_group(group: &Cap, minute: u32) -> Option<HourCap>
    ensures { result ≡ cap_on_minute minute group.now }
{
    if covers(group, minute) {
        Some(HourCap {
            deps: group.deps,
            arrs: group.arrs,
        })
    } else {
        None
    }
}

#[tactic(auto, unfolding(crate::specs::Hours::covers))]
fn covers(group: &Cap, minute: u32) -> bool
    ensures { result ≡ covers group.now minute }
{
    let end = if group.to == 0 { DAY } else { group.to };
    if group.from < end {
        group.from <= minute && minute < end
    } else {
        group.from <= minute || minute < end
    }
}
