//! Airports one of whose hours is counted otherwise, and is near its cap.

ghost use Rattle.std.specs.Prelude.{◌≡◌, ◌<◌, All, length, true};
ghost use Rattle.desk_data.specs.Situation.{airports_of, legs_of};
ghost use Rattle.desk_data.specs.Valid.{IsPlanFor};
ghost use Rattle.near_untouched.specs.Hours.{IsHourTold, IsLegTold, IsRoomy, place_of};
ghost use Rattle.near_untouched.specs.Marks.{AreKept};

use crate::places::{beside, cap_of, counted_hour, place_of};
use crate::plans::Plans;
use desk_data::{Instance, Leg};
use hour_counts::{KnowsHours, Movement};
use plan_pages::Pages;

/// For how many legs an hour has to have room beside those that are counted, where it is not as full as it was.
const MARGIN: u32 = 16;

/// Marks the airports of some legs one of whose hours is near its cap in one of the plans, by what knows its hours, where
/// the leg is counted in it in one of the plans, and not in the other.
pub(crate) fn mark_tight<H: KnowsHours>(
    plans: &Plans,
    plan: &Pages,
    hours: &H,
    legs: &[Leg],
    movement: Movement,
    tight: &mut Vec<bool>,
)
    requires earlier { IsPlanFor plans.now.inst.now plans.now.earlier.now }
    requires later { IsPlanFor plans.now.inst.now plans.now.later.now }
    requires plan { IsPlanFor plans.now.inst.now plan.now }
    requires hours { H.knows hours.now plans.now.inst.now plan.now }
    requires legs { All (λ x. x.0 < legs_of plans.now.inst.now) legs.now }
    requires tight { length tight.old.items ≡ airports_of plans.now.inst.now }
    ensures tight { length tight.new.items ≡ airports_of plans.now.inst.now }
    ensures kept { AreKept tight.old.items tight.new.items }
    ensures told { All (λ x. IsLegTold movement plans.now.inst.now plans.now.earlier.now plans.now.later.now plan.now tight.new.items x.0) legs.now }
{
    for leg in legs {
        mark_leg(plans, plan, hours, *leg, movement, tight);
    }
}

/// Marks the airport of a leg so.
fn mark_leg<H: KnowsHours>(
    plans: &Plans,
    plan: &Pages,
    hours: &H,
    leg: Leg,
    movement: Movement,
    tight: &mut Vec<bool>,
)
    requires earlier { IsPlanFor plans.now.inst.now plans.now.earlier.now }
    requires later { IsPlanFor plans.now.inst.now plans.now.later.now }
    requires plan { IsPlanFor plans.now.inst.now plan.now }
    requires hours { H.knows hours.now plans.now.inst.now plan.now }
    requires leg { leg.0 < legs_of plans.now.inst.now }
    requires tight { length tight.old.items ≡ airports_of plans.now.inst.now }
    ensures tight { length tight.new.items ≡ airports_of plans.now.inst.now }
    ensures kept { AreKept tight.old.items tight.new.items }
    ensures told { IsLegTold movement plans.now.inst.now plans.now.earlier.now plans.now.later.now plan.now tight.new.items leg.0 }
{
    let was = plans.earlier.read_row(leg);
    let now = plans.later.read_row(leg);
    let before = counted_hour(plans.inst, movement, leg, was);
    let after = counted_hour(plans.inst, movement, leg, now);
    if before == after {
        return;
    }
    mark_hour(plans.inst, plan, hours, leg, movement, before, tight);
    mark_hour(plans.inst, plan, hours, leg, movement, after, tight);
}

/// Marks the airport of a leg if an hour is near its cap there in a plan.
fn mark_hour<H: KnowsHours>(
    inst: &Instance,
    plan: &Pages,
    hours: &H,
    leg: Leg,
    movement: Movement,
    hour: Option<u32>,
    tight: &mut Vec<bool>,
)
    requires plan { IsPlanFor inst.now plan.now }
    requires hours { H.knows hours.now inst.now plan.now }
    requires leg { leg.0 < legs_of inst.now }
    requires tight { length tight.old.items ≡ airports_of inst.now }
    ensures tight { length tight.new.items ≡ airports_of inst.now }
    ensures kept { AreKept tight.old.items tight.new.items }
    ensures told { IsHourTold movement inst.now plan.now tight.new.items (place_of movement inst.now leg.0) hour }
{
    let Some(at) = hour else {
        return;
    };
    if is_roomy(inst, plan, hours, leg, movement, at) {
        return;
    }
    tight[place_of(inst, movement, leg).0 as usize] = true;
}

/// Whether there is room in an hour at the airport of a leg, in a plan, for more legs than the margin.
fn is_roomy<H: KnowsHours>(
    inst: &Instance,
    plan: &Pages,
    hours: &H,
    leg: Leg,
    movement: Movement,
    hour: u32,
) -> bool
    requires plan { IsPlanFor inst.now plan.now }
    requires hours { H.knows hours.now inst.now plan.now }
    requires leg { leg.0 < legs_of inst.now }
    ensures { result ≡ true → IsRoomy movement inst.now plan.now (place_of movement inst.now leg.0) hour }
{
    let airport = place_of(inst, movement, leg);
    match cap_of(inst, movement, airport, hour) {
        // `others` leaves this leg out, and where another leg is left out this one counts: so one more has to fit
        Some(cap) => {
            let others = beside(inst, plan, hours, movement, leg, airport, hour);
            others < cap.saturating_sub(MARGIN + 1)
        }
        None => true,
    }
}
