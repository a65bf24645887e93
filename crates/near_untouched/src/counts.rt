//! Aircraft with many legs at an airport.

ghost use Rattle.std.specs.Prelude.{◌≡◌, ◌+◌, ◌*◌, ◌<◌, IfOk, OnOk, length, replicate, true};
ghost use Rattle.desk_data.specs.Situation.{airports_of, legs_of, planes_of};
ghost use Rattle.desk_data.specs.Valid.{IsPlanFor};
ghost use Rattle.desk_rules.specs.Maintenance.{flies};
ghost use Rattle.near_untouched.specs.Counts.{AreCounted, place_number};
ghost use Rattle.near_untouched.specs.Hours.{HasFew};
ghost use Rattle.near_untouched.specs.Marks.{AreKept, HoldsOf};

use crate::places::place_of;
use desk_data::{Airport, Instance, Leg, NoMem, Plane, Row};
use hour_counts::Movement;
use plan_pages::Pages;
use std::alloc::Global;

/// How many legs of an aircraft, or of a unit that restores legs, may leave an airport, or reach it: half the margin.
pub(crate) const HALF_MARGIN: u8 = 8;

/// Marks the aircraft of which more legs than that leave one airport, or reach one, in one walk over the legs of the earlier
/// plan: an aircraft that is not marked flies the same legs in the later one. The only error is out of memory.
pub(crate) fn touch_many(
    alloc: Global,
    inst: &Instance,
    plan: &Pages,
    movement: Movement,
    touched: &mut Vec<bool>,
) -> Result<(), NoMem>
    requires plan { IsPlanFor inst.now plan.now }
    requires touched { length touched.old.items ≡ planes_of inst.now }
    ensures touched { length touched.new.items ≡ planes_of inst.now }
    ensures kept { AreKept touched.old.items touched.new.items }
    ensures few { OnOk result (HoldsOf (planes_of inst.now) touched.new.items (HasFew movement inst.now plan.now)) }
{
    let _rows = inst.parts();
    let mut counts = no_counts(alloc, places_of(inst))?;
    for x in 0..inst.legs() {
        count_leg(inst, plan, movement, Leg(x), &mut counts, touched);
    }
    Ok(())
}

/// Counts one leg more, at its aircraft and airport, if one flies it.
fn count_leg(
    inst: &Instance,
    plan: &Pages,
    movement: Movement,
    leg: Leg,
    counts: &mut Vec<u8>,
    touched: &mut Vec<bool>,
)
    requires plan { IsPlanFor inst.now plan.now }
    requires leg { leg.0 < legs_of inst.now }
    requires counted { AreCounted leg.0 movement inst.now plan.now counts.old.items touched.old.items }
    ensures kept { AreKept touched.old.items touched.new.items }
    ensures counted { AreCounted (leg.0 + 1) movement inst.now plan.now counts.new.items touched.new.items }
{
    match plan.read_row(leg) {
        Row::Flown { plane, .. } => count_at(inst, plan, movement, leg, plane, counts, touched),
        Row::Cancelled => {}
    }
}

/// Counts one leg more that an aircraft flies, up to the most that there may be; marks the aircraft where there are as many
/// already.
fn count_at(
    inst: &Instance,
    _plan: &Pages,
    movement: Movement,
    leg: Leg,
    plane: Plane,
    counts: &mut Vec<u8>,
    touched: &mut Vec<bool>,
)
    requires leg { leg.0 < legs_of inst.now }
    requires plane { plane.0 < planes_of inst.now }
    requires flown { flies _plan.now plane.0 leg.0 ≡ true }
    requires counted { AreCounted leg.0 movement inst.now _plan.now counts.old.items touched.old.items }
    ensures kept { AreKept touched.old.items touched.new.items }
    ensures counted { AreCounted (leg.0 + 1) movement inst.now _plan.now counts.new.items touched.new.items }
{
    let place = place_number(inst, plane, place_of(inst, movement, leg));
    let count = counts[place];
    if count < HALF_MARGIN {
        counts[place] = count + 1;
        return;
    }
    touched[plane.0 as usize] = true;
}

/// How many places there are.
fn places_of(inst: &Instance) -> usize
    ensures { result ≡ airports_of inst.now * planes_of inst.now }
{
    inst.airports() as usize * inst.planes() as usize
}

/// The place of an aircraft and an airport.
fn place_number(inst: &Instance, plane: Plane, airport: Airport) -> usize
    requires plane { plane.0 < planes_of inst.now }
    requires airport { airport.0 < airports_of inst.now }
    ensures { result ≡ place_number (airports_of inst.now) plane.0 airport.0 }
{
    let _most = inst.planes();
    plane.0 as usize * inst.airports() as usize + airport.0 as usize
}

/// So many zeros.
fn no_counts(alloc: Global, count: usize) -> Result<Vec<u8>, NoMem>
    ensures { IfOk result (λ none. none.items ≡ replicate count 0) }
{
    Ok(vec![in alloc; 0; count]?)
}
