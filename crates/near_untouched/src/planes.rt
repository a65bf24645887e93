//! Aircraft that were touched between two plans.

ghost use Rattle.std.specs.Prelude.{◌≡◌, ℕ, ◌<◌, ◌⊎◌, IfOk, false, length};
ghost use Rattle.desk_data.specs.Situation.{legs_of, planes_of};
ghost use Rattle.desk_data.specs.Valid.{IsPlanFor};
ghost use Rattle.near_untouched.specs.Legs.{AreLegsTold};
ghost use Rattle.near_untouched.specs.Marks.{AreChanged, AreKept, IsFlierMarked, is_marked};
ghost use Rattle.near_untouched.specs.UntouchedLegs.{ArePlanesTold};

use crate::counts::touch_many;
use crate::marks::unmarked;
use crate::plans::Plans;
use crate::positions::touch_wanted;
use desk_data::{Instance, Leg, NoMem, Row};
use hour_counts::Movement;
use plan_pages::Pages;
use std::alloc::Global;

/// Marks of the aircraft that were touched, or may have been, given the marks of legs, and the legs that have another row: they
/// fly a leg that was touched, in the one plan or the other; they have many legs at an airport; or a position that wants them
/// has other aircraft at hand. The only error is out of memory.
pub(crate) fn touched_planes(
    alloc: Global,
    plans: &Plans,
    legs: &[bool],
    changed: &[Leg],
) -> Result<Vec<bool>, NoMem>
    requires earlier { IsPlanFor plans.now.inst.now plans.now.earlier.now }
    requires later { IsPlanFor plans.now.inst.now plans.now.later.now }
    requires legs { AreLegsTold plans.now.inst.now plans.now.earlier.now plans.now.later.now legs.now }
    requires changed { AreChanged plans.now.inst.now plans.now.earlier.now plans.now.later.now changed.now }
    ensures { IfOk result (λ planes. ArePlanesTold plans.now.inst.now plans.now.earlier.now plans.now.later.now planes.items) }
{
    let mut planes = unmarked(alloc, plans.inst.planes() as usize)?;
    touch_fliers(plans.inst, plans.earlier, legs, &mut planes);
    touch_fliers(plans.inst, plans.later, legs, &mut planes);
    touch_many(
        alloc,
        plans.inst,
        plans.earlier,
        Movement::Departure,
        &mut planes,
    )?;
    touch_many(
        alloc,
        plans.inst,
        plans.earlier,
        Movement::Arrival,
        &mut planes,
    )?;
    touch_wanted(alloc, plans, changed, &mut planes)?;
    Ok(planes)
}

/// Marks the aircraft that fly a leg in a plan that is marked.
fn touch_fliers(inst: &Instance, plan: &Pages, legs: &[bool], planes: &mut Vec<bool>)
    requires plan { IsPlanFor inst.now plan.now }
    requires legs { length legs.now ≡ legs_of inst.now }
    requires planes { length planes.old.items ≡ planes_of inst.now }
    ensures planes { length planes.new.items ≡ planes_of inst.now }
    ensures kept { AreKept planes.old.items planes.new.items }
    ensures told { (y : ℕ) → y < legs_of inst.now → (is_marked legs.now y ≡ false) ⊎ IsFlierMarked plan.now planes.new.items y }
{
    for x in 0..inst.legs() {
        touch_flier(inst, plan, legs, Leg(x), planes);
    }
}

/// Marks the aircraft that flies a leg, if the leg is marked.
fn touch_flier(inst: &Instance, plan: &Pages, legs: &[bool], leg: Leg, planes: &mut Vec<bool>)
    requires plan { IsPlanFor inst.now plan.now }
    requires legs { length legs.now ≡ legs_of inst.now }
    requires leg { leg.0 < legs_of inst.now }
    requires planes { length planes.old.items ≡ planes_of inst.now }
    ensures planes { length planes.new.items ≡ planes_of inst.now }
    ensures kept { AreKept planes.old.items planes.new.items }
    ensures told { (is_marked legs.now leg.0 ≡ false) ⊎ IsFlierMarked plan.now planes.new.items leg.0 }
{
    if !legs[leg.0 as usize] {
        return;
    }
    mark_flier(inst, plan, leg, planes);
}

/// Marks the aircraft that flies a leg, if one does.
pub(crate) fn mark_flier(_inst: &Instance, plan: &Pages, leg: Leg, planes: &mut Vec<bool>)
    requires plan { IsPlanFor _inst.now plan.now }
    requires leg { leg.0 < legs_of _inst.now }
    requires planes { length planes.old.items ≡ planes_of _inst.now }
    ensures planes { length planes.new.items ≡ planes_of _inst.now }
    ensures kept { AreKept planes.old.items planes.new.items }
    ensures marked { IsFlierMarked plan.now planes.new.items leg.0 }
{
    match plan.read_row(leg) {
        Row::Flown { plane, .. } => planes[plane.0 as usize] = true,
        Row::Cancelled => {}
    }
}
