//! Legs at an airport one of whose hours has no longer the same room.

ghost use Rattle.std.specs.Prelude.{◌≡◌, ℕ, ◌<◌, ◌⊎◌, OnOk, false, length, true};
ghost use Rattle.desk_data.specs.Situation.{airports_of, legs_of};
ghost use Rattle.desk_data.specs.Valid.{IsPlanFor};
ghost use Rattle.near_untouched.specs.Hours.{HasSameRoom, place_of};
ghost use Rattle.near_untouched.specs.Marks.{AreChanged, AreKept, HoldsOf, is_marked};

use crate::marks::unmarked;
use crate::places::place_of;
use crate::plans::Plans;
use crate::room::mark_tight;
use desk_data::{Instance, Leg, NoMem};
use hour_counts::{KnowsHours, Movement};
use std::alloc::Global;

/// Marks the legs that leave an airport, or reach it, whose hours have no longer the same room, by what knows the hours
/// of both plans, given the legs that have another row: where there are none, all have the same. The only error is out of
/// memory.
pub(crate) fn touch_hours<H: KnowsHours, K: KnowsHours>(
    alloc: Global,
    plans: &Plans,
    earlier_hours: &H,
    later_hours: &K,
    changed: &[Leg],
    movement: Movement,
    touched: &mut Vec<bool>,
) -> Result<(), NoMem>
    requires earlier { IsPlanFor plans.now.inst.now plans.now.earlier.now }
    requires later { IsPlanFor plans.now.inst.now plans.now.later.now }
    requires earlier_hours { H.knows earlier_hours.now plans.now.inst.now plans.now.earlier.now }
    requires later_hours { K.knows later_hours.now plans.now.inst.now plans.now.later.now }
    requires changed { AreChanged plans.now.inst.now plans.now.earlier.now plans.now.later.now changed.now }
    requires touched { length touched.old.items ≡ legs_of plans.now.inst.now }
    ensures touched { length touched.new.items ≡ legs_of plans.now.inst.now }
    ensures kept { AreKept touched.old.items touched.new.items }
    ensures room { OnOk result (HoldsOf (legs_of plans.now.inst.now) touched.new.items (HasSameRoom movement plans.now.inst.now plans.now.earlier.now plans.now.later.now)) }
{
    if changed.is_empty() {
        return Ok(());
    }
    let mut tight = unmarked(alloc, plans.inst.airports() as usize)?;
    mark_tight(
        plans,
        plans.earlier,
        earlier_hours,
        changed,
        movement,
        &mut tight,
    );
    mark_tight(
        plans,
        plans.later,
        later_hours,
        changed,
        movement,
        &mut tight,
    );
    touch_at(plans.inst, tight.as_slice(), movement, touched);
    Ok(())
}

/// Marks the legs that leave an airport that is marked, or reach it.
fn touch_at(inst: &Instance, tight: &[bool], movement: Movement, touched: &mut Vec<bool>)
    requires tight { length tight.now ≡ airports_of inst.now }
    requires touched { length touched.old.items ≡ legs_of inst.now }
    ensures touched { length touched.new.items ≡ legs_of inst.now }
    ensures kept { AreKept touched.old.items touched.new.items }
    ensures told { (y : ℕ) → y < legs_of inst.now → (is_marked tight.now (place_of movement inst.now y) ≡ false) ⊎ (is_marked touched.new.items y ≡ true) }
{
    for x in 0..inst.legs() {
        touch_leg(inst, tight, movement, Leg(x), touched);
    }
}

/// The same of one leg.
fn touch_leg(inst: &Instance, tight: &[bool], movement: Movement, leg: Leg, touched: &mut Vec<bool>)
    requires tight { length tight.now ≡ airports_of inst.now }
    requires leg { leg.0 < legs_of inst.now }
    requires touched { length touched.old.items ≡ legs_of inst.now }
    ensures touched { length touched.new.items ≡ legs_of inst.now }
    ensures kept { AreKept touched.old.items touched.new.items }
    ensures told { (is_marked tight.now (place_of movement inst.now leg.0) ≡ false) ⊎ (is_marked touched.new.items leg.0 ≡ true) }
{
    if !tight[place_of(inst, movement, leg).0 as usize] {
        return;
    }
    touched[leg.0 as usize] = true;
}
