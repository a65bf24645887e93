//! Aircraft that a position wants which has other aircraft at hand.

ghost use Rattle.std.specs.Prelude.{◌≡◌, ◌<◌, ◌&&◌, All, OnOk, false, length, true};
ghost use Rattle.desk_data.specs.Situation.{planes_of};
ghost use Rattle.desk_data.specs.Valid.{IsPlanFor};
ghost use Rattle.desk_rules.specs.Cost.{at_hand, is_wanted};
ghost use Rattle.plan_checks.specs.Stands.{AreStands, is_there};
ghost use Rattle.near_untouched.specs.Marks.{AreChanged, AreKept, HoldsOf};
ghost use Rattle.near_untouched.specs.Positions.{AreElsewhere, AreWantedMarked, HasSameHands, IsPositionTold};

use crate::ends::{elsewhere, ends_of};
use crate::plans::Plans;
use desk_data::{Airport, Instance, Leg, NoMem, Plane, PlaneInfo, PositionInfo};
use plan_reads::same_seats;
use std::alloc::Global;

/// Marks the aircraft that a position wants which has other aircraft at hand in the later plan, given the legs that have
/// another row: where there are none, all end where they did. Two walks over the legs, and for each aircraft that ends
/// elsewhere one over the positions. The only error is out of memory.
pub(crate) fn touch_wanted(
    alloc: Global,
    plans: &Plans,
    changed: &[Leg],
    touched: &mut Vec<bool>,
) -> Result<(), NoMem>
    requires earlier { IsPlanFor plans.now.inst.now plans.now.earlier.now }
    requires later { IsPlanFor plans.now.inst.now plans.now.later.now }
    requires changed { AreChanged plans.now.inst.now plans.now.earlier.now plans.now.later.now changed.now }
    requires touched { length touched.old.items ≡ planes_of plans.now.inst.now }
    ensures touched { length touched.new.items ≡ planes_of plans.now.inst.now }
    ensures kept { AreKept touched.old.items touched.new.items }
    ensures hands { OnOk result (HoldsOf (planes_of plans.now.inst.now) touched.new.items (HasSameHands plans.now.inst.now plans.now.earlier.now plans.now.later.now)) }
{
    if changed.is_empty() {
        return Ok(());
    }
    let was = ends_of(alloc, plans.inst, plans.earlier)?;
    let now = ends_of(alloc, plans.inst, plans.later)?;
    let planes = elsewhere(alloc, plans.inst, was.as_slice(), now.as_slice())?;
    touch_positions(
        plans,
        was.as_slice(),
        now.as_slice(),
        planes.as_slice(),
        touched,
    );
    Ok(())
}

/// The same, by where each aircraft ended and where it ends, and those that end elsewhere.
fn touch_positions(
    plans: &Plans,
    was: &[Option<Airport>],
    now: &[Option<Airport>],
    planes: &[Plane],
    touched: &mut Vec<bool>,
)
    requires was { AreStands plans.now.inst.now plans.now.earlier.now was.now }
    requires now { AreStands plans.now.inst.now plans.now.later.now now.now }
    requires planes { AreElsewhere (planes_of plans.now.inst.now) was.now now.now planes.now }
    requires touched { length touched.old.items ≡ planes_of plans.now.inst.now }
    ensures touched { length touched.new.items ≡ planes_of plans.now.inst.now }
    ensures kept { AreKept touched.old.items touched.new.items }
    ensures told { All (IsPositionTold plans.now.inst.now plans.now.earlier.now plans.now.later.now touched.new.items) plans.now.inst.now.parts.positions }
{
    for position in plans.inst.positions() {
        touch_position(plans, was, now, planes, position, touched);
    }
}

/// The same of one position.
fn touch_position(
    plans: &Plans,
    was: &[Option<Airport>],
    now: &[Option<Airport>],
    planes: &[Plane],
    position: &PositionInfo,
    touched: &mut Vec<bool>,
)
    requires was { AreStands plans.now.inst.now plans.now.earlier.now was.now }
    requires now { AreStands plans.now.inst.now plans.now.later.now now.now }
    requires planes { AreElsewhere (planes_of plans.now.inst.now) was.now now.now planes.now }
    requires touched { length touched.old.items ≡ planes_of plans.now.inst.now }
    ensures touched { length touched.new.items ≡ planes_of plans.now.inst.now }
    ensures kept { AreKept touched.old.items touched.new.items }
    ensures told { IsPositionTold plans.now.inst.now plans.now.earlier.now plans.now.later.now touched.new.items position.now }
{
    if has_same_at_hand(plans, was, now, planes, position) {
        return;
    }
    mark_wanted(plans.inst, position, touched);
}

/// Whether a position has as many aircraft at hand in the later plan.
fn has_same_at_hand(
    plans: &Plans,
    was: &[Option<Airport>],
    now: &[Option<Airport>],
    planes: &[Plane],
    position: &PositionInfo,
) -> bool
    requires was { AreStands plans.now.inst.now plans.now.earlier.now was.now }
    requires now { AreStands plans.now.inst.now plans.now.later.now now.now }
    requires planes { AreElsewhere (planes_of plans.now.inst.now) was.now now.now planes.now }
    ensures { result ≡ true → at_hand plans.now.inst.now plans.now.earlier.now position.now ≡ at_hand plans.now.inst.now plans.now.later.now position.now }
{
    for plane in planes {
        let place = plane.0 as usize;
        if counts_other(position, plans.inst.plane(*plane), was[place], now[place]) {
            return false;
        }
    }
    true
}

/// Whether an aircraft is at hand for a position by one of the airports where it ends, and not by the other.
fn counts_other(
    position: &PositionInfo,
    plane: &PlaneInfo,
    was: Option<Airport>,
    now: Option<Airport>,
) -> bool
    ensures { result ≡ false → (is_wanted position.now plane.now && is_there was position.now.airport.0) ≡ (is_wanted position.now plane.now && is_there now position.now.airport.0) }
{
    let before = is_at(was, position.airport);
    let after = is_at(now, position.airport);
    if before == after {
        return false;
    }
    is_wanted(position, plane)
}

/// Marks the aircraft that a position wants.
fn mark_wanted(inst: &Instance, position: &PositionInfo, touched: &mut Vec<bool>)
    requires { length touched.old.items ≡ planes_of inst.now }
    ensures touched { length touched.new.items ≡ planes_of inst.now }
    ensures kept { AreKept touched.old.items touched.new.items }
    ensures marked { AreWantedMarked inst.now touched.new.items position.now }
{
    for p in 0..inst.planes() {
        if is_wanted(position, inst.plane(Plane(p))) {
            touched[p as usize] = true;
        }
    }
}

/// Whether an aircraft ends at an airport.
fn is_at(end: Option<Airport>, airport: Airport) -> bool
    ensures { result ≡ is_there end airport.0 }
{
    match end {
        Some(there) => there.0 == airport.0,
        None => false,
    }
}

/// Whether an aircraft has the model and the seats of a position.
fn is_wanted(position: &PositionInfo, plane: &PlaneInfo) -> bool
    ensures { result ≡ is_wanted position.now plane.now }
{
    position.model.as_slice() == plane.model.as_slice() && same_seats(position.seats, plane.seats)
}
