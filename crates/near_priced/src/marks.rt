//! The aircraft and the legs that have to do with reservations that cost something.

ghost use Rattle.std.specs.Prelude.{◌≡◌, ◌+◌, ◌<◌, length, All, true};
ghost use Rattle.desk_data.specs.Situation.{legs_of, planes_of, reservations_of};
ghost use Rattle.desk_data.specs.Valid.{IsPathOf, IsPlanFor};
ghost use Rattle.near_priced.specs.Payers.{AreCosts, AreFliersMarked, AreKept, AreLegsMarked, AreMarked, IsFlierMarked};

use crate::pays::cost_of;
use desk_data::{Cabin, Grains, Group, Instance, Leg, Res, Row};
use plan_pages::Pages;

/// Marks the aircraft on whose legs somebody is of a reservation that costs something, and the legs on which it is booked,
/// given what each costs.
pub(crate) fn mark_all(
    inst: &Instance,
    plan: &Pages,
    costs: &[Grains],
    on: &mut Vec<bool>,
    booked: &mut Vec<bool>,
)
    requires plan { IsPlanFor inst.now plan.now }
    requires costs { AreCosts inst.now plan.now costs.now (reservations_of inst.now) }
    requires on { length on.old.items ≡ planes_of inst.now }
    requires booked { length booked.old.items ≡ legs_of inst.now }
    ensures { AreMarked inst.now plan.now on.new.items booked.new.items (reservations_of inst.now) }
{
    for r in 0..inst.reservations() {
        mark_one(inst, plan, costs, Res(r), on, booked);
    }
}

/// The same of one reservation more.
fn mark_one(
    inst: &Instance,
    plan: &Pages,
    costs: &[Grains],
    res: Res,
    on: &mut Vec<bool>,
    booked: &mut Vec<bool>,
)
    requires plan { IsPlanFor inst.now plan.now }
    requires costs { AreCosts inst.now plan.now costs.now (reservations_of inst.now) }
    requires res { res.0 < reservations_of inst.now }
    requires marked { AreMarked inst.now plan.now on.old.items booked.old.items res.0 }
    ensures { AreMarked inst.now plan.now on.new.items booked.new.items (res.0 + 1) }
{
    let cost = cost_of(inst, plan, costs, res);
    if cost.0 == 0 {
        return;
    }
    mark_groups(inst, plan, plan.groups(res), on);
    mark_legs(inst.res(res).path.as_slice(), booked);
}

/// Marks the aircraft that fly the legs of the paths of some groups.
fn mark_groups(inst: &Instance, plan: &Pages, groups: &[Group], on: &mut Vec<bool>)
    requires plan { IsPlanFor inst.now plan.now }
    requires groups { All (λ group. IsPathOf (legs_of inst.now) group.path) groups.now }
    requires on { length on.old.items ≡ planes_of inst.now }
    ensures on { length on.new.items ≡ planes_of inst.now }
    ensures kept { AreKept on.old.items on.new.items }
    ensures marked { All (λ group. AreFliersMarked plan.now on.new.items group.path) groups.now }
{
    for group in groups {
        mark_fliers(inst, plan, group.path.as_slice(), on);
    }
}

/// Marks the aircraft that fly the legs of a path.
fn mark_fliers(inst: &Instance, plan: &Pages, path: &[(Leg, Cabin)], on: &mut Vec<bool>)
    requires plan { IsPlanFor inst.now plan.now }
    requires path { IsPathOf (legs_of inst.now) path.now }
    requires on { length on.old.items ≡ planes_of inst.now }
    ensures on { length on.new.items ≡ planes_of inst.now }
    ensures kept { AreKept on.old.items on.new.items }
    ensures marked { AreFliersMarked plan.now on.new.items path.now }
{
    for pair in path {
        mark_flier(inst, plan, pair.0, on);
    }
}

/// Marks the aircraft that flies a leg, if one does.
fn mark_flier(_inst: &Instance, plan: &Pages, leg: Leg, on: &mut Vec<bool>)
    requires plan { IsPlanFor _inst.now plan.now }
    requires leg { leg.0 < legs_of _inst.now }
    requires on { length on.old.items ≡ planes_of _inst.now }
    ensures on { length on.new.items ≡ planes_of _inst.now }
    ensures kept { AreKept on.old.items on.new.items }
    ensures marked { IsFlierMarked plan.now on.new.items leg.0 }
{
    match plan.read_row(leg) {
        Row::Flown { plane, .. } => on[plane.0 as usize] = true,
        Row::Cancelled => {}
    }
}

/// Marks the legs of a path.
fn mark_legs(path: &[(Leg, Cabin)], booked: &mut Vec<bool>)
    requires { IsPathOf (length booked.old.items) path.now }
    ensures booked { length booked.new.items ≡ length booked.old.items }
    ensures kept { AreKept booked.old.items booked.new.items }
    ensures marked { AreLegsMarked booked.new.items path.now }
{
    for pair in path {
        booked[pair.0.0 as usize] = true;
    }
}
