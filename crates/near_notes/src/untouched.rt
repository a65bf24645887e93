//! Reservations of which nothing was touched.

ghost use Rattle.std.specs.Prelude.{◌≡◌, ◌<◌, All, length, true, false};
ghost use Rattle.desk_data.specs.Situation.{airports_of, reservations_of};
ghost use Rattle.desk_data.specs.Valid.{IsPlanFor};
ghost use Rattle.near_moves.specs.Routes.{stems};
ghost use Rattle.near_pax.specs.Start.{IsStemPath};
ghost use Rattle.near_memory.specs.Untouched.{IsUntouched};
ghost use Rattle.near_notes.specs.Changes.{AreAllStill, AreChanges};
ghost use Rattle.near_notes.specs.Onward.{IsClear, may_follow};
ghost use Rattle.near_notes.specs.Links.{AreLinks};

use crate::changes::Changes;
use crate::links::Links;
use crate::onward::Outset;
use desk_data::{Cabin, Group, Instance, Leg, Res};
use near_pax::{begun_path, is_other_stem};
use plan_pages::{Pages, are_same_groups};

/// Two plans of a day, the later one as it stands, and what changed between them.
#[derive(Drop)]
pub(crate) struct Plans<'a> {
    pub inst: &'a Instance,
    pub was: &'a Pages,
    pub plan: &'a Pages,
    pub changes: &'a Changes,
    pub links: &'a Links,
}

/// Whether nothing was touched between the plans that a rebooking of a reservation hangs on. Where it says no, it may
/// be so all the same.
pub(crate) fn is_untouched(plans: &Plans, res: Res) -> bool
    requires was { IsPlanFor plans.now.inst.now plans.now.was.now }
    requires plan { IsPlanFor plans.now.inst.now plans.now.plan.now }
    requires changes { AreChanges plans.now.inst.now plans.now.was.now plans.now.plan.now plans.now.changes.now }
    requires links { AreLinks plans.now.inst.now plans.now.links.now.known.items }
    requires res { res.0 < reservations_of plans.now.inst.now }
    ensures { result ≡ true → IsUntouched plans.now.inst.now plans.now.was.now plans.now.plan.now res.0 }
{
    let before = plans.was.groups(res);
    let now = plans.plan.groups(res);
    if !are_same_groups(before, now) {
        return false;
    }
    if !have_still_paths(plans.changes, before) {
        return false;
    }
    let booked = plans.inst.res(res).path.as_slice();
    if !plans.changes.are_still(booked) {
        return false;
    }
    has_clear_stems(plans, res)
}

/// Whether no leg on the paths of some groups was touched.
fn have_still_paths(changes: &Changes, groups: &[Group]) -> bool
    requires { All (λ group. All (λ pair. pair.0.0 < length changes.now.touched.items) group.path) groups.now }
    ensures { result ≡ true → All (λ group. AreAllStill changes.now.touched.items group.path) groups.now }
{
    for group in groups {
        if !changes.are_still(group.path.as_slice()) {
            return false;
        }
    }
    true
}

/// Whether no leg on a stem of a reservation was touched, and none that may follow one.
fn has_clear_stems(plans: &Plans, res: Res) -> bool
    requires plan { IsPlanFor plans.now.inst.now plans.now.plan.now }
    requires changes { AreChanges plans.now.inst.now plans.now.was.now plans.now.plan.now plans.now.changes.now }
    requires links { AreLinks plans.now.inst.now plans.now.links.now.known.items }
    requires res { res.0 < reservations_of plans.now.inst.now }
    ensures { result ≡ true → All (IsClear plans.now.inst.now plans.now.plan.now plans.now.changes.now res.0) (stems plans.now.inst.now res.0) }
{
    let _rows = plans.inst.parts();
    let begun = begun_path(plans.inst, res);
    if !is_clear(plans, res, begun) {
        return false;
    }
    for entry in plans.inst.tally(res) {
        let stem = entry.0.as_slice();
        if is_other_stem(begun, stem) && !is_clear(plans, res, stem) {
            return false;
        }
    }
    true
}

/// Whether no leg on a stem was touched, and none that may follow it.
fn is_clear(plans: &Plans, res: Res, stem: &[(Leg, Cabin)]) -> bool
    requires plan { IsPlanFor plans.now.inst.now plans.now.plan.now }
    requires changes { AreChanges plans.now.inst.now plans.now.was.now plans.now.plan.now plans.now.changes.now }
    requires links { AreLinks plans.now.inst.now plans.now.links.now.known.items }
    requires res { res.0 < reservations_of plans.now.inst.now }
    requires stem { IsStemPath plans.now.inst.now stem.now }
    ensures { result ≡ true → IsClear plans.now.inst.now plans.now.plan.now plans.now.changes.now res.0 stem.now }
{
    let changes = plans.changes;
    let outset = Outset::after(plans.inst, plans.plan, res, stem);
    changes.are_still(stem) && may_use_none(plans, &outset)
}

/// Whether none of the legs that were touched may be used.
fn may_use_none(plans: &Plans, outset: &Outset) -> bool
    requires plan { IsPlanFor plans.now.inst.now plans.now.plan.now }
    requires changes { AreChanges plans.now.inst.now plans.now.was.now plans.now.plan.now plans.now.changes.now }
    requires links { AreLinks plans.now.inst.now plans.now.links.now.known.items }
    requires from { outset.now.from.0 < airports_of plans.now.inst.now }
    requires to { outset.now.to.0 < airports_of plans.now.inst.now }
    ensures { result ≡ true → All (λ leg. may_follow plans.now.inst.now plans.now.plan.now outset.now leg.0 ≡ false) plans.now.changes.now.legs.items }
{
    for leg in plans.changes.legs.as_slice() {
        if outset.may_use(plans.inst, plans.plan, plans.links, *leg) {
            return false;
        }
    }
    true
}
