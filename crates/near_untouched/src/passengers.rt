//! Legs that have to do with a reservation that is not the same.

ghost use Rattle.std.specs.Prelude.{◌≡◌, ℕ, ◌<◌, OnOk, length, true};
ghost use Rattle.desk_data.specs.PlanRows.{groups_at};
ghost use Rattle.desk_data.specs.Situation.{legs_of, reservations_of};
ghost use Rattle.desk_data.specs.Valid.{IsPlanFor};
ghost use Rattle.near_untouched.specs.Marks.{AreKept, AreRowsTold, HoldsOf};
ghost use Rattle.near_untouched.specs.Passengers.{HasSameUsers, IsBookedTold, IsRegroupedTold, IsUserTold};

use crate::marks::{are_paths_free, is_path_free, mark_path, mark_paths, unmarked};
use crate::plans::Plans;
use desk_data::{NoMem, Res};
use plan_pages::are_same_groups;
use std::alloc::Global;

/// Marks the legs on which somebody is, in the one plan or the other, of a reservation that is not the same, or on which one
/// is booked that is not, or whose scheduled path does not keep its seats, given the marks of legs that have another row. Two
/// walks over the reservations. The only error is out of memory.
pub(crate) fn touch_passengers(
    alloc: Global,
    plans: &Plans,
    rows: &[bool],
    touched: &mut Vec<bool>,
) -> Result<(), NoMem>
    requires earlier { IsPlanFor plans.now.inst.now plans.now.earlier.now }
    requires later { IsPlanFor plans.now.inst.now plans.now.later.now }
    requires rows { AreRowsTold plans.now.inst.now plans.now.earlier.now plans.now.later.now rows.now }
    requires touched { length touched.old.items ≡ legs_of plans.now.inst.now }
    ensures touched { length touched.new.items ≡ legs_of plans.now.inst.now }
    ensures kept { AreKept touched.old.items touched.new.items }
    ensures users { OnOk result (HoldsOf (legs_of plans.now.inst.now) touched.new.items (HasSameUsers plans.now.inst.now plans.now.earlier.now plans.now.later.now)) }
{
    let mut regrouped = unmarked(alloc, plans.inst.legs() as usize)?;
    touch_users(plans, rows, &mut regrouped, touched);
    touch_booked(plans, rows, regrouped.as_slice(), touched);
    Ok(())
}

/// Marks the legs on which somebody is whose reservation has other groups, as regrouped; and those that have to do with a
/// reservation that is not the same, as touched.
fn touch_users(plans: &Plans, rows: &[bool], regrouped: &mut Vec<bool>, touched: &mut Vec<bool>)
    requires earlier { IsPlanFor plans.now.inst.now plans.now.earlier.now }
    requires later { IsPlanFor plans.now.inst.now plans.now.later.now }
    requires rows { AreRowsTold plans.now.inst.now plans.now.earlier.now plans.now.later.now rows.now }
    requires regrouped { length regrouped.old.items ≡ legs_of plans.now.inst.now }
    requires touched { length touched.old.items ≡ legs_of plans.now.inst.now }
    ensures regrouped { length regrouped.new.items ≡ legs_of plans.now.inst.now }
    ensures touched { length touched.new.items ≡ legs_of plans.now.inst.now }
    ensures kept { AreKept touched.old.items touched.new.items }
    ensures groups { (r : ℕ) → r < reservations_of plans.now.inst.now → IsRegroupedTold plans.now.earlier.now plans.now.later.now regrouped.new.items r }
    ensures users { (r : ℕ) → r < reservations_of plans.now.inst.now → IsUserTold plans.now.inst.now plans.now.earlier.now plans.now.later.now touched.new.items r }
{
    for r in 0..plans.inst.reservations() {
        let same = mark_regrouped(plans, Res(r), regrouped);
        touch_user(plans, Res(r), same, rows, touched);
    }
}

/// Whether a reservation has the same groups; if not, marks the legs of their paths.
fn mark_regrouped(plans: &Plans, res: Res, regrouped: &mut Vec<bool>) -> bool
    requires earlier { IsPlanFor plans.now.inst.now plans.now.earlier.now }
    requires later { IsPlanFor plans.now.inst.now plans.now.later.now }
    requires res { res.0 < reservations_of plans.now.inst.now }
    requires regrouped { length regrouped.old.items ≡ legs_of plans.now.inst.now }
    ensures regrouped { length regrouped.new.items ≡ legs_of plans.now.inst.now }
    ensures kept { AreKept regrouped.old.items regrouped.new.items }
    ensures same { result ≡ true → groups_at plans.now.earlier.now res.0 ≡ groups_at plans.now.later.now res.0 }
    ensures told { IsRegroupedTold plans.now.earlier.now plans.now.later.now regrouped.new.items res.0 }
{
    let before = plans.earlier.groups(res);
    let now = plans.later.groups(res);
    if are_same_groups(now, before) {
        return true;
    }
    mark_paths(before, regrouped);
    mark_paths(now, regrouped);
    false
}

/// Marks the legs that have to do with a reservation, unless it has the same groups and the legs of their paths have the same
/// rows.
fn touch_user(plans: &Plans, res: Res, same: bool, rows: &[bool], touched: &mut Vec<bool>)
    requires earlier { IsPlanFor plans.now.inst.now plans.now.earlier.now }
    requires later { IsPlanFor plans.now.inst.now plans.now.later.now }
    requires rows { AreRowsTold plans.now.inst.now plans.now.earlier.now plans.now.later.now rows.now }
    requires res { res.0 < reservations_of plans.now.inst.now }
    requires same { same ≡ true → groups_at plans.now.earlier.now res.0 ≡ groups_at plans.now.later.now res.0 }
    requires touched { length touched.old.items ≡ legs_of plans.now.inst.now }
    ensures touched { length touched.new.items ≡ legs_of plans.now.inst.now }
    ensures kept { AreKept touched.old.items touched.new.items }
    ensures told { IsUserTold plans.now.inst.now plans.now.earlier.now plans.now.later.now touched.new.items res.0 }
{
    let before = plans.earlier.groups(res);
    if same && are_paths_free(rows, before) {
        return;
    }
    let now = plans.later.groups(res);
    let booked = plans.inst.res(res).path.as_slice();
    mark_paths(before, touched);
    mark_paths(now, touched);
    mark_path(booked, touched);
}

/// Marks the legs of scheduled paths that do not keep their seats.
fn touch_booked(plans: &Plans, rows: &[bool], regrouped: &[bool], touched: &mut Vec<bool>)
    requires earlier { IsPlanFor plans.now.inst.now plans.now.earlier.now }
    requires later { IsPlanFor plans.now.inst.now plans.now.later.now }
    requires rows { AreRowsTold plans.now.inst.now plans.now.earlier.now plans.now.later.now rows.now }
    requires regrouped { length regrouped.now ≡ legs_of plans.now.inst.now }
    requires touched { length touched.old.items ≡ legs_of plans.now.inst.now }
    ensures touched { length touched.new.items ≡ legs_of plans.now.inst.now }
    ensures kept { AreKept touched.old.items touched.new.items }
    ensures told { (r : ℕ) → r < reservations_of plans.now.inst.now → IsBookedTold plans.now.inst.now plans.now.earlier.now plans.now.later.now regrouped.now touched.new.items r }
{
    for r in 0..plans.inst.reservations() {
        touch_path(plans, Res(r), rows, regrouped, touched);
    }
}

/// The same of one reservation.
fn touch_path(plans: &Plans, res: Res, rows: &[bool], regrouped: &[bool], touched: &mut Vec<bool>)
    requires earlier { IsPlanFor plans.now.inst.now plans.now.earlier.now }
    requires later { IsPlanFor plans.now.inst.now plans.now.later.now }
    requires rows { AreRowsTold plans.now.inst.now plans.now.earlier.now plans.now.later.now rows.now }
    requires res { res.0 < reservations_of plans.now.inst.now }
    requires regrouped { length regrouped.now ≡ legs_of plans.now.inst.now }
    requires touched { length touched.old.items ≡ legs_of plans.now.inst.now }
    ensures touched { length touched.new.items ≡ legs_of plans.now.inst.now }
    ensures kept { AreKept touched.old.items touched.new.items }
    ensures told { IsBookedTold plans.now.inst.now plans.now.earlier.now plans.now.later.now regrouped.now touched.new.items res.0 }
{
    let booked = plans.inst.res(res).path.as_slice();
    if is_path_free(rows, booked) && is_path_free(regrouped, booked) {
        return;
    }
    mark_path(booked, touched);
}
