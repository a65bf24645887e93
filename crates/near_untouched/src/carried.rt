//! The aircraft on which passengers are whose reservations have other groups in a later plan.

ghost use Rattle.std.specs.Prelude.{◌≡◌, ◌+◌, ◌<◌, All, IfOk, length};
ghost use Rattle.desk_data.specs.Situation.{legs_of, planes_of, reservations_of};
ghost use Rattle.desk_data.specs.Valid.{IsPathOf, IsPlanFor};
ghost use Rattle.near_untouched.specs.Marks.{AreKept};
ghost use Rattle.near_untouched.specs.Carried.{AreCarriedTold, AreCarriersMarked, AreFliersMarked};

use crate::marks::unmarked;
use crate::planes::mark_flier;
use desk_data::{Cabin, Group, Instance, Leg, NoMem, Res};
use plan_pages::{Pages, are_same_groups};
use std::alloc::Global;

/// Marks of the aircraft on which somebody is, in the one plan or the other, whose reservation has other groups in the other:
/// one walk over the reservations. The only error is out of memory.
pub(crate) fn carriers(
    alloc: Global,
    inst: &Instance,
    earlier: &Pages,
    later: &Pages,
) -> Result<Vec<bool>, NoMem>
    requires earlier { IsPlanFor inst.now earlier.now }
    requires later { IsPlanFor inst.now later.now }
    ensures { IfOk result (λ marks. AreCarriedTold (reservations_of inst.now) inst.now earlier.now later.now marks.items) }
{
    let mut marks = unmarked(alloc, inst.planes() as usize)?;
    for r in 0..inst.reservations() {
        mark_carriers(inst, earlier, later, Res(r), &mut marks);
    }
    Ok(marks)
}

/// Marks those of one reservation, if it has other groups.
fn mark_carriers(inst: &Instance, earlier: &Pages, later: &Pages, res: Res, marks: &mut Vec<bool>)
    requires earlier { IsPlanFor inst.now earlier.now }
    requires later { IsPlanFor inst.now later.now }
    requires res { res.0 < reservations_of inst.now }
    requires told { AreCarriedTold res.0 inst.now earlier.now later.now marks.old.items }
    ensures { AreCarriedTold (res.0 + 1) inst.now earlier.now later.now marks.new.items }
{
    let before = earlier.groups(res);
    let after = later.groups(res);
    if are_same_groups(before, after) {
        return;
    }
    mark_groups(inst, earlier, before, marks);
    mark_groups(inst, later, after, marks);
}

/// Marks the aircraft that fly the legs of the paths of some groups.
fn mark_groups(inst: &Instance, plan: &Pages, groups: &[Group], marks: &mut Vec<bool>)
    requires plan { IsPlanFor inst.now plan.now }
    requires groups { All (λ group. IsPathOf (legs_of inst.now) group.path) groups.now }
    requires marks { length marks.old.items ≡ planes_of inst.now }
    ensures marks { length marks.new.items ≡ planes_of inst.now }
    ensures kept { AreKept marks.old.items marks.new.items }
    ensures marked { AreCarriersMarked plan.now marks.new.items groups.now }
{
    for group in groups {
        mark_fliers(inst, plan, group.path.as_slice(), marks);
    }
}

/// Marks the aircraft that fly the legs of a path.
fn mark_fliers(inst: &Instance, plan: &Pages, path: &[(Leg, Cabin)], marks: &mut Vec<bool>)
    requires plan { IsPlanFor inst.now plan.now }
    requires path { IsPathOf (legs_of inst.now) path.now }
    requires marks { length marks.old.items ≡ planes_of inst.now }
    ensures marks { length marks.new.items ≡ planes_of inst.now }
    ensures kept { AreKept marks.old.items marks.new.items }
    ensures marked { AreFliersMarked plan.now marks.new.items path.now }
{
    for pair in path {
        mark_flier(inst, plan, pair.0, marks);
    }
}
