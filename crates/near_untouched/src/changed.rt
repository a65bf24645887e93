//! Legs that have another row in a later plan.

ghost use Rattle.std.specs.Prelude.{◌≡◌, ◌<◌, IfOk, length, true};
ghost use Rattle.desk_data.specs.PlanRows.{row_at};
ghost use Rattle.desk_data.specs.Valid.{IsPlanFor};
ghost use Rattle.near_untouched.specs.Marks.{AreChanged, AreRowsTold};

use crate::marks::{mark_listed, unmarked};
use crate::plans::Plans;
use desk_data::{Leg, NoMem};
use plan_pages::Pages;
use std::alloc::Global;

/// The legs that have another row in the later plan, ascending. The only error is out of memory.
pub(crate) fn changed_legs(alloc: Global, plans: &Plans) -> Result<Vec<Leg>, NoMem>
    requires earlier { IsPlanFor plans.now.inst.now plans.now.earlier.now }
    requires later { IsPlanFor plans.now.inst.now plans.now.later.now }
    ensures { IfOk result (λ legs. AreChanged plans.now.inst.now plans.now.earlier.now plans.now.later.now legs.items) }
{
    let mut legs = Vec::new(alloc);
    for x in 0..plans.inst.legs() {
        let leg = Leg(x);
        if !has_same_row(plans.earlier, plans.later, leg) {
            legs.push(leg)?;
        }
    }
    Ok(legs)
}

/// Marks of these legs. The only error is out of memory.
pub(crate) fn changed_rows(
    alloc: Global,
    plans: &Plans,
    changed: &[Leg],
) -> Result<Vec<bool>, NoMem>
    requires { AreChanged plans.now.inst.now plans.now.earlier.now plans.now.later.now changed.now }
    ensures { IfOk result (λ rows. AreRowsTold plans.now.inst.now plans.now.earlier.now plans.now.later.now rows.items) }
{
    let mut rows = unmarked(alloc, plans.inst.legs() as usize)?;
    mark_listed(changed, &mut rows);
    Ok(rows)
}

/// Whether a leg has the same row in both plans.
fn has_same_row(earlier: &Pages, later: &Pages, leg: Leg) -> bool
    requires earlier { leg.0 < length earlier.now.rows }
    requires later { leg.0 < length later.now.rows }
    ensures { result ≡ true → row_at earlier.now leg.0 ≡ row_at later.now leg.0 }
{
    earlier.read_row(leg) == later.read_row(leg)
}
