//! Legs that were touched between two plans.

ghost use Rattle.std.specs.Prelude.{IfOk};
ghost use Rattle.desk_data.specs.Valid.{IsPlanFor};
ghost use Rattle.near_untouched.specs.Legs.{AreLegsTold};
ghost use Rattle.near_untouched.specs.Marks.{AreChanged};

use crate::changed::changed_rows;
use crate::hours::touch_hours;
use crate::passengers::touch_passengers;
use crate::plans::Plans;
use desk_data::{Leg, NoMem};
use hour_counts::{KnowsHours, Movement};
use std::alloc::Global;

/// Marks of the legs that were touched, or may have been, given those that have another row: these; those that leave an
/// airport, or reach it, whose hours have no longer the same room; and those that have to do with a reservation that is not
/// the same. The only error is out of memory.
pub(crate) fn touched_legs<H: KnowsHours, K: KnowsHours>(
    alloc: Global,
    plans: &Plans,
    earlier_hours: &H,
    later_hours: &K,
    changed: &[Leg],
) -> Result<Vec<bool>, NoMem>
    requires earlier { IsPlanFor plans.now.inst.now plans.now.earlier.now }
    requires later { IsPlanFor plans.now.inst.now plans.now.later.now }
    requires earlier_hours { H.knows earlier_hours.now plans.now.inst.now plans.now.earlier.now }
    requires later_hours { K.knows later_hours.now plans.now.inst.now plans.now.later.now }
    requires changed { AreChanged plans.now.inst.now plans.now.earlier.now plans.now.later.now changed.now }
    ensures { IfOk result (λ touched. AreLegsTold plans.now.inst.now plans.now.earlier.now plans.now.later.now touched.items) }
{
    let rows = changed_rows(alloc, plans, changed)?;
    let mut touched = changed_rows(alloc, plans, changed)?;
    let leaves = Movement::Departure;
    touch_hours(
        alloc,
        plans,
        earlier_hours,
        later_hours,
        changed,
        leaves,
        &mut touched,
    )?;
    let comes = Movement::Arrival;
    touch_hours(
        alloc,
        plans,
        earlier_hours,
        later_hours,
        changed,
        comes,
        &mut touched,
    )?;
    touch_passengers(alloc, plans, rows.as_slice(), &mut touched)?;
    Ok(touched)
}
