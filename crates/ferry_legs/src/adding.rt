//! The legs that are added to a plan.

ghost use Rattle.std.specs.Prelude.{◌≡◌, IfOk, Some};
ghost use Rattle.desk_data.specs.Valid.{IsPlanFor};
ghost use Rattle.desk_rules.specs.Words.{IsFeasible};
ghost use Rattle.added_legs.specs.Ferried.{next_added};
ghost use Rattle.added_legs.specs.Merged.{AreAdded};
ghost use Rattle.ferry_legs.specs.Ferried.{AreFerried, added_of};
ghost use Rattle.ferry_legs.specs.Steps.{AreSoFar, IsMarked, IsKeptOf, IsNew};

use crate::ferried::Ferried;
use crate::kept::Kept;
use added_legs::Added;
use desk_data::{Instance, NoMem, Plan};
use std::alloc::Global;

/// The legs that are added to a plan that breaks no rule, in the order of adding: as long as there is one, the first
/// candidate with which the plan costs less. There is at most one for an aircraft. The only error is out of memory.
pub fn ferry(alloc: Global, inst: &Instance, plan: &Plan) -> Result<Vec<Ferried>, NoMem>
    requires plan { IsPlanFor inst.now plan.now }
    requires feasible { IsFeasible inst.now plan.now }
    ensures ferried { IfOk result (λ list. AreFerried inst.now plan.now list.items) }
    ensures added { IfOk result (λ list. AreAdded inst.now plan.now (added_of list.items)) }
{
    let mut kept = Kept::of(alloc, inst, plan)?;
    let mut list = Vec::new(alloc);
    add_all(inst, plan, &mut kept, &mut list)?;
    Ok(list)
}

/// Adds legs until there is none left.
fn add_all(
    inst: &Instance,
    plan: &Plan,
    kept: &mut Kept,
    list: &mut Vec<Ferried>,
) -> Result<(), NoMem>
    requires plan { IsPlanFor inst.now plan.now }
    requires kept { IsKeptOf inst.now plan.now (added_of list.old.items) kept.old }
    requires so_far { AreSoFar inst.now plan.now list.old.items }
    ensures ferried { IfOk result (λ done. AreFerried inst.now plan.now list.new.items) }
    ensures added { IfOk result (λ done. AreAdded inst.now plan.now (added_of list.new.items)) }
{
    loop {
        let Some(leg) = kept.next(inst, plan) else {
            return Ok(());
        };
        add(inst, plan, leg, kept, list)?;
    }
}

/// Adds the next leg.
fn add(
    inst: &Instance,
    plan: &Plan,
    leg: Added,
    kept: &mut Kept,
    list: &mut Vec<Ferried>,
) -> Result<(), NoMem>
    requires plan { IsPlanFor inst.now plan.now }
    requires kept { IsKeptOf inst.now plan.now (added_of list.old.items) kept.old }
    requires so_far { AreSoFar inst.now plan.now list.old.items }
    requires next { next_added inst.now plan.now (added_of list.old.items) ≡ Some leg }
    requires leg { IsNew inst.now plan.now (added_of list.old.items) leg }
    ensures kept { IfOk result (λ done. IsKeptOf inst.now plan.now (added_of list.new.items) kept.new) }
    ensures so_far { IfOk result (λ done. AreSoFar inst.now plan.now list.new.items) }
    ensures fewer { IfOk result (λ done. IsMarked kept.old.taken.items kept.new.taken.items leg.plane.0) }
{
    kept.add(inst, plan, leg);
    list.push(Ferried {
        leg,
        cost: kept.cost(),
    })?;
    Ok(())
}
