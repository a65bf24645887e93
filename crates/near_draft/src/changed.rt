//! Legs among which are all that have other rows in a draft.

ghost use Rattle.std.specs.Prelude.{◌≡◌, ◌<◌, ◌⊎◌, ℕ, All, IfOk, OnOk};
ghost use Rattle.std.specs.List.{Contains};
ghost use Rattle.desk_data.specs.Situation.{legs_of};
ghost use Rattle.desk_data.specs.PlanRows.{row_at};
ghost use Rattle.near_draft.specs.Drafts.{AreAllChanged, plan_of};
ghost use Rattle.near_draft.specs.Legs.{numbers_of};

use crate::draft::Draft;
use crate::legs::has;
use desk_data::{Leg, NoMem};
use std::alloc::Global;

/// Legs of the day among which is each that has another row in a draft than in the plan over which it is drafted. The
/// only error is out of memory.
pub fn changed_legs(alloc: Global, draft: &Draft) -> Result<Vec<Leg>, NoMem>
    ensures all { IfOk result (λ legs. AreAllChanged draft.now.rows (plan_of draft.now) (numbers_of legs.items)) }
    ensures within { IfOk result (λ legs. All (λ leg. leg.0 < legs_of draft.now.inst) legs.items) }
{
    let changes = draft.changes();
    let mut legs = Vec::with_capacity(alloc, changes.len())?;
    for change in changes {
        note_leg(draft, change.leg, &mut legs)?;
    }
    Ok(legs)
}

/// Sees to it that a leg is among some, if its row is another one: it comes behind them, where it was not there.
fn note_leg(draft: &Draft, leg: Leg, legs: &mut Vec<Leg>) -> Result<(), NoMem>
    requires leg { leg.0 < legs_of draft.now.inst }
    requires within { All (λ leg. leg.0 < legs_of draft.now.inst) legs.old.items }
    ensures kept { OnOk result ((x : ℕ) → Contains (numbers_of legs.old.items) x → Contains (numbers_of legs.new.items) x) }
    ensures noted { OnOk result ((row_at draft.now.rows leg.0 ≡ row_at (plan_of draft.now) leg.0) ⊎ Contains (numbers_of legs.new.items) leg.0) }
    ensures within { OnOk result (All (λ leg. leg.0 < legs_of draft.now.inst) legs.new.items) }
{
    if draft.has_its_row(leg) || has(legs.as_slice(), leg) {
        return Ok(());
    }
    legs.push(leg)?;
    Ok(())
}
