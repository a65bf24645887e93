//! The day and the plan that the input files give.

ghost use Rattle.std.specs.Prelude.{◌≡◌, All, IfOk, IfErr};
ghost use Rattle.desk_data.specs.Valid.{IsBatch, IsPlanFor};
ghost use Rattle.desk_tasks.specs.Judge.{with_batches};
ghost use Rattle.desk_tasks.specs.Story.{judged_of_rows};
ghost use Rattle.desk_tasks.specs.StoryReading.{GivesRead, NeedsNoFault};
ghost use Rattle.desk_tasks.specs.Facts.{as_rows, AreInputRows, as_judged};

use crate::fault::StoryFault;
use crate::rows::InputRows;
use desk_build::{Built, build};
use desk_data::{Batch, Instance, NoMem, Plan};
use file_joins::read_solution;
use std::alloc::Global;

/// A day, and a plan on it that is to be judged, and to which legs may be added.
#[derive(Drop)]
pub struct InputPlan {
    /// The joined day, with all batches.
    pub inst: Instance,
    /// It has a row for each leg, and all passengers.
    pub plan: Plan,
}

/// The day with these batches, one after another, each by the plan that is to be judged. The only error is out
/// of memory.
pub(crate) fn with_batches(
    alloc: Global,
    mut inst: Instance,
    plan: &Plan,
    batches: &[Batch],
) -> Result<Instance, NoMem>
    requires plan { IsPlanFor inst plan.now }
    requires batches { All (IsBatch inst.parts) batches.now }
    ensures { IfOk result (λ day. day ≡ with_batches inst plan.now batches.now) }
{
    for batch in batches {
        inst.add(alloc, plan, batch)?;
    }
    Ok(inst)
}

/// Joins the rows, and then those of the plan, by which the batches are added.
#[tactic(auto, unfolding(crate::specs::Story::judged_of_rows))]
pub(crate) fn joined_plan(alloc: Global, rows: &InputRows) -> Result<InputPlan, StoryFault>
    requires { AreInputRows rows.now }
    ensures exact { GivesRead as_judged result (judged_of_rows (as_rows rows.now)) }
    ensures plan { IfOk result (λ p. IsPlanFor p.inst p.plan) }
    ensures cause { IfErr result NeedsNoFault }
{
    let built = build(alloc, &rows.files)?;
    let rotations = rows.plan_rotations.as_slice();
    let itineraries = rows.plan_itineraries.as_slice();
    let plan = read_solution(alloc, &built.inst, rotations, itineraries)?;
    let Built { inst, batches } = built;
    match with_batches(alloc, inst, &plan, batches.0.as_slice()) {
        Ok(inst) => Ok(InputPlan { inst, plan }),
        Err(_) => Err(StoryFault::Memory),
    }
}
