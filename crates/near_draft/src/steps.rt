//! The steps of a move that change rows, taken in a draft.

ghost use Rattle.std.specs.Prelude.{◌≡◌, ◌<◌, true, IfOk, OnOk};
ghost use Rattle.std.specs.Option.{ForSome};
ghost use Rattle.desk_data.specs.Situation.{legs_of, planes_of};
ghost use Rattle.desk_data.specs.PlanRows.{PlanRows};
ghost use Rattle.desk_data.specs.Valid.{IsRowOf};
ghost use Rattle.plan_moves.specs.Fits.{StepFits};
ghost use Rattle.desk_rules.specs.Rows.{is_row};
ghost use Rattle.desk_model.specs.Push.{after_placing, after_push};
ghost use Rattle.desk_model.specs.Steps.{after_set, after_step};
ghost use Rattle.hour_counts.specs.Placings.{AreLegs, IsPlacing};
ghost use Rattle.near_draft.specs.Drafts.{plan_of};

use crate::draft::Draft;
use crate::legs::legs_in_order;
use crate::swap::{Exchange, swap_step};
use desk_data::{Leg, NoMem, Plane, Row};
use hour_counts::{Placing, first_departure, placings};
use plan_moves::Step;
use std::alloc::Global;

/// Takes a step in a draft, if it changes rows alone: a Set, a Push or a Swap. It says no where it did not: then the
/// draft is of nothing known. The only error is out of memory.
#[tactic(auto, unfolding(desk_model::specs::Steps::after_step))]
pub(crate) fn take_step(alloc: Global, draft: &mut Draft, step: &Step) -> Result<bool, NoMem>
    requires fits { StepFits draft.old.inst step.now }
    ensures taken { IfOk result (λ taken. taken ≡ true → plan_of draft.new ≡ after_step draft.old.inst (plan_of draft.old) step.now) }
    ensures inst { draft.new.inst ≡ draft.old.inst }
    ensures rows { draft.new.rows ≡ draft.old.rows }
{
    match step {
        Step::Set { leg, was, new } => {
            set_step(draft, *leg, *was, *new)?;
            Ok(true)
        }
        Step::Push { plane, after } => push_step(alloc, draft, *plane, *after),
        Step::Swap { first, second, at } => {
            let (first, second, at) = (*first, *second, *at);
            swap_step(alloc, draft, Exchange { first, second, at })
        }
        _ => Ok(false),
    }
}

/// Takes a Set in a draft.
fn set_step(draft: &mut Draft, leg: Leg, was: Row, new: Row) -> Result<(), NoMem>
    requires leg { leg.0 < legs_of draft.old.inst }
    requires row { IsRowOf (planes_of draft.old.inst) new }
    ensures plan { OnOk result (plan_of draft.new ≡ after_set (plan_of draft.old) leg.0 was new) }
    ensures inst { draft.new.inst ≡ draft.old.inst }
    ensures rows { draft.new.rows ≡ draft.old.rows }
{
    if is_row(draft.row(leg), was) {
        draft.set_row(leg, new)
    } else {
        Ok(())
    }
}

/// Takes a Push in a draft. It says no where the order of the aircraft's legs is not known, or they are too many.
fn push_step(
    alloc: Global,
    draft: &mut Draft,
    plane: Plane,
    after: Option<Leg>,
) -> Result<bool, NoMem>
    requires plane { plane.0 < planes_of draft.old.inst }
    requires after { ForSome after (λ leg. leg.0 < legs_of draft.old.inst) }
    ensures taken { IfOk result (λ taken. taken ≡ true → plan_of draft.new ≡ after_push draft.old.inst (plan_of draft.old) plane.0 after) }
    ensures inst { draft.new.inst ≡ draft.old.inst }
    ensures rows { draft.new.rows ≡ draft.old.rows }
{
    let Some(order) = legs_in_order(alloc, &*draft, plane)? else {
        return Ok(false);
    };
    let inst = draft.base().instance();
    let all = placings(alloc, inst, &*draft, order.as_slice(), after)?;
    draft.keep(plane, order)?;
    for placing in &all {
        place(draft, plane, placing)?;
    }
    Ok(true)
}

/// Places a leg: it departs at the first moment at which it may, and keeps its row where there is none.
fn place(draft: &mut Draft, plane: Plane, placing: &Placing) -> Result<(), NoMem>
    requires plane { plane.0 < planes_of draft.old.inst }
    requires legs { AreLegs draft.old.inst placing.now }
    ensures plan { (start : PlanRows) → IsPlacing draft.old.inst start placing.now → OnOk result (plan_of draft.new ≡ after_placing draft.old.inst start plane.0 (plan_of draft.old) placing.now.leg.0) }
    ensures inst { draft.new.inst ≡ draft.old.inst }
    ensures rows { draft.new.rows ≡ draft.old.rows }
{
    let inst = draft.base().instance();
    match first_departure(inst, &*draft, &*draft, plane, placing) {
        Some(dep) => draft.set_row(placing.leg, Row::Flown { plane, dep }),
        None => Ok(()),
    }
}

/// Whether two rows are the same.
fn is_row(row: Row, other: Row) -> bool
    ensures { result ≡ is_row row other }
{
    match (row, other) {
        (Row::Flown { plane, dep }, Row::Flown { plane: by, dep: at }) => {
            plane.0 == by.0 && dep.0 == at.0
        }
        (Row::Cancelled, Row::Cancelled) => true,
        _ => false,
    }
}
