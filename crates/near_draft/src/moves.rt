//! The drafts of moves, and whether the rows that they make break a rule.

ghost use Rattle.std.specs.Prelude.{◌≡◌, ◌<◌, ◌≤◌, ℕ, true, length, All, IfOk};
ghost use Rattle.plan_moves.specs.Fits.{Fits, StepFits};
ghost use Rattle.std.specs.List.{list_all};
ghost use Rattle.std.specs.Option.{ForSome};
ghost use Rattle.desk_data.specs.Situation.{legs_of, planes_of};
ghost use Rattle.near_moves.specs.RowRules.{keeps_rows};
ghost use Rattle.desk_model.specs.Steps.{after_steps};
ghost use Rattle.near_draft.specs.Drafts.{IsDraftOf, plan_of};
ghost use Rattle.near_draft.specs.LegRules.{BreaksOf, BreaksPushed};
ghost use Rattle.near_draft.specs.Legs.{AreLegsOf, numbers_of};

use crate::base::Base;
use crate::draft::Draft;
use crate::legs::{are_in_order, legs_of_plane};
use crate::rules::break_leg_rules;
use crate::steps::take_step;
use desk_data::{Leg, NoMem, Plane};
use near_moves::keeps_rows;
use plan_moves::{Move, Step};
use std::alloc::Global;

/// The plan that a move's first steps make, those before the first that leaves rows as they are, where they change rows
/// alone and the others leave them; `None` where it is not drafted. No board sees it. The only error is
/// out of memory.
pub fn draft_of<'a>(alloc: Global, base: &'a Base<'a>, m: &Move) -> Result<Option<Draft<'a>>, NoMem>
    requires { Fits base.now.inst m.now }
    ensures { IfOk result (λ drafted. ForSome drafted (IsDraftOf base.now.inst base.now.rows m.now)) }
{
    let steps = m.steps.as_slice();
    let (first, others) = steps.split_at(first_steps(steps));
    if first.is_empty() || !leave_rows(others) {
        return Ok(None);
    }
    let mut draft = Draft::of(alloc, base);
    if !take_steps(alloc, &mut draft, first)? {
        return Ok(None);
    }
    Ok(Some(draft))
}

/// Whether it is known that the draft of a move breaks a rule: a leg of an aircraft that the move pushes breaks C2 or one
/// of C4 to C7 there. Where it says no, nothing is known. The only error is out of memory.
pub fn breaks_rule(alloc: Global, draft: &Draft, m: &Move) -> Result<bool, NoMem>
    requires { Fits draft.now.inst m.now }
    ensures { IfOk result (λ breaks. breaks ≡ true → BreaksPushed draft.now.inst (plan_of draft.now) m.now.steps) }
{
    breaks_rows(alloc, draft, m.steps.as_slice())
}

/// How many steps there are before the first that leaves rows as they are.
fn first_steps(steps: &[Step]) -> usize
    ensures { result ≤ length steps.now }
{
    steps
        .iter()
        .position(|step| keeps_rows(step))
        .unwrap_or(steps.len())
}

/// Whether steps leave each leg its row.
fn leave_rows(steps: &[Step]) -> bool
    ensures { result ≡ list_all keeps_rows steps.now }
{
    steps.iter().all(|step| keeps_rows(step))
}

/// Takes steps in a draft, one after another. It says no where it took not all of them: then the draft is of nothing
/// known.
fn take_steps(alloc: Global, draft: &mut Draft, steps: &[Step]) -> Result<bool, NoMem>
    requires { All (StepFits draft.old.inst) steps.now }
    ensures taken { IfOk result (λ taken. taken ≡ true → plan_of draft.new ≡ after_steps draft.old.inst (plan_of draft.old) steps.now) }
    ensures inst { draft.new.inst ≡ draft.old.inst }
    ensures rows { draft.new.rows ≡ draft.old.rows }
{
    for step in steps {
        if !take_step(alloc, draft, step)? {
            return Ok(false);
        }
    }
    Ok(true)
}

/// Whether an aircraft that is pushed has a leg that breaks a rule.
fn breaks_rows(alloc: Global, draft: &Draft, steps: &[Step]) -> Result<bool, NoMem>
    requires { All (StepFits draft.now.inst) steps.now }
    ensures { IfOk result (λ breaks. breaks ≡ true → BreaksPushed draft.now.inst (plan_of draft.now) steps.now) }
{
    for step in steps {
        if let Step::Push { plane, .. } = step {
            if plane_breaks_rows(alloc, draft, *plane)? {
                return Ok(true);
            }
        }
    }
    Ok(false)
}

/// Whether an aircraft has a leg that breaks a rule.
fn plane_breaks_rows(alloc: Global, draft: &Draft, plane: Plane) -> Result<bool, NoMem>
    requires { plane.0 < planes_of draft.now.inst }
    ensures { IfOk result (λ breaks. breaks ≡ true → BreaksOf draft.now.inst (plan_of draft.now) plane.0) }
{
    match draft.kept(plane) {
        Some(legs) => Ok(break_rules(draft, legs)),
        None => {
            let legs = legs_of_plane(alloc, draft, plane)?;
            Ok(break_rules(draft, legs.as_slice()))
        }
    }
}

/// Whether one of the legs of an aircraft does, which are handed in, in whatever order.
fn break_rules(draft: &Draft, legs: &[Leg]) -> bool
    requires { All (λ leg. leg.0 < legs_of draft.now.inst) legs.now }
    ensures { (p : ℕ) → AreLegsOf draft.now.inst (plan_of draft.now) p (numbers_of legs.now) → result ≡ true → BreaksOf draft.now.inst (plan_of draft.now) p }
{
    let inst = draft.base().instance();
    are_in_order(draft, legs) && break_leg_rules(inst, draft, legs)
}
