//! Moves that cost at least as much more as those can save whom they touch.

ghost use Rattle.std.specs.Prelude.{◌≡◌, ◌+◌, ◌<◌, ◌≤◌, length, All, IfOk, None, true, false, sum_by};
ghost use Rattle.std.specs.List.{list_all};
ghost use Rattle.std.specs.Option.{ForSome};
ghost use Rattle.desk_data.specs.Situation.{legs_of, planes_of};
ghost use Rattle.desk_data.specs.Valid.{IsPlanFor};
ghost use Rattle.desk_rules.specs.Cost.{cost};
ghost use Rattle.desk_rules.specs.Least.{least};
ghost use Rattle.desk_model.specs.Steps.{after_move};
ghost use Rattle.plan_moves.specs.Fits.{Fits, StepFits};
ghost use Rattle.near_draft.specs.Drafts.{IsDraftOf, plan_of};
ghost use Rattle.near_priced.specs.Priced.{names_no_path};
ghost use Rattle.near_priced.specs.Saved.{saved_on, tidies_once};
ghost use Rattle.near_priced.specs.Tables.{ArePayments, amount, refill_amount};

use crate::balance::dearer_by;
use crate::ends::ends_of;
use crate::left::{left_by_legs, left_by_steps};
use crate::once::tidies_once;
use crate::payments::Payments;
use crate::saved::left_by_savings;
use desk_data::{Instance, Leg, NoMem, Plane};
use near_draft::{Draft, changed_legs};
use plan_moves::{Move, Step};
use plan_pages::Pages;
use std::alloc::Global;

/// A draft with more changes is not held against what those can save whom it touches.
const MOST_CHANGES: usize = 1_000;

impl Payments {
    /// Whether it is known that a move makes a feasible plan no cheaper, since it costs at least as much more as those pay
    /// whom it touches, or as they can save. The payments are those at the plan, and the draft is of the move. Where it
    /// says no, nothing is known. The only error is out of memory.
    pub fn rule_out(
        &self,
        alloc: Global,
        inst: &Instance,
        plan: &Pages,
        draft: &Draft,
        m: &Move,
    ) -> Result<bool, NoMem>
        requires plan { IsPlanFor inst.now plan.now }
        requires payments { ArePayments inst.now plan.now self.now }
        requires fits { Fits inst.now m.now }
        requires draft { IsDraftOf inst.now plan.now m.now draft.now }
        ensures { IfOk result (λ known. known ≡ true → least inst.now plan.now ≡ None → cost inst.now plan.now ≤ cost inst.now (after_move inst.now plan.now m.now)) }
    {
        if self.are_too_many(inst, draft) {
            return Ok(false);
        }
        let _rows = inst.parts();
        // the draft's plan is one for the day
        let _ = draft.base();
        let steps = m.steps.as_slice();
        if !name_no_path(steps) {
            return Ok(false);
        }
        let Some(planes) = pushed(inst, steps) else {
            return Ok(false);
        };
        let Some(ends) = ends_of(alloc, self, inst, plan, draft, planes)? else {
            return Ok(false);
        };
        let Some(dearer) = dearer_by(self, inst, plan, draft, ends) else {
            return Ok(false);
        };
        let legs = changed_legs(alloc, draft)?;
        if self.pay_at_most(legs.as_slice(), steps, dearer) {
            return Ok(true);
        }
        Ok(self.save_at_most(inst, plan, draft, legs.as_slice(), steps, dearer))
    }

    /// Whether there are too many positions on the day, or too many changes in a draft, for it to be held against payments.
    fn are_too_many(&self, inst: &Instance, draft: &Draft) -> bool
        ensures positions { result ≡ false → length self.now.hands.items ≡ length inst.now.parts.positions }
        ensures changes { result ≡ false → length draft.now.changes ≤ 1000 }
    {
        if self.hands.len() != inst.positions().len() {
            return true;
        }
        MOST_CHANGES < draft.changes().len()
    }

    /// Whether those who are on some legs, and those who are booked on a leg that some steps refill, pay at most a limit.
    fn pay_at_most(&self, legs: &[Leg], steps: &[Step], limit: u128) -> bool
        ensures { result ≡ true → sum_by (λ leg. amount self.now.on.items leg.0) legs.now + sum_by (refill_amount self.now.booked.items) steps.now ≤ limit }
    {
        match left_by_legs(self.on.as_slice(), legs, limit) {
            Some(left) => left_by_steps(self.booked.as_slice(), steps, left).is_some(),
            None => false,
        }
    }

    /// Whether one Tidy is taken and then Refills alone, and what those save at most who are on some legs, with what those
    /// pay who are booked on a leg that the steps refill, comes to at most a limit.
    fn save_at_most(
        &self,
        inst: &Instance,
        plan: &Pages,
        draft: &Draft,
        legs: &[Leg],
        steps: &[Step],
        limit: u128,
    ) -> bool
        requires plan { IsPlanFor inst.now plan.now }
        requires payments { ArePayments inst.now plan.now self.now }
        requires day { draft.now.inst ≡ inst.now }
        requires legs { All (λ leg. leg.0 < legs_of inst.now) legs.now }
        ensures once { result ≡ true → tidies_once steps.now ≡ true }
        ensures less { result ≡ true → sum_by (λ leg. saved_on inst.now plan.now (plan_of draft.now) leg.0) legs.now + sum_by (refill_amount self.now.booked.items) steps.now ≤ limit }
    {
        if !tidies_once(steps) {
            return false;
        }
        match left_by_steps(self.booked.as_slice(), steps, limit) {
            Some(left) => left_by_savings(self, inst, plan, draft, legs, left).is_some(),
            None => false,
        }
    }
}

/// Whether no step names a path.
fn name_no_path(steps: &[Step]) -> bool
    ensures { result ≡ list_all names_no_path steps.now }
{
    steps.iter().all(|step| names_no_path(step))
}

/// Whether a step is no Rebook.
fn names_no_path(step: &Step) -> bool
    ensures { result ≡ names_no_path step.now }
{
    match step {
        Step::Rebook { .. } => false,
        Step::Set { .. }
        | Step::Push { .. }
        | Step::Swap { .. }
        | Step::Tidy
        | Step::Refill { .. } => true,
    }
}

/// The aircraft of the first and of the last Push among some steps, if there is one.
fn pushed(_inst: &Instance, steps: &[Step]) -> Option<(Plane, Plane)>
    requires { All (StepFits _inst.now) steps.now }
    ensures { ForSome result (λ planes. (planes.0.0 < planes_of _inst.now) × (planes.1.0 < planes_of _inst.now)) }
{
    let mut found = None;
    for step in steps {
        if let Step::Push { plane, .. } = step {
            found = Some(also(_inst, found, *plane));
        }
    }
    found
}

/// The first of some aircraft with a last one more.
fn also(_inst: &Instance, found: Option<(Plane, Plane)>, plane: Plane) -> (Plane, Plane)
    requires found { ForSome found (λ planes. (planes.0.0 < planes_of _inst.now) × (planes.1.0 < planes_of _inst.now)) }
    requires plane { plane.0 < planes_of _inst.now }
    ensures first { result.0.0 < planes_of _inst.now }
    ensures last { result.1.0 < planes_of _inst.now }
{
    match found {
        Some((first, _)) => (first, plane),
        None => (plane, plane),
    }
}
