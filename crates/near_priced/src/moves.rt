//! Moves on whose aircraft nobody pays.

ghost use Rattle.std.specs.Prelude.{◌≡◌, ◌+◌, ◌<◌, ◌≤◌, ◌++◌, ◌||◌, ◌==◌, if◌then◌else◌, length, not, All, None, true, false};
ghost use Rattle.std.specs.List.{list_all};
ghost use Rattle.std.specs.Option.{ForSome};
ghost use Rattle.plan_moves.specs.Fits.{Fits, StepFits};
ghost use Rattle.plan_moves.specs.declared.moves.Move.{Move as Asked};
ghost use Rattle.desk_data.specs.Situation.{plane_at, planes_of};
ghost use Rattle.desk_data.specs.Valid.{IsPlanFor, IsRowOf};
ghost use Rattle.desk_rules.specs.Cost.{cost};
ghost use Rattle.desk_rules.specs.Least.{least};
ghost use Rattle.desk_model.specs.Steps.{after_move};
ghost use Rattle.desk_rules.specs.Passengers.{is_flown};
ghost use Rattle.near_moves.specs.Same.{is_of};
ghost use Rattle.near_priced.specs.Unpaid.{flies_on, flown_again, is_either, is_own_leg, saved_by_ending, services};
ghost use Rattle.near_priced.specs.Payers.{ArePayers, is_marked, spares};

use crate::payers::Payers;
use desk_data::{Grains, Instance, Leg, Plane, Row, Term};
use desk_units::per_item;
use near_moves::keeps_rows;
use plan_checks::flight_cost;
use plan_moves::{Move, Step};
use plan_pages::Pages;
use plan_reads::is_flown;

impl Payers {
    /// Whether it is known that a move makes a feasible plan no cheaper, since nobody pays on its aircraft. The payers are those
    /// at the plan. Where it says no, nothing is known.
    pub fn rule_out(&self, inst: &Instance, plan: &Pages, m: &Move) -> bool
        requires plan { IsPlanFor inst.now plan.now }
        requires payers { ArePayers inst.now plan.now self.now }
        requires fits { Fits inst.now m.now }
        ensures { result ≡ true → least inst.now plan.now ≡ None → cost inst.now plan.now ≤ cost inst.now (after_move inst.now plan.now m.now) }
    {
        let steps = m.steps.as_slice();
        let (first, others) = steps.split_at(first_steps(steps));
        match aircraft_of(inst, first) {
            Some((one, other)) => self.rules_out(inst, plan, first, others, one, other),
            None => false,
        }
    }

    /// The same of a move that has these first steps, of these aircraft, and then the others.
    fn rules_out(
        &self,
        inst: &Instance,
        plan: &Pages,
        first: &[Step],
        others: &[Step],
        one: Plane,
        other: Plane,
    ) -> bool
        requires plan { IsPlanFor inst.now plan.now }
        requires payers { ArePayers inst.now plan.now self.now }
        requires fits { All (StepFits inst.now) first.now }
        requires one { one.0 < planes_of inst.now }
        requires other { other.0 < planes_of inst.now }
        ensures { result ≡ true → (m : Asked) → Fits inst.now m → m.steps ≡ first.now ++ others.now → least inst.now plan.now ≡ None → cost inst.now plan.now ≤ cost inst.now (after_move inst.now plan.now m) }
    {
        let _rows = inst.parts();
        if !fly_on(inst, plan, one, other, first) {
            return false;
        }
        if !self.spare_all(others) {
            return false;
        }
        self.have_none_to_save(inst, plan, one, other, first)
    }

    /// Whether two aircraft cost as much by the hour, nobody pays on them, and they may save no more by ending elsewhere than
    /// a leg costs that is flown again.
    fn have_none_to_save(
        &self,
        inst: &Instance,
        plan: &Pages,
        one: Plane,
        other: Plane,
        first: &[Step],
    ) -> bool
        requires plan { IsPlanFor inst.now plan.now }
        requires payers { ArePayers inst.now plan.now self.now }
        requires one { one.0 < planes_of inst.now }
        requires other { other.0 < planes_of inst.now }
        requires fits { All (StepFits inst.now) first.now }
        ensures hourly { result ≡ true → (plane_at inst.now one.0).hourly.0 ≡ (plane_at inst.now other.0).hourly.0 }
        ensures first { result ≡ true → is_marked self.now.on.items one.0 ≡ false }
        ensures second { result ≡ true → is_marked self.now.on.items other.0 ≡ false }
        ensures less { result ≡ true → saved_by_ending inst.now plan.now one.0 other.0 ≤ flown_again inst.now plan.now first.now }
    {
        if inst.plane(one).hourly.0 != inst.plane(other).hourly.0 {
            return false;
        }
        if self.on[one.0 as usize] {
            return false;
        }
        if self.on[other.0 as usize] {
            return false;
        }
        self.saved(inst, plan, one, other).0 <= again(inst, plan, first).0
    }

    /// What two aircraft, which may be one, save at most by ending elsewhere, or more, in grains.
    pub fn saved(&self, inst: &Instance, plan: &Pages, one: Plane, other: Plane) -> Grains
        requires payers { ArePayers inst.now plan.now self.now }
        requires one { one.0 < planes_of inst.now }
        requires other { other.0 < planes_of inst.now }
        ensures { saved_by_ending inst.now plan.now one.0 other.0 ≤ result.0 }
    {
        let weight = inst.prices().weight(Term::Position);
        let count = self.services_of_both(inst, plan, one, other);
        per_item(inst.prices().position(), weight, count)
    }

    /// How many positions two aircraft may serve, or more.
    fn services_of_both(&self, inst: &Instance, plan: &Pages, one: Plane, other: Plane) -> u64
        requires payers { ArePayers inst.now plan.now self.now }
        requires one { one.0 < planes_of inst.now }
        requires other { other.0 < planes_of inst.now }
        ensures count { services inst.now plan.now one.0 + (if one.0 == other.0 then 0 else services inst.now plan.now other.0) ≤ result }
        ensures few { result ≤ 20000 }
    {
        let first = self.services_of(inst, plan, one);
        if one.0 == other.0 {
            return first;
        }
        first + self.services_of(inst, plan, other)
    }

    /// How many positions an aircraft may serve, or more.
    fn services_of(&self, _inst: &Instance, _plan: &Pages, plane: Plane) -> u64
        requires payers { ArePayers _inst.now _plan.now self.now }
        requires plane { plane.0 < planes_of _inst.now }
        ensures count { services _inst.now _plan.now plane.0 ≤ result }
        ensures few { result ≤ 10000 }
    {
        u64::from(self.services[plane.0 as usize])
    }

    /// Whether some steps move passengers alone, and leave those alone who pay.
    fn spare_all(&self, steps: &[Step]) -> bool
        ensures { result ≡ list_all (spares self.now.booked.items) steps.now }
    {
        steps.iter().all(|step| self.spares(step))
    }

    /// Whether a step does.
    fn spares(&self, step: &Step) -> bool
        ensures { result ≡ spares self.now.booked.items step.now }
    {
        match step {
            Step::Tidy => true,
            Step::Refill { leg } => !self.is_booked(*leg),
            Step::Set { .. } | Step::Push { .. } | Step::Swap { .. } | Step::Rebook { .. } => false,
        }
    }

    /// Whether somebody who pays is booked on a leg.
    fn is_booked(&self, leg: Leg) -> bool
        ensures { result ≡ is_marked self.now.booked.items leg.0 }
    {
        match self.booked.as_slice().get(leg.0 as usize) {
            Some(marked) => *marked,
            None => false,
        }
    }
}

/// How many steps there are before the first that leaves rows as they are.
fn first_steps(steps: &[Step]) -> usize
    ensures { result ≤ length steps.now }
{
    steps
        .iter()
        .position(|step| keeps_rows(step))
        .unwrap_or(steps.len())
}

/// The aircraft of the first of some steps, which may be one.
fn aircraft_of(inst: &Instance, steps: &[Step]) -> Option<(Plane, Plane)>
    requires { All (StepFits inst.now) steps.now }
    ensures { ForSome result (λ pair. (pair.0.0 < planes_of inst.now) × (pair.1.0 < planes_of inst.now)) }
{
    match steps {
        [first, ..] => aircraft_in(inst, first),
        [] => None,
    }
}

/// The aircraft of a step: those of a Swap, or that from which a Set takes a leg and that to which it gives it.
fn aircraft_in(_inst: &Instance, step: &Step) -> Option<(Plane, Plane)>
    requires { StepFits _inst.now step.now }
    ensures { ForSome result (λ pair. (pair.0.0 < planes_of _inst.now) × (pair.1.0 < planes_of _inst.now)) }
{
    match step {
        Step::Swap { first, second, .. } => Some((*first, *second)),
        Step::Set { was, new, .. } => aircraft_between(_inst, *was, *new),
        _ => None,
    }
}

/// The aircraft of two rows, the second of which is flown.
fn aircraft_between(_inst: &Instance, was: Row, new: Row) -> Option<(Plane, Plane)>
    requires was { IsRowOf (planes_of _inst.now) was }
    requires new { IsRowOf (planes_of _inst.now) new }
    ensures { ForSome result (λ pair. (pair.0.0 < planes_of _inst.now) × (pair.1.0 < planes_of _inst.now)) }
{
    match new {
        Row::Flown { plane, .. } => match was {
            Row::Flown { plane: own, .. } => Some((own, plane)),
            Row::Cancelled => Some((plane, plane)),
        },
        Row::Cancelled => None,
    }
}

/// Whether some steps fly legs of two aircraft on, or cancelled ones again.
fn fly_on(inst: &Instance, plan: &Pages, one: Plane, other: Plane, steps: &[Step]) -> bool
    requires plan { IsPlanFor inst.now plan.now }
    requires fits { All (StepFits inst.now) steps.now }
    ensures { result ≡ true → list_all (flies_on plan.now one.0 other.0) steps.now ≡ true }
{
    for step in steps {
        if !flies_on(inst, plan, one, other, step) {
            return false;
        }
    }
    true
}

/// Whether a step does.
fn flies_on(_inst: &Instance, plan: &Pages, one: Plane, other: Plane, step: &Step) -> bool
    requires plan { IsPlanFor _inst.now plan.now }
    requires fits { StepFits _inst.now step.now }
    ensures { result ≡ flies_on plan.now one.0 other.0 step.now }
{
    match step {
        Step::Set { leg, new, .. } => {
            is_own_leg(plan.read_row(*leg), one, other) && is_of(*new, one, other)
        }
        Step::Push { plane, .. } => is_either(*plane, one, other),
        Step::Swap { first, second, .. } => {
            is_either(*first, one, other) && is_either(*second, one, other)
        }
        Step::Rebook { .. } | Step::Tidy | Step::Refill { .. } => false,
    }
}

/// Whether an aircraft is one of two.
fn is_either(plane: Plane, one: Plane, other: Plane) -> bool
    ensures { result ≡ is_either one.0 other.0 plane.0 }
{
    plane.0 == one.0 || plane.0 == other.0
}

/// Whether one of two aircraft flies a row.
fn is_of(row: Row, one: Plane, other: Plane) -> bool
    ensures { result ≡ is_of (is_either one.0 other.0) row }
{
    match row {
        Row::Flown { plane, .. } => is_either(plane, one, other),
        Row::Cancelled => false,
    }
}

/// Whether one of two aircraft flies a row, or it is cancelled.
fn is_own_leg(row: Row, one: Plane, other: Plane) -> bool
    ensures { result ≡ is_of (is_either one.0 other.0) row || not (is_flown row) }
{
    is_of(row, one, other) || !is_flown(row)
}

/// What the first of some steps costs more to fly, where it flies a cancelled leg again.
fn again(inst: &Instance, plan: &Pages, steps: &[Step]) -> Grains
    requires plan { IsPlanFor inst.now plan.now }
    requires fits { All (StepFits inst.now) steps.now }
    ensures { result.0 ≡ flown_again inst.now plan.now steps.now }
{
    match steps {
        [Step::Set { leg, was, new }, ..] => {
            if is_flown(plan.read_row(*leg)) || is_flown(*was) {
                Grains(0)
            } else {
                flight_cost(inst, *leg, *new)
            }
        }
        _ => Grains(0),
    }
}
