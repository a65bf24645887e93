//! What those save at most by a move who are on a leg that gets another row.

ghost use Rattle.std.specs.Prelude.{◌≡◌, ◌+◌, ◌-◌, ◌<◌, ◌≤◌, All, sum_by};
ghost use Rattle.std.specs.Option.{ForSome};
ghost use Rattle.desk_data.specs.Situation.{Situation, legs_of, reservations_of};
ghost use Rattle.desk_data.specs.Valid.{IsPlanFor};
ghost use Rattle.plan_checks.specs.Counted.{IsGroupOf, group_on};
ghost use Rattle.near_draft.specs.Drafts.{plan_of};
ghost use Rattle.near_priced.specs.Saved.{least_after, least_of, saved_by, saved_on, uncarried_cost};
ghost use Rattle.near_priced.specs.Tables.{ArePayments};

use crate::cost_of;
use crate::left::take_off;
use crate::payments::Payments;
use desk_data::{Cabin, Instance, Leg, Res};
use near_draft::Draft;
use plan_checks::{path_cost, path_end};
use plan_pages::Pages;
use plan_reads::ReadPlan;

/// What is left of a limit once that is taken off which those save at most who are on some legs, leg by leg; `None` where
/// they may save more.
pub(crate) fn left_by_savings(
    payments: &Payments,
    inst: &Instance,
    plan: &Pages,
    draft: &Draft,
    legs: &[Leg],
    limit: u128,
) -> Option<u128>
    requires plan { IsPlanFor inst.now plan.now }
    requires payments { ArePayments inst.now plan.now payments.now }
    requires day { draft.now.inst ≡ inst.now }
    requires legs { All (λ leg. leg.0 < legs_of inst.now) legs.now }
    ensures { ForSome result (λ left. sum_by (λ leg. saved_on inst.now plan.now (plan_of draft.now) leg.0) legs.now + left ≤ limit) }
{
    let mut left = limit;
    for leg in legs {
        left = left_by_leg(payments, inst, plan, draft, *leg, left)?;
    }
    Some(left)
}

/// The same of one leg.
fn left_by_leg(
    payments: &Payments,
    inst: &Instance,
    plan: &Pages,
    draft: &Draft,
    leg: Leg,
    limit: u128,
) -> Option<u128>
    requires plan { IsPlanFor inst.now plan.now }
    requires payments { ArePayments inst.now plan.now payments.now }
    requires day { draft.now.inst ≡ inst.now }
    requires leg { leg.0 < legs_of inst.now }
    ensures { ForSome result (λ left. saved_on inst.now plan.now (plan_of draft.now) leg.0 + left ≤ limit) }
{
    let mut left = limit;
    for res in payments.users.users(leg) {
        left = take_off(saved_by(payments, inst, plan, draft, *res), left)?;
    }
    Some(left)
}

/// What a reservation saves at most.
fn saved_by(payments: &Payments, inst: &Instance, plan: &Pages, draft: &Draft, res: Res) -> u128
    requires payments { ArePayments inst.now plan.now payments.now }
    requires day { draft.now.inst ≡ inst.now }
    requires res { res.0 < reservations_of inst.now }
    ensures { result ≡ saved_by inst.now plan.now (plan_of draft.now) res.0 }
{
    let cost = cost_of(inst, plan, payments.costs.as_slice(), res);
    if cost.0 == 0 {
        return 0;
    }
    beyond_least(inst, draft, res, cost.0)
}

/// What a cost goes beyond the least that a reservation costs by the rows of a draft.
fn beyond_least(inst: &Instance, draft: &Draft, res: Res, cost: u128) -> u128
    requires day { draft.now.inst ≡ inst.now }
    requires res { res.0 < reservations_of inst.now }
    ensures { result ≡ cost - least_after inst.now (plan_of draft.now) res.0 }
{
    let _rows = inst.parts();
    // the draft's plan is one for the day
    let _ = draft.base();
    let mut left = cost;
    for group in draft.groups(res) {
        let path = group.path.as_slice();
        left = left.saturating_sub(least_of(inst, draft, res, path, group.count));
    }
    left
}

/// What some passengers of a reservation on a path cost at least by the rows of a draft, once a Tidy is taken.
#[tactic(auto, unfolding(crate::specs::Saved::least_of))]
fn least_of(inst: &Instance, draft: &Draft, res: Res, path: &[(Leg, Cabin)], count: u32) -> u128
    requires plan { IsPlanFor inst.now (plan_of draft.now) }
    requires res { res.0 < reservations_of inst.now }
    requires group { IsGroupOf inst.now (group_on path.now count) }
    ensures { result ≡ least_of inst.now (plan_of draft.now) res.0 (group_on path.now count) }
{
    let end = path_end(inst, draft, path);
    if end.is_none() {
        return uncarried(inst, res, count);
    }
    let there = path_cost(inst, res, path, count, end);
    if there.0 == 0 {
        return 0;
    }
    there.0.min(uncarried(inst, res, count))
}

/// What so many passengers of a reservation cost who are not carried.
#[tactic(auto, unfolding(plan_checks::specs::Amounts::path_cost))]
fn uncarried(inst: &Instance, res: Res, count: u32) -> u128
    requires res { res.0 < reservations_of inst.now }
    requires count { count ≤ 1000 }
    ensures { result ≡ uncarried_cost inst.now res.0 count }
{
    path_cost(inst, res, &[], count, None).0
}
