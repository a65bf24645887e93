//! What is left of an amount once others are taken off.

ghost use Rattle.std.specs.Prelude.{◌≡◌, ◌+◌, All, sum_by};
ghost use Rattle.std.specs.Option.{ForSome};
ghost use Rattle.plan_moves.specs.Fits.{StepFits};
ghost use Rattle.desk_data.specs.Valid.{IsPlanFor};
ghost use Rattle.near_priced.specs.Tables.{amount};
ghost use Rattle.near_dear.specs.Drops.{flying_of};

use desk_data::{Instance, Leg};
use plan_checks::flight_cost;
use plan_moves::Step;
use plan_pages::Pages;

/// What is left of an amount, in grains, once what it costs to fly the legs that some steps set, as they are flown, is taken
/// off it; `None` where that costs more.
pub(crate) fn left_by_flying(
    inst: &Instance,
    plan: &Pages,
    steps: &[Step],
    limit: u128,
) -> Option<u128>
    requires plan { IsPlanFor inst.now plan.now }
    requires fits { All (StepFits inst.now) steps.now }
    ensures { ForSome result (λ left. sum_by (flying_of inst.now plan.now) steps.now + left ≡ limit) }
{
    let mut left = limit;
    for step in steps {
        left = left_by_step(inst, plan, step, left)?;
    }
    Some(left)
}

/// The same of one step.
fn left_by_step(inst: &Instance, plan: &Pages, step: &Step, left: u128) -> Option<u128>
    requires plan { IsPlanFor inst.now plan.now }
    requires fits { StepFits inst.now step.now }
    ensures { ForSome result (λ rest. flying_of inst.now plan.now step.now + rest ≡ left) }
{
    match step {
        Step::Set { leg, .. } => take_off(flight_cost(inst, *leg, plan.read_row(*leg)).0, left),
        Step::Push { .. }
        | Step::Swap { .. }
        | Step::Rebook { .. }
        | Step::Tidy
        | Step::Refill { .. } => Some(left),
    }
}

/// What is left once the amounts of some legs are taken off; `None` where they come to more.
pub(crate) fn left_by_legs(amounts: &[u128], legs: &[Leg], limit: u128) -> Option<u128>
    ensures { ForSome result (λ left. sum_by (λ leg. amount amounts.now leg.0) legs.now + left ≡ limit) }
{
    let mut left = limit;
    for leg in legs {
        left = left_after(amounts, *leg, left)?;
    }
    Some(left)
}

/// The same of one leg.
fn left_after(amounts: &[u128], leg: Leg, left: u128) -> Option<u128>
    ensures { ForSome result (λ rest. amount amounts.now leg.0 + rest ≡ left) }
{
    match amounts.get(leg.0 as usize) {
        Some(paid) => take_off(*paid, left),
        None => Some(left),
    }
}

/// What is left of a limit once an amount is taken off; `None` where it is more.
pub(crate) fn take_off(taken: u128, left: u128) -> Option<u128>
    ensures { ForSome result (λ rest. taken + rest ≡ left) }
{
    if taken <= left {
        Some(left - taken)
    } else {
        None
    }
}
