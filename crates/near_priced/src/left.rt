//! What is left of a limit once amounts are taken off.

ghost use Rattle.std.specs.Prelude.{◌≡◌, ◌+◌, sum_by};
ghost use Rattle.std.specs.Option.{ForSome};
ghost use Rattle.near_priced.specs.Tables.{amount, refill_amount};

use desk_data::Leg;
use plan_moves::Step;

/// What is left of a limit once the amounts of some legs are taken off; `None` where they come to more.
pub(crate) fn left_by_legs(amounts: &[u128], legs: &[Leg], limit: u128) -> Option<u128>
    ensures { ForSome result (λ left. sum_by (λ leg. amount amounts.now leg.0) legs.now + left ≡ limit) }
{
    let mut left = limit;
    for leg in legs {
        left = left_after(amounts, *leg, left)?;
    }
    Some(left)
}

/// The same of the legs that some steps refill.
pub(crate) fn left_by_steps(amounts: &[u128], steps: &[Step], limit: u128) -> Option<u128>
    ensures { ForSome result (λ left. sum_by (refill_amount amounts.now) steps.now + left ≡ limit) }
{
    let mut left = limit;
    for step in steps {
        left = left_by_step(amounts, step, left)?;
    }
    Some(left)
}

/// The same of a step.
fn left_by_step(amounts: &[u128], step: &Step, left: u128) -> Option<u128>
    ensures { ForSome result (λ rest. refill_amount amounts.now step.now + rest ≡ left) }
{
    match step {
        Step::Refill { leg } => left_after(amounts, *leg, left),
        Step::Set { .. }
        | Step::Push { .. }
        | Step::Swap { .. }
        | Step::Rebook { .. }
        | Step::Tidy => Some(left),
    }
}

/// The same of one leg.
fn left_after(amounts: &[u128], leg: Leg, left: u128) -> Option<u128>
    ensures { ForSome result (λ rest. amount amounts.now leg.0 + rest ≡ left) }
{
    match amounts.get(leg.0 as usize) {
        Some(paid) => take_off(*paid, left),
        None => None,
    }
}

/// The same of an amount.
pub(crate) fn take_off(paid: u128, left: u128) -> Option<u128>
    ensures { ForSome result (λ rest. paid + rest ≡ left) }
{
    if paid <= left {
        Some(left - paid)
    } else {
        None
    }
}
