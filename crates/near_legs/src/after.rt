//! The leg after each leg on its aircraft.

ghost use Rattle.std.specs.Prelude.{◌≡◌, ℕ, ◌<◌, ◌≤◌, None, IfOk, length, slice_index_or};
ghost use Rattle.std.specs.Option.{ForSome};
ghost use Rattle.desk_data.specs.Valid.{IsPlanFor};
ghost use Rattle.near_legs.specs.LegTables.{AreAfter, IsInverse};

use desk_data::{Instance, Leg, NoMem};
use plan_pages::Pages;
use plan_reads::legs_before;
use std::alloc::Global;

/// For each leg that is flown the next one on its aircraft, or `None` where it is the last. The legs are
/// sorted once. The only error is out of memory.
pub(crate) fn legs_after(
    alloc: Global,
    inst: &Instance,
    plan: &Pages,
) -> Result<Vec<Option<Leg>>, NoMem>
    requires { IsPlanFor inst.now plan.now }
    ensures { IfOk result (λ after. AreAfter inst.now plan.now after.items) }
{
    let before = legs_before(alloc, plan, inst.legs())?;
    inverse(alloc, before.as_slice())
}

/// For each leg the one that has it before it.
fn inverse(alloc: Global, before: &[Option<Leg>]) -> Result<Vec<Option<Leg>>, NoMem>
    requires few { length before.now ≤ 20000 }
    requires within { (y : ℕ) → ForSome (slice_index_or before.now y None) (λ leg. leg.0 < length before.now) }
    ensures { IfOk result (λ after. IsInverse (length before.now) before.now after.items) }
{
    let mut after = vec![in alloc; None; before.len()]?;
    for y in 0..before.len() {
        if let Some(leg) = before[y] {
            after[leg.0 as usize] = Some(Leg(y as u32));
        }
    }
    Ok(after)
}
