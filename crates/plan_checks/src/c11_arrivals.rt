//! C11: the arrivals at an airport in an hour are at most its cap.

ghost use Rattle.std.specs.Prelude.{◌≡◌, IfOk, find};
ghost use Rattle.desk_data.specs.declared.broken.Broken.TheVariants as broken;
ghost use Rattle.desk_data.specs.Valid.{IsPlanFor};
ghost use Rattle.desk_rules.specs.Least.{breaks, each_hour};

use crate::overfull::first_overfull;
use desk_data::{Broken, Instance, NoMem, Plan};
use hour_counts::Movement;
use std::alloc::Global;

/// The first airport and hour that break C11. The only error is out of memory.
pub fn first_c11(alloc: Global, inst: &Instance, plan: &Plan) -> Result<Option<Broken>, NoMem>
    requires { IsPlanFor inst.now plan.now }
    ensures { IfOk result (λ first. first ≡ find (breaks inst.now plan.now) (each_hour inst.now broken.C11)) }
{
    first_overfull(alloc, inst, plan, Movement::Arrival)
}
