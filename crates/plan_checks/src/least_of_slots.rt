//! The first hour of an airport that a plan overfills.

ghost use Rattle.std.specs.Prelude.{◌≡◌, IfOk};
ghost use Rattle.desk_data.specs.Valid.{IsPlanFor};
ghost use Rattle.desk_rules.specs.Least.{least_slots};

use crate::c10_departures::first_c10;
use crate::c11_arrivals::first_c11;
use desk_data::{Broken, Instance, NoMem, Plan};
use std::alloc::Global;

/// The first item of C10 and C11 that the plan breaks, by rule, then by airport, then by hour, or
/// `None` where it breaks none. The time is near linear in the legs: for each rule the slots of the
/// legs in the air are sorted once and walked once. The only error is out of memory.
pub fn least_slots(alloc: Global, inst: &Instance, plan: &Plan) -> Result<Option<Broken>, NoMem>
    requires { IsPlanFor inst.now plan.now }
    ensures { IfOk result (λ item. item ≡ least_slots inst.now plan.now) }
{
    match first_c10(alloc, inst, plan)? {
        Some(item) => Ok(Some(item)),
        None => first_c11(alloc, inst, plan),
    }
}
