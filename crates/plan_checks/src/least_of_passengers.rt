//! The first broken item of passengers.

ghost use Rattle.std.specs.Prelude.{◌≡◌, IfOk};
ghost use Rattle.desk_data.specs.Valid.{IsPlanFor};
ghost use Rattle.desk_rules.specs.Least.{least_pax};

use crate::c12_seats::first_c12;
use crate::carried::first_c13_to_c15;
use desk_data::{Broken, Instance, NoMem, Plan};
use std::alloc::Global;

/// The first item of C12 to C15 that the plan breaks, by rule and then by what the items name, or
/// `None` where it breaks none. The time is linear in the legs and the groups of passengers. The only
/// error is out of memory.
pub fn least_pax(alloc: Global, inst: &Instance, plan: &Plan) -> Result<Option<Broken>, NoMem>
    requires { IsPlanFor inst.now plan.now }
    ensures { IfOk result (λ item. item ≡ least_pax inst.now plan.now) }
{
    match first_c12(alloc, inst, plan)? {
        Some(item) => Ok(Some(item)),
        None => Ok(first_c13_to_c15(inst, plan)),
    }
}
