//! The check of a plan against the rules C1 to C15, near linear in the legs and the groups of
//! passengers, and at most quadratic in the groups of one reservation.
//!
//!     match full_check(alloc, &inst, &plan)? {
//!         None => ..,                 // the plan breaks no rule
//!         Some(item) => ..,           // the first item that it breaks, as C5 of a leg
//!     }
//!
//! It asks plan_checks: `least_rot` for C1 to C9, `least_slots` for C10 and C11 and `least_pax` for C12 to C15, in this
//! order, and depends on it. Proved: the answer is `least` of desk_rules, the first broken item of
//! all in the order of rules and of what they name.
#![tactic(auto)]

ghost use Rattle.std.specs.Prelude.{◌≡◌, IfOk};
ghost use Rattle.desk_data.specs.Valid.{IsPlanFor};
ghost use Rattle.desk_rules.specs.Least.{least};

use desk_data::{Broken, Instance, NoMem, Plan};
use plan_checks::{least_pax, least_rot, least_slots};
use std::alloc::Global;

/// The first item of C1 to C15 that the plan breaks, by rule and then by what the items name, or
/// `None` where it breaks none. The time is near linear in the legs, which are sorted once for the rotations,
/// and once for departures and once for arrivals. It is linear in the groups of passengers, and at most
/// quadratic in those of one reservation, each of which is looked at beside the others. The only error is out
/// of memory.
pub fn full_check(alloc: Global, inst: &Instance, plan: &Plan) -> Result<Option<Broken>, NoMem>
    requires { IsPlanFor inst.now plan.now }
    ensures { IfOk result (λ item. item ≡ least inst.now plan.now) }
{
    match least_rot(alloc, inst, plan)? {
        Some(item) => Ok(Some(item)),
        None => match least_slots(alloc, inst, plan)? {
            Some(slot) => Ok(Some(slot)),
            None => least_pax(alloc, inst, plan),
        },
    }
}
