//! The first broken item of rotations.

ghost use Rattle.std.specs.Prelude.{◌≡◌, find, IfOk};
ghost use Rattle.std.specs.List.{flat_map};
ghost use Rattle.desk_data.specs.Situation.{legs_of};
ghost use Rattle.desk_data.specs.Valid.{IsPlanFor};
ghost use Rattle.desk_rules.specs.Least.{breaks, least_rot};
ghost use Rattle.plan_reads.specs.Before.{AreBefore};
ghost use Rattle.plan_checks.specs.Items.{items_of};
ghost use Rattle.plan_checks.specs.Upkeep.{AreUpkeeps};

use crate::rule::{Rule, first_broken};
use crate::upkeep::{Upkeep, upkeeps_of};
use desk_data::{Broken, Instance, Leg, NoMem, Plan};
use plan_reads::legs_before;
use std::alloc::Global;

/// The first item of C1 to C9 that the plan breaks, by rule and then by leg or aircraft, or `None`
/// where it breaks none. The time is near linear in the legs: the flown legs are sorted once, each
/// rule of legs looks at each leg once, C7 also at each span in which the leg's aircraft is out of
/// service, and two walks over the legs serve the rules of maintenance. The only error is out of
/// memory.
pub fn least_rot(alloc: Global, inst: &Instance, plan: &Plan) -> Result<Option<Broken>, NoMem>
    requires { IsPlanFor inst.now plan.now }
    ensures { IfOk result (λ item. item ≡ least_rot inst.now plan.now) }
{
    let before = legs_before(alloc, plan, inst.legs())?;
    let upkeeps = upkeeps_of(alloc, inst, plan)?;
    let rules = [
        Rule::C1Due,
        Rule::C2InTime,
        Rule::C3Family,
        Rule::C4Range,
        Rule::C5Location,
        Rule::C6GroundTime,
        Rule::C7Service,
        Rule::C8Maintenance,
        Rule::C9Minutes,
    ];
    Ok(first_of_rules(&rules, inst, plan, before.as_slice(), upkeeps.as_slice()))
}

/// The first item of these rules that the plan breaks, given the leg before each leg on its
/// aircraft, and what the legs say of each aircraft's maintenance.
fn first_of_rules(
    rules: &[Rule],
    inst: &Instance,
    plan: &Plan,
    before: &[Option<Leg>],
    upkeeps: &[Upkeep],
) -> Option<Broken>
    requires plan { IsPlanFor inst.now plan.now }
    requires before { AreBefore plan.now.rows before.now }
    requires upkeeps { AreUpkeeps inst.now plan.now (legs_of inst.now) upkeeps.now }
    ensures { result ≡ find (breaks inst.now plan.now) (flat_map (items_of inst.now) rules.now) }
{
    for rule in rules {
        if let Some(item) = first_broken(*rule, inst, plan, before, upkeeps) {
            return Some(item);
        }
    }
    None
}
