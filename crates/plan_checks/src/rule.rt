//! The rules of rotations by their numbers, and the first leg or aircraft that breaks one of them.

ghost use Rattle.std.specs.Prelude.{◌≡◌, ◌<◌, find};
ghost use Rattle.std.specs.Option.{ForSome};
ghost use Rattle.desk_data.specs.Situation.{legs_of};
ghost use Rattle.desk_data.specs.Valid.{IsPlanFor};
ghost use Rattle.desk_rules.specs.Least.{breaks};
ghost use Rattle.plan_reads.specs.Before.{AreBefore};
ghost use Rattle.plan_reads.specs.AfterLeg.{IsRotationLegBefore, IsRotationLegOf};
ghost use Rattle.plan_checks.specs.Items.{count, item, items_of, keeps, leg_keeps};
ghost use Rattle.plan_checks.specs.Upkeep.{AreUpkeeps};

use crate::c8_maintenance::c8_maintenance;
use crate::c9_minutes::c9_minutes;
use crate::upkeep::Upkeep;
use desk_data::{Broken, Instance, Leg, Plan, Plane};
use plan_reads::{
    RotationLeg, c1_due, c2_in_time, c3_family, c4_range, c5_location, c6_ground_time, c7_service,
    with_departure,
};

/// A rule of rotations: C1 to C7 ask something of each leg, C8 and C9 of each aircraft.
#[derive(Clone, Copy)]
pub(crate) enum Rule {
    C1Due,
    C2InTime,
    C3Family,
    C4Range,
    C5Location,
    C6GroundTime,
    C7Service,
    C8Maintenance,
    C9Minutes,
}

/// The first leg, or the first aircraft, that breaks a rule, as the rule's item. Given are the leg
/// before each leg on its aircraft, and what the legs say of each aircraft's maintenance.
pub(crate) fn first_broken(
    rule: Rule,
    inst: &Instance,
    plan: &Plan,
    before: &[Option<Leg>],
    upkeeps: &[Upkeep],
) -> Option<Broken>
    requires plan { IsPlanFor inst.now plan.now }
    requires before { AreBefore plan.now.rows before.now }
    requires upkeeps { AreUpkeeps inst.now plan.now (legs_of inst.now) upkeeps.now }
    ensures { result ≡ find (breaks inst.now plan.now) (items_of inst.now rule) }
{
    for n in 0..count(rule, inst) {
        if !keeps(rule, inst, plan, before, upkeeps, n) {
            return Some(item(rule, n));
        }
    }
    None
}

/// Whether leg number `n`, or aircraft number `n`, keeps a rule.
fn keeps(
    rule: Rule,
    inst: &Instance,
    plan: &Plan,
    before: &[Option<Leg>],
    upkeeps: &[Upkeep],
    n: u32,
) -> bool
    requires plan { IsPlanFor inst.now plan.now }
    requires before { AreBefore plan.now.rows before.now }
    requires upkeeps { AreUpkeeps inst.now plan.now (legs_of inst.now) upkeeps.now }
    requires number { n < count inst.now rule }
    ensures { result ≡ keeps inst.now plan.now rule n }
{
    match rule {
        Rule::C8Maintenance => c8_maintenance(inst, Plane(n), upkeeps[n as usize]),
        Rule::C9Minutes => c9_minutes(inst, Plane(n), upkeeps[n as usize]),
        _ => leg_keeps(rule, inst, plan, before, Leg(n)),
    }
}

/// Whether a leg keeps one of the rules C1 to C7 with the row that the plan has for it; of C8 and C9 it
/// is not asked.
#[tactic(auto, unfolding(desk_rules::specs::Rules::keeps_c1, desk_rules::specs::Rules::keeps_c2, desk_rules::specs::Rules::keeps_c3, desk_rules::specs::Rules::keeps_c4, desk_rules::specs::Rules::keeps_c7))]
fn leg_keeps(rule: Rule, inst: &Instance, plan: &Plan, before: &[Option<Leg>], leg: Leg) -> bool
    requires plan { IsPlanFor inst.now plan.now }
    requires before { AreBefore plan.now.rows before.now }
    requires leg { leg.0 < legs_of inst.now }
    ensures { result ≡ leg_keeps inst.now plan.now rule leg.0 }
{
    let row = plan.read_row(leg);
    match rule {
        Rule::C1Due => c1_due(inst, leg, row),
        Rule::C2InTime => c2_in_time(inst, leg, row),
        Rule::C3Family => c3_family(inst, leg, row),
        Rule::C4Range => c4_range(inst, leg, row),
        Rule::C5Location => c5_location(inst, leg, row, leg_before(inst, plan, before, leg)),
        Rule::C6GroundTime => c6_ground_time(inst, leg, row, leg_before(inst, plan, before, leg)),
        Rule::C7Service => c7_service(inst, leg, row),
        Rule::C8Maintenance | Rule::C9Minutes => true,
    }
}

/// The leg before a leg on its aircraft, with its departure.
fn leg_before(inst: &Instance, plan: &Plan, before: &[Option<Leg>], leg: Leg) -> Option<RotationLeg>
    requires plan { IsPlanFor inst.now plan.now }
    requires before { AreBefore plan.now.rows before.now }
    requires leg { leg.0 < legs_of inst.now }
    ensures is_before { IsRotationLegBefore inst.now plan.now leg.0 result }
    ensures limit { ForSome result (IsRotationLegOf (legs_of inst.now)) }
{
    with_departure(plan, before[leg.0 as usize])
}

/// Of how many legs, or of how many aircraft, a rule asks something.
fn count(rule: Rule, inst: &Instance) -> u32
    ensures { result ≡ count inst.now rule }
{
    match rule {
        Rule::C1Due
        | Rule::C2InTime
        | Rule::C3Family
        | Rule::C4Range
        | Rule::C5Location
        | Rule::C6GroundTime
        | Rule::C7Service => inst.legs(),
        Rule::C8Maintenance | Rule::C9Minutes => inst.planes(),
    }
}

/// The item of a rule that names leg number `n`, or aircraft number `n`.
fn item(rule: Rule, n: u32) -> Broken
    ensures { result ≡ item rule n }
{
    match rule {
        Rule::C1Due => Broken::C1(Leg(n)),
        Rule::C2InTime => Broken::C2(Leg(n)),
        Rule::C3Family => Broken::C3(Leg(n)),
        Rule::C4Range => Broken::C4(Leg(n)),
        Rule::C5Location => Broken::C5(Leg(n)),
        Rule::C6GroundTime => Broken::C6(Leg(n)),
        Rule::C7Service => Broken::C7(Leg(n)),
        Rule::C8Maintenance => Broken::C8(Plane(n)),
        Rule::C9Minutes => Broken::C9(Plane(n)),
    }
}
