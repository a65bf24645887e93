//! The rules C4 to C9 with added legs, and the first leg or aircraft that breaks one of them.

ghost use Rattle.std.specs.Prelude.{◌≡◌, ◌+◌, ◌<◌, find};
ghost use Rattle.std.specs.Option.{option_map};
ghost use Rattle.desk_data.specs.Situation.{legs_of, planes_of};
ghost use Rattle.desk_data.specs.Valid.{IsPlanFor};
ghost use Rattle.desk_rules.specs.Least.{breaks};
ghost use Rattle.added_legs.specs.Added.{named};
ghost use Rattle.added_legs.specs.Merged.{merged_day, merged_plan};
ghost use Rattle.added_legs.specs.Items.{AreKnown, count, is_of_planes, item_of, items_of, keeps, leg_keeps, plane_keeps};

use crate::extra_leg::{c4_added, c5_added, c6_added, c7_added};
use crate::flight::Flight;
use crate::plan_leg::{c5_with, c6_with};
use crate::upkeep::{c8_maintenance, c9_minutes};
use crate::{AddBroken, Added};
use desk_data::{Broken, Instance, Leg, Plan, Plane};
use plan_checks::Upkeep;
use plan_reads::{c4_range, c7_service};

/// A rule of C4 to C9: C4 to C7 ask something of each leg, C8 and C9 of each aircraft.
#[derive(Clone, Copy)]
pub(crate) enum Rule {
    C4Range,
    C5Location,
    C6GroundTime,
    C7Service,
    C8Maintenance,
    C9Minutes,
}

/// What is worked out once for all rules.
#[derive(Clone, Copy)]
pub(crate) struct Known<'a> {
    /// The added legs.
    pub(crate) added: &'a [Added],
    /// The added leg of each aircraft.
    pub(crate) flights: &'a [Option<Flight>],
    /// Of each leg of the plan the one before it on its aircraft.
    pub(crate) before: &'a [Option<Leg>],
    /// Of each aircraft the last leg of the plan that departs no later than its added leg.
    pub(crate) earlier: &'a [Option<Leg>],
    /// Of each aircraft the last leg of the plan before its maintenance.
    pub(crate) lasts: &'a [Option<Leg>],
    /// What the legs of the plan say of each aircraft's maintenance.
    pub(crate) upkeeps: &'a [Upkeep],
}

/// The first leg, or the first aircraft, that breaks a rule, as the rule's item. An added leg comes after the legs of the plan,
/// in the order of the aircraft.
pub(crate) fn first_broken(
    rule: Rule,
    inst: &Instance,
    plan: &Plan,
    known: Known<'_>,
) -> Option<AddBroken>
    requires plan { IsPlanFor inst.now plan.now }
    requires known { AreKnown inst.now plan.now known }
    ensures { result ≡ option_map (named (legs_of inst.now)) (find (breaks (merged_day inst.now plan.now known.entry.added.now) (merged_plan inst.now plan.now known.entry.added.now)) (items_of inst.now rule)) }
{
    for n in 0..count(rule, inst) {
        if !keeps(rule, inst, plan, known, n) {
            return Some(item(rule, inst, n));
        }
    }
    None
}

/// Whether leg number `n`, or aircraft number `n`, keeps a rule. The numbers of added legs go on after those of the plan.
fn keeps(rule: Rule, inst: &Instance, plan: &Plan, known: Known<'_>, n: u32) -> bool
    requires plan { IsPlanFor inst.now plan.now }
    requires known { AreKnown inst.now plan.now known }
    requires number { n < count inst.now rule }
    ensures { result ≡ keeps (merged_day inst.now plan.now known.entry.added.now) (merged_plan inst.now plan.now known.entry.added.now) rule n }
{
    if is_of_planes(rule) {
        return plane_keeps(rule, inst, plan, known, Plane(n));
    }
    let legs = inst.legs();
    let scheduled = n < legs;
    if scheduled {
        leg_keeps(rule, inst, plan, known, Leg(n))
    } else {
        extra_keeps(rule, inst, plan, known, Plane(n - legs))
    }
}

/// Whether a rule asks something of each aircraft, and not of each leg.
fn is_of_planes(rule: Rule) -> bool
    ensures { result ≡ is_of_planes rule }
{
    match rule {
        Rule::C8Maintenance | Rule::C9Minutes => true,
        Rule::C4Range | Rule::C5Location | Rule::C6GroundTime | Rule::C7Service => false,
    }
}

/// Whether a leg of the plan keeps one of the rules C4 to C7 with the row that the plan has for it; of C8 and C9 it is not
/// asked.
fn leg_keeps(rule: Rule, inst: &Instance, plan: &Plan, known: Known<'_>, leg: Leg) -> bool
    requires plan { IsPlanFor inst.now plan.now }
    requires known { AreKnown inst.now plan.now known }
    requires leg { leg.0 < legs_of inst.now }
    ensures { result ≡ leg_keeps (merged_day inst.now plan.now known.entry.added.now) (merged_plan inst.now plan.now known.entry.added.now) rule leg.0 }
{
    let _rows = inst.parts();
    let row = plan.read_row(leg);
    let before = known.before[leg.0 as usize];
    match rule {
        Rule::C4Range => c4_range(inst, leg, row),
        Rule::C5Location => c5_with(inst, plan, leg, row, before, known.flights),
        Rule::C6GroundTime => c6_with(inst, plan, leg, row, before, known.flights),
        Rule::C7Service => c7_service(inst, leg, row),
        Rule::C8Maintenance | Rule::C9Minutes => true,
    }
}

/// Whether the added leg of an aircraft keeps one of the rules C4 to C7; an aircraft that has none does.
fn extra_keeps(rule: Rule, inst: &Instance, plan: &Plan, known: Known<'_>, plane: Plane) -> bool
    requires plan { IsPlanFor inst.now plan.now }
    requires known { AreKnown inst.now plan.now known }
    requires plane { plane.0 < planes_of inst.now }
    ensures { result ≡ leg_keeps (merged_day inst.now plan.now known.entry.added.now) (merged_plan inst.now plan.now known.entry.added.now) rule (legs_of inst.now + plane.0) }
{
    let _rows = inst.parts();
    let Some(flight) = known.flights[plane.0 as usize] else {
        return true;
    };
    let earlier = known.earlier[plane.0 as usize];
    match rule {
        Rule::C4Range => c4_added(inst, plane, flight),
        Rule::C5Location => c5_added(inst, plane, earlier, flight),
        Rule::C6GroundTime => c6_added(inst, plan, plane, earlier, flight),
        Rule::C7Service => c7_added(inst, plane, flight),
        Rule::C8Maintenance | Rule::C9Minutes => true,
    }
}

/// Whether an aircraft keeps C8 or C9; of the other rules it is not asked.
fn plane_keeps(rule: Rule, inst: &Instance, plan: &Plan, known: Known<'_>, plane: Plane) -> bool
    requires plan { IsPlanFor inst.now plan.now }
    requires known { AreKnown inst.now plan.now known }
    requires plane { plane.0 < planes_of inst.now }
    ensures { result ≡ plane_keeps (merged_day inst.now plan.now known.entry.added.now) (merged_plan inst.now plan.now known.entry.added.now) rule plane.0 }
{
    let _rows = inst.parts();
    let p = plane.0 as usize;
    let flight = known.flights[p];
    let upkeep = known.upkeeps[p];
    match rule {
        Rule::C8Maintenance => c8_maintenance(inst, plan, plane, upkeep, known.lasts[p], flight),
        Rule::C9Minutes => c9_minutes(inst, plane, upkeep, flight),
        _ => true,
    }
}

/// Of how many legs, the added ones too, or of how many aircraft a rule asks something.
fn count(rule: Rule, inst: &Instance) -> u32
    ensures { result ≡ count inst.now rule }
{
    if is_of_planes(rule) {
        inst.planes()
    } else {
        inst.legs() + inst.planes()
    }
}

/// The item of a rule that names leg number `n`, or aircraft number `n`: an added leg is named by its aircraft.
fn item(rule: Rule, inst: &Instance, n: u32) -> AddBroken
    ensures { result ≡ named (legs_of inst.now) (item_of rule n) }
{
    let legs = inst.legs();
    match rule {
        Rule::C4Range if n >= legs => AddBroken::C4(Plane(n - legs)),
        Rule::C5Location if n >= legs => AddBroken::C5(Plane(n - legs)),
        Rule::C6GroundTime if n >= legs => AddBroken::C6(Plane(n - legs)),
        Rule::C7Service if n >= legs => AddBroken::C7(Plane(n - legs)),
        _ => AddBroken::Old(old_item(rule, n)),
    }
}

/// The item of a rule that names leg number `n` of the plan, or aircraft number `n`.
fn old_item(rule: Rule, n: u32) -> Broken
    ensures { result ≡ item_of rule n }
{
    match rule {
        Rule::C4Range => Broken::C4(Leg(n)),
        Rule::C5Location => Broken::C5(Leg(n)),
        Rule::C6GroundTime => Broken::C6(Leg(n)),
        Rule::C7Service => Broken::C7(Leg(n)),
        Rule::C8Maintenance => Broken::C8(Plane(n)),
        Rule::C9Minutes => Broken::C9(Plane(n)),
    }
}
