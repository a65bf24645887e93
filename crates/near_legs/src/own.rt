//! The units of an owner.

ghost use Rattle.std.specs.Prelude.{◌≡◌, ◌<◌, ◌++◌, ◌∷◌, [], All, IfOk, OnOk, if◌then◌else◌, map, filter, nat_lt, ◌==◌, not};
ghost use Rattle.std.specs.List.{flat_map};
ghost use Rattle.desk_data.specs.Situation.{leg_at, legs_of, plane_at, planes_of};
ghost use Rattle.desk_data.specs.PlanRows.{row_at};
ghost use Rattle.desk_data.specs.Valid.{IsPlanFor};
ghost use Rattle.near_moves.specs.MoveParts.{family_of, flier, is_movable_flown, is_restorable, is_run};
ghost use Rattle.near_moves.specs.Units.{restored, swapped};
ghost use Rattle.near_moves.specs.LegMoves.{later_of_family, run_lengths};
ghost use Rattle.near_legs.specs.Choices.{AreInRange, IsFlownLeg, IsHandedOf, IsLegUnit, unit_of};
ghost use Rattle.near_legs.specs.LegTables.{AreFamilies, AreLists};
ghost use Rattle.near_legs.specs.Walk.{handed_of_run, owned, owners};

use crate::lists::{is_movable_flown, is_restorable};
use crate::neighbourhood::Neighbourhood;
use crate::runs::{is_run, run};
use crate::tables::LegTables;
use crate::unit::LegUnit;
use desk_data::{Instance, Leg, NoMem, Plane, Row};
use plan_pages::Pages;
use std::alloc::Global;

/// The units of an owner of a neighbourhood, in their order. The only error is out of memory.
pub(crate) fn owned(
    alloc: Global,
    inst: &Instance,
    plan: &Pages,
    tables: &LegTables,
    neighbourhood: Neighbourhood,
    owner: u32,
) -> Result<Vec<LegUnit>, NoMem>
    requires plan { IsPlanFor inst.now plan.now }
    requires lists { AreLists inst.now plan.now tables.now }
    requires owner { owner < owners inst.now neighbourhood }
    ensures units { IfOk result (λ units. map unit_of units.items ≡ owned inst.now plan.now neighbourhood owner) }
    ensures sound { IfOk result (λ units. All (IsLegUnit inst.now plan.now) units.items) }
{
    let leg = Leg(owner);
    match neighbourhood {
        Neighbourhood::Retimed => one_if_flown(alloc, inst, plan, leg, LegUnit::Retimed { leg }),
        Neighbourhood::Swapped => swaps(alloc, inst, tables, Plane(owner)),
        Neighbourhood::Dropped => one_if_flown(alloc, inst, plan, leg, LegUnit::Dropped { leg }),
        Neighbourhood::Restored => restored_by(alloc, inst, plan, tables, leg),
        Neighbourhood::Handed => handings(alloc, inst, plan, tables, leg),
    }
}

/// A unit, if its leg is movable and flown.
fn one_if_flown(
    alloc: Global,
    inst: &Instance,
    plan: &Pages,
    leg: Leg,
    unit: LegUnit,
) -> Result<Vec<LegUnit>, NoMem>
    requires plan { IsPlanFor inst.now plan.now }
    requires leg { leg.0 < legs_of inst.now }
    ensures { IfOk result (λ units. units.items ≡ (if is_movable_flown inst.now plan.now leg.0 then unit ∷ [] else [])) }
{
    let mut units = Vec::new(alloc);
    if is_movable_flown(inst, plan, leg) {
        units.push(unit)?;
    }
    Ok(units)
}

/// An aircraft exchanges legs with each later one of its family, unless it is surface transport.
fn swaps(
    alloc: Global,
    inst: &Instance,
    tables: &LegTables,
    plane: Plane,
) -> Result<Vec<LegUnit>, NoMem>
    requires families { AreFamilies inst.now tables.now.families }
    requires plane { plane.0 < planes_of inst.now }
    ensures units { IfOk result (λ units. map unit_of units.items ≡ (if not (plane_at inst.now plane.0).surface then map (swapped plane.0) (later_of_family inst.now plane.0) else [])) }
    ensures sound { IfOk result (λ units. All (AreInRange inst.now) units.items) }
{
    if inst.plane(plane).surface {
        return Ok(Vec::new(alloc));
    }
    later_pairs(alloc, plane, tables.family(plane))
}

/// An aircraft with each later one of some.
fn later_pairs(alloc: Global, plane: Plane, others: &[Plane]) -> Result<Vec<LegUnit>, NoMem>
    ensures { IfOk result (λ units. units.items ≡ map (λ q. LegUnit.Swapped plane q) (filter (λ q. nat_lt plane.0 q.0) others.now)) }
{
    let mut units = Vec::with_capacity(alloc, others.len())?;
    for other in others {
        if plane.0 < other.0 {
            units.push(LegUnit::Swapped {
                first: plane,
                second: *other,
            })?;
        }
    }
    Ok(units)
}

/// A leg that may be restored is flown by each aircraft of its scheduled aircraft's family.
fn restored_by(
    alloc: Global,
    inst: &Instance,
    plan: &Pages,
    tables: &LegTables,
    leg: Leg,
) -> Result<Vec<LegUnit>, NoMem>
    requires plan { IsPlanFor inst.now plan.now }
    requires families { AreFamilies inst.now tables.now.families }
    requires leg { leg.0 < legs_of inst.now }
    ensures units { IfOk result (λ units. map unit_of units.items ≡ (if is_restorable inst.now plan.now leg.0 then map (restored leg.0) (family_of inst.now (leg_at inst.now leg.0).plane.0) else [])) }
    ensures sound { IfOk result (λ units. All (AreInRange inst.now) units.items) }
{
    if !is_restorable(inst, plan, leg) {
        return Ok(Vec::new(alloc));
    }
    each_plane(alloc, leg, tables.family(inst.leg(leg).plane))
}

/// A leg with each of some aircraft.
fn each_plane(alloc: Global, leg: Leg, planes: &[Plane]) -> Result<Vec<LegUnit>, NoMem>
    ensures { IfOk result (λ units. units.items ≡ map (λ q. LegUnit.Restored leg q) planes.now) }
{
    let mut units = Vec::with_capacity(alloc, planes.len())?;
    for plane in planes {
        units.push(LegUnit::Restored { leg, plane: *plane })?;
    }
    Ok(units)
}

/// The runs from a leg on, the shorter first, each with the other aircraft of the family.
fn handings(
    alloc: Global,
    inst: &Instance,
    plan: &Pages,
    tables: &LegTables,
    leg: Leg,
) -> Result<Vec<LegUnit>, NoMem>
    requires plan { IsPlanFor inst.now plan.now }
    requires lists { AreLists inst.now plan.now tables.now }
    requires leg { leg.0 < legs_of inst.now }
    ensures units { IfOk result (λ units. map unit_of units.items ≡ owned inst.now plan.now Neighbourhood.Handed leg.0) }
    ensures sound { IfOk result (λ units. All (IsLegUnit inst.now plan.now) units.items) }
{
    if !is_movable_flown(inst, plan, leg) {
        return Ok(Vec::new(alloc));
    }
    handed_runs(alloc, inst, plan, tables, leg)
}

/// The same of a leg that is movable and flown.
fn handed_runs(
    alloc: Global,
    inst: &Instance,
    plan: &Pages,
    tables: &LegTables,
    leg: Leg,
) -> Result<Vec<LegUnit>, NoMem>
    requires plan { IsPlanFor inst.now plan.now }
    requires lists { AreLists inst.now plan.now tables.now }
    requires leg { IsFlownLeg inst.now plan.now leg.0 }
    ensures units { IfOk result (λ units. map unit_of units.items ≡ flat_map (handed_of_run inst.now plan.now leg.0) (filter (is_run inst.now plan.now leg.0) run_lengths)) }
    ensures sound { IfOk result (λ units. All (IsHandedOf inst.now leg.0) units.items) }
{
    let plane = flier(inst, plan, leg);
    let family = tables.family(plane);
    let legs = run(alloc, inst, plan, tables, leg, 4)?;
    let mut units = Vec::with_capacity(alloc, family.len().saturating_mul(4))?;
    for count in [1, 2, 3, 4] {
        if is_run(inst, plan, leg, legs.as_slice(), count) {
            add_others(leg, count, plane, family, &mut units)?;
        }
    }
    Ok(units)
}

/// Puts a run with each other aircraft of some after others.
fn add_others(
    leg: Leg,
    count: u32,
    plane: Plane,
    planes: &[Plane],
    units: &mut Vec<LegUnit>,
) -> Result<(), NoMem>
    ensures { OnOk result (units.new.items ≡ units.old.items ++ map (λ q. LegUnit.Handed leg count q) (filter (λ q. not (q.0 == plane.0)) planes.now)) }
{
    for other in planes {
        if other.0 != plane.0 {
            units.push(LegUnit::Handed {
                leg,
                count,
                plane: *other,
            })?;
        }
    }
    Ok(())
}

/// The aircraft that flies a leg that is flown.
fn flier(inst: &Instance, plan: &Pages, leg: Leg) -> Plane
    requires plan { IsPlanFor inst.now plan.now }
    requires leg { IsFlownLeg inst.now plan.now leg.0 }
    ensures plane { result.0 ≡ flier (row_at plan.now leg.0) }
    ensures limit { result.0 < planes_of inst.now }
{
    match plan.read_row(leg) {
        Row::Flown { plane, .. } => plane,
        Row::Cancelled => unreachable!(),
    }
}
