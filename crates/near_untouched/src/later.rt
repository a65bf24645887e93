//! Notes of units of legs at a later plan.

ghost use Rattle.std.specs.Prelude.{◌≡◌, ℕ, ◌<◌, IfOk, None, length};
ghost use Rattle.desk_data.specs.Situation.{legs_of, planes_of, reservations_of};
ghost use Rattle.desk_data.specs.Valid.{IsPlanFor};
ghost use Rattle.desk_rules.specs.Least.{least};
ghost use Rattle.near_untouched.specs.Planes.{IsUntouchedPlane};
ghost use Rattle.near_untouched.specs.Again.{IsAgain};
ghost use Rattle.near_untouched.specs.Hours.{margin};
ghost use Rattle.near_untouched.specs.UntouchedLegs.{AreUntouched};
ghost use Rattle.near_notes.specs.Notes.{AreUnitNotes, AreUnitNotesAt};
ghost use Rattle.near_untouched.specs.Carried.{AreCarriedTold};
ghost use Rattle.near_untouched.specs.Later.{AreAllTouched, AreMoved, AreTouchedAt};

use crate::Untouched;
use crate::carried::carriers;
use crate::later_hours::SameHours;
use crate::same::{has_same_rows, is_same_plan};
use desk_data::{Instance, NoMem};
use hour_counts::{HourCounts, KnowsHours};
use near_notes::{Findings, UnitNotes};
use plan_pages::Pages;
use std::alloc::Global;

/// What of the notes of an earlier plan holds at a feasible plan as it stands, whose hours are known: a unit stays known
/// where nothing was touched that it hangs on, and notes of the same plan stay as they are. The only error is out of memory,
/// and then the notes are given up.
pub fn later_unit_notes<H: KnowsHours>(
    alloc: Global,
    notes: UnitNotes,
    inst: &Instance,
    plan: &Pages,
    hours: &H,
) -> Result<UnitNotes, NoMem>
    requires notes { AreUnitNotes inst.now notes }
    requires plan { IsPlanFor inst.now plan.now }
    requires feasible { least inst.now plan.now ≡ None }
    requires hours { H.knows hours.now inst.now plan.now }
    ensures later { IfOk result (AreUnitNotesAt inst.now plan.now) }
    ensures same { notes.plan ≡ plan.now → IfOk result (λ now. now ≡ notes) }
{
    if is_same_plan(inst, &notes.plan, plan) {
        return Ok(notes);
    }
    if notes.search == u32::MAX || notes.out.found.rows() == 0 {
        return UnitNotes::of(alloc, inst, plan);
    }
    if has_same_rows(inst.legs(), &notes.plan, plan) {
        return with_other_passengers(alloc, notes, inst, plan, hours);
    }
    let before = HourCounts::of(alloc, inst, &notes.plan)?;
    let known = Untouched::between(alloc, inst, &notes.plan, &before, plan, hours)?;
    let shared = plan.share(alloc)?;
    Ok(moved(inst, notes, &known, shared))
}

/// The same at a plan with the same rows, so with the same hours: what is out by rows alone stays so, and units that refill no
/// leg are touched on aircraft alone on which somebody changed.
fn with_other_passengers<H: KnowsHours>(
    alloc: Global,
    notes: UnitNotes,
    inst: &Instance,
    plan: &Pages,
    hours: &H,
) -> Result<UnitNotes, NoMem>
    requires notes { AreUnitNotes inst.now notes }
    requires search { notes.search < 4294967295 }
    requires plan { IsPlanFor inst.now plan.now }
    requires feasible { least inst.now plan.now ≡ None }
    requires hours { H.knows hours.now inst.now plan.now }
    requires same { notes.plan.rows ≡ plan.now.rows }
    ensures { IfOk result (AreUnitNotesAt inst.now plan.now) }
{
    let before = SameHours { hours, plan };
    let known = Untouched::between(alloc, inst, &notes.plan, &before, plan, hours)?;
    let carried = carriers(alloc, inst, &notes.plan, plan)?;
    let shared = plan.share(alloc)?;
    Ok(carried_on(inst, notes, &known, carried.as_slice(), shared))
}

/// Notes that are moved to a later plan: what was touched is given the number of the search before.
fn moved(inst: &Instance, notes: UnitNotes, known: &Untouched, plan: Pages) -> UnitNotes
    requires notes { AreUnitNotes inst.now notes }
    requires search { notes.search < 4294967295 }
    requires plan { IsPlanFor inst.now plan }
    requires feasible { least inst.now plan ≡ None }
    requires known { AreUntouched inst.now notes.plan plan known.now }
    ensures { AreUnitNotesAt inst.now plan result }
{
    let _rows = inst.parts();
    let mut notes = notes;
    let before = notes.search;
    touch_all(inst, known, before, &mut notes.out);
    touch_all(inst, known, before, &mut notes.by_rows);
    notes.search = before + 1;
    notes.plan = plan;
    notes.quiet = None;
    notes
}

/// Notes that are moved to a plan with the same rows: given the number of the search before are what was touched, the
/// aircraft on which somebody changed, and, of what is out by rows alone, legs that may not be flown again as before.
fn carried_on(
    inst: &Instance,
    notes: UnitNotes,
    known: &Untouched,
    carried: &[bool],
    plan: Pages,
) -> UnitNotes
    requires notes { AreUnitNotes inst.now notes }
    requires search { notes.search < 4294967295 }
    requires plan { IsPlanFor inst.now plan }
    requires feasible { least inst.now plan ≡ None }
    requires same { notes.plan.rows ≡ plan.rows }
    requires known { AreUntouched inst.now notes.plan plan known.now }
    requires carried { AreCarriedTold (reservations_of inst.now) inst.now notes.plan plan carried.now }
    ensures { AreUnitNotesAt inst.now plan result }
{
    let _rows = inst.parts();
    let mut notes = notes;
    let before = notes.search;
    let (planes, again) = (known.planes.as_slice(), known.again.as_slice());
    touch(inst.planes(), planes, before, &mut notes.out.planes);
    touch(inst.planes(), carried, before, &mut notes.out.flown);
    touch(inst.legs(), again, before, &mut notes.out.again);
    touch(inst.legs(), again, before, &mut notes.by_rows.again);
    notes.search = before + 1;
    notes.plan = plan;
    notes.quiet = None;
    notes
}

/// Gives the marked aircraft and legs the number of a search.
fn touch_all(inst: &Instance, known: &Untouched, search: u32, findings: &mut Findings)
    requires planes { length known.now.planes.items ≡ planes_of inst.now }
    requires again { length known.now.again.items ≡ legs_of inst.now }
    requires own_planes { length findings.old.planes.items ≡ planes_of inst.now }
    requires own_flown { length findings.old.flown.items ≡ planes_of inst.now }
    requires own_again { length findings.old.again.items ≡ legs_of inst.now }
    ensures moved { AreMoved inst.now findings.old findings.new }
    ensures touched { AreAllTouched inst.now known.now search findings.old findings.new }
{
    let (planes, again) = (known.planes.as_slice(), known.again.as_slice());
    touch(inst.planes(), planes, search, &mut findings.planes);
    touch(inst.planes(), planes, search, &mut findings.flown);
    touch(inst.legs(), again, search, &mut findings.again);
}

/// Gives those of so many that are marked a number.
fn touch(count: u32, marks: &[bool], number: u32, touched: &mut Vec<u32>)
    requires marks { length marks.now ≡ count }
    requires touched { length touched.old.items ≡ count }
    ensures touched { length touched.new.items ≡ count }
    ensures each { AreTouchedAt count marks.now number touched.old.items touched.new.items }
{
    for k in 0..count as usize {
        if marks[k] {
            touched[k] = number;
        }
    }
}
