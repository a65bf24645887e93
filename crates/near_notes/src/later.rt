//! Notes of the plan as it stands.

ghost use Rattle.std.specs.Prelude.{◌≡◌, ℕ, ◌<◌, None, IfOk, length, replicate, slice_index_or, slice_index};
ghost use Rattle.desk_data.specs.declared.row.Group.{Group as SomeGroup};
ghost use Rattle.desk_data.specs.Situation.{reservations_of};
ghost use Rattle.desk_data.specs.PlanRows.{groups_at};
ghost use Rattle.desk_data.specs.Valid.{IsPlanFor};
ghost use Rattle.desk_rules.specs.Least.{least};
ghost use Rattle.near_notes.specs.DayNotes.{AreNotes, HaveAboard, IsInVain};
ghost use Rattle.near_notes.specs.Changes.{AreChanges};
ghost use Rattle.near_notes.specs.Later.{AreNotesAt, AreKnown};
ghost use Rattle.near_notes.specs.Links.{AreLinks};

use crate::Notes;
use crate::aboard::seats_aboard;
use crate::changes::Changes;
use crate::links::Links;
use crate::untouched::{Plans, is_untouched};
use desk_data::{Instance, Leg, NoMem, Res, Seats};
use plan_pages::Pages;
use plan_reads::KnowsAboard;
use std::alloc::Global;

/// Notes of a feasible plan of which nothing is known yet. The only error is out of memory.
pub fn first_notes<A: KnowsAboard>(
    alloc: Global,
    inst: &Instance,
    plan: &Pages,
    aboard: &A,
) -> Result<Notes, NoMem>
    requires plan { IsPlanFor inst.now plan.now }
    requires feasible { least inst.now plan.now ≡ None }
    requires aboard { A.knows aboard.now plan.now }
    ensures { IfOk result (AreNotesAt inst.now plan.now) }
{
    let known = none_known(alloc, inst.reservations() as usize)?;
    notes_with(alloc, inst, plan, aboard, known)
}

/// What of the notes of an earlier plan holds at a feasible plan as it stands: what is noted of a reservation stays
/// where nothing was touched that its rebookings hang on. The only error is out of memory, and then the notes are given
/// up.
pub fn later_notes<A: KnowsAboard>(
    alloc: Global,
    notes: Notes,
    inst: &Instance,
    plan: &Pages,
    aboard: &A,
) -> Result<Notes, NoMem>
    requires notes { AreNotes inst.now notes }
    requires plan { IsPlanFor inst.now plan.now }
    requires feasible { least inst.now plan.now ≡ None }
    requires aboard { A.knows aboard.now plan.now }
    ensures { IfOk result (AreNotesAt inst.now plan.now) }
{
    let known = still_known(alloc, &notes, inst, plan, aboard)?;
    notes_with(alloc, inst, plan, aboard, known)
}

/// Off how many of its paths, for each reservation, no rebooking is known to be better now.
fn still_known<A: KnowsAboard>(
    alloc: Global,
    notes: &Notes,
    inst: &Instance,
    plan: &Pages,
    aboard: &A,
) -> Result<Vec<u32>, NoMem>
    requires notes { AreNotes inst.now notes.now }
    requires plan { IsPlanFor inst.now plan.now }
    requires aboard { A.knows aboard.now plan.now }
    ensures { IfOk result (λ known. AreKnown inst.now plan.now (reservations_of inst.now) known.items) }
{
    let was = &notes.plan;
    let had = notes.aboard.as_slice();
    let changes = Changes::between(alloc, inst, was, had, plan, aboard)?;
    let links = Links::of(alloc, inst)?;
    let plans = Plans {
        inst,
        was,
        plan,
        changes: &changes,
        links: &links,
    };
    known_at(alloc, notes, &plans)
}

/// Those that stay known from one plan to the other.
fn known_at(alloc: Global, notes: &Notes, plans: &Plans) -> Result<Vec<u32>, NoMem>
    requires notes { AreNotes plans.now.inst.now notes.now }
    requires was { plans.now.was.now ≡ notes.now.plan }
    requires plan { IsPlanFor plans.now.inst.now plans.now.plan.now }
    requires changes { AreChanges plans.now.inst.now plans.now.was.now plans.now.plan.now plans.now.changes.now }
    requires links { AreLinks plans.now.inst.now plans.now.links.now.known.items }
    ensures { IfOk result (λ known. AreKnown plans.now.inst.now plans.now.plan.now (reservations_of plans.now.inst.now) known.items) }
{
    let mut known = Vec::with_capacity(alloc, plans.inst.reservations() as usize)?;
    for r in 0..plans.inst.reservations() {
        known.push(known_of(notes, plans, Res(r)))?;
    }
    Ok(known)
}

/// How many stay known of a reservation: all, or none.
fn known_of(notes: &Notes, plans: &Plans, res: Res) -> u32
    requires notes { AreNotes plans.now.inst.now notes.now }
    requires was { plans.now.was.now ≡ notes.now.plan }
    requires plan { IsPlanFor plans.now.inst.now plans.now.plan.now }
    requires changes { AreChanges plans.now.inst.now plans.now.was.now plans.now.plan.now plans.now.changes.now }
    requires links { AreLinks plans.now.inst.now plans.now.links.now.known.items }
    requires res { res.0 < reservations_of plans.now.inst.now }
    ensures { (k : ℕ) (none : SomeGroup) → k < result → k < length (groups_at plans.now.plan.now res.0) → IsInVain plans.now.inst.now plans.now.plan.now res.0 (slice_index_or (groups_at plans.now.plan.now res.0) k none) }
{
    let _rows = plans.inst.parts();
    let before = notes.known[res.0 as usize];
    if before == 0 || !is_untouched(plans, res) {
        return 0;
    }
    before
}

/// Notes of a feasible plan, of which so much is known.
fn notes_with<A: KnowsAboard>(
    alloc: Global,
    inst: &Instance,
    plan: &Pages,
    aboard: &A,
    known: Vec<u32>,
) -> Result<Notes, NoMem>
    requires plan { IsPlanFor inst.now plan.now }
    requires feasible { least inst.now plan.now ≡ None }
    requires aboard { A.knows aboard.now plan.now }
    requires known { AreKnown inst.now plan.now (reservations_of inst.now) known.items }
    ensures { IfOk result (AreNotesAt inst.now plan.now) }
{
    let aboard = all_aboard(alloc, inst, plan, aboard)?;
    let plan = plan.share(alloc)?;
    Ok(Notes {
        plan,
        aboard,
        known,
    })
}

/// How many are aboard each leg.
fn all_aboard<A: KnowsAboard>(
    alloc: Global,
    inst: &Instance,
    plan: &Pages,
    aboard: &A,
) -> Result<Vec<Seats>, NoMem>
    requires plan { IsPlanFor inst.now plan.now }
    requires aboard { A.knows aboard.now plan.now }
    ensures { IfOk result (λ seats. HaveAboard plan.now seats.items) }
{
    let mut seats = Vec::with_capacity(alloc, inst.legs() as usize)?;
    for x in 0..inst.legs() {
        seats.push(seats_aboard(aboard, Leg(x)))?;
    }
    Ok(seats)
}

/// So many times none.
fn none_known(alloc: Global, count: usize) -> Result<Vec<u32>, NoMem>
    ensures { IfOk result (λ none. none.items ≡ replicate count 0) }
{
    Ok(vec![in alloc; 0; count]?)
}
