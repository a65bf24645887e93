//! What is noted of units of legs.

ghost use Rattle.std.specs.Prelude.{◌≡◌, All, IfOk, IfSome, None, false, true};
ghost use Rattle.desk_rules.specs.Least.{least};
ghost use Rattle.near_moves.specs.Descent.{first_better, is_better};
ghost use Rattle.near_moves.specs.Near.{unit_moves};
ghost use Rattle.near_legs.specs.Choices.{IsLegUnit, unit_of};
ghost use Rattle.near_notes.specs.Notes.{AreUnitNotes, AreUnitNotesAt, IsUnitOut, IsUnitOutByRows};
ghost use Rattle.near_search.specs.Finders.{IsFinderOf};
ghost use Rattle.near_search.specs.Noted.{AreUnitsNotedAt};

use crate::finder::Finder;
use crate::noted::is_feasible;
use desk_data::NoMem;
use desk_eval::Evaluator;
use near_legs::LegUnit;
use near_notes::UnitNotes;
use near_untouched::later_unit_notes;
use std::alloc::Global;

/// What is noted of units of legs at the evaluator's plan: what was noted at an earlier plan, as far as it still holds. No
/// notes where the plan is not feasible. The finder hands them out. The only error is out of memory, and then the notes are
/// given up.
pub(crate) fn noted_units(
    alloc: Global,
    eval: &Evaluator,
    finder: &mut Finder,
) -> Result<Option<UnitNotes>, NoMem>
    requires finder { IsFinderOf eval.now.inst finder.old }
    ensures notes { IfOk result (AreUnitsNotedAt eval.now.inst eval.now.rows) }
    ensures finder { IsFinderOf eval.now.inst finder.new }
{
    if !is_feasible(eval) {
        return Ok(None);
    }
    let earlier = finder.units.take();
    let notes = units_now(alloc, eval, earlier)?;
    Ok(Some(notes))
}

/// Notes of the evaluator's plan, which is feasible: of those of an earlier plan what still holds, if there are any.
fn units_now(
    alloc: Global,
    eval: &Evaluator,
    earlier: Option<UnitNotes>,
) -> Result<UnitNotes, NoMem>
    requires feasible { least eval.now.inst eval.now.rows ≡ None }
    requires earlier { IfSome earlier (AreUnitNotes eval.now.inst) }
    ensures { IfOk result (AreUnitNotesAt eval.now.inst eval.now.rows) }
{
    let (inst, plan) = (eval.instance(), eval.plan());
    match earlier {
        Some(notes) => later_unit_notes(alloc, notes, inst, plan, eval),
        None => UnitNotes::of(alloc, inst, plan),
    }
}

/// The finder keeps the notes of the evaluator's plan, if there are any.
pub(crate) fn keep_units(eval: &Evaluator, finder: &mut Finder, notes: Option<UnitNotes>)
    requires finder { IsFinderOf eval.now.inst finder.old }
    requires notes { AreUnitsNotedAt eval.now.inst eval.now.rows notes }
    ensures { IsFinderOf eval.now.inst finder.new }
{
    if let Some(notes) = notes {
        finder.units = Some(notes);
    }
}

/// Whether it is noted that a unit is out: none of its moves is better. Where it says no, nothing is known.
pub(crate) fn is_noted_out(eval: &Evaluator, notes: &Option<UnitNotes>, unit: LegUnit) -> bool
    requires notes { AreUnitsNotedAt eval.now.inst eval.now.rows notes.now }
    requires unit { IsLegUnit eval.now.inst eval.now.rows unit }
    ensures { result ≡ true → All (λ m. is_better eval.now.inst eval.now.rows m ≡ false) (unit_moves eval.now.inst eval.now.rows (unit_of unit)) }
{
    match notes {
        Some(notes) => notes.knows(eval.instance(), unit),
        None => false,
    }
}

/// Notes that a unit is out, if there are notes. Where there is no memory for that they are given up, and the search goes on.
pub(crate) fn note_out(eval: &Evaluator, notes: &mut Option<UnitNotes>, unit: LegUnit)
    requires notes { AreUnitsNotedAt eval.now.inst eval.now.rows notes.old }
    requires out { IsUnitOut eval.now.inst eval.now.rows (unit_of unit) }
    ensures { AreUnitsNotedAt eval.now.inst eval.now.rows notes.new }
{
    if let Some(mut all) = notes.take() {
        if all.note(unit).is_ok() {
            *notes = Some(all);
        }
    }
}

/// The same of one that is out by rows alone.
pub(crate) fn note_by_rows(eval: &Evaluator, notes: &mut Option<UnitNotes>, unit: LegUnit)
    requires notes { AreUnitsNotedAt eval.now.inst eval.now.rows notes.old }
    requires out { IsUnitOutByRows eval.now.inst eval.now.rows (unit_of unit) }
    ensures { AreUnitsNotedAt eval.now.inst eval.now.rows notes.new }
{
    if let Some(mut all) = notes.take() {
        if all.note_by_rows(unit).is_ok() {
            *notes = Some(all);
        }
    }
}

/// Whether it is noted of a shard that none of its moves is better. Where it says no, nothing is known.
pub(crate) fn is_noted_quiet(
    eval: &Evaluator,
    notes: &Option<UnitNotes>,
    shard: u32,
    shards: u32,
) -> bool
    requires notes { AreUnitsNotedAt eval.now.inst eval.now.rows notes.now }
    ensures { result ≡ true → first_better eval.now.inst eval.now.rows shard shards ≡ None }
{
    match notes {
        Some(notes) => notes.is_quiet(shard, shards),
        None => false,
    }
}

/// Notes of a shard that none of its moves is better, if there are notes.
pub(crate) fn note_quiet(eval: &Evaluator, notes: &mut Option<UnitNotes>, shard: u32, shards: u32)
    requires notes { AreUnitsNotedAt eval.now.inst eval.now.rows notes.old }
    requires quiet { first_better eval.now.inst eval.now.rows shard shards ≡ None }
    ensures { AreUnitsNotedAt eval.now.inst eval.now.rows notes.new }
{
    match notes {
        Some(notes) => notes.note_quiet(shard, shards),
        None => {}
    }
}
