//! What is noted of rebookings.

ghost use Rattle.std.specs.Prelude.{◌≡◌, ◌<◌, None, IfOk, IfSome, length, true};
ghost use Rattle.desk_data.specs.Situation.{reservations_of};
ghost use Rattle.desk_data.specs.PlanRows.{groups_at};
ghost use Rattle.desk_rules.specs.Least.{least};
ghost use Rattle.near_pax.specs.Units.{group_at};
ghost use Rattle.near_notes.specs.DayNotes.{AreNotes, IsInVain};
ghost use Rattle.near_notes.specs.Later.{AreNotesAt};
ghost use Rattle.near_search.specs.Finders.{IsFinderOf};
ghost use Rattle.near_search.specs.Noted.{AreNotedAt};

use crate::finder::Finder;
use crate::ruled_out::costs_nothing;
use desk_data::{NoMem, Res};
use desk_eval::Evaluator;
use near_notes::{Notes, first_notes, later_notes};
use std::alloc::Global;

/// What is noted of the day at the evaluator's plan: what was noted at an earlier plan, as far as it still holds. No notes
/// where the plan is not feasible. The finder hands them out. The only error is out of memory, and then the notes are given
/// up.
pub(crate) fn noted(
    alloc: Global,
    eval: &Evaluator,
    finder: &mut Finder,
) -> Result<Option<Notes>, NoMem>
    requires finder { IsFinderOf eval.now.inst finder.old }
    ensures notes { IfOk result (AreNotedAt eval.now.inst eval.now.rows) }
    ensures finder { IsFinderOf eval.now.inst finder.new }
{
    if !is_feasible(eval) {
        return Ok(None);
    }
    let earlier = finder.notes.take();
    let notes = notes_now(alloc, eval, earlier)?;
    Ok(Some(notes))
}

/// Whether the evaluator's plan breaks no rule.
pub(crate) fn is_feasible(eval: &Evaluator) -> bool
    ensures { result ≡ true → least eval.now.inst eval.now.rows ≡ None }
{
    eval.least_broken().is_none()
}

/// Notes of the evaluator's plan, which is feasible: of those of an earlier plan what still holds, if there are any.
fn notes_now(alloc: Global, eval: &Evaluator, earlier: Option<Notes>) -> Result<Notes, NoMem>
    requires feasible { least eval.now.inst eval.now.rows ≡ None }
    requires earlier { IfSome earlier (AreNotes eval.now.inst) }
    ensures { IfOk result (AreNotesAt eval.now.inst eval.now.rows) }
{
    let (inst, plan) = (eval.instance(), eval.plan());
    match earlier {
        Some(notes) => later_notes(alloc, notes, inst, plan, eval),
        None => first_notes(alloc, inst, plan, eval),
    }
}

/// The finder keeps the notes of the evaluator's plan, if there are any.
pub(crate) fn keep(eval: &Evaluator, finder: &mut Finder, notes: Option<Notes>)
    requires finder { IsFinderOf eval.now.inst finder.old }
    requires notes { AreNotedAt eval.now.inst eval.now.rows notes }
    ensures { IsFinderOf eval.now.inst finder.new }
{
    if let Some(notes) = notes {
        finder.notes = Some(notes);
    }
}

/// Whether it is known that no rebooking off a path of a reservation is better, that of the group at a place: it is noted,
/// or a passenger costs nothing on it, which is noted then. Where it says no, nothing is known.
pub(crate) fn is_known(eval: &Evaluator, notes: &mut Option<Notes>, res: Res, place: usize) -> bool
    requires notes { AreNotedAt eval.now.inst eval.now.rows notes.old }
    requires res { res.0 < reservations_of eval.now.inst }
    requires place { place < length (groups_at eval.now.rows res.0) }
    ensures notes { AreNotedAt eval.now.inst eval.now.rows notes.new }
    ensures vain { result ≡ true → IsInVain eval.now.inst eval.now.rows res.0 (group_at eval.now.rows res.0 place) }
{
    if is_noted(eval, notes, res, place) {
        return true;
    }
    if !costs_nothing(eval, res, place) {
        return false;
    }
    note(eval, notes, res, place);
    true
}

/// Whether it is noted.
fn is_noted(eval: &Evaluator, notes: &Option<Notes>, res: Res, place: usize) -> bool
    requires notes { AreNotedAt eval.now.inst eval.now.rows notes.now }
    requires res { res.0 < reservations_of eval.now.inst }
    requires place { place < length (groups_at eval.now.rows res.0) }
    ensures { result ≡ true → IsInVain eval.now.inst eval.now.rows res.0 (group_at eval.now.rows res.0 place) }
{
    match notes {
        Some(notes) => notes.knows(res, place),
        None => false,
    }
}

/// Notes that no rebooking off a path of a reservation is better.
pub(crate) fn note(eval: &Evaluator, notes: &mut Option<Notes>, res: Res, place: usize)
    requires notes { AreNotedAt eval.now.inst eval.now.rows notes.old }
    requires res { res.0 < reservations_of eval.now.inst }
    requires place { place < length (groups_at eval.now.rows res.0) }
    requires vain { IsInVain eval.now.inst eval.now.rows res.0 (group_at eval.now.rows res.0 place) }
    ensures { AreNotedAt eval.now.inst eval.now.rows notes.new }
{
    match notes {
        Some(notes) => notes.note(res, place),
        None => {}
    }
}
