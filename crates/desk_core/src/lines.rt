//! What is reported of what was seen.

ghost use Rattle.std.specs.Prelude.{◌≡◌, ◌≤◌, ◌<◌, Some, List as Items, length, IfOk, OnOk};
ghost use Rattle.desk_model.specs.declared.answer.Entry.{Entry as Record};
ghost use Rattle.desk_model.specs.States.{State, opening};
ghost use Rattle.desk_core.specs.Recorded.{Recorded};
ghost use Rattle.live_board.specs.Histories.{history, origin};
ghost use Rattle.live_board.specs.Watched.{AreRising};
ghost use Rattle.live_board.specs.Words.{stands_for};
ghost use Rattle.desk_model.specs.Views.{IsSightOf, AreSeen};
ghost use Rattle.desk_model.proofs.SightLaws.{AreSightsBelow};
ghost use Rattle.desk_core.specs.Sights.{AddsSight, HaveLines};

use crate::sight::Sight;
use desk_data::NoMem;
use desk_model::View;
use live_board::{Naming, Note};
use std::alloc::Global;

/// How many views are reported before the last one.
pub const MOST_SIGHTS: usize = 63;

// Adds a view where it has at least so many entries, and fewer than the last one, and 63 are not there yet. It answers how many the
// next one has to have. The only error is out of memory.
fn add_sight(lines: &mut Vec<View>, least: u32, view: View, last: View) -> Result<u32, NoMem>
    requires { (least ≤ last.entries) × (length lines.old.items ≤ 63) }
    ensures least { IfOk result (λ next. next ≤ last.entries) }
    ensures few { OnOk result (length lines.new.items ≤ 63) }
    ensures added { IfOk result (λ next. AddsSight least view last next lines.old.items lines.new.items) }
    ensures seen { IfOk result (λ next. (S : State) (h : Items Record) → AreSightsBelow S h least lines.old.items → (view.entries < last.entries → IsSightOf S h view) → AreSightsBelow S h next lines.new.items) }
{
    if view.entries < least {
        return Ok(least);
    }
    if view.entries >= last.entries {
        return Ok(least);
    }
    if lines.len() >= MOST_SIGHTS {
        return Ok(least);
    }
    lines.push(view)?;
    Ok(view.entries + 1)
}

/// The views of notes, each with more entries than the one before it and fewer than the last note has, 63 at most, and then
/// the view of the last note. Of up to 63 notes, each later than the one before it, none is left out that has fewer entries than that.
/// The only error is out of memory.
pub fn seen_lines<J: Naming>(
    alloc: Global,
    notes: &[Note<Sight, J>],
    last: &Note<Sight, J>,
) -> Result<Vec<View>, NoMem>
    ensures seen { (B : Recorded) → origin (stands_for last.now) ≡ Some B → IfOk result (λ lines. AreSeen (opening B.opening) (history (stands_for last.now)) lines.items) }
    ensures each { (B : Recorded) → origin (stands_for last.now) ≡ Some B → AreRising stands_for notes.now → length notes.now ≤ 63
        → IfOk result (λ lines. HaveLines (opening B.opening) (history (stands_for last.now)) (λ n. history (stands_for n)) notes.now lines.items) }
{
    let whole = last.view().view;
    let mut lines = Vec::with_capacity(alloc, MOST_SIGHTS + 1)?;
    let mut least = 0;
    for note in notes {
        // One of both begins with the other.
        let _both = note.later(last);
        least = add_sight(&mut lines, least, note.view().view, whole)?;
    }
    lines.push(whole)?;
    Ok(lines)
}
