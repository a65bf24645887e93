//! The moves of passengers, path by path.

ghost use Rattle.std.specs.Prelude.{◌≡◌, ◌<◌, length, None, All, IfNone, IfOk, IfSome, find};
ghost use Rattle.std.specs.Option.{ForSome};
ghost use Rattle.plan_moves.specs.Fits.{Fits};
ghost use Rattle.near_moves.specs.Near.{moves_of};
ghost use Rattle.near_moves.specs.Descent.{is_better};
ghost use Rattle.near_pax.specs.Left.{IsOf, left, units_left};
ghost use Rattle.near_search.specs.Noted.{AreNotedAt};
ghost use Rattle.near_search.specs.Passed.{GoesOn};
ghost use Rattle.near_search.specs.Rotations.{AreRotations};

use crate::noted::{is_known, note};
use crate::rotations::Rotations;
use crate::trial::first_of;
use desk_data::{NoMem, Res};
use desk_eval::Evaluator;
use desk_units::Listener;
use near_notes::Notes;
use near_pax::PaxMoves;
use plan_moves::Move;
use std::alloc::Global;

/// The first better one of the moves of passengers that are left, which fit; the listener is told of each that is
/// tried. Paths off which no rebooking is better are passed over where that is noted, and noted where it is found. The
/// evaluator stands where it stood, after an error too.
pub(crate) fn first_of_passengers<L: Listener>(
    alloc: Global,
    eval: &mut Evaluator,
    rotations: &Rotations,
    moves: &mut PaxMoves,
    notes: &mut Option<Notes>,
    listener: &mut L,
) -> Result<Option<Move>, NoMem>
    requires rotations { AreRotations eval.old.inst eval.old.rows rotations.now }
    requires moves { IsOf eval.old.inst eval.old.rows moves.old }
    requires notes { AreNotedAt eval.old.inst eval.old.rows notes.old }
    requires fits { All (Fits eval.old.inst) (left eval.old.inst eval.old.rows moves.old) }
    requires depth { length eval.old.past < 1900000000 }
    ensures ok { IfOk result (λ found. found ≡ find (is_better eval.old.inst eval.old.rows) (left eval.old.inst eval.old.rows moves.old)) }
    ensures fits { IfOk result (λ found. ForSome found (Fits eval.old.inst)) }
    ensures notes { AreNotedAt eval.old.inst eval.old.rows notes.new }
    ensures eval { eval.new ≡ eval.old }
{
    if let Some(m) = first_of(alloc, eval, rotations, moves, listener)? {
        return Ok(Some(m));
    }
    while let Some((res, place)) = go_on(eval, moves, notes) {
        if let Some(m) = first_of(alloc, eval, rotations, moves, listener)? {
            return Ok(Some(m));
        }
        note(eval, notes, res, place);
    }
    Ok(None)
}

/// Goes on to the next path off which a rebooking may be better: its reservation, and its place among the groups of
/// that; `None` where there is none.
fn go_on(eval: &Evaluator, moves: &mut PaxMoves, notes: &mut Option<Notes>) -> Option<(Res, usize)>
    requires moves { IsOf eval.now.inst eval.now.rows moves.old }
    requires notes { AreNotedAt eval.now.inst eval.now.rows notes.old }
    ensures moves { IsOf eval.now.inst eval.now.rows moves.new }
    ensures notes { AreNotedAt eval.now.inst eval.now.rows notes.new }
    ensures more { IfSome result (λ unit. GoesOn eval.now.inst eval.now.rows (units_left eval.now.inst eval.now.rows moves.old) unit.0.0 unit.1 moves.new) }
    ensures none { IfNone result (find (is_better eval.now.inst eval.now.rows) (moves_of eval.now.inst eval.now.rows (units_left eval.now.inst eval.now.rows moves.old)) ≡ None) }
{
    while let Some((res, place)) = moves.next_unit(eval.instance(), eval.plan()) {
        if !is_known(eval, notes, res, place) {
            return Some((res, place));
        }
    }
    None
}
