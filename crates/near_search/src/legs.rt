//! The moves of legs and aircraft, unit by unit.

ghost use Rattle.std.specs.Prelude.{◌≡◌, ◌<◌, length, All, IfOk, OnOk, find};
ghost use Rattle.std.specs.Option.{ForSome};
ghost use Rattle.plan_moves.specs.Fits.{Fits};
ghost use Rattle.near_moves.specs.Near.{moves_of, unit_moves};
ghost use Rattle.near_moves.specs.Descent.{is_better};
ghost use Rattle.near_legs.specs.Choices.{IsLegUnit, unit_of};
ghost use Rattle.near_legs.specs.Walk.{IsUnitWalk, units_left};
ghost use Rattle.near_search.specs.Noted.{AreUnitsNotedAt};
ghost use Rattle.near_search.specs.Rotations.{AreRotations};

use crate::in_vain::is_in_vain;
use crate::left::MadeMoves;
use crate::rotations::Rotations;
use crate::trial::{Tried, try_all};
use crate::units::{is_noted_out, note_by_rows, note_out};
use desk_data::NoMem;
use desk_eval::Evaluator;
use desk_units::Listener;
use near_legs::{LegUnit, LegUnits};
use near_notes::UnitNotes;
use plan_moves::Move;
use std::alloc::Global;

/// The first better one of the moves of the units that are left, which fit; the listener is told of each that is
/// tried. The evaluator stands where it stood, after an error too.
pub(crate) fn first_of_legs<L: Listener>(
    alloc: Global,
    eval: &mut Evaluator,
    rotations: &Rotations,
    units: &mut LegUnits,
    notes: &mut Option<UnitNotes>,
    listener: &mut L,
) -> Result<Option<Move>, NoMem>
    requires rotations { AreRotations eval.old.inst eval.old.rows rotations.now }
    requires units { IsUnitWalk eval.old.inst eval.old.rows units.old }
    requires notes { AreUnitsNotedAt eval.old.inst eval.old.rows notes.old }
    requires fits { All (Fits eval.old.inst) (moves_of eval.old.inst eval.old.rows (units_left eval.old.inst eval.old.rows units.old)) }
    requires depth { length eval.old.past < 1900000000 }
    ensures ok { IfOk result (λ found. found ≡ find (is_better eval.old.inst eval.old.rows) (moves_of eval.old.inst eval.old.rows (units_left eval.old.inst eval.old.rows units.old))) }
    ensures fits { IfOk result (λ found. ForSome found (Fits eval.old.inst)) }
    ensures notes { OnOk result (AreUnitsNotedAt eval.old.inst eval.old.rows notes.new) }
    ensures eval { eval.new ≡ eval.old }
{
    while let Some(unit) = units.next(alloc, eval.instance(), eval.plan())? {
        if let Some(m) = first_of_unit(alloc, eval, rotations, units, unit, notes, listener)? {
            return Ok(Some(m));
        }
    }
    Ok(None)
}

/// The first better one of the moves of a unit, which fit. They are made only where it is not known that none of
/// them is better. Where it is known of each why it is not, that is noted.
fn first_of_unit<L: Listener>(
    alloc: Global,
    eval: &mut Evaluator,
    rotations: &Rotations,
    units: &LegUnits,
    unit: LegUnit,
    notes: &mut Option<UnitNotes>,
    listener: &mut L,
) -> Result<Option<Move>, NoMem>
    requires rotations { AreRotations eval.old.inst eval.old.rows rotations.now }
    requires units { IsUnitWalk eval.old.inst eval.old.rows units.now }
    requires unit { IsLegUnit eval.old.inst eval.old.rows unit }
    requires notes { AreUnitsNotedAt eval.old.inst eval.old.rows notes.old }
    requires fits { All (Fits eval.old.inst) (unit_moves eval.old.inst eval.old.rows (unit_of unit)) }
    requires depth { length eval.old.past < 1900000000 }
    ensures ok { IfOk result (λ found. found ≡ find (is_better eval.old.inst eval.old.rows) (unit_moves eval.old.inst eval.old.rows (unit_of unit))) }
    ensures fits { IfOk result (λ found. ForSome found (Fits eval.old.inst)) }
    ensures notes { OnOk result (AreUnitsNotedAt eval.old.inst eval.old.rows notes.new) }
    ensures eval { eval.new ≡ eval.old }
{
    if is_noted_out(eval, notes, unit) {
        return Ok(None);
    }
    if is_in_vain(eval, rotations, unit) {
        note_by_rows(eval, notes, unit);
        return Ok(None);
    }
    let made = units.moves(alloc, eval.instance(), eval.plan(), unit)?;
    let mut moves = MadeMoves::of(made);
    let Tried {
        found,
        out,
        by_rows,
    } = try_all(alloc, eval, rotations, &mut moves, listener)?;
    if by_rows {
        note_by_rows(eval, notes, unit);
    } else if out {
        note_out(eval, notes, unit);
    }
    Ok(found)
}
