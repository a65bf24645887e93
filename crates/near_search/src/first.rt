//! The first better move of a shard.

ghost use Rattle.std.specs.Prelude.{◌≡◌, ◌<◌, length, IfOk};
ghost use Rattle.std.specs.Option.{ForSome};
ghost use Rattle.plan_moves.specs.Fits.{Fits};
ghost use Rattle.near_moves.specs.Descent.{first_better};
ghost use Rattle.near_search.specs.Finders.{IsFinderOf};

use crate::finder::Finder;
use crate::legs::first_of_legs;
use crate::noted::{keep, noted};
use crate::passengers::first_of_passengers;
use crate::rotations::Rotations;
use crate::units::{is_noted_quiet, keep_units, note_quiet, noted_units};
use desk_data::NoMem;
use desk_eval::Evaluator;
use desk_units::{Listener, Nobody};
use near_legs::LegUnits;
use near_pax::PaxMoves;
use plan_moves::Move;
use std::alloc::Global;

/// The first move of a shard of those near the evaluator's plan that makes it feasible and cheaper, or none
/// where no move of the shard does. A shard's number is below the number of shards: shard 0 of 1 is all moves.
/// The evaluator's past has fewer than 1,900,000,000 changes. Moves are tried on the evaluator and taken back:
/// it stands where it stood, after an error too. What is found out of paths and of units of legs the finder notes, for
/// the next search, and that nothing was found, so that the same shard need not be looked at again as long as the plan is the same. The finder
/// serves the evaluator's day, and does so after an error too. The only error is out of memory.
pub fn first_better(
    alloc: Global,
    eval: &mut Evaluator,
    finder: &mut Finder,
    shard: u32,
    shards: u32,
) -> Result<Option<Move>, NoMem>
    requires shard { shard < shards }
    requires depth { length eval.old.past < 1900000000 }
    requires finder { IsFinderOf eval.old.inst finder.old }
    ensures ok { IfOk result (λ found. found ≡ first_better eval.old.inst eval.old.rows shard shards) }
    ensures fits { IfOk result (λ found. ForSome found (Fits eval.old.inst)) }
    ensures eval { eval.new ≡ eval.old }
    ensures finder { IsFinderOf eval.old.inst finder.new }
{
    first_better_heard(alloc, eval, finder, shard, shards, &mut Nobody)
}

/// The same, and a listener is told of each move that is tried. What is found depends on no listener.
pub fn first_better_heard<L: Listener>(
    alloc: Global,
    eval: &mut Evaluator,
    finder: &mut Finder,
    shard: u32,
    shards: u32,
    listener: &mut L,
) -> Result<Option<Move>, NoMem>
    requires shard { shard < shards }
    requires depth { length eval.old.past < 1900000000 }
    requires finder { IsFinderOf eval.old.inst finder.old }
    ensures ok { IfOk result (λ found. found ≡ first_better eval.old.inst eval.old.rows shard shards) }
    ensures fits { IfOk result (λ found. ForSome found (Fits eval.old.inst)) }
    ensures eval { eval.new ≡ eval.old }
    ensures finder { IsFinderOf eval.old.inst finder.new }
{
    let _rows = eval.instance().parts();
    let mut known = noted_units(alloc, &*eval, finder)?;
    if is_noted_quiet(eval, &known, shard, shards) {
        keep_units(&*eval, finder, known);
        return Ok(None);
    }
    let rotations = Rotations::of(alloc, eval)?;
    let mut units = LegUnits::of(alloc, eval.instance(), eval.plan(), shard, shards)?;
    let of_legs = first_of_legs(alloc, eval, &rotations, &mut units, &mut known, listener)?;
    if let Some(m) = of_legs {
        keep_units(&*eval, finder, known);
        return Ok(Some(m));
    }
    let mut passengers = PaxMoves::of(alloc, eval.instance(), eval.plan(), shard, shards)?;
    let mut notes = noted(alloc, &*eval, finder)?;
    let found = first_of_passengers(
        alloc,
        eval,
        &rotations,
        &mut passengers,
        &mut notes,
        listener,
    )?;
    keep(&*eval, finder, notes);
    if found.is_none() {
        note_quiet(eval, &mut known, shard, shards);
    }
    keep_units(&*eval, finder, known);
    Ok(found)
}
