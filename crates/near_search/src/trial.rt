//! Moves that are tried.

ghost use Rattle.std.specs.Prelude.{◌≡◌, ◌<◌, length, All, IfOk, find, true};
ghost use Rattle.std.specs.Option.{ForSome};
ghost use Rattle.plan_moves.specs.Fits.{Fits};
ghost use Rattle.near_moves.specs.Descent.{is_better};
ghost use Rattle.near_search.specs.Out.{AreMovesOut, AreMovesOutByRows, IsVerdict};
ghost use Rattle.near_search.specs.Rotations.{AreRotations};

use crate::drafted::judge_draft;
use crate::in_vain::gives_in_vain;
use crate::left::MovesLeft;
use crate::rotations::Rotations;
use crate::ruled_out::ruled_out;
use crate::verdict::Verdict;
use desk_data::NoMem;
use desk_eval::{Evaluator, apply, undo};
use desk_units::Listener;
use plan_moves::Move;
use std::alloc::Global;

/// What is found of some moves.
#[derive(Drop)]
pub(crate) struct Tried {
    /// The first better one, if one is.
    pub(crate) found: Option<Move>,
    /// Whether none is, and it is known of each why it is not.
    pub(crate) out: bool,
    /// Whether rows alone say so of each.
    pub(crate) by_rows: bool,
}

/// The first better one of some moves, which fit; the listener is told of each that is tried. The evaluator stands
/// where it stood, after an error too.
pub(crate) fn first_of<M: MovesLeft, L: Listener>(
    alloc: Global,
    eval: &mut Evaluator,
    rotations: &Rotations,
    moves: &mut M,
    listener: &mut L,
) -> Result<Option<Move>, NoMem>
    requires rotations { AreRotations eval.old.inst eval.old.rows rotations.now }
    requires moves { M.is_of eval.old.inst eval.old.rows moves.old }
    requires fits { All (Fits eval.old.inst) (M.left eval.old.inst eval.old.rows moves.old) }
    requires depth { length eval.old.past < 1900000000 }
    ensures ok { IfOk result (λ found. found ≡ find (is_better eval.old.inst eval.old.rows) (M.left eval.old.inst eval.old.rows moves.old)) }
    ensures fits { IfOk result (λ found. ForSome found (Fits eval.old.inst)) }
    ensures moves { M.is_of eval.old.inst eval.old.rows moves.new }
    ensures units_after { M.units_after eval.old.inst eval.old.rows moves.new ≡ M.units_after eval.old.inst eval.old.rows moves.old }
    ensures eval { eval.new ≡ eval.old }
{
    let tried = try_all(alloc, eval, rotations, moves, listener)?;
    Ok(tried.found)
}

/// The same, and whether they are all out.
pub(crate) fn try_all<M: MovesLeft, L: Listener>(
    alloc: Global,
    eval: &mut Evaluator,
    rotations: &Rotations,
    moves: &mut M,
    listener: &mut L,
) -> Result<Tried, NoMem>
    requires rotations { AreRotations eval.old.inst eval.old.rows rotations.now }
    requires moves { M.is_of eval.old.inst eval.old.rows moves.old }
    requires fits { All (Fits eval.old.inst) (M.left eval.old.inst eval.old.rows moves.old) }
    requires depth { length eval.old.past < 1900000000 }
    ensures ok { IfOk result (λ tried. tried.found ≡ find (is_better eval.old.inst eval.old.rows) (M.left eval.old.inst eval.old.rows moves.old)) }
    ensures fits { IfOk result (λ tried. ForSome tried.found (Fits eval.old.inst)) }
    ensures out { IfOk result (λ tried. tried.out ≡ true → AreMovesOut eval.old.inst eval.old.rows (M.left eval.old.inst eval.old.rows moves.old)) }
    ensures by_rows { IfOk result (λ tried. tried.by_rows ≡ true → AreMovesOutByRows eval.old.inst eval.old.rows (M.left eval.old.inst eval.old.rows moves.old)) }
    ensures moves { M.is_of eval.old.inst eval.old.rows moves.new }
    ensures units_after { M.units_after eval.old.inst eval.old.rows moves.new ≡ M.units_after eval.old.inst eval.old.rows moves.old }
    ensures eval { eval.new ≡ eval.old }
{
    let mut out = true;
    let mut by_rows = true;
    while let Some(m) = moves.next_left(alloc, eval.instance(), eval.plan())? {
        listener.tried();
        let verdict = judge(alloc, eval, rotations, &m)?;
        if verdict.better {
            return Ok(Tried {
                found: Some(m),
                out: false,
                by_rows: false,
            });
        }
        out = out && verdict.out;
        by_rows = by_rows && verdict.by_rows;
    }
    Ok(Tried {
        found: None,
        out,
        by_rows,
    })
}

/// Whether a move makes the plan feasible and cheaper, and whether it is known why where it does not. It is tried on the
/// evaluator, unless it is known not to, by the plan or by a draft of its rows. The evaluator stands where it stood, after an
/// error too.
fn judge(
    alloc: Global,
    eval: &mut Evaluator,
    rotations: &Rotations,
    m: &Move,
) -> Result<Verdict, NoMem>
    requires rotations { AreRotations eval.old.inst eval.old.rows rotations.now }
    requires fits { Fits eval.old.inst m.now }
    requires depth { length eval.old.past < 1900000000 }
    ensures verdict { IfOk result (IsVerdict eval.old.inst eval.old.rows m.now) }
    ensures eval { eval.new ≡ eval.old }
{
    if gives_in_vain(eval, rotations, m) {
        return Ok(Verdict::out_by_rows());
    }
    if ruled_out(eval, rotations, m) {
        return Ok(Verdict::out());
    }
    match judge_draft(alloc, eval, rotations, m)? {
        Some(verdict) => Ok(verdict),
        None => try_move(alloc, eval, m),
    }
}

/// The same by a trial on the evaluator: it is out where the plan is no cheaper then.
fn try_move(alloc: Global, eval: &mut Evaluator, m: &Move) -> Result<Verdict, NoMem>
    requires fits { Fits eval.old.inst m.now }
    requires depth { length eval.old.past < 1900000000 }
    ensures verdict { IfOk result (IsVerdict eval.old.inst eval.old.rows m.now) }
    ensures eval { eval.new ≡ eval.old }
{
    let now = eval.cost();
    let applied = apply(alloc, eval, m)?;
    let better = eval.least_broken().is_none() && eval.cost().0 < now.0;
    let out = now.0 <= eval.cost().0;
    undo(eval, applied);
    Ok(Verdict {
        better,
        out,
        by_rows: false,
    })
}
