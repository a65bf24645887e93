//! Moves that are known not to be better by the rows that they make.

ghost use Rattle.std.specs.Prelude.{◌≡◌, IfOk, true};
ghost use Rattle.std.specs.Option.{ForSome};
ghost use Rattle.plan_moves.specs.Fits.{Fits};
ghost use Rattle.near_draft.specs.Drafts.{IsDraftOf};
ghost use Rattle.near_search.specs.Out.{IsRuledOut, IsRuledOutByRows, IsVerdict};
ghost use Rattle.near_search.specs.Rotations.{AreRotations};

use crate::rotations::Rotations;
use crate::verdict::Verdict;
use desk_data::NoMem;
use desk_eval::Evaluator;
use near_draft::{Base, Draft, breaks_rule, draft_of};
use plan_moves::Move;
use std::alloc::Global;

/// What is known of a move by a draft of the rows that its first steps make, which the evaluator does not see; `None` where
/// nothing is.
pub(crate) fn judge_draft(
    alloc: Global,
    eval: &Evaluator,
    rotations: &Rotations,
    m: &Move,
) -> Result<Option<Verdict>, NoMem>
    requires rotations { AreRotations eval.now.inst eval.now.rows rotations.now }
    requires fits { Fits eval.now.inst m.now }
    ensures { IfOk result (λ known. ForSome known (IsVerdict eval.now.inst eval.now.rows m.now)) }
{
    let base = base_of(eval, rotations);
    match draft_of(alloc, &base, m)? {
        Some(draft) => judge_by(alloc, eval, rotations, &draft, m),
        None => Ok(None),
    }
}

/// What a draft over the evaluator's plan stands on.
fn base_of<'a>(eval: &'a Evaluator, rotations: &'a Rotations) -> Base<'a>
    requires { AreRotations eval.now.inst eval.now.rows rotations.now }
    ensures inst { result.inst ≡ eval.now.inst }
    ensures rows { result.rows ≡ eval.now.rows }
{
    Base::of(eval.instance(), eval.plan(), eval.slots(), rotations.legs())
}

/// The same by its draft: the move costs at least as much more as those pay whom it touches, or the draft breaks a rule.
fn judge_by(
    alloc: Global,
    eval: &Evaluator,
    rotations: &Rotations,
    draft: &Draft,
    m: &Move,
) -> Result<Option<Verdict>, NoMem>
    requires rotations { AreRotations eval.now.inst eval.now.rows rotations.now }
    requires fits { Fits eval.now.inst m.now }
    requires draft { IsDraftOf eval.now.inst eval.now.rows m.now draft.now }
    ensures { IfOk result (λ known. ForSome known (IsVerdict eval.now.inst eval.now.rows m.now)) }
{
    let dear = is_too_dear(alloc, eval, rotations, draft, m)?;
    if dear {
        return Ok(Some(Verdict::out()));
    }
    let breaks = breaks_own_rule(alloc, eval, draft, m)?;
    if breaks {
        return Ok(Some(Verdict::out_by_rows()));
    }
    Ok(None)
}

/// Whether it is known that a move is not better since its draft breaks a rule.
fn breaks_own_rule(alloc: Global, _eval: &Evaluator, draft: &Draft, m: &Move) -> Result<bool, NoMem>
    requires fits { Fits _eval.now.inst m.now }
    requires draft { IsDraftOf _eval.now.inst _eval.now.rows m.now draft.now }
    ensures { IfOk result (λ known. known ≡ true → IsRuledOutByRows _eval.now.inst _eval.now.rows m.now) }
{
    breaks_rule(alloc, draft, m)
}

/// Whether it is known that a move is not better since it costs at least as much more as those pay whom it touches.
fn is_too_dear(
    alloc: Global,
    eval: &Evaluator,
    rotations: &Rotations,
    draft: &Draft,
    m: &Move,
) -> Result<bool, NoMem>
    requires rotations { AreRotations eval.now.inst eval.now.rows rotations.now }
    requires fits { Fits eval.now.inst m.now }
    requires draft { IsDraftOf eval.now.inst eval.now.rows m.now draft.now }
    ensures { IfOk result (λ known. known ≡ true → IsRuledOut eval.now.inst eval.now.rows m.now) }
{
    if !rotations.feasible {
        return Ok(false);
    }
    rotations
        .payments
        .rule_out(alloc, eval.instance(), eval.plan(), draft, m)
}
