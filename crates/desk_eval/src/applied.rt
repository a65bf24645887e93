//! Moves, applied to an evaluator step by step.

ghost use Rattle.std.specs.Prelude.{◌≡◌, ◌+◌, ◌<◌, ◌≤◌, length, All, IfOk, OnOk, OnErr};
ghost use Rattle.plan_moves.specs.Fits.{Fits, StepFits};
ghost use Rattle.desk_model.specs.Steps.{after_move, after_step, after_steps};
ghost use Rattle.desk_eval.specs.Back.{IsAfter, back_to};

use crate::Evaluator;
use crate::back::go_back;
use crate::push_step::push_step;
use crate::rebook_step::rebook_step;
use crate::refill_step::refill_step;
use crate::set_step::set_step;
use crate::swap_step::{Exchange, swap_step};
use crate::tidy_step::tidy_step;
use crate::way_back::Undo;
use desk_data::NoMem;
use plan_moves::{Move, Step};
use std::alloc::Global;

/// Applies a move: its steps are taken in order. The move fits the evaluator's instance, and the past,
/// which has fewer than 1,900,000,000 changes, grows by at most 1,600,000. A move makes at most 16 times
/// 100,000 changes, one for each leg or reservation, and a past holds 2,000,000,000. What is answered takes
/// the move back. The only error is out of memory, and then the evaluator is as before.
pub fn apply(alloc: Global, eval: &mut Evaluator, m: &Move) -> Result<Undo, NoMem>
    requires fits { Fits eval.old.inst m.now }
    requires depth { length eval.old.past < 1900000000 }
    ensures rows { OnOk result (eval.new.rows ≡ after_move eval.old.inst eval.old.rows m.now) }
    ensures inst { eval.new.inst ≡ eval.old.inst }
    ensures undo { IfOk result (λ undo. back_to undo.depth eval.new ≡ eval.old) }
    ensures depth { IfOk result (λ undo. undo.depth ≡ length eval.old.past) }
    ensures past { length eval.new.past ≤ length eval.old.past + 1600000 }
    ensures err { OnErr result (eval.new ≡ eval.old) }
{
    let depth = eval.depth();
    match take_steps(alloc, eval, m.steps.as_slice()) {
        Ok(()) => Ok(Undo { depth }),
        Err(error) => {
            go_back(eval, depth);
            Err(error)
        }
    }
}

/// Takes steps, one after another. After an error some may have been taken, the last of them in part.
fn take_steps(alloc: Global, eval: &mut Evaluator, steps: &[Step]) -> Result<(), NoMem>
    requires few { length steps.now ≤ 16 }
    requires fits { All (StepFits eval.old.inst) steps.now }
    requires depth { length eval.old.past < 1900000000 }
    ensures rows { OnOk result (eval.new.rows ≡ after_steps eval.old.inst eval.old.rows steps.now) }
    ensures after { IsAfter 1600000 eval.old eval.new }
{
    for step in steps {
        take_step(alloc, eval, step)?;
    }
    Ok(())
}

/// Takes a step. After an error it may have been taken in part.
#[tactic(auto, unfolding(desk_model::specs::Steps::after_step))]
fn take_step(alloc: Global, eval: &mut Evaluator, step: &Step) -> Result<(), NoMem>
    requires fits { StepFits eval.old.inst step.now }
    requires depth { length eval.old.past < 1950000000 }
    ensures rows { OnOk result (eval.new.rows ≡ after_step eval.old.inst eval.old.rows step.now) }
    ensures after { IsAfter 100000 eval.old eval.new }
{
    match step {
        Step::Set { leg, was, new } => set_step(alloc, eval, *leg, *was, *new),
        Step::Push { plane, after } => push_step(alloc, eval, *plane, *after),
        Step::Swap { first, second, at } => {
            let exchange = Exchange {
                first: *first,
                second: *second,
                at: *at,
            };
            swap_step(alloc, eval, exchange)
        }
        Step::Rebook {
            res,
            path,
            to,
            count,
        } => rebook_step(alloc, eval, *res, path, to, *count),
        Step::Tidy => tidy_step(alloc, eval),
        Step::Refill { leg } => refill_step(alloc, eval, *leg),
    }
}
