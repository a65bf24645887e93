//! A million changes of one evaluator, each of which is taken back.

ghost use Rattle.std.specs.Prelude.{◌≡◌, ◌<◌};
ghost use Rattle.desk_data.specs.Situation.{legs_of, planes_of};
ghost use Rattle.desk_data.specs.Valid.{IsRowOf};

use super::days::made_up;
use desk_data::{Broken, Grains, Instance, Leg, Minute, NoMem, Row, Steps};
use desk_eval::Evaluator;
use full_check::full_check;
use plan_checks::full_cost;
use std::alloc::Global;
use std::marker::Brand;
use std::sync::ledger::{Blank, Ledger};
use std::test::Fail;

/// How many changes are made.
const CHANGES: u32 = 1_000_000;

/// How many legs a day of size 40 has.
const LEGS: u32 = 960;

/// The first item that a plan breaks, and what it costs.
pub(super) type Said = (Option<Broken>, Grains);

pub(super) fn said(eval: &Evaluator) -> Said {
    (eval.least_broken(), eval.cost())
}

/// What the rules and the prices say of the plan from scratch.
pub(super) fn said_anew(alloc: Global, eval: &Evaluator) -> Result<Said, NoMem> {
    let inst = eval.instance();
    let plan = eval.plan().to_plan(alloc)?;
    Ok((full_check(alloc, inst, &plan)?, full_cost(inst, &plan)))
}

/// The scheduled row of a leg, one minute later.
fn minute_later(inst: &Instance, leg: Leg) -> Row
    requires { leg.0 < legs_of inst.now }
    ensures { IsRowOf (planes_of inst.now) result }
{
    let scheduled = inst.leg(leg);
    Row::Flown {
        plane: scheduled.plane,
        dep: Minute(scheduled.sched.0 + 1),
    }
}

/// Has a leg depart a minute later than scheduled, reports what is said then, and takes that back. It is an
/// error where that is to be the same from scratch, and is not.
fn later_and_back<L: Ledger>(
    alloc: Global,
    eval: &mut Evaluator,
    leg: Leg,
    from_scratch: bool,
    steps: &mut Steps<L>,
) -> Result<Said, Fail> {
    if leg.0 >= eval.instance().legs() {
        return Err(Fail::new("the day has not so many legs"));
    }
    if eval.depth() > 0 {
        return Err(Fail::new("a change was not taken back"));
    }
    let row = minute_later(eval.instance(), leg);
    eval.set_row(alloc, leg, row, steps)?;
    let later = said(eval);
    if from_scratch && later != said_anew(alloc, eval)? {
        return Err(Fail::new("the evaluator and the rules differ"));
    }
    eval.back();
    Ok(later)
}

/// What is said of each leg a minute later, which is what the rules and the prices say from scratch.
fn first_answers<L: Ledger>(
    alloc: Global,
    eval: &mut Evaluator,
    steps: &mut Steps<L>,
) -> Result<Vec<Said>, Fail> {
    let mut answers = Vec::new(alloc);
    for x in 0..LEGS {
        answers.push(later_and_back(alloc, eval, Leg(x), true, steps)?)?;
    }
    Ok(answers)
}

/// Makes the changes from the first ones on up to so many, one leg after another again and again, and compares
/// what is said with these answers.
fn change_again<L: Ledger>(
    alloc: Global,
    eval: &mut Evaluator,
    answers: &[Said],
    changes: u32,
    steps: &mut Steps<L>,
) -> Result<(), Fail> {
    for n in LEGS..changes {
        let x = n % LEGS;
        let later = later_and_back(alloc, eval, Leg(x), false, steps)?;
        match answers.get(x as usize) {
            Some(first) if *first == later => {}
            _ => return Err(Fail::new("a leg's change is answered otherwise than before")),
        }
    }
    Ok(())
}

/// Makes so many changes. Before them and after them what is said is what the rules and the prices say.
fn change_and_back<L: Ledger>(
    blank: Blank,
    alloc: Global,
    eval: &mut Evaluator,
    changes: u32,
) -> Result<(), Fail>
    requires name { blank.name ≡ L.name }
    requires parts { blank.parts ≡ L.parts }
    requires some { 0 < blank.parts }
{
    let mut steps = Steps::<L>::new(blank);
    let scheduled = said_anew(alloc, eval)?;
    let answers = first_answers(alloc, eval, &mut steps)?;
    change_again(alloc, eval, answers.as_slice(), changes, &mut steps)?;
    if said(eval) != scheduled || said_anew(alloc, eval)? != scheduled {
        return Err(Fail::new("the schedule is not as it was"));
    }
    Ok(())
}

/// The evaluator of a day's schedule.
pub(super) fn on_schedule(alloc: Global, inst: Instance) -> Result<Evaluator, NoMem> {
    let plan = inst.schedule(alloc)?;
    Evaluator::open(alloc, inst, &plan)
}

/// Makes so many changes of an evaluator on the schedule of the day of seed 1 and size 40.
fn changed_on_largest_day(alloc: Global, changes: u32) -> Result<(), Fail> {
    let mut eval = on_schedule(alloc, made_up(alloc, 1, 40)?)?;
    change_and_back::<Brand>(Blank::new(1), alloc, &mut eval, changes)
}

#[test]
fn a_million_changes_are_answered_and_taken_back(rt: HostRuntime) -> Result<(), Fail> {
    changed_on_largest_day(rt.alloc(), CHANGES)
}

/// What the test of a million changes does besides: `bench/changes.py` takes its time off.
#[test]
fn the_first_changes_are_judged_from_scratch(rt: HostRuntime) -> Result<(), Fail> {
    changed_on_largest_day(rt.alloc(), LEGS)
}
