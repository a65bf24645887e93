//! Walks of an evaluator and a copy of it side by side: changes of one of them that are drawn, of rows and of passengers, some of which
//! are taken back or can be no more. After each what the evaluator says is what the rules and the prices say from scratch: so each of its
//! boards keeps up, that of the seats and that of the cost too. And the other one says what it said before.

ghost use Rattle.std.specs.Prelude.{◌≡◌, ◌<◌, length};
ghost use Rattle.std.specs.Option.{ForSome};
ghost use Rattle.desk_data.specs.Situation.{reservations_of};
ghost use Rattle.plan_reads.specs.Made.{AreWhole};

use super::changes::{on_schedule, said, said_anew};
use super::days::{Orders, made_up, told};
use super::draws::{Draws, drawn_row};
use super::walk::drawn_groups;
use desk_data::{Group, Instance, Leg, NoMem, Res, Steps};
use desk_eval::Evaluator;
use std::alloc::Global;
use std::marker::Brand;
use std::sync::ledger::{Blank, Ledger};
use std::test::Fail;

/// How many steps a walk has.
const STEPS: u32 = 500;

/// Walks: what the walks' day is told, or nothing where the day is generated; the seed of that day and of the draws; and how many of 12
/// changes are of rows and not of passengers. Where no row changes on a generated day, which has no orders, no rule of rows is broken,
/// so that the first broken item is of the passengers.
const WALKS: [(Option<Orders>, u32, u32); 15] = [
    (None, 1, 0),
    (Some(Orders::ToldLater), 2, 0),
    (None, 3, 1),
    (Some(Orders::ToldLater), 4, 1),
    (None, 5, 6),
    (Some(Orders::ToldLater), 6, 6),
    (None, 7, 12),
    (Some(Orders::ToldLater), 8, 12),
    (None, 9, 0),
    (None, 10, 0),
    (None, 11, 0),
    (None, 12, 0),
    (None, 21, 6),
    (Some(Orders::Told), 22, 10),
    (Some(Orders::Told), 23, 2),
];

/// The day of a walk.
fn day_of_walk(alloc: Global, orders: Option<Orders>, seed: u32) -> Result<Instance, Fail> {
    match orders {
        Some(orders) => told(alloc, orders),
        None => made_up(alloc, seed, 1),
    }
}

/// Gives a leg that is drawn another row.
fn change_row<L: Ledger>(
    alloc: Global,
    eval: &mut Evaluator,
    draws: &mut Draws,
    steps: &mut Steps<L>,
) -> Result<(), Fail> {
    let legs = eval.instance().legs();
    if legs == 0 || eval.depth() > STEPS {
        return Err(Fail::new("the day has no legs, or a walk is too long"));
    }
    let leg = Leg(draws.below(legs));
    let row = drawn_row(eval.instance(), leg, draws);
    eval.set_row(alloc, leg, row, steps)?;
    Ok(())
}

/// Gives a reservation the groups that were made for it, if any were.
fn put_groups<L: Ledger>(
    alloc: Global,
    eval: &mut Evaluator,
    res: Res,
    made: Option<Vec<Group>>,
    steps: &mut Steps<L>,
) -> Result<(), Fail>
    requires res { res.0 < reservations_of eval.old.inst }
    requires whole { ForSome made (λ groups. AreWhole eval.old.inst res.0 groups.items) }
    requires depth { length eval.old.past < 2000000000 }
{
    match made {
        Some(groups) => {
            eval.set_groups(alloc, res, groups, steps)?;
            Ok(())
        }
        None => Ok(()),
    }
}

/// Gives a reservation that is drawn other groups, which are drawn too, if they make any.
fn change_groups<L: Ledger>(
    alloc: Global,
    eval: &mut Evaluator,
    draws: &mut Draws,
    steps: &mut Steps<L>,
) -> Result<(), Fail> {
    let inst = eval.instance();
    if inst.legs() == 0 || inst.reservations() == 0 || eval.depth() > STEPS {
        return Err(Fail::new("the day has no passengers, or a walk is too long"));
    }
    let res = Res(draws.below(inst.reservations()));
    let made = drawn_groups(alloc, inst, eval.plan(), res, draws)?;
    put_groups(alloc, eval, res, made, steps)
}

/// Takes back so many of the last changes, or all that there are.
fn take_back(eval: &mut Evaluator, changes: u32) {
    for _ in 0..changes {
        if eval.depth() > 0 {
            eval.back();
        }
    }
}

/// Does a step of a walk, so many of 12 changes being of rows: mostly a change; of one in ten some of the last changes are taken back, and of one in forty none can be any
/// more.
fn step<L: Ledger>(
    alloc: Global,
    eval: &mut Evaluator,
    rows: u32,
    draws: &mut Draws,
    steps: &mut Steps<L>,
) -> Result<(), Fail> {
    match draws.below(40) {
        0 => eval.forget(),
        1..=4 => {
            let changes = draws.below(eval.depth() + 1);
            take_back(eval, changes);
        }
        _ if draws.below(12) < rows => change_row(alloc, eval, draws, steps)?,
        _ => change_groups(alloc, eval, draws, steps)?,
    }
    Ok(())
}

/// Whether an evaluator says what the rules and the prices say from scratch.
fn is_right(alloc: Global, eval: &Evaluator) -> Result<bool, NoMem> {
    Ok(said(eval) == said_anew(alloc, eval)?)
}

/// Has one evaluator go on for a step. Whether it then says what is said from scratch, and another one says what it did before.
fn leaves_the_other<L: Ledger>(
    alloc: Global,
    one: &mut Evaluator,
    other: &Evaluator,
    rows: u32,
    draws: &mut Draws,
    steps: &mut Steps<L>,
) -> Result<bool, Fail> {
    let before = said(other);
    step(alloc, one, rows, draws, steps)?;
    Ok(said(other) == before && is_right(alloc, one)? && is_right(alloc, other)?)
}

/// Has an evaluator or its copy, as is drawn, go on for a step, before one of which in forty the copy is made anew. Whether it then says
/// what is said from scratch, and the other one says what it did before.
fn take_turn<L: Ledger>(
    alloc: Global,
    eval: &mut Evaluator,
    copy: &mut Evaluator,
    rows: u32,
    draws: &mut Draws,
    steps: &mut Steps<L>,
) -> Result<bool, Fail> {
    if draws.below(40) == 0 {
        *copy = eval.copy(alloc)?;
    }
    if draws.below(2) == 0 {
        leaves_the_other(alloc, eval, copy, rows, draws, steps)
    } else {
        leaves_the_other(alloc, copy, eval, rows, draws, steps)
    }
}

/// After how many steps one of an evaluator and its copy said something else than is said from scratch, or did not leave the other as it was:
/// `STEPS` where they never did.
fn kept_apart<L: Ledger>(
    blank: Blank,
    alloc: Global,
    eval: &mut Evaluator,
    copy: &mut Evaluator,
    seed: u32,
    rows: u32,
) -> Result<u32, Fail>
    requires name { blank.name ≡ L.name }
    requires parts { blank.parts ≡ L.parts }
    requires some { 0 < blank.parts }
{
    let mut steps = Steps::<L>::new(blank);
    let mut draws = Draws {
        state: u64::from(seed),
    };
    for taken in 0..STEPS {
        if !take_turn(alloc, eval, copy, rows, &mut draws, &mut steps)? {
            return Ok(taken);
        }
    }
    Ok(STEPS)
}

/// The same of the evaluator of a day's schedule.
fn walked_apart(alloc: Global, orders: Option<Orders>, seed: u32, rows: u32) -> Result<u32, Fail> {
    let mut eval = on_schedule(alloc, day_of_walk(alloc, orders, seed)?)?;
    let mut copy = eval.copy(alloc)?;
    kept_apart::<Brand>(Blank::new(1), alloc, &mut eval, &mut copy, seed, rows)
}

#[test]
fn an_evaluator_and_its_copy_say_what_is_said_from_scratch(rt: HostRuntime) -> Result<(), Fail> {
    for (orders, seed, rows) in &WALKS {
        let apart = walked_apart(rt.alloc(), *orders, *seed, *rows)?;
        assert_eq!(rt; apart, STEPS, "walk {seed}");
    }
    Ok(())
}
