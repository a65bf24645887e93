//! A walk of any board.

ghost use Rattle.std.specs.Prelude.{◌≡◌, ◌<◌, [], length, IfOk, OnOk};
ghost use Rattle.std.specs.Option.{ForSome};
ghost use Rattle.desk_data.specs.Situation.{legs_of, reservations_of};
ghost use Rattle.desk_data.specs.Valid.{IsPlanFor};
ghost use Rattle.plan_reads.specs.Made.{AreWhole};
ghost use Rattle.desk_tests.specs.Walks.{IsWalk};

use super::days::{Orders, told};
use super::draws::{Draws, drawn_path, drawn_row};
use board_kit::Board;
use desk_data::{Group, Instance, Leg, NoMem, Plan, Res, Steps};
use plan_pages::Pages;
use plan_reads::{groups_after_rebook, groups_after_tidy};
use std::alloc::Global;
use std::marker::Brand;
use std::sync::ledger::{Blank, Ledger};
use std::test::Fail;

/// How many steps a walk has.
pub(super) const STEPS: u32 = 500;

/// A board that can be walked: what it says is compared with what the rules or the prices say from scratch.
pub(super) trait Walkable: Board {
    ghost use Rattle.std.specs.Prelude.{[], IfOk};
    ghost use Rattle.desk_data.specs.Valid.{IsPlanFor};

    /// The board of a plan, with no past.
    fn of(alloc: Global, inst: &Instance, plan: &Pages) -> Result<Self, NoMem>
        requires { IsPlanFor inst.now plan.now }
        ensures { IfOk result (λ board. Self.is_board_of inst.now plan.now [] board) };

    /// Whether the board says what is said of the plan from scratch.
    fn agrees(&self, alloc: Global, inst: &Instance, plan: &Plan) -> Result<bool, NoMem>
        requires { IsPlanFor inst.now plan.now };
}

/// A plan that changes, the plans before its changes, and a board of it.
pub(super) struct Walk<B> {
    board: B,
    pages: Pages,
    past: Vec<Pages>,
}

/// Dropped in one call, so that a function that owns one proves it once, and not part by part.
impl<B: Drop> Drop for Walk<B> {
    fn drop(self) {
        let Walk {
            board: _,
            pages: _,
            past: _,
        } = self;
    }
}

/// Gives a leg that is drawn another row.
fn change_row<B: Walkable, L: Ledger>(
    alloc: Global,
    inst: &Instance,
    walk: &mut Walk<B>,
    draws: &mut Draws,
    steps: &mut Steps<L>,
) -> Result<(), Fail>
    requires { IsWalk B.is_board_of inst.now walk.old.board walk.old.pages walk.old.past.items }
    ensures { OnOk result (IsWalk B.is_board_of inst.now walk.new.board walk.new.pages walk.new.past.items) }
{
    if inst.legs() == 0 || walk.past.len() > STEPS as usize {
        return Err(Fail::new("the day has no legs, or a walk is too long"));
    }
    let leg = Leg(draws.below(inst.legs()));
    let row = drawn_row(inst, leg, draws);
    let before = walk.pages.share(alloc)?;
    walk.past.push(before)?;
    walk.board
        .set_row(alloc, inst, &walk.pages, leg, row, steps)?;
    let _page = walk.pages.replace_row(alloc, leg, row)?;
    Ok(())
}

/// Gives a reservation the groups that were made for it, if any were.
fn put_groups<B: Walkable, L: Ledger>(
    alloc: Global,
    inst: &Instance,
    walk: &mut Walk<B>,
    res: Res,
    made: Option<Vec<Group>>,
    steps: &mut Steps<L>,
) -> Result<(), Fail>
    requires walk { IsWalk B.is_board_of inst.now walk.old.board walk.old.pages walk.old.past.items }
    requires res { res.0 < reservations_of inst.now }
    requires whole { ForSome made (λ groups. AreWhole inst.now res.0 groups.items) }
    requires few { length walk.old.past.items < 2000000000 }
    ensures { OnOk result (IsWalk B.is_board_of inst.now walk.new.board walk.new.pages walk.new.past.items) }
{
    match made {
        Some(groups) => {
            let before = walk.pages.share(alloc)?;
            walk.board
                .set_groups(alloc, inst, &walk.pages, res, groups.as_slice(), steps)?;
            let _page = walk.pages.replace_groups(alloc, res, groups)?;
            walk.past.push(before)?;
            Ok(())
        }
        None => Ok(()),
    }
}

/// The groups of a reservation once some of its passengers, who are drawn, go from one path to another, or all whose path breaks a rule
/// are carried no more; none where it keeps those that it has.
pub(super) fn drawn_groups(
    alloc: Global,
    inst: &Instance,
    pages: &Pages,
    res: Res,
    draws: &mut Draws,
) -> Result<Option<Vec<Group>>, NoMem>
    requires plan { IsPlanFor inst.now pages.now }
    requires legs { 0 < legs_of inst.now }
    requires res { res.0 < reservations_of inst.now }
    ensures { IfOk result (λ made. ForSome made (λ groups. AreWhole inst.now res.0 groups.items)) }
{
    if draws.below(3) == 0 {
        return groups_after_tidy(alloc, inst, pages, res);
    }
    let from = drawn_path(alloc, inst, res, draws)?;
    let to = drawn_path(alloc, inst, res, draws)?;
    let count = draws.below(4) + 1;
    groups_after_rebook(
        alloc,
        inst,
        pages,
        res,
        from.as_slice(),
        to.as_slice(),
        count,
    )
}

/// Gives a reservation that is drawn other groups, which are drawn too, if they make any.
fn change_groups<B: Walkable, L: Ledger>(
    alloc: Global,
    inst: &Instance,
    walk: &mut Walk<B>,
    draws: &mut Draws,
    steps: &mut Steps<L>,
) -> Result<(), Fail>
    requires { IsWalk B.is_board_of inst.now walk.old.board walk.old.pages walk.old.past.items }
    ensures { OnOk result (IsWalk B.is_board_of inst.now walk.new.board walk.new.pages walk.new.past.items) }
{
    if inst.legs() == 0 || inst.reservations() == 0 || walk.past.len() > STEPS as usize {
        return Err(Fail::new("the day has no passengers, or a walk is too long"));
    }
    let res = Res(draws.below(inst.reservations()));
    let made = drawn_groups(alloc, inst, &walk.pages, res, draws)?;
    put_groups(alloc, inst, walk, res, made, steps)
}

/// Takes the last change back, if there is one.
fn take_one_back<B: Walkable>(inst: &Instance, walk: &mut Walk<B>)
    requires { IsWalk B.is_board_of inst.now walk.old.board walk.old.pages walk.old.past.items }
    ensures { IsWalk B.is_board_of inst.now walk.new.board walk.new.pages walk.new.past.items }
{
    // only the contract speaks of the day
    let _ = inst;
    if let Some(before) = walk.past.pop() {
        walk.board.back();
        walk.pages = before;
    }
}

/// Takes so many of the last changes back, or all that there are.
fn take_back<B: Walkable>(inst: &Instance, walk: &mut Walk<B>, changes: u32)
    requires { IsWalk B.is_board_of inst.now walk.old.board walk.old.pages walk.old.past.items }
    ensures { IsWalk B.is_board_of inst.now walk.new.board walk.new.pages walk.new.past.items }
{
    for _ in 0..changes {
        take_one_back(inst, walk);
    }
}

/// Empties the past.
fn forget<B: Walkable>(inst: &Instance, walk: &mut Walk<B>)
    requires { IsWalk B.is_board_of inst.now walk.old.board walk.old.pages walk.old.past.items }
    ensures { IsWalk B.is_board_of inst.now walk.new.board walk.new.pages walk.new.past.items }
{
    // only the contract speaks of the day
    let _ = inst;
    walk.board.forget();
    walk.past.clear();
}

/// Goes on with a copy of the board, whose past is empty. The board itself is given up.
fn go_on_with_copy<B: Walkable>(
    alloc: Global,
    inst: &Instance,
    walk: &mut Walk<B>,
) -> Result<(), NoMem>
    requires { IsWalk B.is_board_of inst.now walk.old.board walk.old.pages walk.old.past.items }
    ensures { OnOk result (IsWalk B.is_board_of inst.now walk.new.board walk.new.pages walk.new.past.items) }
{
    // only the contract speaks of the day
    let _ = inst;
    let copy = walk.board.copy(alloc)?;
    walk.board = copy;
    walk.past.clear();
    Ok(())
}

/// Does a step of a walk, so many of 12 changes being of rows: mostly a change; one step in ten takes up to 19 of the last changes back,
/// one in forty forgets them, and one in forty goes on with a copy of the board.
fn step<B: Walkable, L: Ledger>(
    alloc: Global,
    inst: &Instance,
    walk: &mut Walk<B>,
    rows: u32,
    draws: &mut Draws,
    steps: &mut Steps<L>,
) -> Result<(), Fail>
    requires { IsWalk B.is_board_of inst.now walk.old.board walk.old.pages walk.old.past.items }
    ensures { OnOk result (IsWalk B.is_board_of inst.now walk.new.board walk.new.pages walk.new.past.items) }
{
    match draws.below(40) {
        0 => forget(inst, walk),
        1 => go_on_with_copy(alloc, inst, walk)?,
        2..=5 => take_back(inst, walk, draws.below(20)),
        _ if draws.below(12) < rows => change_row(alloc, inst, walk, draws, steps)?,
        _ => change_groups(alloc, inst, walk, draws, steps)?,
    }
    Ok(())
}

/// Whether the board says what is said of the plan from scratch, and its past is as long as that of the plan.
fn agrees<B: Walkable>(alloc: Global, inst: &Instance, walk: &Walk<B>) -> Result<bool, NoMem>
    requires { IsPlanFor inst.now walk.now.pages }
{
    let plan = walk.pages.to_plan(alloc)?;
    let is_as_long = walk.board.depth() as usize == walk.past.len();
    Ok(is_as_long && walk.board.agrees(alloc, inst, &plan)?)
}

/// After how many steps of a walk the board says something else than is said from scratch: `STEPS` where it never does.
fn agreed<B: Walkable, L: Ledger>(
    blank: Blank,
    alloc: Global,
    inst: &Instance,
    walk: &mut Walk<B>,
    seed: u64,
    rows: u32,
) -> Result<u32, Fail>
    requires walk { IsWalk B.is_board_of inst.now walk.old.board walk.old.pages walk.old.past.items }
    requires name { blank.name ≡ L.name }
    requires parts { blank.parts ≡ L.parts }
    requires some { 0 < blank.parts }
{
    let mut steps = Steps::<L>::new(blank);
    let mut draws = Draws { state: seed };
    for taken in 0..STEPS {
        step(alloc, inst, walk, rows, &mut draws, &mut steps)?;
        if !agrees(alloc, inst, walk)? {
            return Ok(taken);
        }
    }
    Ok(STEPS)
}

/// The walk of a board that begins with the schedule.
fn start_of<B: Walkable>(alloc: Global, inst: &Instance) -> Result<Walk<B>, Fail>
    ensures { IfOk result (λ walk. IsWalk B.is_board_of inst.now walk.board walk.pages walk.past.items) }
{
    let plan = inst.schedule(alloc)?;
    let pages = Pages::from_plan(alloc, plan, inst.reservations())?;
    Ok(Walk {
        board: B::of(alloc, inst, &pages)?,
        pages,
        past: Vec::new(alloc),
    })
}

/// After how many steps a walk on that day says something else than is said from scratch: `STEPS` where it never does.
pub(super) fn walked<B: Walkable>(
    alloc: Global,
    orders: Orders,
    seed: u64,
    rows: u32,
) -> Result<u32, Fail> {
    let inst = told(alloc, orders)?;
    let mut walk = start_of::<B>(alloc, &inst)?;
    agreed::<B, Brand>(Blank::new(1), alloc, &inst, &mut walk, seed, rows)
}
