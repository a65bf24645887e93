//! Tests of plans that share pages: each shows its own changes and no other's, in whatever order they are
//! made, taken back and dropped.

ghost use Rattle.std.specs.Prelude.{◌≡◌, ◌<◌, [], length, replicate, IfOk};
ghost use Rattle.desk_data.specs.declared.row.Row.TheVariants.{Cancelled};
ghost use Rattle.desk_data.specs.PlanRows.{IsRow};

use desk_data::{Leg, Minute, NoMem, Plan, Plane, Row};
use plan_pages::{Pages, drop_version};
use std::alloc::Global;
use std::test::Fail;

/// How many legs the plan has: three pages, the last of them short.
const LEGS: u32 = 40;

/// The rows of cancelled legs.
fn cancelled_rows(alloc: Global) -> Result<Vec<Row>, NoMem>
    ensures { IfOk result (λ rows. rows.items ≡ replicate 40 Cancelled) }
{
    let rows = vec![in alloc; Row::Cancelled; LEGS as usize]?;
    Ok(rows)
}

/// A plan of cancelled legs, with no reservation.
fn cancelled(alloc: Global) -> Result<Pages, NoMem>
    ensures { IfOk result (λ pages. length pages.rows ≡ 40) }
{
    let plan = Plan::of(cancelled_rows(alloc)?, Vec::new(alloc));
    Pages::from_plan(alloc, plan, 0)
}

/// The row of a leg that an aircraft flies.
fn flown(plane: u32) -> Row
    ensures { IsRow result }
{
    Row::Flown {
        plane: Plane(plane),
        dep: Minute(60),
    }
}

/// Which aircraft fly legs 15, 16 and 17 in a version; 0 where none does. 15 stands on another page than the others.
fn fliers(alloc: Global, pages: &Pages) -> Result<[u32; 3], NoMem> {
    let plan = pages.to_plan(alloc)?;
    let rows = plan.rows();
    Ok([flier(rows, 15), flier(rows, 16), flier(rows, 17)])
}

/// Which aircraft flies a leg; 0 where none does.
fn flier(rows: &[Row], leg: usize) -> u32 {
    match rows.get(leg) {
        Some(Row::Flown { plane, .. }) => plane.0,
        _ => 0,
    }
}

/// Has an aircraft fly a leg.
fn fly(alloc: Global, pages: &mut Pages, leg: Leg, plane: u32) -> Result<(), NoMem>
    requires { leg.0 < length pages.old.rows }
{
    let _stood = pages.replace_row(alloc, leg, flown(plane))?;
    Ok(())
}

/// Whether a version shows that leg 17 was changed, and that it was not once that is taken back.
fn shows_change_and_back(alloc: Global, pages: &mut Pages) -> Result<bool, NoMem>
    requires { 17 < length pages.old.rows }
{
    let page = pages.replace_row(alloc, Leg(17), flown(2))?;
    let changed = fliers(alloc, pages)?;
    pages.put_back(page);
    let back = fliers(alloc, pages)?;
    Ok(changed == [0, 0, 2] && back == [0, 0, 0])
}

/// Whether each of two versions shows its own rows alone, where the first changes leg 15, and the second one leg 17 and back.
fn both_show_their_own(alloc: Global, first: &mut Pages, second: &mut Pages) -> Result<bool, NoMem>
    requires first { 15 < length first.old.rows }
    requires second { 17 < length second.old.rows }
{
    fly(alloc, first, Leg(15), 1)?;
    let is_own = shows_change_and_back(alloc, second)?;
    Ok(is_own && fliers(alloc, first)? == [1, 0, 0])
}

/// The same of two versions that share pages.
fn sharers_show_their_own(alloc: Global) -> Result<bool, NoMem> {
    let mut first = cancelled(alloc)?;
    let mut second = first.share(alloc)?;
    both_show_their_own(alloc, &mut first, &mut second)
}

/// Of two versions that share pages one changes leg 15, and the other one leg 17 and back.
#[test]
fn each_version_shows_its_own_rows(rt: HostRuntime) -> Result<(), Fail> {
    if sharers_show_their_own(rt.alloc())? {
        Ok(())
    } else {
        Err(Fail::new("a version shows another row"))
    }
}

/// A version that shares the pages of a plan, in which an aircraft flies leg 16.
fn flown_by(alloc: Global, pages: &Pages, plane: u32) -> Result<Pages, NoMem>
    requires { 16 < length pages.now.rows }
{
    let mut version = pages.share(alloc)?;
    fly(alloc, &mut version, Leg(16), plane)?;
    Ok(version)
}

/// Three versions of one plan, whose leg 16 is flown by aircraft 1, 2 and 3.
fn three_versions(alloc: Global) -> Result<Vec<Pages>, NoMem> {
    let plan = cancelled(alloc)?;
    let mut versions = Vec::new(alloc);
    for plane in 1..4 {
        versions.push(flown_by(alloc, &plan, plane)?)?;
    }
    Ok(versions)
}

/// Who flies leg 16 in the version that is left of three, once the one at a place and then one of the other two are
/// dropped; 0 where not one is left.
fn flier_left(alloc: Global, first: usize, second: usize) -> Result<u32, NoMem> {
    let mut versions = three_versions(alloc)?;
    for which in [first, second] {
        if which < versions.len() {
            drop_version(&mut versions, which);
        }
    }
    match versions.as_slice() {
        [left] => {
            let [_, of_leg_16, _] = fliers(alloc, left)?;
            Ok(of_leg_16)
        }
        _ => Ok(0),
    }
}

/// Three versions are dropped in each order that there is, and the last one shows its own row.
#[test]
fn versions_are_dropped_in_any_order(rt: HostRuntime) -> Result<(), Fail> {
    let alloc = rt.alloc();
    for (first, second, flier) in [
        (0, 0, 3),
        (0, 1, 2),
        (1, 0, 3),
        (1, 1, 1),
        (2, 0, 2),
        (2, 1, 1),
    ] {
        if flier_left(alloc, first, second)? != flier {
            return Err(Fail::new("a version that is left shows another row"));
        }
    }
    Ok(())
}

/// What threads can be handed, and can share.
fn crosses_threads<T: Send + Sync>(_value: &T) {}

#[test]
fn pages_cross_threads(rt: HostRuntime) -> Result<(), Fail> {
    let pages = cancelled(rt.alloc())?;
    crosses_threads(&pages);
    Ok(())
}
