//! The pages of another plan of the same day, which share what both plans have.

ghost use Rattle.std.specs.Prelude.{◌≡◌, ◌≢◌, ◌<◌, ℕ, length, OnOk};
ghost use Rattle.desk_data.specs.PlanRows.{IsRow, with_row, with_groups, groups_at};

use crate::pages::{Pages, taken_groups};
use crate::same::are_same_groups;
use desk_data::{Leg, NoMem, Plan, Res, Row};
use std::alloc::Global;

/// Gives each of so many legs the row that it has in a plan. A page on which no row is another stays shared.
pub(crate) fn put_rows(
    alloc: Global,
    pages: &mut Pages,
    plan: &Plan,
    legs: u32,
) -> Result<(), NoMem>
    requires plan { legs ≡ length plan.now.rows }
    requires pages { legs ≡ length pages.old.rows }
    ensures { OnOk result (pages.new ≡ record pages.old { rows = plan.now.rows }) }
{
    for x in 0..legs {
        put_row(alloc, pages, Leg(x), plan.read_row(Leg(x)))?;
    }
    Ok(())
}

/// Gives a leg a row. Where it has the same one, its page stays shared.
fn put_row(alloc: Global, pages: &mut Pages, leg: Leg, row: Row) -> Result<(), NoMem>
    requires leg { leg.0 < length pages.old.rows }
    requires row { IsRow row }
    ensures { OnOk result (pages.new ≡ with_row pages.old leg.0 row) }
{
    if pages.read_row(leg) != row {
        let _stood = pages.replace_row(alloc, leg, row)?;
    }
    Ok(())
}

/// Gives each of so many reservations the groups that it has in a plan, which is handed in. Those that are the same
/// stay shared, and no group is copied.
pub(crate) fn put_groups(
    alloc: Global,
    pages: &mut Pages,
    plan: Plan,
    reservations: u32,
) -> Result<(), NoMem>
    requires plan { reservations ≡ length plan.groups }
    requires pages { reservations ≡ length pages.old.groups }
    ensures { OnOk result (pages.new ≡ record pages.old { groups = plan.groups }) }
{
    let mut left = plan;
    for r in 0..reservations {
        move_groups(alloc, pages, &mut left, Res(r))?;
    }
    Ok(())
}

/// Gives a reservation the groups that it has in a plan. They are taken out of it, unless they are the same: then they
/// stay shared.
fn move_groups(alloc: Global, pages: &mut Pages, plan: &mut Plan, res: Res) -> Result<(), NoMem>
    requires pages { res.0 < length pages.old.groups }
    requires plan { res.0 < length plan.old.groups }
    ensures pages { OnOk result (pages.new ≡ with_groups pages.old res.0 (groups_at plan.old res.0)) }
    ensures long { length plan.new.groups ≡ length plan.old.groups }
    ensures others { (k : ℕ) → k ≢ res.0 → groups_at plan.new k ≡ groups_at plan.old k }
{
    if !are_same_groups(pages.groups(res), plan.groups(res)) {
        let groups = taken_groups(alloc, plan, res);
        let _stood = pages.replace_groups(alloc, res, groups)?;
    }
    Ok(())
}
