//! Swap in a draft: two aircraft fly each other's legs from a moment on.

ghost use Rattle.std.specs.Prelude.{◌≡◌, ◌<◌, ℕ, true, IfOk, OnOk, map};
ghost use Rattle.std.specs.Option.{ForSome};
ghost use Rattle.desk_data.specs.Situation.{legs_of, planes_of};
ghost use Rattle.desk_data.specs.PlanRows.{row_at, with_row};
ghost use Rattle.desk_data.specs.Valid.{IsRowOf};
ghost use Rattle.desk_model.specs.Swap.{after_swap, other_plane, row_after_swap};
ghost use Rattle.step_laws.specs.Swapped.{legs_of_both};
ghost use Rattle.near_draft.specs.Drafts.{plan_of};

use crate::draft::Draft;
use crate::legs::legs_in_order;
use desk_data::{Leg, Minute, NoMem, Plane, Row};
use std::alloc::Global;

/// Two aircraft, and the moment from which they fly each other's legs.
#[derive(Clone, Copy)]
pub(crate) struct Exchange {
    pub first: Plane,
    pub second: Plane,
    pub at: Minute,
}

/// Takes a Swap in a draft. It says no where the order of the legs of an aircraft is not known, or they are more than 64:
/// then the draft is of nothing known. The only error is out of memory.
pub(crate) fn swap_step(alloc: Global, draft: &mut Draft, exchange: Exchange) -> Result<bool, NoMem>
    requires first { exchange.first.0 < planes_of draft.old.inst }
    requires second { exchange.second.0 < planes_of draft.old.inst }
    ensures taken { IfOk result (λ taken. taken ≡ true → plan_of draft.new ≡ after_swap (plan_of draft.old) exchange.first.0 exchange.second.0 exchange.at.0) }
    ensures inst { draft.new.inst ≡ draft.old.inst }
    ensures rows { draft.new.rows ≡ draft.old.rows }
{
    // there are as many rows as legs
    let _ = draft.base();
    let Some(legs) = legs_of_both(alloc, &*draft, exchange)? else {
        return Ok(false);
    };
    for leg in &legs {
        swap_leg(draft, exchange, *leg)?;
    }
    Ok(true)
}

/// The legs of both aircraft, each once: those of the first in their order, then those of the second; `None` where an
/// order is not known, or one has more than 64 legs.
fn legs_of_both(alloc: Global, draft: &Draft, exchange: Exchange) -> Result<Option<Vec<Leg>>, NoMem>
    requires first { exchange.first.0 < planes_of draft.now.inst }
    requires second { exchange.second.0 < planes_of draft.now.inst }
    ensures { IfOk result (λ all. ForSome all (λ legs. map (λ leg. leg.0) legs.items ≡ legs_of_both draft.now.inst (plan_of draft.now) exchange.first.0 exchange.second.0)) }
{
    let Some(mut legs) = legs_in_order(alloc, draft, exchange.first)? else {
        return Ok(None);
    };
    if exchange.second.0 == exchange.first.0 {
        return Ok(Some(legs));
    }
    let Some(others) = legs_in_order(alloc, draft, exchange.second)? else {
        return Ok(None);
    };
    legs.extend_from_slice(others.as_slice())?;
    Ok(Some(legs))
}

/// Gives a leg its row after the swap.
fn swap_leg(draft: &mut Draft, exchange: Exchange, leg: Leg) -> Result<(), NoMem>
    requires first { exchange.first.0 < planes_of draft.old.inst }
    requires second { exchange.second.0 < planes_of draft.old.inst }
    requires leg { leg.0 < legs_of draft.old.inst }
    ensures plan { OnOk result (plan_of draft.new ≡ with_row (plan_of draft.old) leg.0 (row_after_swap exchange.first.0 exchange.second.0 exchange.at.0 (row_at (plan_of draft.old) leg.0))) }
    ensures inst { draft.new.inst ≡ draft.old.inst }
    ensures rows { draft.new.rows ≡ draft.old.rows }
{
    let row = row_after_swap(exchange, draft.row(leg));
    draft.set_row(leg, row)
}

/// The row of a leg after the swap.
fn row_after_swap(exchange: Exchange, row: Row) -> Row
    ensures row { result ≡ row_after_swap exchange.first.0 exchange.second.0 exchange.at.0 row }
    ensures fits { (n : ℕ) → exchange.first.0 < n → exchange.second.0 < n → IsRowOf n row → IsRowOf n result }
{
    match row {
        Row::Flown { plane, dep } if exchange.at.0 <= dep.0 => Row::Flown {
            plane: other_plane(exchange, plane),
            dep,
        },
        _ => row,
    }
}

/// Of the two aircraft the one that another is not; a third is itself.
fn other_plane(exchange: Exchange, plane: Plane) -> Plane
    ensures other { result.0 ≡ other_plane exchange.first.0 exchange.second.0 plane.0 }
    ensures within { (n : ℕ) → exchange.first.0 < n → exchange.second.0 < n → plane.0 < n → result.0 < n }
{
    if plane.0 == exchange.first.0 {
        exchange.second
    } else if plane.0 == exchange.second.0 {
        exchange.first
    } else {
        plane
    }
}
