//! Swap: two aircraft fly each other's legs from a moment on.

ghost use Rattle.std.specs.Prelude.{◌≡◌, ◌<◌, IfOk, OnOk, length, map};
ghost use Rattle.desk_data.specs.Situation.{legs_of, planes_of};
ghost use Rattle.desk_data.specs.PlanRows.{row_at, with_row};
ghost use Rattle.desk_model.specs.Swap.{after_swap, other_plane, row_after_swap};
ghost use Rattle.desk_eval.specs.Back.{IsAfter};
ghost use Rattle.step_laws.specs.Swapped.{legs_of_both};

use crate::Evaluator;
use crate::changes::set_row;
use crate::sizes::leg_count;
use desk_data::{Leg, Minute, NoMem, Plane, Row};
use std::alloc::Global;

/// Two aircraft, and the moment from which they fly each other's legs.
#[derive(Clone, Copy)]
pub(crate) struct Exchange {
    pub first: Plane,
    pub second: Plane,
    pub at: Minute,
}

/// Takes a Swap. The legs of both aircraft are walked over, and no others. After an error, which is out of
/// memory, some legs may have gone over.
pub(crate) fn swap_step(
    alloc: Global,
    eval: &mut Evaluator,
    exchange: Exchange,
) -> Result<(), NoMem>
    requires first { exchange.first.0 < planes_of eval.old.inst }
    requires second { exchange.second.0 < planes_of eval.old.inst }
    requires depth { length eval.old.past < 1950000000 }
    ensures rows { OnOk result (eval.new.rows ≡ after_swap eval.old.rows exchange.first.0 exchange.second.0 exchange.at.0) }
    ensures after { IsAfter 100000 eval.old eval.new }
{
    // no leg goes over twice, and there are at most 20,000
    let _ = leg_count(eval);
    let legs = legs_of_both(alloc, eval, exchange)?;
    for leg in &legs {
        swap_leg(alloc, eval, exchange, *leg)?;
    }
    Ok(())
}

/// The legs of both aircraft, each once: those of the first in their order, then those of the second.
fn legs_of_both(alloc: Global, eval: &Evaluator, exchange: Exchange) -> Result<Vec<Leg>, NoMem>
    requires first { exchange.first.0 < planes_of eval.now.inst }
    requires second { exchange.second.0 < planes_of eval.now.inst }
    ensures { IfOk result (λ legs. map (λ leg. leg.0) legs.items ≡ legs_of_both eval.now.inst eval.now.rows exchange.first.0 exchange.second.0) }
{
    let mut legs = eval.rotation(alloc, exchange.first)?;
    if exchange.second.0 != exchange.first.0 {
        let others = eval.rotation(alloc, exchange.second)?;
        legs.extend_from_slice(others.as_slice())?;
    }
    Ok(legs)
}

/// Gives a leg its row after the swap.
fn swap_leg(alloc: Global, eval: &mut Evaluator, exchange: Exchange, leg: Leg) -> Result<(), NoMem>
    requires first { exchange.first.0 < planes_of eval.old.inst }
    requires second { exchange.second.0 < planes_of eval.old.inst }
    requires leg { leg.0 < legs_of eval.old.inst }
    requires depth { length eval.old.past < 2000000000 }
    ensures rows { OnOk result (eval.new.rows ≡ with_row eval.old.rows leg.0 (row_after_swap exchange.first.0 exchange.second.0 exchange.at.0 (row_at eval.old.rows leg.0))) }
    ensures after { IsAfter 1 eval.old eval.new }
{
    let row = row_after_swap(exchange, eval.plan().read_row(leg));
    set_row(alloc, eval, leg, row)
}

/// The row of a leg after the swap.
fn row_after_swap(exchange: Exchange, row: Row) -> Row
    ensures { result ≡ row_after_swap exchange.first.0 exchange.second.0 exchange.at.0 row }
{
    match row {
        Row::Flown { plane, dep } if exchange.at.0 <= dep.0 => Row::Flown {
            plane: other_plane(exchange, plane),
            dep,
        },
        _ => row,
    }
}

/// Of the two aircraft the one that another is not; a third is itself.
fn other_plane(exchange: Exchange, plane: Plane) -> Plane
    ensures { result.0 ≡ other_plane exchange.first.0 exchange.second.0 plane.0 }
{
    if plane.0 == exchange.first.0 {
        exchange.second
    } else if plane.0 == exchange.second.0 {
        exchange.first
    } else {
        plane
    }
}
