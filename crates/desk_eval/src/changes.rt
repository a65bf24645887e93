//! One change of an evaluator. An evaluator's change wants a counter; `Brand` gives one that nobody asks.

ghost use Rattle.std.specs.Prelude.{◌≡◌, ◌<◌, OnOk, length};
ghost use Rattle.std.specs.Option.{ForSome};
ghost use Rattle.desk_data.specs.Situation.{legs_of, planes_of, reservations_of, res_at};
ghost use Rattle.desk_data.specs.PlanRows.{AreGroups, groups_at, with_groups, with_row};
ghost use Rattle.desk_data.specs.Valid.{AreGroupsOf, IsRowOf};
ghost use Rattle.plan_reads.specs.Made.{AreWhole, groups_or};
ghost use Rattle.desk_eval.specs.Back.{IsAfter};

use crate::Evaluator;
use desk_data::{Group, Leg, NoMem, Res, Row, Steps};
use std::alloc::Global;
use std::marker::Brand;
use std::sync::ledger::{Blank, Ledger};

/// Gives a leg a row, where it has another one.
pub(crate) fn set_row(alloc: Global, eval: &mut Evaluator, leg: Leg, row: Row) -> Result<(), NoMem>
    requires leg { leg.0 < legs_of eval.old.inst }
    requires row { IsRowOf (planes_of eval.old.inst) row }
    requires depth { length eval.old.past < 2000000000 }
    ensures rows { OnOk result (eval.new.rows ≡ with_row eval.old.rows leg.0 row) }
    ensures after { IsAfter 1 eval.old eval.new }
{
    if eval.plan().read_row(leg) == row {
        Ok(())
    } else {
        set_counted_row::<Brand>(Blank::new(1), alloc, eval, leg, row)
    }
}

/// Gives a reservation the groups that were made for it, if any were.
pub(crate) fn set_groups(
    alloc: Global,
    eval: &mut Evaluator,
    res: Res,
    made: Option<Vec<Group>>,
) -> Result<(), NoMem>
    requires res { res.0 < reservations_of eval.old.inst }
    requires whole { ForSome made (λ g. AreWhole eval.old.inst res.0 g.items) }
    requires depth { length eval.old.past < 2000000000 }
    ensures rows { OnOk result (eval.new.rows ≡ with_groups eval.old.rows res.0 (groups_or (groups_at eval.old.rows res.0) made)) }
    ensures after { IsAfter 1 eval.old eval.new }
{
    match made {
        Some(groups) => set_counted_groups::<Brand>(Blank::new(1), alloc, eval, res, groups),
        None => Ok(()),
    }
}

fn set_counted_row<L: Ledger>(
    blank: Blank,
    alloc: Global,
    eval: &mut Evaluator,
    leg: Leg,
    row: Row,
) -> Result<(), NoMem>
    requires name { blank.name ≡ L.name }
    requires parts { blank.parts ≡ L.parts }
    requires some { 0 < blank.parts }
    requires leg { leg.0 < legs_of eval.old.inst }
    requires row { IsRowOf (planes_of eval.old.inst) row }
    requires depth { length eval.old.past < 2000000000 }
    ensures rows { OnOk result (eval.new.rows ≡ with_row eval.old.rows leg.0 row) }
    ensures after { IsAfter 1 eval.old eval.new }
{
    let mut reads = Steps::<L>::new(blank);
    match eval.set_row(alloc, leg, row, &mut reads) {
        Ok(_) => Ok(()),
        Err(error) => Err(error),
    }
}

fn set_counted_groups<L: Ledger>(
    blank: Blank,
    alloc: Global,
    eval: &mut Evaluator,
    res: Res,
    groups: Vec<Group>,
) -> Result<(), NoMem>
    requires name { blank.name ≡ L.name }
    requires parts { blank.parts ≡ L.parts }
    requires some { 0 < blank.parts }
    requires res { res.0 < reservations_of eval.old.inst }
    requires groups { AreGroups groups.items }
    requires passengers { AreGroupsOf (legs_of eval.old.inst) (res_at eval.old.inst res.0).count groups.items }
    requires depth { length eval.old.past < 2000000000 }
    ensures rows { OnOk result (eval.new.rows ≡ with_groups eval.old.rows res.0 groups.items) }
    ensures after { IsAfter 1 eval.old eval.new }
{
    let mut reads = Steps::<L>::new(blank);
    match eval.set_groups(alloc, res, groups, &mut reads) {
        Ok(_) => Ok(()),
        Err(error) => Err(error),
    }
}
