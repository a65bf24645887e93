//! Set: a leg gets another row where it has the one that the step names.

ghost use Rattle.std.specs.Prelude.{◌≡◌, ◌<◌, OnOk, length};
ghost use Rattle.desk_data.specs.Situation.{legs_of, planes_of};
ghost use Rattle.desk_data.specs.Valid.{IsRowOf};
ghost use Rattle.desk_rules.specs.Rows.{is_row};
ghost use Rattle.desk_model.specs.Steps.{after_set};
ghost use Rattle.desk_eval.specs.Back.{IsAfter};

use crate::Evaluator;
use crate::changes::set_row;
use desk_data::{Leg, NoMem, Row};
use std::alloc::Global;

/// Takes a Set. After an error, which is out of memory, nothing has changed.
pub(crate) fn set_step(
    alloc: Global,
    eval: &mut Evaluator,
    leg: Leg,
    was: Row,
    new: Row,
) -> Result<(), NoMem>
    requires leg { leg.0 < legs_of eval.old.inst }
    requires row { IsRowOf (planes_of eval.old.inst) new }
    requires depth { length eval.old.past < 1950000000 }
    ensures rows { OnOk result (eval.new.rows ≡ after_set eval.old.rows leg.0 was new) }
    ensures after { IsAfter 100000 eval.old eval.new }
{
    if is_row(eval.plan().read_row(leg), was) {
        set_row(alloc, eval, leg, new)
    } else {
        Ok(())
    }
}

/// Whether two rows are the same.
fn is_row(row: Row, other: Row) -> bool
    ensures { result ≡ is_row row other }
{
    match (row, other) {
        (Row::Flown { plane, dep }, Row::Flown { plane: by, dep: at }) => {
            plane.0 == by.0 && dep.0 == at.0
        }
        (Row::Cancelled, Row::Cancelled) => true,
        _ => false,
    }
}
