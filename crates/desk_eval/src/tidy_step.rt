//! Tidy: passengers on paths that break a rule are no longer carried.

ghost use Rattle.std.specs.Prelude.{◌≡◌, ◌<◌, OnOk, length};
ghost use Rattle.desk_data.specs.Situation.{reservations_of};
ghost use Rattle.desk_data.specs.PlanRows.{with_groups};
ghost use Rattle.desk_model.specs.Tidy.{after_tidy, groups_after_tidy};
ghost use Rattle.desk_eval.specs.Back.{IsAfter};

use crate::Evaluator;
use crate::changes::set_groups;
use crate::sizes::reservation_count;
use desk_data::{NoMem, Res};
use plan_reads::groups_after_tidy;
use std::alloc::Global;

/// Takes a Tidy. No row changes, and a reservation keeps its groups until its turn, so that each is judged
/// as in the plan at the step's start. Those that break no rule of paths stay as they are, and none of their
/// paths is judged. After an error, which is out of memory, some reservations may be tidy.
pub(crate) fn tidy_step(alloc: Global, eval: &mut Evaluator) -> Result<(), NoMem>
    requires depth { length eval.old.past < 1950000000 }
    ensures rows { OnOk result (eval.new.rows ≡ after_tidy eval.old.inst eval.old.rows) }
    ensures after { IsAfter 100000 eval.old eval.new }
{
    // the plan is one for the instance; no reservation is tidied twice, and there are at most 100,000
    let _ = eval.plan();
    let _ = reservation_count(eval);
    let broken = eval.broken_reservations(alloc)?;
    for res in &broken {
        tidy_reservation(alloc, eval, *res)?;
    }
    Ok(())
}

/// Tidies a reservation.
fn tidy_reservation(alloc: Global, eval: &mut Evaluator, res: Res) -> Result<(), NoMem>
    requires res { res.0 < reservations_of eval.old.inst }
    requires depth { length eval.old.past < 2000000000 }
    ensures rows { OnOk result (eval.new.rows ≡ with_groups eval.old.rows res.0 (groups_after_tidy eval.old.inst eval.old.rows res.0)) }
    ensures after { IsAfter 1 eval.old eval.new }
{
    let made = groups_after_tidy(alloc, eval.instance(), eval.plan(), res)?;
    set_groups(alloc, eval, res, made)
}
