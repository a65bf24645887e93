//! Refill: passengers who are not carried go back to their scheduled path, as far as it has seats.

ghost use Rattle.std.specs.Prelude.{◌≡◌, ◌<◌, OnOk, length};
ghost use Rattle.desk_data.specs.Situation.{legs_of, reservations_of};
ghost use Rattle.desk_model.specs.Refill.{after_refill, after_refilling};
ghost use Rattle.desk_eval.specs.Back.{IsAfter};

use crate::Evaluator;
use crate::changes::set_groups;
use crate::sizes::reservation_count;
use desk_data::{Leg, NoMem, Res};
use plan_reads::groups_after_refill;
use std::alloc::Global;

/// Takes a Refill: one reservation after another, each in the plan as those before it left it. Those that
/// did not book the leg stay as they are, and none of their groups is looked at. After an error, which is out of memory,
/// some reservations may be refilled.
pub(crate) fn refill_step(alloc: Global, eval: &mut Evaluator, leg: Leg) -> Result<(), NoMem>
    requires leg { leg.0 < legs_of eval.old.inst }
    requires depth { length eval.old.past < 1950000000 }
    ensures rows { OnOk result (eval.new.rows ≡ after_refill eval.old.inst eval.old.rows leg.0) }
    ensures after { IsAfter 100000 eval.old eval.new }
{
    // no reservation is refilled twice, and there are at most 100,000
    let _ = reservation_count(eval);
    let booked = eval.booked_on(alloc, leg)?;
    for res in &booked {
        refill_reservation(alloc, eval, leg, *res)?;
    }
    Ok(())
}

/// Refills a reservation.
fn refill_reservation(alloc: Global, eval: &mut Evaluator, leg: Leg, res: Res) -> Result<(), NoMem>
    requires leg { leg.0 < legs_of eval.old.inst }
    requires res { res.0 < reservations_of eval.old.inst }
    requires depth { length eval.old.past < 2000000000 }
    ensures rows { OnOk result (eval.new.rows ≡ after_refilling eval.old.inst leg.0 eval.old.rows res.0) }
    ensures after { IsAfter 1 eval.old eval.new }
{
    let made = groups_after_refill(alloc, eval.instance(), eval.plan(), &*eval, leg, res)?;
    set_groups(alloc, eval, res, made)
}
