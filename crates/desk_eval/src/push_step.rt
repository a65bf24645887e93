//! Push: legs of an aircraft are placed anew, one by one, each in the plan as those before it left it.

ghost use Rattle.std.specs.Prelude.{◌≡◌, ◌<◌, OnOk, length};
ghost use Rattle.std.specs.Option.{ForSome};
ghost use Rattle.desk_data.specs.Situation.{legs_of, planes_of};
ghost use Rattle.desk_data.specs.PlanRows.{PlanRows};
ghost use Rattle.desk_model.specs.Push.{after_placing, after_push};
ghost use Rattle.hour_counts.specs.Placings.{AreLegs, IsPlacing};
ghost use Rattle.desk_eval.specs.Back.{IsAfter};

use crate::Evaluator;
use crate::changes::set_row;
use crate::sizes::leg_count;
use desk_data::{Leg, NoMem, Plane, Row};
use hour_counts::{Placing, first_departure, placings};
use std::alloc::Global;

/// Takes a Push. Which legs are placed, and which leg is before each, is that of the plan at the step's
/// start. The legs of the aircraft are walked over, and no others. After an error, which is out of memory,
/// legs may have been placed.
pub(crate) fn push_step(
    alloc: Global,
    eval: &mut Evaluator,
    plane: Plane,
    after: Option<Leg>,
) -> Result<(), NoMem>
    requires plane { plane.0 < planes_of eval.old.inst }
    requires after { ForSome after (λ leg. leg.0 < legs_of eval.old.inst) }
    requires depth { length eval.old.past < 1950000000 }
    ensures rows { OnOk result (eval.new.rows ≡ after_push eval.old.inst eval.old.rows plane.0 after) }
    ensures after { IsAfter 100000 eval.old eval.new }
{
    // no leg is placed twice, and there are at most 20,000
    let _ = leg_count(eval);
    let legs = eval.rotation(alloc, plane)?;
    let all = placings(alloc, eval.instance(), eval.plan(), legs.as_slice(), after)?;
    for placing in &all {
        place(alloc, eval, plane, placing)?;
    }
    Ok(())
}

/// Places a leg: it departs at the first moment at which it may, and keeps its row where there is none.
/// The plan at the step's start is any of which the leg before it is that.
fn place(alloc: Global, eval: &mut Evaluator, plane: Plane, placing: &Placing) -> Result<(), NoMem>
    requires plane { plane.0 < planes_of eval.old.inst }
    requires legs { AreLegs eval.old.inst placing.now }
    requires depth { length eval.old.past < 2000000000 }
    ensures rows { (start : PlanRows) → IsPlacing eval.old.inst start placing.now → OnOk result (eval.new.rows ≡ after_placing eval.old.inst start plane.0 eval.old.rows placing.now.leg.0) }
    ensures after { IsAfter 1 eval.old eval.new }
{
    match first_departure(eval.instance(), eval.plan(), &*eval, plane, placing) {
        Some(dep) => set_row(alloc, eval, placing.leg, Row::Flown { plane, dep }),
        None => Ok(()),
    }
}
