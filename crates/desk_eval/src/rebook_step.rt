//! Rebook: passengers of a reservation go from one path to another.

ghost use Rattle.std.specs.Prelude.{◌≡◌, ◌<◌, OnOk, length};
ghost use Rattle.desk_data.specs.Situation.{legs_of, reservations_of};
ghost use Rattle.plan_moves.specs.Fits.{IsPathIn};
ghost use Rattle.desk_model.specs.Rebook.{after_rebook};
ghost use Rattle.desk_eval.specs.Back.{IsAfter};

use crate::Evaluator;
use crate::changes::set_groups;
use desk_data::{NoMem, Path, Res};
use plan_reads::groups_after_rebook;
use std::alloc::Global;

/// Takes a Rebook. After an error, which is out of memory, nothing has changed.
pub(crate) fn rebook_step(
    alloc: Global,
    eval: &mut Evaluator,
    res: Res,
    path: &Path,
    to: &Path,
    count: u32,
) -> Result<(), NoMem>
    requires res { res.0 < reservations_of eval.old.inst }
    requires path { IsPathIn (legs_of eval.old.inst) path.now }
    requires to { IsPathIn (legs_of eval.old.inst) to.now }
    requires depth { length eval.old.past < 1950000000 }
    ensures rows { OnOk result (eval.new.rows ≡ after_rebook eval.old.rows res.0 path.now to.now count) }
    ensures after { IsAfter 100000 eval.old eval.new }
{
    let (inst, plan) = (eval.instance(), eval.plan());
    let (path, to) = (path.as_slice(), to.as_slice());
    let made = groups_after_rebook(alloc, inst, plan, res, path, to, count)?;
    set_groups(alloc, eval, res, made)
}
