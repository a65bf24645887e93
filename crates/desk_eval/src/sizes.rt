//! How many legs and reservations an evaluator's plan has.

ghost use Rattle.std.specs.Prelude.{◌≡◌, ◌≤◌, length};
ghost use Rattle.desk_data.specs.Situation.{legs_of, reservations_of};

use crate::Evaluator;

/// How many legs the plan has: those of the instance, at most 20,000.
pub(crate) fn leg_count(eval: &Evaluator) -> u32
    ensures rows { result ≡ length eval.now.rows.rows }
    ensures legs { result ≡ legs_of eval.now.inst }
    ensures limit { result ≤ 20000 }
{
    let _ = eval.plan();
    eval.instance().legs()
}

/// How many reservations the plan has: those of the instance, at most 100,000.
pub(crate) fn reservation_count(eval: &Evaluator) -> u32
    ensures groups { result ≡ length eval.now.rows.groups }
    ensures reservations { result ≡ reservations_of eval.now.inst }
    ensures limit { result ≤ 100000 }
{
    let _ = eval.plan();
    eval.instance().reservations()
}
