//! The row of a leg after some changes.

ghost use Rattle.std.specs.Prelude.{◌≡◌, ◌<◌};
ghost use Rattle.desk_data.specs.PlanRows.{row_at};
ghost use Rattle.desk_data.specs.Situation.{legs_of, planes_of};
ghost use Rattle.desk_data.specs.Valid.{IsRowOf};
ghost use Rattle.near_draft.specs.Drafts.{AreChanges, drafted};
ghost use Rattle.near_draft.specs.Kept.{AreMarked};

use crate::base::Base;
use crate::change::Change;
use desk_data::{Leg, Row};

/// How many marks there are: legs whose numbers are alike but for a multiple of it have one mark.
pub(crate) const MARKS: usize = 64;

/// The row of a leg after some changes of a plan: that of its last change, if it has one. Legs without a
/// mark have none.
pub(crate) fn row_after(base: &Base, changes: &[Change], marks: &[bool; MARKS], leg: Leg) -> Row
    requires changes { AreChanges base.now.inst base.now.rows changes.now }
    requires marks { AreMarked changes.now marks.now }
    requires leg { leg.0 < legs_of base.now.inst }
    ensures row { result ≡ row_at (drafted base.now.rows changes.now) leg.0 }
    ensures fits { IsRowOf (planes_of base.now.inst) result }
{
    let plan = base.plan();
    if !marks[leg.0 as usize % MARKS] {
        return plan.read_row(leg);
    }
    let mut place = changes.len();
    while place > 0 {
        place -= 1;
        if changes[place].leg.0 == leg.0 {
            return changes[place].row;
        }
    }
    plan.read_row(leg)
}
