//! What the rows and the groups of a plan are read from.

ghost use Rattle.std.specs.Prelude.{◌≡◌, ◌<◌, length};
ghost use Rattle.desk_data.specs.PlanRows.{AreGroups, IsRow, PlanRows, groups_at, row_at};

use desk_data::{Group, Leg, Plan, Res, Row};

/// What has the rows and the groups of a plan. No step is counted.
pub trait ReadPlan {
    /// The plan that is read.
    ghost plan_of: { Self → PlanRows };

    /// The row of a leg.
    fn read_row(&self, leg: Leg) -> Row
        requires { leg.0 < length (plan_of self.now).rows }
        ensures row { result ≡ row_at (plan_of self.now) leg.0 }
        ensures departs { IsRow result };

    /// The groups of a reservation, ascending by path.
    fn groups(&self, res: Res) -> &[Group]
        requires { res.0 < length (plan_of self.now).groups }
        ensures groups { result.now ≡ groups_at (plan_of self.now) res.0 }
        ensures sound { AreGroups result.now };
}

impl ReadPlan for Plan {
    ghost plan_of = { λ plan. plan };

    fn read_row(&self, leg: Leg) -> Row {
        Plan::read_row(self, leg)
    }

    fn groups(&self, res: Res) -> &[Group] {
        Plan::groups(self, res)
    }
}
