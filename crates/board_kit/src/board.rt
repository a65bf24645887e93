//! What a board of a plan is.

ghost use Rattle.std.specs.Prelude.{◌+◌, ◌<◌, ◌≤◌, List as Items, IfOk, OnOk, OnErr};
ghost use Rattle.desk_data.specs.PlanRows.{PlanRows, AreGroups, with_row, with_groups};
ghost use Rattle.desk_data.specs.Situation.{Situation, legs_of, planes_of, reservations_of, res_at};
ghost use Rattle.desk_data.specs.Valid.{AreGroupsOf, IsPlanFor, IsRowOf};
ghost use Rattle.board_kit.specs.Boards.{IsReady, CanGoBack, IsChanged, IsUnchanged, IsTakenBack, HasNoPast, IsDepth};

use desk_data::{Group, Instance, Leg, NoMem, Res, Row, Steps};
use plan_pages::Pages;
use std::alloc::Global;
use std::sync::ledger::Ledger;

/// What is kept of a plan while it changes place by place, with its past, so that changes are taken back.
/// It holds neither the instance nor the plan: contracts say of which it is the board.
pub trait Board: Drop {
    ghost use Rattle.std.specs.Prelude.{ℕ, List as Items};
    ghost use Rattle.desk_data.specs.declared.row.Group.{Group};
    ghost use Rattle.desk_data.specs.PlanRows.{PlanRows};
    ghost use Rattle.desk_data.specs.Situation.{Situation};

    /// Whether it is the board of a plan of an instance, and its past the plans, the last first.
    ghost is_board_of: { Situation → PlanRows → Items PlanRows → Self → Type 0 };

    /// How many rows of the plan a change of a leg's row reads at most.
    ghost row_reads: { PlanRows → ℕ → ℕ };

    /// How many a change of a reservation's groups reads at most.
    ghost group_reads: { PlanRows → ℕ → Items Group → ℕ };

    /// A board of the same plan, with an empty past. What is kept is copied as it stands: nothing is judged or
    /// worked out anew, and no row of the plan is read. The board itself stays as it is. The only error is out
    /// of memory.
    fn copy(&self, alloc: Global) -> Result<Self, NoMem>
        ensures { IfOk result (λ copy. HasNoPast is_board_of self.now copy) };

    /// How many changes can be taken back: the length of the past, at most 2,000,000,000.
    fn depth(&self) -> u32
        ensures limit { result ≤ 2000000000 }
        ensures plans { IsDepth is_board_of result self.now };

    /// Gives a leg another row. The plan is that of the board, before the change; its rows are read
    /// under `steps`. The past, which has fewer than 2,000,000,000 changes, grows by one. After an
    /// error, which is out of memory, the board is still that of the plan.
    fn set_row<L: Ledger>(
        &mut self,
        alloc: Global,
        inst: &Instance,
        plan: &Pages,
        leg: Leg,
        row: Row,
        steps: &mut Steps<L>,
    ) -> Result<(), NoMem>
        requires plan { IsPlanFor inst.now plan.now }
        requires leg { leg.0 < legs_of inst.now }
        requires row { IsRowOf (planes_of inst.now) row }
        requires ready { IsReady (is_board_of inst.now plan.now) self.old }
        ensures ok { OnOk result (IsChanged is_board_of inst.now plan.now (with_row plan.now leg.0 row) self.old self.new) }
        ensures err { OnErr result (IsUnchanged is_board_of inst.now plan.now self.old self.new) }
        ensures reads { steps.new ≤ steps.old + row_reads plan.now leg.0 };

    /// Gives a reservation other groups. The plan is that of the board, before the change; its rows are
    /// read under `steps`. The past, which has fewer than 2,000,000,000 changes, grows by one. After an
    /// error, which is out of memory, the board is still that of the plan.
    fn set_groups<L: Ledger>(
        &mut self,
        alloc: Global,
        inst: &Instance,
        plan: &Pages,
        res: Res,
        groups: &[Group],
        steps: &mut Steps<L>,
    ) -> Result<(), NoMem>
        requires plan { IsPlanFor inst.now plan.now }
        requires res { res.0 < reservations_of inst.now }
        requires groups { AreGroups groups.now }
        requires passengers { AreGroupsOf (legs_of inst.now) (res_at inst.now res.0).count groups.now }
        requires ready { IsReady (is_board_of inst.now plan.now) self.old }
        ensures ok { OnOk result (IsChanged is_board_of inst.now plan.now (with_groups plan.now res.0 groups.now) self.old self.new) }
        ensures err { OnErr result (IsUnchanged is_board_of inst.now plan.now self.old self.new) }
        ensures reads { steps.new ≤ steps.old + group_reads plan.now res.0 groups.now };

    /// Takes the last change back: the board is that of the plan and the past from before it. The past
    /// is not empty. It takes no memory.
    fn back(&mut self)
        requires { CanGoBack is_board_of self.old }
        ensures { IsTakenBack is_board_of self.old self.new };

    /// Empties the past, so that what was changed is not taken back any more. It takes no memory.
    fn forget(&mut self)
        ensures { HasNoPast is_board_of self.old self.new };
}
