//! The board of the cost, to which somebody lends who uses each leg.

use board_cost::CostBoard;
use board_kit::{Board, LegUsers};
use desk_data::{Group, Instance, Leg, NoMem, Res, Row, Steps};
use plan_pages::Pages;
use std::alloc::Global;
use std::sync::ledger::Ledger;

/// The board of the cost. For each change of a row it is lent a list of who uses each leg, made anew from the plan. How many
/// changes it can take back is counted here.
pub(super) struct LentCostBoard {
    pub cost: CostBoard,
    pub changes: u32,
}

/// Dropped in one call, so that a function that owns one proves it once, and not part by part.
impl Drop for LentCostBoard {
    fn drop(self) {
        let LentCostBoard {
            cost: _,
            changes: _,
        } = self;
    }
}

impl Board for LentCostBoard {
    ghost use Rattle.std.specs.Prelude.{◌+◌, ◌*◌, length};
    ghost use Rattle.desk_data.specs.PlanRows.{groups_at};
    ghost use Rattle.board_kit.specs.Users.{users};
    ghost use Rattle.board_cost.specs.Board.{IsBoardOf};
    ghost use Rattle.desk_tests.specs.Walks.{IsCounted};

    ghost is_board_of = { λ I P Ps lent. IsCounted (IsBoardOf I P Ps lent.cost) Ps lent.changes };

    /// The rows that the board reads.
    ghost row_reads = { λ P x. 8 + 10 * users P x };

    /// The rows that the board reads.
    ghost group_reads = { λ P r groups. 10 * (length (groups_at P r) + length groups) };

    /// Copies the board of the cost; the copy can take no change back.
    fn copy(&self, alloc: Global) -> Result<LentCostBoard, NoMem> {
        let cost = self.cost.copy(alloc)?;
        Ok(LentCostBoard { cost, changes: 0 })
    }

    /// How many changes can be taken back.
    fn depth(&self) -> u32 {
        self.changes.min(2_000_000_000)
    }

    /// Gives a leg another row.
    fn set_row<L: Ledger>(
        &mut self,
        alloc: Global,
        inst: &Instance,
        plan: &Pages,
        leg: Leg,
        row: Row,
        steps: &mut Steps<L>,
    ) -> Result<(), NoMem> {
        let kept = LegUsers::open(alloc, inst, plan)?;
        self.cost.set_row(inst, plan, &kept, leg, row, steps)?;
        self.changes = self.changes.saturating_add(1);
        Ok(())
    }

    /// Gives a reservation other groups.
    fn set_groups<L: Ledger>(
        &mut self,
        _alloc: Global,
        inst: &Instance,
        plan: &Pages,
        res: Res,
        groups: &[Group],
        steps: &mut Steps<L>,
    ) -> Result<(), NoMem> {
        self.cost.set_groups(inst, plan, res, groups, steps)?;
        self.changes = self.changes.saturating_add(1);
        Ok(())
    }

    /// Takes the last change back.
    fn back(&mut self) {
        self.cost.back();
        self.changes = self.changes.saturating_sub(1);
    }

    /// Empties the past.
    fn forget(&mut self) {
        self.cost.forget();
        self.changes = 0;
    }
}
