//! Two boards as one.

use crate::board::Board;
use desk_data::{Group, Instance, Leg, NoMem, Res, Row, Steps};
use plan_pages::Pages;
use std::alloc::Global;
use std::sync::ledger::Ledger;

/// Two boards of one plan, changed together.
pub struct Both<A, B> {
    pub first: A,
    pub second: B,
}

/// Dropped in one call, so that a function that owns one proves it once, and not part by part.
impl<A: Drop, B: Drop> Drop for Both<A, B> {
    fn drop(self) {
        let Both {
            first: _,
            second: _,
        } = self;
    }
}

impl<A: Board, B: Board> Board for Both<A, B> {
    ghost use Rattle.board_kit.specs.Boards.{AreBoth};
    ghost use Rattle.std.specs.Prelude.{◌+◌};

    /// Both are boards of the plan, with one past.
    ghost is_board_of = { λ I P Ps both. AreBoth (A.is_board_of I P Ps both.first) (B.is_board_of I P Ps both.second) };

    /// The rows that both read.
    ghost row_reads = { λ P x. A.row_reads P x + B.row_reads P x };

    /// The rows that both read.
    ghost group_reads = { λ P r groups. A.group_reads P r groups + B.group_reads P r groups };

    /// Copies both.
    fn copy(&self, alloc: Global) -> Result<Both<A, B>, NoMem> {
        let first = self.first.copy(alloc)?;
        let second = self.second.copy(alloc)?;
        Ok(Both { first, second })
    }

    /// The length of the past, which is one for both.
    fn depth(&self) -> u32 {
        self.first.depth()
    }

    /// Changes both. Where the second finds no memory, the first takes its change back.
    fn set_row<L: Ledger>(
        &mut self,
        alloc: Global,
        inst: &Instance,
        plan: &Pages,
        leg: Leg,
        row: Row,
        steps: &mut Steps<L>,
    ) -> Result<(), NoMem> {
        self.first.set_row(alloc, inst, plan, leg, row, steps)?;
        if let Err(error) = self.second.set_row(alloc, inst, plan, leg, row, steps) {
            self.first.back();
            return Err(error);
        }
        Ok(())
    }

    /// Changes both. Where the second finds no memory, the first takes its change back.
    fn set_groups<L: Ledger>(
        &mut self,
        alloc: Global,
        inst: &Instance,
        plan: &Pages,
        res: Res,
        groups: &[Group],
        steps: &mut Steps<L>,
    ) -> Result<(), NoMem> {
        self.first
            .set_groups(alloc, inst, plan, res, groups, steps)?;
        if let Err(error) = self
            .second
            .set_groups(alloc, inst, plan, res, groups, steps)
        {
            self.first.back();
            return Err(error);
        }
        Ok(())
    }

    /// Takes the last change back on both.
    fn back(&mut self) {
        self.first.back();
        self.second.back();
    }

    /// Empties the past of both.
    fn forget(&mut self) {
        self.first.forget();
        self.second.forget();
    }
}
