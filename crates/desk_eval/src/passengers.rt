//! The boards of the passengers: their seats and paths, and what the plan costs.

use board_cost::CostBoard;
use board_kit::Board;
use board_seats::SeatBoard;
use desk_data::{Group, Instance, Leg, NoMem, Res, Row, Steps};
use plan_pages::Pages;
use std::alloc::Global;
use std::sync::ledger::Ledger;

/// The boards of the seats and of the cost, changed together. The list of who uses which leg is that of the
/// seats; it is lent to the cost.
pub(crate) struct PassengerBoards {
    /// The seats and the paths, C12 to C15, and who uses which leg.
    pub seats: SeatBoard,
    /// The sum of the six cost terms.
    pub cost: CostBoard,
}

/// Dropped in one call, so that a function that owns one proves it once, and not part by part.
impl Drop for PassengerBoards {
    fn drop(self) {
        let PassengerBoards { seats: _, cost: _ } = self;
    }
}

impl Board for PassengerBoards {
    ghost use Rattle.std.specs.Prelude.{◌+◌, ◌*◌, length};
    ghost use Rattle.desk_data.specs.PlanRows.{groups_at};
    ghost use Rattle.board_kit.specs.Users.{users};
    ghost use Rattle.board_kit.specs.Boards.{AreBoth};
    ghost use Rattle.board_seats.specs.Board.{IsBoardOf as IsSeatBoardOf};
    ghost use Rattle.board_cost.specs.Board.{IsBoardOf as IsCostBoardOf};

    /// Both are boards of the plan, with one past.
    ghost is_board_of = { λ I P Ps both. AreBoth (IsSeatBoardOf I P Ps both.seats) (IsCostBoardOf I P Ps both.cost) };

    /// The rows that both read.
    ghost row_reads = { λ P x. 8 + 18 * users P x };

    /// The rows that both read.
    ghost group_reads = { λ P r groups. 18 * (length (groups_at P r) + length groups) };

    /// Copies both.
    fn copy(&self, alloc: Global) -> Result<PassengerBoards, NoMem> {
        let seats = self.seats.copy(alloc)?;
        let cost = self.cost.copy(alloc)?;
        Ok(PassengerBoards { seats, cost })
    }

    /// The length of the past, which is one for both.
    fn depth(&self) -> u32 {
        self.seats.depth()
    }

    /// Changes both. Where the second finds no memory, the first takes its change back.
    fn set_row<L: Ledger>(
        &mut self,
        alloc: Global,
        inst: &Instance,
        plan: &Pages,
        leg: Leg,
        row: Row,
        steps: &mut Steps<L>,
    ) -> Result<(), NoMem> {
        let kept = self.seats.users();
        self.cost.set_row(inst, plan, kept, leg, row, steps)?;
        if let Err(error) = self.seats.set_row(alloc, inst, plan, leg, row, steps) {
            self.cost.back();
            return Err(error);
        }
        Ok(())
    }

    /// Changes both. Where the second finds no memory, the first takes its change back.
    fn set_groups<L: Ledger>(
        &mut self,
        alloc: Global,
        inst: &Instance,
        plan: &Pages,
        res: Res,
        groups: &[Group],
        steps: &mut Steps<L>,
    ) -> Result<(), NoMem> {
        self.cost.set_groups(inst, plan, res, groups, steps)?;
        if let Err(error) = self.seats.set_groups(alloc, inst, plan, res, groups, steps) {
            self.cost.back();
            return Err(error);
        }
        Ok(())
    }

    /// Takes the last change back on both.
    fn back(&mut self) {
        self.seats.back();
        self.cost.back();
    }

    /// Empties the past of both.
    fn forget(&mut self) {
        self.seats.forget();
        self.cost.forget();
    }
}
