//! What each board says, and the same from scratch.

use super::lent::LentCostBoard;
use super::walk::Walkable;
use board_cost::CostBoard;
use board_kit::SlotBoard;
use board_rot::RotBoard;
use board_seats::SeatBoard;
use desk_data::{Instance, NoMem, Plan};
use plan_checks::{full_cost, least_pax, least_rot, least_slots};
use plan_pages::Pages;
use std::alloc::Global;

impl Walkable for RotBoard {
    fn of(alloc: Global, inst: &Instance, plan: &Pages) -> Result<RotBoard, NoMem> {
        RotBoard::open(alloc, inst, plan)
    }

    /// The first item of C1 to C9.
    fn agrees(&self, alloc: Global, inst: &Instance, plan: &Plan) -> Result<bool, NoMem> {
        Ok(self.least() == least_rot(alloc, inst, plan)?)
    }
}

impl Walkable for SlotBoard {
    fn of(alloc: Global, inst: &Instance, plan: &Pages) -> Result<SlotBoard, NoMem> {
        SlotBoard::open(alloc, inst, plan)
    }

    /// The first item of C10 and C11.
    fn agrees(&self, alloc: Global, inst: &Instance, plan: &Plan) -> Result<bool, NoMem> {
        Ok(self.least() == least_slots(alloc, inst, plan)?)
    }
}

impl Walkable for SeatBoard {
    fn of(alloc: Global, inst: &Instance, plan: &Pages) -> Result<SeatBoard, NoMem> {
        SeatBoard::open(alloc, inst, plan)
    }

    /// The first item of C12 to C15.
    fn agrees(&self, alloc: Global, inst: &Instance, plan: &Plan) -> Result<bool, NoMem> {
        Ok(self.least() == least_pax(alloc, inst, plan)?)
    }
}

impl Walkable for LentCostBoard {
    fn of(alloc: Global, inst: &Instance, plan: &Pages) -> Result<LentCostBoard, NoMem> {
        Ok(LentCostBoard {
            cost: CostBoard::open(alloc, inst, plan)?,
            changes: 0,
        })
    }

    /// What the plan costs.
    fn agrees(&self, _alloc: Global, inst: &Instance, plan: &Plan) -> Result<bool, NoMem> {
        Ok(self.cost.cost() == full_cost(inst, plan))
    }
}
