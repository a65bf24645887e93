//! The board.

ghost use Rattle.std.specs.Prelude.{◌≡◌, ◌+◌, ◌*◌, ◌<◌, ◌≤◌, List as Items, ◌∷◌, ◌++◌, [], length, OnOk, OnErr, IfOk};
ghost use Rattle.std.specs.Vec.{vec_capacity};
ghost use Rattle.desk_data.specs.PlanRows.{PlanRows, AreGroups, groups_at, with_groups, with_row};
ghost use Rattle.desk_data.specs.Situation.{Situation, legs_of, planes_of, reservations_of, res_at};
ghost use Rattle.desk_data.specs.Valid.{AreGroupsOf, IsPlanFor, IsRowOf};
ghost use Rattle.desk_rules.specs.Cost.{cost, grains};
ghost use Rattle.board_kit.specs.Users.{HasUsers, has_user, users};
ghost use Rattle.board_kit.specs.Boards.{CanGoBack, IsChanged, HasNoPast, IsReady, IsTakenBack, IsUnchanged};
ghost use Rattle.board_cost.specs.Board.{HasFewEdits, HasPlace, HasRoomFor, IsBoardOf, IsRoomierFleet};

use crate::balance::Balance;
use crate::change::CostChange;
use crate::fleet::Fleet;
use crate::passengers::groups_cost;
use crate::paths::RowChange;
use crate::rotation_leg::{RotationLegs, rotation_legs_of};
use crate::row::change_row;
use board_kit::LegUsers;
use desk_data::{Grains, Group, Instance, Leg, NoMem, Res, Row, Steps};
use plan_checks::full_cost;
use plan_pages::Pages;
use plan_reads::ReadPlan;
use std::alloc::Global;
use std::marker::Model;
use std::sync::ledger::Ledger;

/// What a plan costs, kept up to date while it changes place by place. The board keeps its past, so that changes are
/// taken back. It holds neither the instance nor the plan: contracts say of which it is the board. Who uses
/// a leg it does not keep: whoever changes the leg's row lends it the list.
pub struct CostBoard {
    total: Grains,
    fleet: Fleet,
    /// The changes since the past was last empty.
    past: Vec<CostChange>,
}

/// Dropped in one call, so that a function that owns one proves it once, and not part by part.
impl Drop for CostBoard {
    fn drop(self) {
        let CostBoard {
            total: _,
            fleet: _,
            past: _,
        } = self;
    }
}

impl Model for CostBoard {
    ghost use Rattle.std.specs.Prelude.{length, reverse};
    ghost use Rattle.board_cost.specs.Board.{Board, IsLogged};

    ghost Value = { Board };

    ghost view = { λ b. record { total = b.total; fleet = b.fleet; past = reverse b.past.items } };

    ghost invariant = { λ b. IsLogged b.fleet.rotations b.past.items };
}

impl CostBoard {
    /// The board of a plan, with an empty past. The plan is one for the instance. The only error is
    /// out of memory.
    pub fn open<P: ReadPlan>(alloc: Global, inst: &Instance, plan: &P) -> Result<CostBoard, NoMem>
        requires { IsPlanFor inst.now (P.plan_of plan.now) }
        ensures { IfOk result (λ board. IsBoardOf inst.now (P.plan_of plan.now) [] board) }
    {
        let fleet = Fleet::open(alloc, inst, plan)?;
        Ok(CostBoard {
            total: full_cost(inst, plan),
            fleet,
            past: Vec::new(alloc),
        })
    }

    /// A board of the same plan, with an empty past. What is kept is copied as it stands: no cost is worked out
    /// anew, and no row of the plan is read. The only error is out of memory.
    pub fn copy(&self, alloc: Global) -> Result<CostBoard, NoMem>
        ensures { IfOk result (λ copy. HasNoPast IsBoardOf self.now copy) }
    {
        let fleet = self.fleet.copy(alloc)?;
        Ok(CostBoard {
            total: self.total,
            fleet,
            past: Vec::new(alloc),
        })
    }

    /// What the plan costs. It takes no walk.
    pub fn cost(&self) -> Grains
        ensures { (I : Situation) (P : PlanRows) (Ps : Items PlanRows) → IsBoardOf I P Ps self.now → result ≡ grains (cost I P) }
    {
        self.total
    }

    /// Gives a leg another row: the total changes by what the leg, its aircraft and those who use it cost
    /// more or less. The plan is that of the board, before the change, and the users are those kept for it. Reads
    /// at most 8 rows, and 10 for each group of passengers that has the leg in its path. The past, which has
    /// fewer than 2,000,000,000 changes, grows by one. After an error, which is out of memory, the board is
    /// still that of the plan.
    pub fn set_row<L: Ledger>(
        &mut self,
        inst: &Instance,
        plan: &Pages,
        kept: &LegUsers,
        leg: Leg,
        row: Row,
        steps: &mut Steps<L>,
    ) -> Result<(), NoMem>
        requires plan { IsPlanFor inst.now plan.now }
        requires leg { leg.0 < legs_of inst.now }
        requires row { IsRowOf (planes_of inst.now) row }
        requires legs { length kept.now ≡ legs_of inst.now }
        requires users { HasUsers plan.now (has_user kept.now) }
        requires ready { IsReady (IsBoardOf inst.now plan.now) self.old }
        ensures ok { OnOk result (IsChanged IsBoardOf inst.now plan.now (with_row plan.now leg.0 row) self.old self.new) }
        ensures err { OnErr result (IsUnchanged IsBoardOf inst.now plan.now self.old self.new) }
        ensures reads { steps.new ≤ steps.old + 8 + 10 * users plan.now leg.0 }
    {
        let old = plan.row(leg, steps);
        let change = RowChange { leg, old, new: row };
        let rotation_legs = rotation_legs_of(inst, change);
        make_ready(&mut self.past, &mut self.fleet, rotation_legs)?;
        let total = self.total;
        let fleet = &mut self.fleet;
        self.total = change_row(inst, plan, change, rotation_legs, total, kept, fleet, steps);
        let RotationLegs { gone, come } = rotation_legs;
        push_change(&mut self.past, CostChange { total, gone, come });
        Ok(())
    }

    /// Gives a reservation other groups: the total changes by what they cost more or less. The plan is that
    /// of the board, before the change. Reads at most 10 rows for each group, before and after. The past,
    /// which has fewer than 2,000,000,000 changes, grows by one. After an error, which is out of memory, the
    /// board is still that of the plan.
    pub fn set_groups<L: Ledger>(
        &mut self,
        inst: &Instance,
        plan: &Pages,
        res: Res,
        groups: &[Group],
        steps: &mut Steps<L>,
    ) -> Result<(), NoMem>
        requires plan { IsPlanFor inst.now plan.now }
        requires res { res.0 < reservations_of inst.now }
        requires groups { AreGroups groups.now }
        requires passengers { AreGroupsOf (legs_of inst.now) (res_at inst.now res.0).count groups.now }
        requires ready { IsReady (IsBoardOf inst.now plan.now) self.old }
        ensures ok { OnOk result (IsChanged IsBoardOf inst.now plan.now (with_groups plan.now res.0 groups.now) self.old self.new) }
        ensures err { OnErr result (IsUnchanged IsBoardOf inst.now plan.now self.old self.new) }
        ensures reads { steps.new ≤ steps.old + 10 * (length (groups_at plan.now res.0) + length groups.now) }
    {
        self.past.reserve(1)?;
        let total = self.total;
        self.total = change_groups(inst, plan, res, groups, total, steps);
        push_change(
            &mut self.past,
            CostChange {
                total,
                gone: None,
                come: None,
            },
        );
        Ok(())
    }

    /// Takes the last change back: the total of before it and its rotation legs. The past is not empty. It
    /// takes no memory.
    pub fn back(&mut self)
        requires { CanGoBack IsBoardOf self.old }
        ensures { IsTakenBack IsBoardOf self.old self.new }
    {
        if let Some(change) = self.past.pop() {
            let (gone, come) = (change.come, change.gone);
            self.fleet.undo_both(RotationLegs { gone, come });
            self.total = change.total;
        }
    }

    /// Empties the past; the total stays. It takes no memory.
    pub fn forget(&mut self)
        ensures { HasNoPast IsBoardOf self.old self.new }
    {
        self.past.clear();
        self.fleet.forget();
    }
}

/// Makes room for a change, and for its rotation legs. The only error is out of memory; nothing else changes.
fn make_ready(
    past: &mut Vec<CostChange>,
    fleet: &mut Fleet,
    rotation_legs: RotationLegs,
) -> Result<(), NoMem>
    requires gone { HasPlace (length fleet.old.rotations) rotation_legs.gone }
    requires come { HasPlace (length fleet.old.rotations) rotation_legs.come }
    requires few { HasFewEdits 4000000000 fleet.old.rotations }
    ensures past { past.new.items ≡ past.old.items }
    ensures fleet { IsRoomierFleet fleet.old fleet.new }
    ensures room { OnOk result (length past.new.items < vec_capacity past.new) }
    ensures gone { OnOk result (HasRoomFor 4 fleet.new.rotations rotation_legs.gone) }
    ensures come { OnOk result (HasRoomFor 4 fleet.new.rotations rotation_legs.come) }
{
    past.reserve(1)?;
    fleet.make_room(rotation_legs.gone)?;
    fleet.make_room(rotation_legs.come)?;
    Ok(())
}

/// One change more, for which there is room.
fn push_change(past: &mut Vec<CostChange>, change: CostChange)
    requires { length past.old.items < vec_capacity past.old }
    ensures { past.new.items ≡ past.old.items ++ change ∷ [] }
{
    // there is room: the contract asks for it
    let _pushed = past.push(change);
}

/// What the plan costs once a reservation has other groups. Reads at most 9 rows for each of them.
fn change_groups<L: Ledger>(
    inst: &Instance,
    plan: &Pages,
    res: Res,
    groups: &[Group],
    total: Grains,
    steps: &mut Steps<L>,
) -> Grains
    requires plan { IsPlanFor inst.now plan.now }
    requires res { res.0 < reservations_of inst.now }
    requires groups { AreGroups groups.now }
    requires passengers { AreGroupsOf (legs_of inst.now) (res_at inst.now res.0).count groups.now }
    requires total { total ≡ grains (cost inst.now plan.now) }
    ensures total { result ≡ grains (cost inst.now (with_groups plan.now res.0 groups.now)) }
    ensures reads { steps.new ≤ steps.old + 9 * (length (groups_at plan.now res.0) + length groups.now) }
{
    // the day is a valid one: what a plan costs is bounded
    let _rows = inst.parts();
    let old = groups_cost(inst, plan, res, plan.groups(res), steps);
    let new = groups_cost(inst, plan, res, groups, steps);
    Balance { old, new }.settled(total)
}
