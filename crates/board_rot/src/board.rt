//! The board.

ghost use Rattle.std.specs.Prelude.{◌≡◌, ◌<◌, [], length, map, All, List as Items, IfOk};
ghost use Rattle.desk_rules.specs.Least.{least_rot};
ghost use Rattle.desk_model.specs.Push.{rotation};
ghost use Rattle.desk_data.specs.Situation.{Situation};
ghost use Rattle.desk_data.specs.PlanRows.{PlanRows};
ghost use Rattle.desk_data.specs.Valid.{IsPlanFor};
ghost use Rattle.board_rot.specs.Boards.{IsBoardOf, FliesRotationLeg, leg_of, planes_on};

use crate::change::replace;
use crate::make::make_summary;
use crate::undo_log::UndoLog;
use board_kit::Board;
use desk_data::{Broken, Group, Instance, Leg, NoMem, Plane, Res, Row, Steps};
use plan_pages::Pages;
use plan_reads::{ReadPlan, RotationLeg};
use std::alloc::Global;
use std::marker::Model;
use std::sync::ledger::Ledger;

/// The legs of each aircraft in their order, and what a plan breaks of C1 to C9, kept up to date while it changes
/// place by place. The board keeps its past, so that changes are taken back. It holds neither the
/// instance nor the plan: contracts say of which it is the board.
pub struct RotBoard {
    log: UndoLog,
    /// For each change how many edits of the summary there were before it.
    savepoints: Vec<usize>,
}

/// Dropped in one call, so that a function that owns one proves it once, and not part by part.
impl Drop for RotBoard {
    fn drop(self) {
        let RotBoard {
            log: _,
            savepoints: _,
        } = self;
    }
}

impl Model for RotBoard {
    ghost use Rattle.std.specs.Prelude.{length};
    ghost use Rattle.board_rot.specs.Boards.{Board, AreSavepoints};

    ghost Value = { Board };

    ghost view = { λ b. record { lists = b.log; savepoints = b.savepoints.items } };

    ghost invariant = { λ b. AreSavepoints b.savepoints.items (length b.log.edits) };
}

impl RotBoard {
    /// The board of a plan, with an empty past. The plan is one for the instance. The only error is
    /// out of memory.
    pub fn open<P: ReadPlan>(alloc: Global, inst: &Instance, plan: &P) -> Result<RotBoard, NoMem>
        requires { IsPlanFor inst.now (P.plan_of plan.now) }
        ensures { IfOk result (λ board. IsBoardOf inst.now (P.plan_of plan.now) [] board) }
    {
        let log = make_summary(alloc, inst, plan)?;
        Ok(RotBoard {
            log,
            savepoints: Vec::new(alloc),
        })
    }

    /// The first item of C1 to C9 that the plan breaks, by rule and then by leg or aircraft, or `None`
    /// where it breaks none. It takes no walk.
    pub fn least(&self) -> Option<Broken>
        ensures { (I : Situation) (P : PlanRows) (Ps : Items PlanRows) → IsBoardOf I P Ps self.now → result ≡ least_rot I P }
    {
        self.log.first_broken()
    }

    /// The rotation legs of an aircraft in their order, by departure and then by leg: each of the legs
    /// that it flies, with its departure. It takes no walk.
    pub fn rotation_legs(&self, plane: Plane) -> &[RotationLeg]
        requires { plane.0 < planes_on self.now }
        ensures legs { (I : Situation) (P : PlanRows) (Ps : Items PlanRows) → IsPlanFor I P → IsBoardOf I P Ps self.now → map leg_of result.now ≡ rotation I P plane.0 }
        ensures rows { (I : Situation) (P : PlanRows) (Ps : Items PlanRows) → IsPlanFor I P → IsBoardOf I P Ps self.now → All (FliesRotationLeg I P plane) result.now }
    {
        self.log.rotation_legs(plane)
    }
}

impl Board for RotBoard {
    ghost use Rattle.std.specs.Prelude.{◌+◌, ◌<◌, ◌≡◌, OnOk, OnErr};
    ghost use Rattle.board_kit.specs.Boards.{IsReady, IsChanged, IsUnchanged};
    ghost use Rattle.desk_data.specs.PlanRows.{AreGroups, with_row, with_groups};
    ghost use Rattle.desk_data.specs.Situation.{legs_of, planes_of, reservations_of, res_at};
    ghost use Rattle.desk_data.specs.Valid.{AreGroupsOf, IsPlanFor, IsRowOf};
    ghost use Rattle.board_rot.specs.Boards.{IsBoardOf};

    ghost is_board_of = { IsBoardOf };

    /// A change of a row reads the row before it.
    ghost row_reads = { λ P x. 1 };

    /// Groups change no rotation.
    ghost group_reads = { λ P r groups. 0 };

    /// Copies the rotations and what is broken, and no edit of the log.
    fn copy(&self, alloc: Global) -> Result<RotBoard, NoMem> {
        let log = self.log.copy(alloc)?;
        Ok(RotBoard {
            log,
            savepoints: Vec::new(alloc),
        })
    }

    /// The length of the past.
    fn depth(&self) -> u32 {
        self.savepoints.len() as u32
    }

    /// Takes the leg out of its rotation and puts it into the other, and judges both where they changed.
    fn set_row<L: Ledger>(
        &mut self,
        _alloc: Global,
        inst: &Instance,
        plan: &Pages,
        leg: Leg,
        row: Row,
        steps: &mut Steps<L>,
    ) -> Result<(), NoMem>
        requires plan { IsPlanFor inst.now plan.now }
        requires leg { leg.0 < legs_of inst.now }
        requires row { IsRowOf (planes_of inst.now) row }
        requires ready { IsReady (IsBoardOf inst.now plan.now) self.old }
        ensures ok { OnOk result (IsChanged IsBoardOf inst.now plan.now (with_row plan.now leg.0 row) self.old self.new) }
        ensures err { OnErr result (IsUnchanged IsBoardOf inst.now plan.now self.old self.new) }
        ensures reads { steps.new ≡ steps.old + 1 }
    {
        let had = plan.row(leg, steps);
        let before = self.log.edits();
        self.savepoints.push(before)?;
        match replace(&mut self.log, inst, leg, had, row) {
            Ok(()) => Ok(()),
            Err(error) => {
                self.log.undo_to(before);
                let _ = self.savepoints.pop();
                Err(error)
            }
        }
    }

    /// Other groups change no rotation: the past alone grows.
    fn set_groups<L: Ledger>(
        &mut self,
        _alloc: Global,
        inst: &Instance,
        plan: &Pages,
        res: Res,
        groups: &[Group],
        steps: &mut Steps<L>,
    ) -> Result<(), NoMem>
        requires plan { IsPlanFor inst.now plan.now }
        requires res { res.0 < reservations_of inst.now }
        requires groups { AreGroups groups.now }
        requires passengers { AreGroupsOf (legs_of inst.now) (res_at inst.now res.0).count groups.now }
        requires ready { IsReady (IsBoardOf inst.now plan.now) self.old }
        ensures ok { OnOk result (IsChanged IsBoardOf inst.now plan.now (with_groups plan.now res.0 groups.now) self.old self.new) }
        ensures err { OnErr result (IsUnchanged IsBoardOf inst.now plan.now self.old self.new) }
        ensures reads { steps.new ≡ steps.old }
    {
        // all boards are asked alike, and this one keeps nothing of groups
        let _ = inst;
        let _ = plan;
        let _ = res;
        let _ = groups;
        let _ = steps;
        self.savepoints.push(self.log.edits())?;
        Ok(())
    }

    /// Takes the edits of the last change back.
    fn back(&mut self) {
        if let Some(before) = self.savepoints.pop() {
            self.log.undo_to(before);
        }
    }

    /// Empties the past and the log of edits; the rotations stay.
    fn forget(&mut self) {
        self.log.forget();
        self.savepoints.clear();
    }
}
