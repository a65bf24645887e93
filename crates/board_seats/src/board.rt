//! The board.

ghost use Rattle.std.specs.Prelude.{◌≡◌, ◌+◌, ◌*◌, ◌<◌, ◌≤◌, ◌&&◌, not, map, filter, List as Items, [], length, OnOk, IfOk};
ghost use Rattle.desk_data.specs.PlanRows.{PlanRows, AreGroups, groups_at, with_row, with_groups};
ghost use Rattle.desk_data.specs.Situation.{Situation, legs_of, planes_of, reservations_of, res_at};
ghost use Rattle.desk_data.specs.Valid.{AreGroupsOf, IsPlanFor, IsRowOf};
ghost use Rattle.desk_rules.specs.Carriage.{keeps_c13, keeps_c14, keeps_c15};
ghost use Rattle.desk_rules.specs.Least.{least_pax};
ghost use Rattle.desk_rules.specs.Numbers.{numbers};
ghost use Rattle.desk_rules.specs.Passengers.{aboard};
ghost use Rattle.board_kit.specs.Users.{HasUsers, has_user, users};
ghost use Rattle.board_seats.specs.Summaries.{LedTo};
ghost use Rattle.board_seats.specs.Kept.{seen};
ghost use Rattle.board_seats.specs.Board.{IsBoardOf, Stands, StandsAt};

use crate::aboard::{enter_groups, leave_groups};
use crate::change::{judge_faults, rejudge_users};
use crate::groups::{judge_groups, judge_seats};
use crate::opening::{enter_all, judge_legs, judge_reservations};
use crate::seats::judge_leg;
use crate::undo_log::UndoLog;
use board_kit::{Board, LegUsers};
use desk_data::{Broken, Cabin, Group, Instance, Leg, NoMem, Res, Row, Steps};
use plan_pages::Pages;
use plan_reads::{ReadPlan, seats_in};
use std::alloc::Global;
use std::marker::Model;
use std::sync::ledger::Ledger;

/// The passengers aboard each leg of a plan by cabin, how many groups of each reservation break C13, C14
/// and C15, and the first item of C12 to C15 that the plan breaks, kept up to date while it changes place by place.
/// The board keeps its past, so that changes are taken back. It holds neither the instance nor the plan:
/// contracts say of which it is the board.
pub struct SeatBoard {
    log: UndoLog,
    /// How many edits the summary had before each change since the past was last empty.
    savepoints: Vec<usize>,
}

/// Dropped in one call, so that a function that owns one proves it once, and not part by part.
impl Drop for SeatBoard {
    fn drop(self) {
        let SeatBoard {
            log: _,
            savepoints: _,
        } = self;
    }
}

impl Model for SeatBoard {
    ghost use Rattle.std.specs.Prelude.{◌≤◌, length, reverse};
    ghost use Rattle.board_seats.specs.Board.{Board};

    ghost Value = { Board };

    ghost view = { λ b. record { lists = b.log; savepoints = reverse b.savepoints.items } };

    ghost invariant = { λ b. length b.savepoints.items ≤ 2000000000 };
}

impl SeatBoard {
    /// The board of a plan, with an empty past. The plan is one for the instance. The time is linear in
    /// the legs and the groups of passengers, but for look-ups. The only error is out of memory.
    pub fn open<P: ReadPlan>(alloc: Global, inst: &Instance, plan: &P) -> Result<SeatBoard, NoMem>
        requires { IsPlanFor inst.now (P.plan_of plan.now) }
        ensures { IfOk result (λ board. IsBoardOf inst.now (P.plan_of plan.now) [] board) }
    {
        let users = LegUsers::open(alloc, inst, plan)?;
        let mut log = UndoLog::blank(alloc, inst.legs(), inst.reservations(), users)?;
        enter_all(&mut log, inst, plan)?;
        judge_legs(&mut log, inst, plan)?;
        judge_reservations(&mut log, inst, plan)?;
        Ok(SeatBoard {
            log,
            savepoints: Vec::new(alloc),
        })
    }

    /// The first item of C12 to C15 that the plan breaks, by rule, then by leg and cabin or by
    /// reservation, or `None` where it breaks none. It takes no walk.
    pub fn least(&self) -> Option<Broken>
        ensures { (I : Situation) (P : PlanRows) (Ps : Items PlanRows) → IsBoardOf I P Ps self.now → result ≡ least_pax I P }
    {
        self.log.first()
    }

    /// The passengers in a cabin of a leg, in one look-up.
    pub fn aboard(&self, leg: Leg, cabin: Cabin) -> u32
        requires { leg.0 < length self.now.lists.taken }
        ensures { (I : Situation) (P : PlanRows) → StandsAt I P self.now → result ≡ aboard P leg.0 cabin }
    {
        seats_in(self.log.taken(leg), cabin)
    }

    /// The reservations that are kept for each leg, those that use it among them: whoever judges a leg's row
    /// borrows them.
    pub fn users(&self) -> &LegUsers
        ensures legs { (I : Situation) (P : PlanRows) → StandsAt I P self.now → length result.now ≡ legs_of I }
        ensures users { (I : Situation) (P : PlanRows) → StandsAt I P self.now → HasUsers P (has_user result.now) }
    {
        self.log.leg_users()
    }

    /// The reservations that break C13, C14 or C15, ascending by number. What is broken is walked over, and
    /// no other reservation. The only error is out of memory.
    pub fn broken_reservations(&self, alloc: Global) -> Result<Vec<Res>, NoMem>
        ensures { (I : Situation) (P : PlanRows) → StandsAt I P self.now → IfOk result (λ all. map (λ res. res.0) all.items ≡ filter (λ r. not (keeps_c13 I P r && keeps_c14 I P r && keeps_c15 I P r)) (numbers (reservations_of I))) }
    {
        let named = self.log.named_reservations(alloc)?;
        Ok(named.items().to_vec(alloc)?)
    }
}

impl Board for SeatBoard {
    ghost use Rattle.std.specs.Prelude.{◌+◌, ◌*◌, length};
    ghost use Rattle.desk_data.specs.PlanRows.{groups_at};
    ghost use Rattle.board_kit.specs.Users.{users};
    ghost use Rattle.board_seats.specs.Board.{IsBoardOf};

    ghost is_board_of = { IsBoardOf };

    /// A change of a row reads at most 8 rows for each group of passengers that has the leg in its path.
    ghost row_reads = { λ P x. 8 * users P x };

    /// A change of groups reads at most 8 rows for each group, before and after.
    ghost group_reads = { λ P r groups. 8 * (length (groups_at P r) + length groups) };

    /// Copies the lists of the summary, and no edit of the log.
    fn copy(&self, alloc: Global) -> Result<SeatBoard, NoMem> {
        let log = self.log.copy(alloc)?;
        Ok(SeatBoard {
            log,
            savepoints: Vec::new(alloc),
        })
    }

    /// The length of the past.
    fn depth(&self) -> u32 {
        self.savepoints.len() as u32
    }

    /// Judges the seats of the leg, and the paths of those who use it.
    fn set_row<L: Ledger>(
        &mut self,
        _alloc: Global,
        inst: &Instance,
        plan: &Pages,
        leg: Leg,
        row: Row,
        steps: &mut Steps<L>,
    ) -> Result<(), NoMem> {
        let edits = self.log.edits();
        self.savepoints.push(edits)?;
        match with_row(&mut self.log, inst, plan, leg, row, steps) {
            Ok(()) => Ok(()),
            Err(error) => {
                self.log.undo_to(edits);
                let _ = self.savepoints.pop();
                Err(error)
            }
        }
    }

    /// Moves the passengers from their old paths to their new ones, and judges what both have.
    fn set_groups<L: Ledger>(
        &mut self,
        _alloc: Global,
        inst: &Instance,
        plan: &Pages,
        res: Res,
        groups: &[Group],
        steps: &mut Steps<L>,
    ) -> Result<(), NoMem> {
        let edits = self.log.edits();
        self.savepoints.push(edits)?;
        match with_groups(&mut self.log, inst, plan, res, groups, steps) {
            Ok(()) => Ok(()),
            Err(error) => {
                self.log.undo_to(edits);
                let _ = self.savepoints.pop();
                Err(error)
            }
        }
    }

    /// Takes the edits of the last change back.
    fn back(&mut self) {
        if let Some(edits) = self.savepoints.pop() {
            let edits = edits.min(self.log.edits());
            self.log.undo_to(edits);
        }
    }

    /// Empties the past and the log of edits; what is known of the plan stays.
    fn forget(&mut self) {
        self.log.forget();
        self.savepoints.clear();
    }
}

/// Gives a leg another row in a summary.
fn with_row<L: Ledger>(
    log: &mut UndoLog,
    inst: &Instance,
    plan: &Pages,
    leg: Leg,
    row: Row,
    steps: &mut Steps<L>,
) -> Result<(), NoMem>
    requires plan { IsPlanFor inst.now plan.now }
    requires stands { Stands inst.now plan.now (seen log.old) }
    requires leg { leg.0 < legs_of inst.now }
    requires row { IsRowOf (planes_of inst.now) row }
    ensures led { LedTo (seen log.old) (seen log.new) }
    ensures ok { OnOk result (Stands inst.now (with_row plan.now leg.0 row) (seen log.new)) }
    ensures reads { steps.new ≤ steps.old + 8 * users plan.now leg.0 }
{
    judge_leg(log, inst, leg, row)?;
    rejudge_users(log, inst, plan, leg, row, steps)
}

/// Gives a reservation other groups in a summary.
fn with_groups<L: Ledger>(
    log: &mut UndoLog,
    inst: &Instance,
    plan: &Pages,
    res: Res,
    groups: &[Group],
    steps: &mut Steps<L>,
) -> Result<(), NoMem>
    requires plan { IsPlanFor inst.now plan.now }
    requires stands { Stands inst.now plan.now (seen log.old) }
    requires res { res.0 < reservations_of inst.now }
    requires groups { AreGroups groups.now }
    requires passengers { AreGroupsOf (legs_of inst.now) (res_at inst.now res.0).count groups.now }
    ensures led { LedTo (seen log.old) (seen log.new) }
    ensures ok { OnOk result (Stands inst.now (with_groups plan.now res.0 groups.now) (seen log.new)) }
    ensures reads { steps.new ≤ steps.old + 8 * (length (groups_at plan.now res.0) + length groups.now) }
{
    // a reservation has at most 1,000 passengers, so its groups can be counted
    let _few = inst.res(res);
    // and those aboard a leg fit
    let _rows = inst.parts();
    let before = plan.groups(res);
    enter_groups(log, res, groups)?;
    leave_groups(log, before)?;
    judge_seats(log, inst, plan, before, steps)?;
    let faults = judge_groups(log, inst, plan, res, groups, steps)?;
    judge_faults(log, res, faults)
}
