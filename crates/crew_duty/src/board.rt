//! The board of the crews: the rows of a plan, which crews have each leg, and the items that crews break.

ghost use Rattle.std.specs.Prelude.{◌≡◌, ◌<◌, IfOk, OnOk, OnErr, List as Items, length, slice_index_or, slice_set};
ghost use Rattle.desk_data.specs.PlanRows.{IsRow};
ghost use Rattle.desk_data.specs.declared.row.Row.TheVariants.{Cancelled};
ghost use Rattle.desk_data.specs.Situation.{legs_of};
ghost use Rattle.desk_data.specs.Valid.{IsPlanFor};
ghost use Rattle.desk_data.specs.declared.parts.Parts.{Parts as Day};
ghost use Rattle.crew_rules.specs.declared.crew.CrewInfo.{CrewInfo as Crew};
ghost use Rattle.crew_rules.specs.Crews.{crew_least};
ghost use Rattle.crew_rules.specs.Valid.{AreCrews};
ghost use Rattle.crew_duty.specs.Board.{IsCrewBoard};

use crate::broken::{broken_items, first_broken, judge_crews};
use crate::users::CrewUsers;
use crew_rules::{CrewBroken, CrewInfo};
use desk_data::{Instance, Leg, NoMem, Plan, Row};
use kept_set::KeptSet;
use std::alloc::Global;
use std::marker::Model;

/// What a plan comes to for its crews, kept up to date while rows change one by one. Contracts see the row of each leg,
/// the crews that have it, and the items that crews break.
pub struct CrewBoard {
    rows: Vec<Row>,
    users: CrewUsers,
    broken: KeptSet<CrewBroken>,
}

/// Dropped in one call, so that a function that owns one proves it once, and not part by part.
impl Drop for CrewBoard {
    fn drop(self) {
        let CrewBoard {
            rows: _,
            users: _,
            broken: _,
        } = self;
    }
}

impl Model for CrewBoard {
    ghost use Rattle.crew_duty.specs.Board.{Board};

    ghost Value = { Board };

    ghost view = { λ b. record { rows = b.rows.items; users = b.users; broken = b.broken.items } };
}

impl CrewBoard {
    /// The board of a plan. The time is near linear in the legs of all crews. The only error is out of memory.
    pub fn open(
        alloc: Global,
        inst: &Instance,
        crews: &[CrewInfo],
        plan: &Plan,
    ) -> Result<CrewBoard, NoMem>
        requires crews { AreCrews inst.now.parts crews.now }
        requires plan { IsPlanFor inst.now plan.now }
        ensures rows { IfOk result (λ board. board.rows ≡ plan.now.rows) }
        ensures board { IfOk result (IsCrewBoard inst.now.parts crews.now) }
    {
        let rows = Vec::from_slice(alloc, plan.rows())?;
        let users = CrewUsers::open(alloc, inst, crews)?;
        let broken = broken_items(alloc, inst, plan.rows(), crews)?;
        Ok(CrewBoard {
            rows,
            users,
            broken,
        })
    }

    /// Gives a leg another row, and judges the crews that have it, and no others. The crews are those with which the board
    /// was opened. After an error, which is out of memory, the board is as before.
    pub fn set_row(
        &mut self,
        alloc: Global,
        inst: &Instance,
        crews: &[CrewInfo],
        leg: Leg,
        row: Row,
    ) -> Result<(), NoMem>
        requires crews { AreCrews inst.now.parts crews.now }
        requires leg { leg.0 < legs_of inst.now }
        requires row { IsRow row }
        requires board { IsCrewBoard inst.now.parts crews.now self.old }
        ensures rows { OnOk result (self.new.rows ≡ slice_set self.old.rows leg.0 row) }
        ensures ok { OnOk result (IsCrewBoard inst.now.parts crews.now self.new) }
        ensures err { OnErr result (self.new ≡ self.old) }
    {
        let place = leg.0 as usize;
        let had = self.rows[place];
        self.rows[place] = row;
        let users = self.users.of(leg);
        let rows = self.rows.as_slice();
        match judge_crews(alloc, inst, rows, crews, users, &mut self.broken) {
            Ok(()) => Ok(()),
            Err(fault) => {
                self.rows[place] = had;
                Err(fault)
            }
        }
    }

    /// The row of a leg.
    pub fn row(&self, leg: Leg) -> Row
        requires { leg.0 < length self.now.rows }
        ensures { result ≡ slice_index_or self.now.rows leg.0 Cancelled }
    {
        self.rows[leg.0 as usize]
    }

    /// The first item of K1 to K4 that is broken, by rule, then by the number of the crew, or `None` where all are kept.
    /// It takes no walk and no memory.
    pub fn least(&self) -> Option<CrewBroken>
        ensures { (D : Day) (cs : Items Crew) → IsCrewBoard D cs self.now → result ≡ crew_least D cs self.now.rows }
    {
        first_broken(&self.broken)
    }
}
