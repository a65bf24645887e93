//! The board.

ghost use Rattle.std.specs.Prelude.{◌≡◌, ◌&&◌, ◌==◌, ◌+◌, ◌<◌, List as Items, ◌∷◌, [], length, None, OnOk, OnErr, IfOk};
ghost use Rattle.desk_data.specs.PlanRows.{PlanRows, row_at};
ghost use Rattle.desk_data.specs.Situation.{Situation, legs_of, planes_of};
ghost use Rattle.desk_data.specs.Valid.{IsPlanFor, IsRowOf};
ghost use Rattle.desk_rules.specs.Least.{least_slots};
ghost use Rattle.desk_model.specs.Push.{arrivals_beside, departures_beside};
ghost use Rattle.hour_counts.specs.Counts.{arrives_at, departs_at, one_if};
ghost use Rattle.board_kit.specs.Slots.{AreSlots, slots_of};
ghost use Rattle.board_kit.specs.Board.{IsBoardOf};

use crate::Board;
use crate::loads::Loads;
use crate::slot::{SlotChange, SlotUse, is_same, slots_of};
use desk_data::{Airport, Broken, Group, Instance, Leg, NoMem, Res, Row, Steps};
use hour_counts::{Movement, Slot};
use plan_pages::Pages;
use plan_reads::ReadPlan;
use std::alloc::Global;
use std::marker::Model;
use std::sync::ledger::Ledger;

/// How many legs of a plan depart from each airport in each hour, and arrive there, and the first item
/// of C10 and C11 that the plan breaks, kept up to date while it changes place by place. The board keeps its past,
/// so that changes are taken back. It holds neither the instance nor the plan: contracts say of which it
/// is the board.
pub struct SlotBoard {
    loads: Loads,
    /// The changes since the past was last empty.
    past: Vec<SlotChange>,
}

/// Dropped in one call, so that a function that owns one proves it once, and not part by part.
impl Drop for SlotBoard {
    fn drop(self) {
        let SlotBoard { loads: _, past: _ } = self;
    }
}

impl Model for SlotBoard {
    ghost use Rattle.std.specs.Prelude.{reverse};
    ghost use Rattle.board_kit.specs.Board.{Board, HasRoom};

    ghost Value = { Board };

    ghost view = { λ b. record { loads = b.loads; past = reverse b.past.items } };

    ghost invariant = { λ b. HasRoom b.loads.over b.past.items };
}

impl SlotBoard {
    /// The board of a plan, with an empty past. The plan is one for the instance. The only error is
    /// out of memory.
    pub fn open<P: ReadPlan>(alloc: Global, inst: &Instance, plan: &P) -> Result<SlotBoard, NoMem>
        requires { IsPlanFor inst.now (P.plan_of plan.now) }
        ensures { IfOk result (λ board. IsBoardOf inst.now (P.plan_of plan.now) [] board) }
    {
        let mut loads = Loads::new(alloc);
        for x in 0..inst.legs() {
            let come = slots_of(inst, Leg(x), plan.read_row(Leg(x)));
            loads.make_ready(inst, None, come, 2)?;
            loads.enter(come);
        }
        loads.reserve(0)?;
        Ok(SlotBoard {
            loads,
            past: Vec::new(alloc),
        })
    }

    /// The first item of C10 and C11 that the plan breaks, by rule, then by airport, then by hour, or
    /// `None` where it breaks none. It takes no walk.
    pub fn least(&self) -> Option<Broken>
        ensures { (I : Situation) (P : PlanRows) (Ps : Items PlanRows) → IsBoardOf I P Ps self.now → result ≡ least_slots I P }
    {
        self.loads.first()
    }

    /// One change more, with which no slot is left and none is taken. After an error, which is out of
    /// memory, the past is as before.
    fn stay(&mut self) -> Result<(), NoMem>
        requires { length self.old.past < 2000000000 }
        ensures loads { self.new.loads.loads ≡ self.old.loads.loads }
        ensures ok { OnOk result (self.new.past ≡ (record { gone = None; come = None }) ∷ self.old.past) }
        ensures err { OnErr result (self.new.past ≡ self.old.past) }
    {
        self.past.reserve(1)?;
        let more = 4 * self.past.len() + 4;
        self.loads.reserve(more)?;
        let _pushed = self.past.push(SlotChange {
            gone: None,
            come: None,
        });
        Ok(())
    }

    /// How many legs depart from an airport in an hour, of those that are flown and whose scheduled
    /// aircraft is no surface transport. The leg itself, which has this row, is left out.
    pub fn departures_beside(
        &self,
        inst: &Instance,
        leg: Leg,
        row: Row,
        airport: Airport,
        hour: u32,
    ) -> u32
        requires leg { leg.0 < legs_of inst.now }
        requires row { IsRowOf (planes_of inst.now) row }
        ensures { (P : PlanRows) (Ps : Items PlanRows) → row_at P leg.0 ≡ row → IsBoardOf inst.now P Ps self.now → result ≡ departures_beside inst.now P leg.0 airport.0 hour }
    {
        let slot = Slot {
            movement: Movement::Departure,
            airport,
            hour,
        };
        let own = own_departure(inst, leg, row, airport, hour);
        self.loads.scheduled_at(slot).saturating_sub(own)
    }

    /// How many legs arrive at an airport in an hour, of those that are flown and whose scheduled
    /// aircraft is no surface transport. The leg itself, which has this row, is left out.
    pub fn arrivals_beside(
        &self,
        inst: &Instance,
        leg: Leg,
        row: Row,
        airport: Airport,
        hour: u32,
    ) -> u32
        requires leg { leg.0 < legs_of inst.now }
        requires row { IsRowOf (planes_of inst.now) row }
        ensures { (P : PlanRows) (Ps : Items PlanRows) → row_at P leg.0 ≡ row → IsBoardOf inst.now P Ps self.now → result ≡ arrivals_beside inst.now P leg.0 airport.0 hour }
    {
        let slot = Slot {
            movement: Movement::Arrival,
            airport,
            hour,
        };
        let own = own_arrival(inst, leg, row, airport, hour);
        self.loads.scheduled_at(slot).saturating_sub(own)
    }
}

impl Board for SlotBoard {
    ghost use Rattle.std.specs.Prelude.{◌+◌, ◌<◌, ◌≡◌, OnOk, OnErr};
    ghost use Rattle.board_kit.specs.Boards.{IsReady, IsChanged, IsUnchanged};
    ghost use Rattle.desk_data.specs.PlanRows.{AreGroups, with_row, with_groups};
    ghost use Rattle.desk_data.specs.Situation.{legs_of, planes_of, reservations_of, res_at};
    ghost use Rattle.desk_data.specs.Valid.{AreGroupsOf, IsPlanFor, IsRowOf};
    ghost use Rattle.board_kit.specs.Board.{IsBoardOf};

    ghost is_board_of = { IsBoardOf };

    /// A change of a row reads the row before it.
    ghost row_reads = { λ P x. 1 };

    /// Groups change no hour.
    ghost group_reads = { λ P r groups. 0 };

    /// Copies the counts, and no change of the past.
    fn copy(&self, alloc: Global) -> Result<SlotBoard, NoMem> {
        let loads = self.loads.copy(alloc)?;
        Ok(SlotBoard {
            loads,
            past: Vec::new(alloc),
        })
    }

    /// The length of the past.
    fn depth(&self) -> u32 {
        self.past.len() as u32
    }

    /// Counts the leg at its new hours, and no more at its old ones. Within its hours it changes no count.
    fn set_row<L: Ledger>(
        &mut self,
        _alloc: Global,
        inst: &Instance,
        plan: &Pages,
        leg: Leg,
        row: Row,
        steps: &mut Steps<L>,
    ) -> Result<(), NoMem>
        requires plan { IsPlanFor inst.now plan.now }
        requires leg { leg.0 < legs_of inst.now }
        requires row { IsRowOf (planes_of inst.now) row }
        requires ready { IsReady (IsBoardOf inst.now plan.now) self.old }
        ensures ok { OnOk result (IsChanged IsBoardOf inst.now plan.now (with_row plan.now leg.0 row) self.old self.new) }
        ensures err { OnErr result (IsUnchanged IsBoardOf inst.now plan.now self.old self.new) }
        ensures reads { steps.new ≡ steps.old + 1 }
    {
        let gone = slots_read(inst, plan, leg, steps);
        let come = slots_of(inst, leg, row);
        // within its hours a leg changes no count
        if is_same(gone, come) {
            return self.stay();
        }
        self.past.reserve(1)?;
        let more = 4 * self.past.len() + 8;
        self.loads.make_ready(inst, gone, come, more)?;
        self.loads.enter(come);
        self.loads.leave(gone);
        let _pushed = self.past.push(SlotChange { gone, come });
        Ok(())
    }

    /// Other groups change no hour: the past alone grows.
    fn set_groups<L: Ledger>(
        &mut self,
        _alloc: Global,
        inst: &Instance,
        plan: &Pages,
        res: Res,
        groups: &[Group],
        steps: &mut Steps<L>,
    ) -> Result<(), NoMem>
        requires plan { IsPlanFor inst.now plan.now }
        requires res { res.0 < reservations_of inst.now }
        requires groups { AreGroups groups.now }
        requires passengers { AreGroupsOf (legs_of inst.now) (res_at inst.now res.0).count groups.now }
        requires ready { IsReady (IsBoardOf inst.now plan.now) self.old }
        ensures ok { OnOk result (IsChanged IsBoardOf inst.now plan.now (with_groups plan.now res.0 groups.now) self.old self.new) }
        ensures err { OnErr result (IsUnchanged IsBoardOf inst.now plan.now self.old self.new) }
        ensures reads { steps.new ≡ steps.old }
    {
        // all boards are asked alike, and this one keeps nothing of groups
        let _ = inst;
        let _ = plan;
        let _ = res;
        let _ = groups;
        let _ = steps;
        self.stay()
    }

    /// Counts the last change the other way round. Its slots are known, so that no memory is taken.
    fn back(&mut self) {
        if let Some(change) = self.past.pop() {
            self.loads.enter(change.gone);
            self.loads.leave(change.come);
        }
    }

    /// Empties the past; the counts stay.
    fn forget(&mut self) {
        self.past.clear();
    }
}

/// The slots of a leg's row in a plan, if it is flown. Reads one row under `steps`.
fn slots_read<L: Ledger>(
    inst: &Instance,
    plan: &Pages,
    leg: Leg,
    steps: &mut Steps<L>,
) -> Option<SlotUse>
    requires plan { IsPlanFor inst.now plan.now }
    requires leg { leg.0 < legs_of inst.now }
    ensures slots { result ≡ slots_of inst.now leg.0 (row_at plan.now leg.0) }
    ensures ranges { AreSlots inst.now result }
    ensures reads { steps.new ≡ steps.old + 1 }
{
    slots_of(inst, leg, plan.row(leg, steps))
}

/// 1 where a leg departs from an airport in an hour by its row and its scheduled aircraft is no surface
/// transport, else 0.
fn own_departure(inst: &Instance, leg: Leg, row: Row, airport: Airport, hour: u32) -> u32
    requires leg { leg.0 < legs_of inst.now }
    requires row { IsRowOf (planes_of inst.now) row }
    ensures { result ≡ one_if (departs_at inst.now airport.0 hour leg.0 row) }
{
    match slots_of(inst, leg, row) {
        Some(taken) if taken.by_schedule && is_at(taken.from, airport, hour) => 1,
        _ => 0,
    }
}

/// The same of its arrival.
fn own_arrival(inst: &Instance, leg: Leg, row: Row, airport: Airport, hour: u32) -> u32
    requires leg { leg.0 < legs_of inst.now }
    requires row { IsRowOf (planes_of inst.now) row }
    ensures { result ≡ one_if (arrives_at inst.now airport.0 hour leg.0 row) }
{
    match slots_of(inst, leg, row) {
        Some(taken) if taken.by_schedule && is_at(taken.to, airport, hour) => 1,
        _ => 0,
    }
}

/// Whether a slot is at an airport in an hour.
fn is_at(slot: Slot, airport: Airport, hour: u32) -> bool
    ensures { result ≡ (slot.airport.0 == airport.0) && (slot.hour == hour) }
{
    slot.airport.0 == airport.0 && slot.hour == hour
}
