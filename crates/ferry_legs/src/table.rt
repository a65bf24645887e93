//! How many legs of a plan depart from each airport in each hour, or arrive there.

ghost use Rattle.std.specs.Prelude.{◌≡◌, ℕ, ◌<◌, [], IfOk, OnOk};
ghost use Rattle.desk_data.specs.PlanRows.{row_at};
ghost use Rattle.desk_data.specs.Situation.{legs_of, planes_of};
ghost use Rattle.desk_data.specs.Valid.{IsPlanFor, IsRowOf};
ghost use Rattle.hour_counts.specs.Counts.{Enters, IsWritten, count_at};
ghost use Rattle.ferry_legs.specs.Departs.{count_of};
ghost use Rattle.ferry_legs.specs.Taken.{slot_by};

use desk_data::{Instance, Leg, NoMem, Plan, Row};
use hour_counts::Movement;
use std::alloc::Global;
use std::collections::BTreeMap;
use std::marker::Model;

/// A number for each airport and hour, 0 where none was written.
#[derive(Drop)]
pub(crate) struct Table {
    counts: BTreeMap<(u32, u32), u32>,
}

impl Model for Table {
    ghost use Rattle.std.specs.Prelude.{List, ℕ};

    ghost Value = { List ((ℕ × ℕ) × ℕ) };

    ghost view = { λ t. t.counts.entries };
}

impl Table {
    /// What a plan has, in one walk over its legs: surface transport is not counted. The only error is out of memory.
    pub(crate) fn of(
        alloc: Global,
        inst: &Instance,
        plan: &Plan,
        movement: Movement,
    ) -> Result<Table, NoMem>
        requires { IsPlanFor inst.now plan.now }
        ensures { IfOk result (λ table. (a h : ℕ) → count_at table a h ≡ count_of movement inst.now plan.now a h) }
    {
        let mut table = Table::new(alloc);
        for x in 0..inst.legs() {
            let row = plan.read_row(Leg(x));
            table.enter(slot_by(inst, movement, Leg(x), row))?;
        }
        Ok(table)
    }

    /// 0 for each.
    fn new(alloc: Global) -> Table
        ensures { result ≡ [] }
    {
        Table {
            counts: BTreeMap::new(alloc),
        }
    }

    /// The number at an airport in an hour.
    pub(crate) fn at(&self, airport: u32, hour: u32) -> u32
        ensures { result ≡ count_at self.now airport hour }
    {
        match self.counts.get(&(airport, hour)) {
            Some(count) => *count,
            None => 0,
        }
    }

    /// Writes another number.
    fn write(&mut self, airport: u32, hour: u32, count: u32) -> Result<(), NoMem>
        ensures { OnOk result (IsWritten self.old self.new airport hour count) }
    {
        self.counts.insert((airport, hour), count)?;
        Ok(())
    }

    /// One more where one comes; none where the number is as great as can be.
    fn enter(&mut self, come: Option<(u32, u32)>) -> Result<(), NoMem>
        ensures { OnOk result (Enters self.old self.new come) }
    {
        let Some((airport, hour)) = come else {
            return Ok(());
        };
        let count = self.at(airport, hour).saturating_add(1);
        self.write(airport, hour, count)
    }
}

/// The airport and the hour that a leg takes by a row: none where it is cancelled or flown by surface transport.
fn slot_by(inst: &Instance, movement: Movement, leg: Leg, row: Row) -> Option<(u32, u32)>
    requires leg { leg.0 < legs_of inst.now }
    requires row { IsRowOf (planes_of inst.now) row }
    ensures { result ≡ slot_by inst.now movement leg.0 row }
{
    let Row::Flown { plane, dep } = row else {
        return None;
    };
    if inst.plane(plane).surface {
        return None;
    }
    let info = inst.leg(leg);
    match movement {
        Movement::Departure => Some((info.origin.0, dep.0 / 60)),
        Movement::Arrival => Some((info.dest.0, (dep.0 + info.block) / 60)),
    }
}
