//! A plan: one row for each leg, and for each reservation its groups of passengers.

ghost use Rattle.std.specs.Prelude.{◌≡◌, ◌+◌, ◌<◌, length, map, IfOk};
ghost use Rattle.desk_data.specs.PlanRows.{IsRow, AreGroups, IsSound, row_at, groups_at, with_row, with_groups};

use crate::row::{Group, Row};
use desk_units::{Leg, NoMem, Res, Steps};
use std::alloc::Global;
use std::marker::Model;
use std::sync::ledger::Ledger;

/// A plan. Contracts see it as its rows and its groups. Its departures are below 52,500,000, its
/// paths have at most 8 legs, its counts are at least 1, and the groups of a reservation ascend by
/// path, no path twice.
#[derive(Drop)]
pub struct Plan {
    rows: Vec<Row>,
    groups: Vec<Vec<Group>>,
}

impl Model for Plan {
    ghost use Rattle.std.specs.Prelude.{map};
    ghost use Rattle.desk_data.specs.PlanRows.{PlanRows, IsSound};

    ghost Value = { PlanRows };

    ghost view = { λ p. record { rows = p.rows.items; groups = map (λ g. g.items) p.groups.items } };

    ghost invariant = { λ p. IsSound (record { rows = p.rows.items; groups = map (λ g. g.items) p.groups.items }) };
}

impl Plan {
    /// The plan of these rows, by leg, and these groups, by reservation.
    pub fn of(rows: Vec<Row>, groups: Vec<Vec<Group>>) -> Plan
        requires { IsSound (record { rows = rows.items; groups = map (λ g. g.items) groups.items }) }
        ensures { result ≡ record { rows = rows.items; groups = map (λ g. g.items) groups.items } }
    {
        Plan { rows, groups }
    }

    /// The row of a leg. Counts one step.
    pub fn row<L: Ledger>(&self, leg: Leg, steps: &mut Steps<L>) -> Row
        requires { leg.0 < length self.now.rows }
        ensures row { result ≡ row_at self.now leg.0 }
        ensures departs { IsRow result }
        ensures steps { steps.new ≡ steps.old + 1 }
    {
        steps.tick();
        self.rows[leg.0 as usize]
    }

    /// The row of a leg, for code that counts no steps.
    pub fn read_row(&self, leg: Leg) -> Row
        requires { leg.0 < length self.now.rows }
        ensures row { result ≡ row_at self.now leg.0 }
        ensures departs { IsRow result }
    {
        self.rows[leg.0 as usize]
    }

    /// The rows, by leg. Counts no step.
    pub fn rows(&self) -> &[Row]
        ensures rows { result.now ≡ self.now.rows }
        ensures sound { IsSound self.now }
    {
        self.rows.as_slice()
    }

    /// The groups of a reservation, ascending by path.
    pub fn groups(&self, res: Res) -> &[Group]
        requires { res.0 < length self.now.groups }
        ensures groups { result.now ≡ groups_at self.now res.0 }
        ensures sound { AreGroups result.now }
    {
        self.groups[res.0 as usize].as_slice()
    }

    /// Gives a leg another row. All else stays, and no memory is taken.
    pub fn put_row(&mut self, leg: Leg, row: Row)
        requires leg { leg.0 < length self.old.rows }
        requires row { IsRow row }
        ensures { self.new ≡ with_row self.old leg.0 row }
    {
        self.rows[leg.0 as usize] = row;
    }

    /// Gives a reservation other groups. All else stays, and no memory is taken.
    pub fn put_groups(&mut self, res: Res, groups: Vec<Group>)
        requires res { res.0 < length self.old.groups }
        requires groups { AreGroups groups.items }
        ensures { self.new ≡ with_groups self.old res.0 groups.items }
    {
        self.groups[res.0 as usize] = groups;
    }

    /// Gives a reservation other groups, and leaves those that it had in their place. All else stays, and no
    /// memory is taken.
    pub fn swap_groups(&mut self, res: Res, groups: &mut Vec<Group>)
        requires res { res.0 < length self.old.groups }
        requires groups { AreGroups groups.old.items }
        ensures plan { self.new ≡ with_groups self.old res.0 groups.old.items }
        ensures had { groups.new.items ≡ groups_at self.old res.0 }
        ensures sound { AreGroups groups.new.items }
    {
        let _had = self.groups(res);
        std::mem::swap(&mut self.groups[res.0 as usize], groups);
    }

    /// An equal plan. The only error is out of memory.
    pub fn copy(&self, alloc: Global) -> Result<Plan, NoMem>
        ensures { IfOk result (λ copy. copy ≡ self.now) }
    {
        let rows = Vec::from_slice(alloc, self.rows.as_slice())?;
        let mut groups = Vec::with_capacity(alloc, self.groups.len())?;
        for of_one in self.groups.iter() {
            groups.push(copied_groups(alloc, of_one.as_slice())?)?;
        }
        Ok(Plan { rows, groups })
    }
}

fn copied_groups(alloc: Global, groups: &[Group]) -> Result<Vec<Group>, NoMem>
    ensures { IfOk result (λ copy. copy.items ≡ groups.now) }
{
    let mut copy = Vec::with_capacity(alloc, groups.len())?;
    for group in groups {
        let path = group.path.copy(alloc)?;
        copy.push(Group {
            count: group.count,
            path,
        })?;
    }
    Ok(copy)
}
