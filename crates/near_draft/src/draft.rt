//! A draft: a plan with other rows, which no board sees.

ghost use Rattle.std.specs.Prelude.{◌≡◌, ◌<◌, [], All, OnOk, true};
ghost use Rattle.std.specs.Option.{ForSome};
ghost use Rattle.desk_data.specs.Situation.{legs_of, planes_of};
ghost use Rattle.desk_data.specs.PlanRows.{row_at, with_row};
ghost use Rattle.desk_data.specs.Valid.{IsPlanFor, IsRowOf};
ghost use Rattle.near_draft.specs.Drafts.{AreChanges, plan_of};
ghost use Rattle.near_draft.specs.Legs.{AreLegsOf, numbers_of};

use crate::base::Base;
use crate::change::Change;
use crate::hours::beside_after;
use crate::kept::{PlaneLegs, kept_legs, let_go};
use crate::rows::{MARKS, row_after};
use desk_data::{Airport, Group, Instance, Leg, NoMem, Plane, Res, Row};
use hour_counts::{KnowsHours, Movement};
use plan_reads::ReadPlan;
use std::alloc::Global;
use std::marker::Model;

/// A plan with other rows of some legs, which no board sees. Contracts see it as the day, the plan over which it is drafted
/// and the changes. It is read as a plan is, and knows the hours of its plan, each in a walk
/// over the changes.
pub struct Draft<'a> {
    base: &'a Base<'a>,
    changes: Vec<Change>,
    marks: [bool; MARKS],
    /// The legs of some aircraft in this draft.
    lists: Vec<PlaneLegs>,
}

/// Dropped in one call, so that a function that owns one proves it once, and not part by part.
impl<'a> Drop for Draft<'a> {
    fn drop(self) {
        let Draft {
            base: _,
            changes: _,
            marks: _,
            lists: _,
        } = self;
    }
}

impl<'a> Model for Draft<'a> {
    ghost use Rattle.near_draft.specs.Drafts.{Drafted};
    ghost use Rattle.near_draft.specs.Kept.{AreDrafted};

    ghost Value = { Drafted };

    ghost view = { λ d. record { inst = d.base.now.inst; rows = d.base.now.rows; changes = d.changes.items } };

    ghost invariant = { λ d. AreDrafted d.base.now.inst d.base.now.rows d.changes.items d.marks d.lists.items };
}

impl<'a> Draft<'a> {
    /// A draft with no change.
    pub(crate) fn of(alloc: Global, base: &'a Base<'a>) -> Draft<'a>
        ensures { result ≡ record { inst = base.now.inst; rows = base.now.rows; changes = [] } }
    {
        Draft {
            base,
            changes: Vec::new(alloc),
            marks: [false; MARKS],
            lists: Vec::new(alloc),
        }
    }

    /// What it is drafted over.
    pub fn base(&self) -> &Base<'a>
        ensures inst { result.now.inst ≡ self.now.inst }
        ensures rows { result.now.rows ≡ self.now.rows }
        ensures plan { IsPlanFor self.now.inst (plan_of self.now) }
    {
        // the plan is one for its day
        let _ = self.base.plan();
        self.base
    }

    /// The changes, the last one last.
    pub fn changes(&self) -> &[Change]
        ensures all { result.now ≡ self.now.changes }
        ensures within { All (λ change. change.leg.0 < legs_of self.now.inst) result.now }
        ensures are { AreChanges self.now.inst self.now.rows result.now }
    {
        self.changes.as_slice()
    }

    /// The row of a leg.
    pub(crate) fn row(&self, leg: Leg) -> Row
        requires { leg.0 < legs_of self.now.inst }
        ensures row { result ≡ row_at (plan_of self.now) leg.0 }
        ensures fits { IsRowOf (planes_of self.now.inst) result }
    {
        row_after(self.base, self.changes.as_slice(), &self.marks, leg)
    }

    /// Whether a leg has the row that it has in the plan over which it is drafted.
    pub(crate) fn has_its_row(&self, leg: Leg) -> bool
        requires { leg.0 < legs_of self.now.inst }
        ensures { result ≡ true → row_at self.now.rows leg.0 ≡ row_at (plan_of self.now) leg.0 }
    {
        let row = self.row(leg);
        // there are as many rows as legs
        let _ = self.base.plan();
        self.base.plan().read_row(leg) == row
    }

    /// Gives a leg a row, where it has another one. The only error is out of memory.
    pub(crate) fn set_row(&mut self, leg: Leg, row: Row) -> Result<(), NoMem>
        requires leg { leg.0 < legs_of self.old.inst }
        requires row { IsRowOf (planes_of self.old.inst) row }
        ensures plan { OnOk result (plan_of self.new ≡ with_row (plan_of self.old) leg.0 row) }
        ensures inst { self.new.inst ≡ self.old.inst }
        ensures rows { self.new.rows ≡ self.old.rows }
    {
        let was = row_after(self.base, self.changes.as_slice(), &self.marks, leg);
        if was != row {
            self.changes.push(Change { leg, was, row })?;
            self.marks[leg.0 as usize % MARKS] = true;
            let_go(&mut self.lists, was, row);
        }
        Ok(())
    }

    /// The legs that an aircraft flies, in some order, where they are kept.
    pub(crate) fn kept(&self, plane: Plane) -> Option<&[Leg]>
        ensures legs { ForSome result (λ legs. AreLegsOf self.now.inst (plan_of self.now) plane.0 (numbers_of legs.now)) }
        ensures within { ForSome result (λ legs. All (λ leg. leg.0 < legs_of self.now.inst) legs.now) }
    {
        kept_legs(self.lists.as_slice(), plane)
    }

    /// Keeps the legs that an aircraft flies. The only error is out of memory.
    pub(crate) fn keep(&mut self, plane: Plane, legs: Vec<Leg>) -> Result<(), NoMem>
        requires { AreLegsOf self.old.inst (plan_of self.old) plane.0 (numbers_of legs.items) }
        ensures { self.new ≡ self.old }
    {
        self.lists.push(PlaneLegs { plane, legs })?;
        Ok(())
    }
}

impl<'a> ReadPlan for Draft<'a> {
    ghost use Rattle.near_draft.specs.Drafts.{plan_of as plan_drafted};

    ghost plan_of = { plan_drafted };

    fn read_row(&self, leg: Leg) -> Row {
        // there are as many rows as legs
        let _ = self.base.plan();
        row_after(self.base, self.changes.as_slice(), &self.marks, leg)
    }

    fn groups(&self, res: Res) -> &[Group] {
        self.base.plan().groups(res)
    }
}

impl<'a> KnowsHours for Draft<'a> {
    ghost use Rattle.std.specs.Prelude.{◌≡◌};
    ghost use Rattle.near_draft.specs.Drafts.{plan_of};

    ghost knows = { λ d I Q. (I ≡ d.inst) × (Q ≡ plan_of d) };

    fn departures_beside(
        &self,
        _inst: &Instance,
        leg: Leg,
        _row: Row,
        airport: Airport,
        hour: u32,
    ) -> u32 {
        if leg.0 < self.base.instance().legs() {
            let changes = self.changes.as_slice();
            beside_after(self.base, changes, Movement::Departure, leg, airport, hour)
        } else {
            0
        }
    }

    fn arrivals_beside(
        &self,
        _inst: &Instance,
        leg: Leg,
        _row: Row,
        airport: Airport,
        hour: u32,
    ) -> u32 {
        if leg.0 < self.base.instance().legs() {
            let changes = self.changes.as_slice();
            beside_after(self.base, changes, Movement::Arrival, leg, airport, hour)
        } else {
            0
        }
    }
}
