//! What is noted of the units of legs at a plan.

ghost use Rattle.std.specs.Prelude.{◌≡◌, None, IfOk, OnOk, true};
ghost use Rattle.desk_data.specs.Situation.{Situation};
ghost use Rattle.desk_data.specs.Valid.{IsPlanFor};
ghost use Rattle.desk_rules.specs.Least.{least};
ghost use Rattle.near_moves.specs.Descent.{first_better};
ghost use Rattle.near_legs.specs.Choices.{IsLegUnit, unit_of};
ghost use Rattle.near_notes.specs.Notes.{AreUnitNotes, AreUnitNotesAt, IsUnitOut, IsUnitOutByRows};

use crate::findings::Findings;
use crate::place::place_of;
use desk_data::{Instance, NoMem};
use near_legs::LegUnit;
use plan_pages::Pages;
use std::alloc::Global;

/// A shard of the moves near a plan: its number, from 0, and how many shards there are.
#[derive(Clone, Copy)]
pub struct Shard {
    pub number: u32,
    pub count: u32,
}

/// What is noted of the units of legs of a day at a plan of it that is feasible.
pub struct UnitNotes {
    /// The plan.
    pub plan: Pages,
    /// The number of the search at hand, from 1.
    pub search: u32,
    /// The units that are out, for whatever reason.
    pub out: Findings,
    /// Those that are out by rows alone: they stay so where passengers alone change.
    pub by_rows: Findings,
    /// A shard of which it is known that none of its moves is better at the plan, those of passengers neither.
    pub quiet: Option<Shard>,
}

/// Dropped in one call, so that a function that owns one proves it once, and not part by part.
impl Drop for UnitNotes {
    fn drop(self) {
        let UnitNotes {
            plan: _,
            search: _,
            out: _,
            by_rows: _,
            quiet: _,
        } = self;
    }
}

impl UnitNotes {
    /// Notes of a feasible plan at which nothing is known yet. The only error is out of memory.
    pub fn of(alloc: Global, inst: &Instance, plan: &Pages) -> Result<UnitNotes, NoMem>
        requires plan { IsPlanFor inst.now plan.now }
        requires feasible { least inst.now plan.now ≡ None }
        ensures { IfOk result (AreUnitNotesAt inst.now plan.now) }
    {
        let out = Findings::none(alloc, inst)?;
        let by_rows = Findings::none(alloc, inst)?;
        let plan = plan.share(alloc)?;
        Ok(UnitNotes {
            plan,
            search: 1,
            out,
            by_rows,
            quiet: None,
        })
    }

    /// Whether it is known of each move of a unit why it is not better at the plan of the notes. Where it says no, nothing is
    /// known.
    pub fn knows(&self, inst: &Instance, unit: LegUnit) -> bool
        requires notes { AreUnitNotes inst.now self.now }
        requires unit { IsLegUnit inst.now self.now.plan unit }
        ensures { result ≡ true → IsUnitOut inst.now self.now.plan (unit_of unit) }
    {
        self.by_rows.has(inst, &self.plan, unit) || self.out.has(inst, &self.plan, unit)
    }

    /// Whether it is known of a shard that none of its moves is better at the plan of the notes. Where it says no, nothing is
    /// known.
    pub fn is_quiet(&self, shard: u32, shards: u32) -> bool
        ensures { result ≡ true → (I : Situation) → AreUnitNotes I self.now → first_better I self.now.plan shard shards ≡ None }
    {
        match self.quiet {
            Some(known) => known.number == shard && known.count == shards,
            None => false,
        }
    }

    /// Notes of a shard that none of its moves is better at the plan, in the place of what was known of one.
    pub fn note_quiet(&mut self, shard: u32, shards: u32)
        ensures plan { self.new.plan ≡ self.old.plan }
        ensures notes { (I : Situation) → AreUnitNotes I self.old → first_better I self.old.plan shard shards ≡ None → AreUnitNotes I self.new }
    {
        self.quiet = Some(Shard {
            number: shard,
            count: shards,
        });
    }

    /// Notes of a unit that it is out. The only error is out of memory, and then nothing is promised of the notes: they are
    /// given up.
    pub fn note(&mut self, unit: LegUnit) -> Result<(), NoMem>
        ensures plan { OnOk result (self.new.plan ≡ self.old.plan) }
        ensures notes { (I : Situation) → AreUnitNotes I self.old → IsUnitOut I self.old.plan (unit_of unit) → OnOk result (AreUnitNotes I self.new) }
    {
        match place_of(unit) {
            Some(there) => self.out.put(there, self.search),
            None => Ok(()),
        }
    }

    /// The same of one that is out by rows alone.
    pub fn note_by_rows(&mut self, unit: LegUnit) -> Result<(), NoMem>
        ensures plan { OnOk result (self.new.plan ≡ self.old.plan) }
        ensures notes { (I : Situation) → AreUnitNotes I self.old → IsUnitOutByRows I self.old.plan (unit_of unit) → OnOk result (AreUnitNotes I self.new) }
    {
        match place_of(unit) {
            Some(there) => self.by_rows.put(there, self.search),
            None => Ok(()),
        }
    }
}
