//! Which legs changed from one plan to a later one.

ghost use Rattle.std.specs.Prelude.{◌≡◌, ◌<◌, length, All, IfOk, true};
ghost use Rattle.desk_data.specs.Valid.{IsPlanFor};
ghost use Rattle.near_notes.specs.DayNotes.{HaveAboard};
ghost use Rattle.near_memory.specs.Untouched.{IsStill};
ghost use Rattle.near_notes.specs.Changes.{AreAllStill, AreChanges};

use crate::aboard::has_no_fewer;
use desk_data::{Cabin, Instance, Leg, NoMem, Seats};
use plan_pages::Pages;
use plan_reads::KnowsAboard;
use std::alloc::Global;

/// The legs that were touched between two plans: that have another row, or fewer passengers in a cabin.
#[derive(Drop)]
pub(crate) struct Changes {
    /// For each leg whether it was touched.
    pub touched: Vec<bool>,
    /// Those that were.
    pub legs: Vec<Leg>,
}

impl Changes {
    /// Those between a plan, with so many aboard each leg, and a later one. The only error is out of memory.
    pub(crate) fn between<A: KnowsAboard>(
        alloc: Global,
        inst: &Instance,
        was: &Pages,
        had: &[Seats],
        plan: &Pages,
        aboard: &A,
    ) -> Result<Changes, NoMem>
        requires was { IsPlanFor inst.now was.now }
        requires had { HaveAboard was.now had.now }
        requires plan { IsPlanFor inst.now plan.now }
        requires aboard { A.knows aboard.now plan.now }
        ensures { IfOk result (AreChanges inst.now was.now plan.now) }
    {
        let mut touched = Vec::with_capacity(alloc, inst.legs() as usize)?;
        let mut legs = Vec::new(alloc);
        for x in 0..inst.legs() {
            let leg = Leg(x);
            if is_still(was, had, plan, aboard, leg) {
                touched.push(false)?;
            } else {
                touched.push(true)?;
                legs.push(leg)?;
            }
        }
        Ok(Changes { touched, legs })
    }

    /// Whether none of the legs of a path was touched.
    pub(crate) fn are_still(&self, path: &[(Leg, Cabin)]) -> bool
        requires { All (λ pair. pair.0.0 < length self.now.touched.items) path.now }
        ensures { result ≡ true → AreAllStill self.now.touched.items path.now }
    {
        for pair in path {
            if self.touched[pair.0.0 as usize] {
                return false;
            }
        }
        true
    }
}

/// Whether a leg has the same row in a later plan, and in no cabin fewer passengers.
fn is_still<A: KnowsAboard>(was: &Pages, had: &[Seats], plan: &Pages, aboard: &A, leg: Leg) -> bool
    requires leg { leg.0 < length was.now.rows }
    requires later { leg.0 < length plan.now.rows }
    requires had { HaveAboard was.now had.now }
    requires aboard { A.knows aboard.now plan.now }
    ensures { result ≡ true → IsStill was.now plan.now leg.0 }
{
    was.read_row(leg) == plan.read_row(leg) && has_no_fewer(aboard, leg, had[leg.0 as usize])
}
