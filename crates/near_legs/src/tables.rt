//! What is looked up again and again.

ghost use Rattle.std.specs.Prelude.{◌≡◌, ◌<◌, None, [], IfOk, length, slice_index_or};
ghost use Rattle.desk_data.specs.Valid.{IsPlanFor};
ghost use Rattle.near_legs.specs.LegTables.{AreLists, pair_number};

use crate::after::legs_after;
use crate::families::families;
use crate::lists::{By, lists, pair_number};
use desk_data::{Airport, Instance, Leg, NoMem, Plane};
use plan_pages::Pages;
use std::alloc::Global;
use std::marker::Model;

/// What is looked up again and again, of a plan.
pub(crate) struct LegTables {
    after: Vec<Option<Leg>>,
    families: Vec<Vec<Plane>>,
    flown: Vec<Vec<Leg>>,
    cancelled: Vec<Vec<Leg>>,
}

/// Taken apart in one place, so that whoever lets go of tables does not do it part by part.
impl Drop for LegTables {
    fn drop(self) {
        let LegTables {
            after: _,
            families: _,
            flown: _,
            cancelled: _,
        } = self;
    }
}

impl Model for LegTables {
    ghost use Rattle.std.specs.Prelude.{map};
    ghost use Rattle.near_legs.specs.LegTables.{Lists};

    ghost Value = { Lists };

    ghost view = { λ t. record { after = t.after.items; families = map (λ l. l.items) t.families.items; flown = map (λ l. l.items) t.flown.items; cancelled = map (λ l. l.items) t.cancelled.items } };
}

impl LegTables {
    /// Those of a plan. The only error is out of memory.
    pub(crate) fn of(alloc: Global, inst: &Instance, plan: &Pages) -> Result<LegTables, NoMem>
        requires { IsPlanFor inst.now plan.now }
        ensures { IfOk result (AreLists inst.now plan.now) }
    {
        let after = legs_after(alloc, inst, plan)?;
        let families = families(alloc, inst)?;
        let flown = lists(alloc, inst, plan, By::Aircraft)?;
        let cancelled = lists(alloc, inst, plan, By::AirportPair)?;
        Ok(LegTables {
            after,
            families,
            flown,
            cancelled,
        })
    }

    /// The leg after a leg that is flown, on its aircraft.
    pub(crate) fn after(&self, leg: Leg) -> Option<Leg>
        requires { leg.0 < length self.now.after }
        ensures { result ≡ slice_index_or self.now.after leg.0 None }
    {
        self.after[leg.0 as usize]
    }

    /// The aircraft of an aircraft's family.
    pub(crate) fn family(&self, plane: Plane) -> &[Plane]
        requires { plane.0 < length self.now.families }
        ensures { result.now ≡ slice_index_or self.now.families plane.0 [] }
    {
        self.families[plane.0 as usize].as_slice()
    }

    /// The movable legs of an aircraft.
    pub(crate) fn flown(&self, plane: Plane) -> &[Leg]
        requires { plane.0 < length self.now.flown }
        ensures { result.now ≡ slice_index_or self.now.flown plane.0 [] }
    {
        self.flown[plane.0 as usize].as_slice()
    }

    /// The legs from one airport to another that may be restored, by leg.
    pub(crate) fn cancelled(&self, from: Airport, to: Airport) -> &[Leg]
        requires from { from.0 < 500 }
        requires to { to.0 < 500 }
        requires listed { pair_number from.0 to.0 < length self.now.cancelled }
        ensures { result.now ≡ slice_index_or self.now.cancelled (pair_number from.0 to.0) [] }
    {
        self.cancelled[pair_number(from, to) as usize].as_slice()
    }
}
