//! Legs and aircraft that are untouched between two plans.

ghost use Rattle.std.specs.Prelude.{IfOk};
ghost use Rattle.desk_data.specs.Valid.{IsPlanFor};
ghost use Rattle.near_untouched.specs.UntouchedLegs.{AreUntouched};

use crate::again::touched_again;
use crate::changed::changed_legs;
use crate::legs::touched_legs;
use crate::planes::touched_planes;
use crate::plans::Plans;
use desk_data::{Instance, NoMem};
use hour_counts::KnowsHours;
use plan_pages::Pages;
use std::alloc::Global;

/// Which legs and aircraft are known to be untouched between two plans of a day.
pub struct Untouched {
    /// For each leg whether it was touched, or may have been.
    pub legs: Vec<bool>,
    /// For each aircraft the same.
    pub planes: Vec<bool>,
    /// For each leg whether it is not known that it may be flown again as before.
    pub again: Vec<bool>,
}

/// Dropped in one call, so that a function that owns one proves it once, and not part by part.
impl Drop for Untouched {
    fn drop(self) {
        let Untouched {
            legs: _,
            planes: _,
            again: _,
        } = self;
    }
}

impl Untouched {
    /// Those between a plan and a later one, by what knows the hours of each: a few walks over the legs, and two over the
    /// reservations; for each leg that may be flown again one over the legs with another row, and one over those that may be;
    /// and for each position one over the aircraft that end elsewhere. A table takes a byte for each aircraft and airport.
    /// Both are plans for the instance. The only error is out of memory.
    pub fn between<H: KnowsHours, K: KnowsHours>(
        alloc: Global,
        inst: &Instance,
        earlier: &Pages,
        earlier_hours: &H,
        later: &Pages,
        later_hours: &K,
    ) -> Result<Untouched, NoMem>
        requires earlier { IsPlanFor inst.now earlier.now }
        requires earlier_hours { H.knows earlier_hours.now inst.now earlier.now }
        requires later { IsPlanFor inst.now later.now }
        requires later_hours { K.knows later_hours.now inst.now later.now }
        ensures { IfOk result (AreUntouched inst.now earlier.now later.now) }
    {
        let plans = Plans {
            inst,
            earlier,
            later,
        };
        let changed = changed_legs(alloc, &plans)?;
        let rows = changed.as_slice();
        let legs = touched_legs(alloc, &plans, earlier_hours, later_hours, rows)?;
        let planes = touched_planes(alloc, &plans, legs.as_slice(), rows)?;
        let again = touched_again(alloc, &plans, legs.as_slice(), rows)?;
        Ok(Untouched {
            legs,
            planes,
            again,
        })
    }
}
