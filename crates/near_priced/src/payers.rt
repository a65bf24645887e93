//! Who pays at a plan.

ghost use Rattle.std.specs.Prelude.{◌≡◌, IfOk, false, replicate};
ghost use Rattle.desk_data.specs.Situation.{Situation, reservations_of};
ghost use Rattle.desk_data.specs.Valid.{IsPlanFor};
ghost use Rattle.near_priced.specs.Payers.{AreCosts, ArePayers};

use crate::marks::mark_all;
use crate::services::services_of;
use desk_data::{Grains, Instance, NoMem};
use plan_pages::Pages;
use std::alloc::Global;

/// What is to be known of a plan to tell moves on whose aircraft nobody pays.
pub struct Payers {
    /// For each aircraft whether somebody is on one of its legs of whose reservation somebody costs something.
    pub(crate) on: Vec<bool>,
    /// For each leg whether such a reservation is booked on it.
    pub(crate) booked: Vec<bool>,
    /// For each aircraft how many positions it may serve by ending elsewhere, or more.
    pub(crate) services: Vec<u32>,
}

/// Dropped in one call, so that a function that owns one proves it once, and not part by part.
impl Drop for Payers {
    fn drop(self) {
        let Payers {
            on: _,
            booked: _,
            services: _,
        } = self;
    }
}

impl Payers {
    /// Those at a plan, which is one for the instance, given what each reservation costs (`reservation_costs`): one walk
    /// over the reservations and the paths of those that cost something, one over the legs, and for each aircraft one over
    /// the positions. The only error is out of memory.
    pub fn of(
        alloc: Global,
        inst: &Instance,
        plan: &Pages,
        costs: &[Grains],
    ) -> Result<Payers, NoMem>
        requires plan { IsPlanFor inst.now plan.now }
        requires costs { AreCosts inst.now plan.now costs.now (reservations_of inst.now) }
        ensures { IfOk result (ArePayers inst.now plan.now) }
    {
        let mut on = unmarked(alloc, inst.planes() as usize)?;
        let mut booked = unmarked(alloc, inst.legs() as usize)?;
        mark_all(inst, plan, costs, &mut on, &mut booked);
        let services = services_of(alloc, inst, plan)?;
        Ok(Payers {
            on,
            booked,
            services,
        })
    }
}

/// So many times no.
fn unmarked(alloc: Global, count: usize) -> Result<Vec<bool>, NoMem>
    ensures { IfOk result (λ none. none.items ≡ replicate count false) }
{
    Ok(vec![in alloc; false; count]?)
}
