//! The routes of a reservation.

ghost use Rattle.std.specs.Prelude.{◌≡◌, ◌<◌, IfOk, OnOk};
ghost use Rattle.desk_data.specs.Situation.{reservations_of};
ghost use Rattle.desk_data.specs.Valid.{IsPlanFor};
ghost use Rattle.near_moves.specs.Routes.{routes, tried_after};
ghost use Rattle.near_moves.specs.RouteParts.{with_routes_of};
ghost use Rattle.near_pax.specs.Flights.{IsNetOf};
ghost use Rattle.near_pax.specs.Start.{IsStemPath};
ghost use Rattle.near_pax.specs.Tried.{new_routes};

use crate::flights::FlightNet;
use crate::start::{Outset, begun_path, is_other_stem};
use crate::tried::{scheduled_route, take_after};
use desk_data::{Cabin, Instance, Leg, NoMem, Path, Res};
use plan_pages::Pages;
use std::alloc::Global;

impl FlightNet {
    /// The routes of a reservation in the plan whose legs these are, each once: the scheduled path, then for
    /// each stem the stem alone, then with one leg after it, then with two in one cabin, each kind in path
    /// order. The first stem is what was begun, the others are the legs that some passengers have flown. It
    /// tries the legs that leave where passengers stand, in time. The only error is out of memory.
    pub fn routes(
        &self,
        alloc: Global,
        inst: &Instance,
        plan: &Pages,
        res: Res,
    ) -> Result<Vec<Path>, NoMem>
        requires plan { IsPlanFor inst.now plan.now }
        requires net { IsNetOf inst.now plan.now self.now }
        requires res { res.0 < reservations_of inst.now }
        ensures { IfOk result (λ all. all.items ≡ routes inst.now plan.now res.0) }
    {
        let _rows = inst.parts();
        let begun = begun_path(inst, res);
        let mut routes = scheduled_route(alloc, inst, plan, res)?;
        self.take_stem(alloc, inst, plan, res, begun, &mut routes)?;
        for entry in inst.tally(res) {
            let stem = entry.0.as_slice();
            if is_other_stem(begun, stem) {
                self.take_stem(alloc, inst, plan, res, stem, &mut routes)?;
            }
        }
        Ok(routes)
    }

    /// Takes those of a stem that are not told yet.
    fn take_stem(
        &self,
        alloc: Global,
        inst: &Instance,
        plan: &Pages,
        res: Res,
        stem: &[(Leg, Cabin)],
        routes: &mut Vec<Path>,
    ) -> Result<(), NoMem>
        requires plan { IsPlanFor inst.now plan.now }
        requires net { IsNetOf inst.now plan.now self.now }
        requires res { res.0 < reservations_of inst.now }
        requires stem { IsStemPath inst.now stem.now }
        ensures { OnOk result (routes.new.items ≡ with_routes_of inst.now plan.now res.0 routes.old.items (tried_after inst.now stem.now)) }
    {
        let told = routes.as_slice();
        let mut found = self.routes_after(alloc, inst, plan, &Outset { res, stem, told })?;
        routes.append(&mut found)?;
        Ok(())
    }

    /// The routes of a stem that are not told yet: the stem alone, then with one leg after it, then with two
    /// in one cabin.
    fn routes_after(
        &self,
        alloc: Global,
        inst: &Instance,
        plan: &Pages,
        outset: &Outset,
    ) -> Result<Vec<Path>, NoMem>
        requires plan { IsPlanFor inst.now plan.now }
        requires net { IsNetOf inst.now plan.now self.now }
        requires res { outset.now.res.0 < reservations_of inst.now }
        requires stem { IsStemPath inst.now outset.now.stem.now }
        ensures { IfOk result (λ found. found.items ≡ new_routes inst.now plan.now outset.now.res.0 outset.now.told.now (tried_after inst.now outset.now.stem.now)) }
    {
        let mut found = Vec::new(alloc);
        take_after(alloc, inst, plan, outset, &[], &mut found)?;
        self.take_singles(alloc, inst, plan, outset, &mut found)?;
        self.take_doubles(alloc, inst, plan, outset, &mut found)?;
        Ok(found)
    }
}

/// The routes of a reservation in a plan, each once: sorts its legs first. The only error is out of
/// memory.
pub fn routes(alloc: Global, inst: &Instance, plan: &Pages, res: Res) -> Result<Vec<Path>, NoMem>
    requires plan { IsPlanFor inst.now plan.now }
    requires res { res.0 < reservations_of inst.now }
    ensures { IfOk result (λ all. all.items ≡ routes inst.now plan.now res.0) }
{
    FlightNet::of(alloc, inst, plan)?.routes(alloc, inst, plan, res)
}
