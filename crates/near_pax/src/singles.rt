//! Routes with one leg after a stem.

ghost use Rattle.std.specs.Prelude.{◌≡◌, ◌<◌, ◌++◌, ◌∷◌, [], OnOk, map};
ghost use Rattle.desk_data.specs.Situation.{legs_of, reservations_of};
ghost use Rattle.desk_data.specs.Valid.{IsPlanFor};
ghost use Rattle.near_moves.specs.Routes.{all_pairs};
ghost use Rattle.near_pax.specs.Flights.{IsNetOf};
ghost use Rattle.near_pax.specs.Start.{IsStemPath};
ghost use Rattle.near_pax.specs.Tried.{new_routes, singles_of};

use crate::flights::FlightNet;
use crate::sought::Sought;
use crate::start::{Outset, due_before, start_after};
use crate::tried::take_after;
use desk_data::{Cabin, Instance, Leg, NoMem, Path};
use plan_pages::Pages;
use std::alloc::Global;

impl FlightNet {
    /// Takes those with one leg, by leg and cabin.
    pub(crate) fn take_singles(
        &self,
        alloc: Global,
        inst: &Instance,
        plan: &Pages,
        outset: &Outset,
        found: &mut Vec<Path>,
    ) -> Result<(), NoMem>
        requires plan { IsPlanFor inst.now plan.now }
        requires net { IsNetOf inst.now plan.now self.now }
        requires res { outset.now.res.0 < reservations_of inst.now }
        requires stem { IsStemPath inst.now outset.now.stem.now }
        ensures { OnOk result (found.new.items ≡ found.old.items ++ new_routes inst.now plan.now outset.now.res.0 outset.now.told.now (map (λ pair. outset.now.stem.now ++ pair ∷ []) (all_pairs inst.now))) }
    {
        let (from, earliest) = start_after(inst, plan, outset.res, outset.stem);
        let sought = Sought {
            from,
            to: Some(inst.booked(outset.res).dest),
            earliest,
            until: due_before(inst, outset.res),
        };
        let legs = self.legs(alloc, inst, plan, &sought)?;
        for leg in &legs {
            take_single(alloc, inst, plan, outset, *leg, found)?;
        }
        Ok(())
    }
}

/// Takes those with a leg, by cabin.
fn take_single(
    alloc: Global,
    inst: &Instance,
    plan: &Pages,
    outset: &Outset,
    leg: Leg,
    found: &mut Vec<Path>,
) -> Result<(), NoMem>
    requires plan { IsPlanFor inst.now plan.now }
    requires res { outset.now.res.0 < reservations_of inst.now }
    requires stem { IsStemPath inst.now outset.now.stem.now }
    requires leg { leg.0 < legs_of inst.now }
    ensures { OnOk result (found.new.items ≡ found.old.items ++ new_routes inst.now plan.now outset.now.res.0 outset.now.told.now (singles_of outset.now.stem.now leg.0)) }
{
    take_after(alloc, inst, plan, outset, &[(leg, Cabin::F)], found)?;
    take_after(alloc, inst, plan, outset, &[(leg, Cabin::B)], found)?;
    take_after(alloc, inst, plan, outset, &[(leg, Cabin::E)], found)
}
