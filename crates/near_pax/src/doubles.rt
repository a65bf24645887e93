//! Routes with two legs after a stem, in one cabin.

ghost use Rattle.std.specs.Prelude.{◌≡◌, ◌<◌, ◌++◌, IfOk, OnOk, All, map};
ghost use Rattle.desk_data.specs.Situation.{airports_of, legs_of, reservations_of};
ghost use Rattle.desk_data.specs.Valid.{IsPlanFor};
ghost use Rattle.desk_rules.specs.Numbers.{numbers};
ghost use Rattle.near_moves.specs.Routes.{all_doubles};
ghost use Rattle.near_pax.specs.Flights.{IsNetOf};
ghost use Rattle.near_pax.specs.Onward.{leads_on};
ghost use Rattle.near_pax.specs.Start.{IsStemPath};
ghost use Rattle.near_pax.specs.Tried.{new_routes, doubles_in, doubles_of};

use crate::flights::FlightNet;
use crate::sought::Sought;
use crate::start::{Outset, due_before, start_after};
use crate::tried::take_after;
use desk_data::{Airport, Cabin, Instance, Leg, NoMem, Path};
use plan_pages::Pages;
use plan_reads::arrival;
use std::alloc::Global;

impl FlightNet {
    /// Takes those with two legs, by the first of them, by cabin, and by the second. First legs from whose
    /// destination none goes on are passed over.
    pub(crate) fn take_doubles(
        &self,
        alloc: Global,
        inst: &Instance,
        plan: &Pages,
        outset: &Outset,
        found: &mut Vec<Path>,
    ) -> Result<(), NoMem>
        requires plan { IsPlanFor inst.now plan.now }
        requires net { IsNetOf inst.now plan.now self.now }
        requires res { outset.now.res.0 < reservations_of inst.now }
        requires stem { IsStemPath inst.now outset.now.stem.now }
        ensures { OnOk result (found.new.items ≡ found.old.items ++ new_routes inst.now plan.now outset.now.res.0 outset.now.told.now (map (λ double. outset.now.stem.now ++ double) (all_doubles inst.now))) }
    {
        let (from, earliest) = start_after(inst, plan, outset.res, outset.stem);
        let sought = Sought {
            from,
            to: None,
            earliest,
            until: due_before(inst, outset.res),
        };
        let onward = self.onward(alloc, inst, plan, &sought, inst.booked(outset.res).dest)?;
        let legs = self.legs(alloc, inst, plan, &sought)?;
        for leg in &legs {
            if onward[inst.leg(*leg).dest.0 as usize] {
                self.take_doubles_of(alloc, inst, plan, outset, *leg, found)?;
            }
        }
        Ok(())
    }

    /// For each airport whether a leg goes on from there to another in the time of what is sought.
    fn onward(
        &self,
        alloc: Global,
        inst: &Instance,
        plan: &Pages,
        sought: &Sought,
        dest: Airport,
    ) -> Result<Vec<bool>, NoMem>
        requires plan { IsPlanFor inst.now plan.now }
        requires net { IsNetOf inst.now plan.now self.now }
        ensures { IfOk result (λ onward. onward.items ≡ map (leads_on inst.now plan.now sought.now dest) (numbers (airports_of inst.now))) }
    {
        let mut onward = Vec::with_capacity(alloc, inst.airports() as usize)?;
        for a in 0..inst.airports() {
            let leads = self.leads_on(alloc, inst, plan, sought, dest, Airport(a))?;
            onward.push(leads)?;
        }
        Ok(onward)
    }

    /// Whether a leg goes from an airport to another in that time.
    fn leads_on(
        &self,
        alloc: Global,
        inst: &Instance,
        plan: &Pages,
        sought: &Sought,
        dest: Airport,
        from: Airport,
    ) -> Result<bool, NoMem>
        requires plan { IsPlanFor inst.now plan.now }
        requires net { IsNetOf inst.now plan.now self.now }
        ensures { IfOk result (λ leads. leads ≡ leads_on inst.now plan.now sought.now dest from.0) }
    {
        let next = Sought {
            from,
            to: Some(dest),
            earliest: sought.earliest,
            until: sought.until,
        };
        let legs = self.legs(alloc, inst, plan, &next)?;
        Ok(0 < legs.len())
    }

    /// Takes those with a first leg, by cabin and second leg.
    fn take_doubles_of(
        &self,
        alloc: Global,
        inst: &Instance,
        plan: &Pages,
        outset: &Outset,
        first: Leg,
        found: &mut Vec<Path>,
    ) -> Result<(), NoMem>
        requires plan { IsPlanFor inst.now plan.now }
        requires net { IsNetOf inst.now plan.now self.now }
        requires res { outset.now.res.0 < reservations_of inst.now }
        requires stem { IsStemPath inst.now outset.now.stem.now }
        requires first { first.0 < legs_of inst.now }
        ensures { OnOk result (found.new.items ≡ found.old.items ++ new_routes inst.now plan.now outset.now.res.0 outset.now.told.now (doubles_of outset.now.stem.now first.0 (numbers (legs_of inst.now)))) }
    {
        let sought = Sought {
            from: inst.leg(first).dest,
            to: Some(inst.booked(outset.res).dest),
            earliest: arrival(inst, plan, first),
            until: due_before(inst, outset.res),
        };
        let legs = self.legs(alloc, inst, plan, &sought)?;
        let legs = legs.as_slice();
        take_doubles_in(alloc, inst, plan, outset, (first, Cabin::F), legs, found)?;
        take_doubles_in(alloc, inst, plan, outset, (first, Cabin::B), legs, found)?;
        take_doubles_in(alloc, inst, plan, outset, (first, Cabin::E), legs, found)
    }
}

/// Takes those with a first leg and one of some second legs, in a cabin.
fn take_doubles_in(
    alloc: Global,
    inst: &Instance,
    plan: &Pages,
    outset: &Outset,
    first: (Leg, Cabin),
    seconds: &[Leg],
    found: &mut Vec<Path>,
) -> Result<(), NoMem>
    requires plan { IsPlanFor inst.now plan.now }
    requires res { outset.now.res.0 < reservations_of inst.now }
    requires stem { IsStemPath inst.now outset.now.stem.now }
    requires first { first.0.0 < legs_of inst.now }
    requires seconds { All (λ leg. leg.0 < legs_of inst.now) seconds.now }
    ensures { OnOk result (found.new.items ≡ found.old.items ++ new_routes inst.now plan.now outset.now.res.0 outset.now.told.now (doubles_in outset.now.stem.now first.0.0 (map (λ leg. leg.0) seconds.now) first.1)) }
{
    for second in seconds {
        take_after(
            alloc,
            inst,
            plan,
            outset,
            &[first, (*second, first.1)],
            found,
        )?;
    }
    Ok(())
}
