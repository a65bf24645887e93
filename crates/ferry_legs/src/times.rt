//! The times, and when one more added leg may depart.

ghost use Rattle.std.specs.Prelude.{◌≡◌, ◌<◌, [], None, true, false, is_some, IfOk, IfSome};
ghost use Rattle.std.specs.Option.{option_map};
ghost use Rattle.desk_data.specs.Situation.{airports_of, plane_at, planes_of};
ghost use Rattle.desk_data.specs.Valid.{IsPlanFor};
ghost use Rattle.added_legs.specs.Added.{least_added};
ghost use Rattle.added_legs.specs.Ferried.{added_leg, candidate, with_added};
ghost use Rattle.added_legs.specs.Merged.{AreAdded, added_for, way_to};
ghost use Rattle.hour_counts.specs.declared.slot.Movement.TheVariants.{Departure, Arrival};
ghost use Rattle.ferry_legs.specs.Taken.{IsTakenOf};
ghost use Rattle.ferry_legs.specs.Times.{IsTimesOf};

use crate::departs::first_from;
use crate::lasts::{lasts_of, ready, way_of};
use crate::room::Taken;
use crate::ruled_out::asked_of;
use crate::table::Table;
use added_legs::{Added, Starts};
use desk_data::{Airport, DEPARTURES_END, Instance, Leg, Minute, NoMem, Plan, Plane};
use hour_counts::Movement;
use plan_checks::{Upkeep, upkeeps_of};
use std::alloc::Global;
use std::marker::Model;

/// When one more added leg may depart, beside those of a list with which nothing is broken. What does not depend on the list is
/// worked out once.
pub struct FerryTimes {
    /// The added legs; there is room for one for each aircraft.
    added: Vec<Added>,
    /// The last leg of each aircraft.
    lasts: Vec<Option<Leg>>,
    /// The last leg of each aircraft before its maintenance.
    starts: Vec<Option<Leg>>,
    /// What the legs of each aircraft say of its maintenance.
    upkeeps: Vec<Upkeep>,
    /// How many legs of the plan depart from each airport in each hour.
    departures: Table,
    /// How many arrive there.
    arrivals: Table,
}

impl Drop for FerryTimes {
    fn drop(self) {
        let FerryTimes {
            added: _,
            lasts: _,
            starts: _,
            upkeeps: _,
            departures: _,
            arrivals: _,
        } = self;
    }
}

impl Model for FerryTimes {
    ghost use Rattle.std.specs.Vec.{vec_capacity};
    ghost use Rattle.ferry_legs.specs.Times.{Times};

    ghost Value = { Times };

    ghost view = { λ t. record { added = t.added.items; room = vec_capacity t.added; lasts = t.lasts.items; starts = t.starts.items; upkeeps = t.upkeeps.items; departures = t.departures; arrivals = t.arrivals } };
}

impl FerryTimes {
    /// Of a plan and no added legs, in a few walks over the legs. The only error is out of memory.
    pub fn of(alloc: Global, inst: &Instance, plan: &Plan) -> Result<FerryTimes, NoMem>
        requires { IsPlanFor inst.now plan.now }
        ensures { IfOk result (λ times. IsTimesOf inst.now plan.now [] times) }
    {
        Ok(FerryTimes {
            added: Vec::with_capacity(alloc, inst.planes() as usize)?,
            lasts: lasts_of(alloc, inst, plan, &Minute(DEPARTURES_END))?,
            starts: lasts_of(alloc, inst, plan, &Starts)?,
            upkeeps: upkeeps_of(alloc, inst, plan)?,
            departures: Table::of(alloc, inst, plan, Movement::Departure)?,
            arrivals: Table::of(alloc, inst, plan, Movement::Arrival)?,
        })
    }

    /// The first moment at which an aircraft may depart on one more added leg to an airport: with the longer list nothing is
    /// broken. `None` where there is none up to two days after the aircraft is ready, and before the window's end. The aircraft is no
    /// surface transport and has no added leg, and the day has a distance from where it ends to the airport. Takes no memory.
    pub fn departure(
        &self,
        inst: &Instance,
        plan: &Plan,
        plane: Plane,
        dest: Airport,
    ) -> Option<Minute>
        requires plan { IsPlanFor inst.now plan.now }
        requires times { IsTimesOf inst.now plan.now self.now.added self.now }
        requires added { AreAdded inst.now plan.now self.now.added }
        requires sound { least_added inst.now plan.now self.now.added ≡ None }
        requires plane { plane.0 < planes_of inst.now }
        requires dest { dest.0 < airports_of inst.now }
        requires air { (plane_at inst.now plane.0).surface ≡ false }
        requires alone { added_for self.now.added plane.0 ≡ None }
        requires way { is_some (way_to inst.now plan.now plane.0 dest) ≡ true }
        ensures exact { result ≡ option_map (λ leg. leg.dep) (candidate inst.now plan.now self.now.added plane.0 dest.0) }
        ensures sound { IfSome result (λ at. least_added inst.now plan.now (with_added self.now.added (added_leg plane.0 dest.0 at)) ≡ None) }
        ensures limit { IfSome result (λ at. at.0 < 52596000) }
    {
        let _rows = inst.parts();
        let way = way_of(inst, plan, self.lasts.as_slice(), plane, dest);
        let within = way.minutes <= inst.plane(plane).range;
        if within {
            let ready = ready(inst, plan, self.lasts.as_slice(), plane);
            let asked = asked_of(
                inst,
                plan,
                way,
                self.upkeeps.as_slice(),
                self.starts.as_slice(),
                self.departing(inst, plan),
                self.arriving(inst, plan),
            );
            first_from(inst, plan, asked, ready)
        } else {
            None
        }
    }

    /// The departures, of the plan and added.
    fn departing(&self, inst: &Instance, plan: &Plan) -> Taken<'_>
        requires times { IsTimesOf inst.now plan.now self.now.added self.now }
        requires added { AreAdded inst.now plan.now self.now.added }
        ensures taken { IsTakenOf inst.now plan.now result }
        ensures movement { result.movement ≡ Departure }
        ensures added { result.added.now ≡ self.now.added }
    {
        Taken {
            movement: Movement::Departure,
            table: &self.departures,
            added: self.added.as_slice(),
            lasts: self.lasts.as_slice(),
        }
    }

    /// The arrivals.
    fn arriving(&self, inst: &Instance, plan: &Plan) -> Taken<'_>
        requires times { IsTimesOf inst.now plan.now self.now.added self.now }
        requires added { AreAdded inst.now plan.now self.now.added }
        ensures taken { IsTakenOf inst.now plan.now result }
        ensures movement { result.movement ≡ Arrival }
        ensures added { result.added.now ≡ self.now.added }
    {
        Taken {
            movement: Movement::Arrival,
            table: &self.arrivals,
            added: self.added.as_slice(),
            lasts: self.lasts.as_slice(),
        }
    }

    /// One more leg is added. Takes no memory.
    pub fn add(&mut self, inst: &Instance, plan: &Plan, leg: Added)
        requires times { IsTimesOf inst.now plan.now self.old.added self.old }
        requires added { AreAdded inst.now plan.now (with_added self.old.added leg) }
        ensures { IsTimesOf inst.now plan.now (with_added self.old.added leg) self.new }
    {
        // there is room for a leg of each aircraft
        self.added.push_reserved(leg);
    }
}
