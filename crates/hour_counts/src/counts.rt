//! The departures and arrivals of a plan.

ghost use Rattle.std.specs.Prelude.{◌≡◌, ◌<◌, IfOk, IfSome, OnOk};
ghost use Rattle.desk_data.specs.PlanRows.{PlanRows, row_at, with_row};
ghost use Rattle.desk_data.specs.Situation.{legs_of, planes_of};
ghost use Rattle.desk_data.specs.Valid.{IsPlanFor, IsRowOf};
ghost use Rattle.hour_counts.specs.Counts.{AreCountsOf, among, arrival_of, counted_departure, departure_of};

use crate::asked::KnowsHours;
use crate::table::Table;
use desk_data::{Airport, Instance, Leg, Minute, NoMem, Row};
use plan_reads::ReadPlan;
use std::alloc::Global;
use std::marker::Model;

/// How many legs depart from each airport in each hour, and arrive there, of those that are flown and
/// whose scheduled aircraft is no surface transport.
#[derive(Drop)]
pub struct HourCounts {
    departures: Table,
    arrivals: Table,
}

impl Model for HourCounts {
    ghost use Rattle.hour_counts.specs.Counts.{Counted};

    ghost Value = { Counted };

    ghost view = { λ c. record { departures = c.departures; arrivals = c.arrivals } };
}

impl HourCounts {
    /// What a plan has, in one walk over its legs. The only error is out of memory.
    pub fn of<P: ReadPlan>(alloc: Global, inst: &Instance, plan: &P) -> Result<HourCounts, NoMem>
        requires { IsPlanFor inst.now (P.plan_of plan.now) }
        ensures { IfOk result (λ counts. AreCountsOf inst.now (P.plan_of plan.now) counts) }
    {
        let mut counts = HourCounts {
            departures: Table::new(alloc),
            arrivals: Table::new(alloc),
        };
        for x in 0..inst.legs() {
            let row = plan.read_row(Leg(x));
            counts.departures.enter(departure_of(inst, Leg(x), row))?;
            counts.arrivals.enter(arrival_of(inst, Leg(x), row))?;
        }
        Ok(counts)
    }

    /// A leg has another row than it had. After an error, which is out of memory, what is counted may be
    /// that of no plan.
    pub fn place(&mut self, inst: &Instance, leg: Leg, was: Row, new: Row) -> Result<(), NoMem>
        requires leg { leg.0 < legs_of inst.now }
        requires was { IsRowOf (planes_of inst.now) was }
        requires new { IsRowOf (planes_of inst.now) new }
        ensures { (Q : PlanRows) → IsPlanFor inst.now Q → row_at Q leg.0 ≡ was → AreCountsOf inst.now Q self.old → OnOk result (AreCountsOf inst.now (with_row Q leg.0 new) self.new) }
    {
        // there are at most 20,000 legs, so that no count is near the greatest number
        let _ = inst.legs();
        self.departures.enter(departure_of(inst, leg, new))?;
        self.departures.leave(departure_of(inst, leg, was))?;
        self.arrivals.enter(arrival_of(inst, leg, new))?;
        self.arrivals.leave(arrival_of(inst, leg, was))
    }
}

impl KnowsHours for HourCounts {
    ghost use Rattle.hour_counts.specs.Counts.{AreCountsOf};

    ghost knows = { λ counts I Q. AreCountsOf I Q counts };

    fn departures_beside(
        &self,
        inst: &Instance,
        leg: Leg,
        row: Row,
        airport: Airport,
        hour: u32,
    ) -> u32 {
        let own = one_at(departure_of(inst, leg, row), airport, hour);
        self.departures.at(airport.0, hour).saturating_sub(own)
    }

    fn arrivals_beside(
        &self,
        inst: &Instance,
        leg: Leg,
        row: Row,
        airport: Airport,
        hour: u32,
    ) -> u32 {
        let own = one_at(arrival_of(inst, leg, row), airport, hour);
        self.arrivals.at(airport.0, hour).saturating_sub(own)
    }
}

/// 1 where a slot is at an airport in an hour, else 0.
fn one_at(slot: Option<(u32, u32)>, airport: Airport, hour: u32) -> u32
    ensures { result ≡ among slot airport.0 hour }
{
    match slot {
        Some((at, when)) if at == airport.0 && when == hour => 1,
        _ => 0,
    }
}

/// When a leg departs by a row, if it is counted: it is flown, and by its scheduled aircraft no surface
/// transport. In minutes since 2000-01-01, below 52,500,000.
fn counted_departure(inst: &Instance, leg: Leg, row: Row) -> Option<Minute>
    requires leg { leg.0 < legs_of inst.now }
    requires row { IsRowOf (planes_of inst.now) row }
    ensures departure { result ≡ counted_departure inst.now leg.0 row }
    ensures limit { IfSome result (λ dep. dep.0 < 52500000) }
{
    match row {
        Row::Flown { dep, .. } if !inst.plane(inst.leg(leg).plane).surface => Some(dep),
        _ => None,
    }
}

/// From where and in which hour a leg departs by a row, if it is counted.
fn departure_of(inst: &Instance, leg: Leg, row: Row) -> Option<(u32, u32)>
    requires leg { leg.0 < legs_of inst.now }
    requires row { IsRowOf (planes_of inst.now) row }
    ensures { result ≡ departure_of inst.now leg.0 row }
{
    let dep = counted_departure(inst, leg, row)?;
    Some((inst.leg(leg).origin.0, dep.0 / 60))
}

/// Where and in which hour a leg arrives by a row, if it is counted.
fn arrival_of(inst: &Instance, leg: Leg, row: Row) -> Option<(u32, u32)>
    requires leg { leg.0 < legs_of inst.now }
    requires row { IsRowOf (planes_of inst.now) row }
    ensures { result ≡ arrival_of inst.now leg.0 row }
{
    let dep = counted_departure(inst, leg, row)?;
    let info = inst.leg(leg);
    Some((info.dest.0, (dep.0 + info.block) / 60))
}
