//! What rules the departure of an added leg at a moment out, and until when.

ghost use Rattle.std.specs.Prelude.{◌≡◌, ◌<◌, Some, find};
ghost use Rattle.std.specs.Option.{ForSome};
ghost use Rattle.desk_data.specs.Situation.{legs_of, plane_at};
ghost use Rattle.desk_data.specs.Valid.{IsPlanFor};
ghost use Rattle.desk_rules.specs.Rules.{meets_span};
ghost use Rattle.plan_reads.specs.Last.{AreLasts, IsLastOf};
ghost use Rattle.hour_counts.specs.declared.slot.Movement.TheVariants.{Departure, Arrival};
ghost use Rattle.ferry_legs.specs.Asked.{IsAsked};
ghost use Rattle.ferry_legs.specs.Departs.{IsWay, can_depart, has_slots, is_in_service, keeps_all, keeps_maint, keeps_maintenance, serves};
ghost use Rattle.ferry_legs.specs.RuledOut.{HoldsOrIsRuledOut};
ghost use Rattle.ferry_legs.specs.Taken.{IsTakenOf};
ghost use Rattle.plan_checks.specs.Upkeep.{start_of, AreUpkeeps, IsUpkeep};

use crate::room::{Taken, has_room};
use crate::way::Way;
use desk_data::{Instance, Leg, Maint, Minute, Plan};
use plan_checks::Upkeep;
use plan_reads::{meets_span, stand_of};

/// What is asked when an added leg on a way is to depart.
#[derive(Clone, Copy)]
pub(crate) struct Asked<'a> {
    /// The way.
    pub(crate) way: Way,
    /// What the legs of the plan say of its aircraft's maintenance.
    pub(crate) upkeep: Upkeep,
    /// The aircraft's last leg of the plan before its maintenance.
    pub(crate) start: Option<Leg>,
    /// Who departs in which hour.
    pub(crate) departures: Taken<'a>,
    /// Who arrives in which hour.
    pub(crate) arrivals: Taken<'a>,
}

/// What is asked of an added leg on a way, from what is kept of all aircraft.
pub(crate) fn asked_of<'a>(
    inst: &Instance,
    plan: &Plan,
    way: Way,
    upkeeps: &[Upkeep],
    starts: &[Option<Leg>],
    departures: Taken<'a>,
    arrivals: Taken<'a>,
) -> Asked<'a>
    requires way { IsWay inst.now way }
    requires upkeeps { AreUpkeeps inst.now plan.now (legs_of inst.now) upkeeps.now }
    requires starts { AreLasts inst.now plan.now (λ p. start_of (plane_at inst.now p).maint) (legs_of inst.now) starts.now }
    requires departures { IsTakenOf inst.now plan.now departures }
    requires arrivals { IsTakenOf inst.now plan.now arrivals }
    requires leaves { departures.movement ≡ Departure }
    requires lands { arrivals.movement ≡ Arrival }
    requires same { arrivals.added.now ≡ departures.added.now }
    ensures asked { IsAsked inst.now plan.now result }
    ensures way { result.way ≡ way }
    ensures added { result.departures.added.now ≡ departures.entry.added.now }
{
    Asked {
        way,
        upkeep: upkeeps[way.plane.0 as usize],
        start: starts[way.plane.0 as usize],
        departures,
        arrivals,
    }
}

/// `None` where an added leg can depart at a moment, which is before the window's end. Else a later moment: it can depart at none
/// before that.
pub(crate) fn ruled_out_until(
    inst: &Instance,
    plan: &Plan,
    asked: Asked<'_>,
    at: u32,
) -> Option<u32>
    requires plan { IsPlanFor inst.now plan.now }
    requires asked { IsAsked inst.now plan.now asked }
    requires at { at < inst.now.parts.to.0 }
    ensures { HoldsOrIsRuledOut (can_depart inst.now plan.now asked.entry.departures.added.now asked.entry.way) at result }
{
    // the day is a valid one: its window ends in the hundred years
    let _rows = inst.parts();
    match out_of_service_until(inst, asked.way, at) {
        Some(end) => Some(end),
        None => kept_until(inst, plan, asked, at),
    }
}

/// The same of all but the spans out of service.
fn kept_until(inst: &Instance, plan: &Plan, asked: Asked<'_>, at: u32) -> Option<u32>
    requires plan { IsPlanFor inst.now plan.now }
    requires asked { IsAsked inst.now plan.now asked }
    requires at { at < inst.now.parts.to.0 }
    ensures { HoldsOrIsRuledOut (keeps_all inst.now plan.now asked.entry.departures.added.now asked.entry.way) at result }
{
    let _rows = inst.parts();
    match unserved_until(inst, plan, asked.way, asked.upkeep, asked.start, at) {
        Some(end) => Some(end),
        None => full_until(inst, plan, asked, at),
    }
}

/// The same of the spans in which the aircraft is out of service: the end of the first that the leg meets.
fn out_of_service_until(inst: &Instance, way: Way, at: u32) -> Option<u32>
    requires way { IsWay inst.now way }
    requires at { at < 52596000 }
    ensures { HoldsOrIsRuledOut (is_in_service inst.now way) at result }
{
    match first_met(inst.spans(way.plane), at, at + way.minutes) {
        Some(span) => Some(span.1.0),
        None => None,
    }
}

/// The first of some spans that a flight meets.
fn first_met(spans: &[(Minute, Minute)], departs: u32, arrives: u32) -> Option<(Minute, Minute)>
    ensures { result ≡ find (λ span. meets_span departs arrives span.0 span.1) spans.now }
{
    spans
        .iter()
        .copied()
        .find(|span| meets_span(departs, arrives, span.0, span.1))
}

/// The same of the aircraft's maintenance, if it has one.
fn unserved_until(
    inst: &Instance,
    plan: &Plan,
    way: Way,
    upkeep: Upkeep,
    start: Option<Leg>,
    at: u32,
) -> Option<u32>
    requires plan { IsPlanFor inst.now plan.now }
    requires way { IsWay inst.now way }
    requires upkeep { ForSome (plane_at inst.now way.plane.0).maint (λ maint. IsUpkeep inst.now plan.now way.plane.0 maint (legs_of inst.now) upkeep) }
    requires start { IsLastOf plan.now way.plane.0 (start_of (plane_at inst.now way.plane.0).maint) (legs_of inst.now) start }
    requires at { at < inst.now.parts.to.0 }
    ensures { HoldsOrIsRuledOut (keeps_maintenance inst.now plan.now way) at result }
{
    match inst.plane(way.plane).maint {
        Some(maint) => unserved_by(inst, plan, way, maint, upkeep, start, at),
        None => None,
    }
}

/// The same of a maintenance. Before its start the aircraft may fly so many minutes. From its start on it has to be free for it,
/// and left at its airport, and the leg is not to meet it.
fn unserved_by(
    inst: &Instance,
    plan: &Plan,
    way: Way,
    maint: Maint,
    upkeep: Upkeep,
    start: Option<Leg>,
    at: u32,
) -> Option<u32>
    requires plan { IsPlanFor inst.now plan.now }
    requires way { IsWay inst.now way }
    requires upkeep { IsUpkeep inst.now plan.now way.plane.0 maint (legs_of inst.now) upkeep }
    requires start { IsLastOf plan.now way.plane.0 maint.from.0 (legs_of inst.now) start }
    requires at { at < inst.now.parts.to.0 }
    ensures { HoldsOrIsRuledOut (keeps_maint inst.now plan.now way (Some maint)) at result }
{
    let _rows = inst.parts();
    if at < maint.from.0 {
        return flown_out_until(inst, plan, way, maint, upkeep, at);
    }
    if !serves(inst, plan, way, maint, upkeep, start) {
        // it never will: no moment before the window's end is left
        return Some(inst.window().1.0);
    }
    if meets_span(at, at + way.minutes, maint.from, maint.to) {
        return Some(maint.to.0);
    }
    None
}

/// The same of a moment before a maintenance: where the aircraft may not fly so many minutes more, until it starts.
fn flown_out_until(
    inst: &Instance,
    plan: &Plan,
    way: Way,
    maint: Maint,
    upkeep: Upkeep,
    at: u32,
) -> Option<u32>
    requires way { IsWay inst.now way }
    requires upkeep { IsUpkeep inst.now plan.now way.plane.0 maint (legs_of inst.now) upkeep }
    requires at { at < maint.from.0 }
    ensures { HoldsOrIsRuledOut (keeps_maint inst.now plan.now way (Some maint)) at result }
{
    // there are at most 20,000 legs, so the minutes fit
    let _legs = inst.legs();
    let within = upkeep.minutes + way.minutes <= maint.minutes;
    if within { None } else { Some(maint.from.0) }
}

/// Whether an aircraft is free for a maintenance, and was left at its airport.
fn serves(
    inst: &Instance,
    plan: &Plan,
    way: Way,
    maint: Maint,
    upkeep: Upkeep,
    start: Option<Leg>,
) -> bool
    requires plan { IsPlanFor inst.now plan.now }
    requires way { IsWay inst.now way }
    requires upkeep { IsUpkeep inst.now plan.now way.plane.0 maint (legs_of inst.now) upkeep }
    requires start { IsLastOf plan.now way.plane.0 maint.from.0 (legs_of inst.now) start }
    ensures { result ≡ serves inst.now plan.now way.plane.0 maint }
{
    let there = stand_of(inst, way.plane, start);
    upkeep.free && there.0 == maint.airport.0
}

/// The same of the hours of departure and arrival: the next hour of departure, or the moment from which the leg arrives in
/// the next hour.
fn full_until(inst: &Instance, plan: &Plan, asked: Asked<'_>, at: u32) -> Option<u32>
    requires plan { IsPlanFor inst.now plan.now }
    requires asked { IsAsked inst.now plan.now asked }
    requires at { at < 52596000 }
    ensures { HoldsOrIsRuledOut (has_slots inst.now plan.now asked.entry.departures.added.now asked.entry.way) at result }
{
    let way = asked.way;
    let leaves = at / 60;
    if !has_room(inst, plan, asked.departures, way.origin, leaves) {
        return Some(60 * (leaves + 1));
    }
    let lands = (at + way.minutes) / 60;
    if !has_room(inst, plan, asked.arrivals, way.dest, lands) {
        return Some(60 * (lands + 1) - way.minutes);
    }
    None
}
