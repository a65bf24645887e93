//! The legs that changed, worst first.

ghost use Rattle.std.specs.Prelude.{◌<◌};
ghost use Rattle.desk_data.specs.Situation.{legs_of};
ghost use Rattle.desk_data.specs.Valid.{IsPlanFor};

use crate::{
    ChangedLeg, LegChange, Page, Part, Shift, airport_name, date, leg_of, plane_name, put_time,
};
use desk_data::{Instance, Leg, LegInfo, Minute, NoMem, Plan, Plane, Row};
use std::alloc::Global;

// How bad a change is: the least stands first. Cancelled legs come before the others, then those that are shifted most, then
// those with most passengers, then the leg with the lesser number.
#[derive(Clone, Copy, PartialEq, Eq, PartialOrd, Ord)]
struct Rank {
    kind: u32,
    unshifted: u32,
    unfilled: u32,
    leg: u32,
}

// How many minutes a leg is shifted.
fn minutes_of(shift: Shift) -> u32 {
    match shift {
        Shift::Earlier(minutes) | Shift::Later(minutes) => minutes,
        Shift::Same => 0,
    }
}

// How many passengers are aboard a leg.
fn aboard_of(aboard: &[u32], leg: Leg) -> u32 {
    match aboard.get(leg.0 as usize) {
        Some(count) => *count,
        None => 0,
    }
}

// The rank of a changed leg.
fn rank_of(aboard: &[u32], changed: &ChangedLeg) -> Rank {
    let (kind, minutes) = match changed.change {
        LegChange::Cancelled => (0, 0),
        LegChange::Moved { shift, .. } => (1, minutes_of(shift)),
        LegChange::Restored => (2, 0),
    };
    Rank {
        kind,
        unshifted: u32::MAX - minutes,
        unfilled: u32::MAX - aboard_of(aboard, changed.leg),
        leg: changed.leg.0,
    }
}

// The changed legs by their numbers, worst first.
fn in_order(alloc: Global, aboard: &[u32], legs: &[ChangedLeg]) -> Result<Vec<Rank>, NoMem> {
    let mut ranks = Vec::with_capacity(alloc, legs.len())?;
    for changed in legs {
        ranks.push(rank_of(aboard, changed))?;
    }
    ranks.sort()?;
    Ok(ranks)
}

// Puts when a leg departs and arrives.
fn put_times(page: &mut Page, info: &LegInfo, dep: Minute) -> Result<(), NoMem> {
    put_time(page, dep, info.day)?;
    page.put(&[Part::Own("&#8211;")])?;
    put_time(page, Minute(dep.0.saturating_add(info.block)), info.day)
}

// Puts by how much a leg is shifted.
fn put_shift(page: &mut Page, was: Minute, now: Minute) -> Result<(), NoMem> {
    if now.0 < was.0 {
        return page.put(&[Part::Own("&#8722;"), Part::Number(u64::from(was.0 - now.0))]);
    }
    if was.0 < now.0 {
        return page.put(&[Part::Own("+"), Part::Number(u64::from(now.0 - was.0))]);
    }
    Ok(())
}

// Puts what became of a leg: its times, by how many minutes they are shifted, and its aircraft.
fn put_row_of(page: &mut Page, inst: &Instance, info: &LegInfo, row: Row) -> Result<(), NoMem> {
    match row {
        Row::Cancelled => page.put(&[
            Part::Own("<td class=\"bad\">cancelled</td><td></td><td>"),
            Part::Given(plane_name(inst, info.plane)),
        ])?,
        Row::Flown { plane, dep } => {
            page.put(&[Part::Own("<td>")])?;
            put_times(page, info, dep)?;
            page.put(&[Part::Own("</td><td class=\"r\">")])?;
            put_shift(page, info.sched, dep)?;
            page.put(&[
                Part::Own("</td><td>"),
                Part::Given(plane_name(inst, info.plane)),
            ])?;
            put_other(page, inst, info.plane, plane)?;
        }
    }
    page.put(&[Part::Own("</td>")])
}

// Puts the aircraft that flies a leg, where it is another one.
fn put_other(page: &mut Page, inst: &Instance, was: Plane, now: Plane) -> Result<(), NoMem> {
    if was.0 == now.0 {
        return Ok(());
    }
    page.put(&[
        Part::Own(" &#8594; <b>"),
        Part::Given(plane_name(inst, now)),
        Part::Own("</b>"),
    ])
}

// Puts the flight of a leg, which leads to its bar in the picture.
fn put_flight(page: &mut Page, leg: Leg, info: &LegInfo) -> Result<(), NoMem> {
    page.put(&[
        Part::Own("<tr><th scope=\"row\"><a href=\"#leg"),
        Part::Number(u64::from(leg.0)),
        Part::Own("\">"),
        Part::Given(info.flight.as_slice()),
        Part::Own("</a></th><td class=\"was\">"),
    ])
}

// Puts the date of a flight, whose day is counted from 2000-01-01, and where the leg leaves and arrives.
fn put_route(page: &mut Page, inst: &Instance, info: &LegInfo) -> Result<(), NoMem> {
    let day = date(Minute(info.day.saturating_mul(1_440)));
    page.put(&[Part::Given(&day), Part::Own("</td><td>")])?;
    page.put(&[
        Part::Given(airport_name(inst, info.origin)),
        Part::Own("&#8211;"),
        Part::Given(airport_name(inst, info.dest)),
    ])
}

// Puts how many passengers are aboard.
fn put_aboard(page: &mut Page, aboard: u32) -> Result<(), NoMem> {
    page.put(&[
        Part::Own("</td><td class=\"r\">"),
        Part::Number(u64::from(aboard)),
        Part::Own("</td><td class=\"was\">"),
    ])
}

// Puts a leg.
fn put_leg(
    page: &mut Page,
    inst: &Instance,
    plan: &Plan,
    aboard: &[u32],
    leg: Leg,
) -> Result<(), NoMem>
    requires plan { IsPlanFor inst.now plan.now }
{
    let Some(info) = leg_of(inst, leg) else {
        return Ok(());
    };
    put_flight(page, leg, info)?;
    put_route(page, inst, info)?;
    put_aboard(page, aboard_of(aboard, leg))?;
    put_times(page, info, info.sched)?;
    page.put(&[Part::Own("</td>")])?;
    if leg.0 < inst.legs() {
        put_row_of(page, inst, info, plan.read_row(leg))?;
    }
    page.put(&[Part::Own("</tr>\n")])
}

/// Puts the legs whose row is not the scheduled one: the cancelled ones, then those that are shifted most. How many passengers
/// are aboard each leg of the day is handed in, by its number.
pub fn put_legs(
    page: &mut Page,
    alloc: Global,
    inst: &Instance,
    plan: &Plan,
    aboard: &[u32],
    legs: &[ChangedLeg],
) -> Result<(), NoMem>
    requires plan { IsPlanFor inst.now plan.now }
{
    page.put(&[
        Part::Own("<section><h2>Changed legs <small>"),
        Part::Number(legs.len() as u64),
        Part::Own(", worst first</small></h2>\n"),
    ])?;
    if legs.is_empty() {
        return page.put(&[Part::Own(
            "<p class=\"none\">Each leg is flown as scheduled.</p></section>\n",
        )]);
    }
    page.put(&[Part::Own(
        "<table class=\"t\"><thead><tr><th scope=\"col\">Flight</th><th scope=\"col\">Date</th>\
<th scope=\"col\">Route</th><th scope=\"col\" class=\"r\">Aboard</th><th scope=\"col\">Scheduled</th>\
<th scope=\"col\">Recovered</th><th scope=\"col\" class=\"r\">Minutes</th><th scope=\"col\">Aircraft</th></tr></thead>\n<tbody>\n",
    )])?;
    let ranks = in_order(alloc, aboard, legs)?;
    for rank in ranks.iter() {
        put_leg(page, inst, plan, aboard, Leg(rank.leg))?;
    }
    page.put(&[Part::Own("</tbody></table></section>\n")])
}
