//! What rules the departure of a leg at a moment out, and until when.

ghost use Rattle.std.specs.Prelude.{◌≡◌, ◌<◌, ◌≤◌, find};
ghost use Rattle.desk_data.specs.Situation.{legs_of, planes_of};
ghost use Rattle.desk_data.specs.Valid.{IsPlanFor};
ghost use Rattle.desk_rules.specs.Rules.{meets_span};
ghost use Rattle.desk_model.specs.Push.{can_depart, has_slots, is_free};
ghost use Rattle.hour_counts.specs.RuledOut.{HoldsOrIsRuledOut, end_of_maintenance, end_of_first_met};

use crate::room::has_room;
use crate::{KnowsHours, Movement};
use desk_data::{Instance, Leg, Maint, Minute, Plane};
use plan_reads::{ReadPlan, meets_span};

/// `None` where a leg can depart at a moment, which is no later than the latest departure of any leg.
/// Else a later moment: it can depart at none before that.
pub(crate) fn ruled_out_until<P: ReadPlan, C: KnowsHours>(
    inst: &Instance,
    plan: &P,
    counts: &C,
    plane: Plane,
    leg: Leg,
    at: u32,
) -> Option<u32>
    requires plan { IsPlanFor inst.now (P.plan_of plan.now) }
    requires counts { C.knows counts.now inst.now (P.plan_of plan.now) }
    requires plane { plane.0 < planes_of inst.now }
    requires leg { leg.0 < legs_of inst.now }
    requires at { at ≤ 52485760 }
    ensures { HoldsOrIsRuledOut (can_depart inst.now (P.plan_of plan.now) plane.0 leg.0) at result }
{
    match kept_until(inst, plane, leg, at) {
        Some(end) => Some(end),
        None => full_until(inst, plan, counts, leg, at),
    }
}

/// The same of the aircraft alone: the end of a span in which it is out of service, or of its
/// maintenance.
fn kept_until(inst: &Instance, plane: Plane, leg: Leg, at: u32) -> Option<u32>
    requires plane { plane.0 < planes_of inst.now }
    requires leg { leg.0 < legs_of inst.now }
    requires at { at ≤ 52485760 }
    ensures { HoldsOrIsRuledOut (is_free inst.now plane.0 leg.0) at result }
{
    let arrives = at + inst.leg(leg).block;
    match end_of_first_met(inst.spans(plane), inst.plane(plane).maint, at, arrives) {
        Some(end) => Some(end.0),
        None => None,
    }
}

/// The end of the first span that a flight meets, or else of the maintenance, if it meets that.
fn end_of_first_met(
    spans: &[(Minute, Minute)],
    maint: Option<Maint>,
    departs: u32,
    arrives: u32,
) -> Option<Minute>
    ensures { result ≡ end_of_first_met spans.now maint departs arrives }
{
    match first_met_span(spans, departs, arrives) {
        Some(span) => Some(span.1),
        None => end_of_maintenance(maint, departs, arrives),
    }
}

/// The first of some spans that a flight meets.
fn first_met_span(
    spans: &[(Minute, Minute)],
    departs: u32,
    arrives: u32,
) -> Option<(Minute, Minute)>
    ensures { result ≡ find (λ span. meets_span departs arrives span.0 span.1) spans.now }
{
    spans
        .iter()
        .copied()
        .find(|span| meets_span(departs, arrives, span.0, span.1))
}

/// The end of the maintenance, if a flight meets it.
fn end_of_maintenance(maint: Option<Maint>, departs: u32, arrives: u32) -> Option<Minute>
    ensures { result ≡ end_of_maintenance maint departs arrives }
{
    match maint {
        Some(maint) if meets_span(departs, arrives, maint.from, maint.to) => Some(maint.to),
        _ => None,
    }
}

/// The same as `ruled_out_until` of the airports alone: the next hour of departure, or the moment from
/// which the leg arrives in the next hour.
fn full_until<P: ReadPlan, C: KnowsHours>(
    inst: &Instance,
    plan: &P,
    counts: &C,
    leg: Leg,
    at: u32,
) -> Option<u32>
    requires plan { IsPlanFor inst.now (P.plan_of plan.now) }
    requires counts { C.knows counts.now inst.now (P.plan_of plan.now) }
    requires leg { leg.0 < legs_of inst.now }
    requires at { at ≤ 52485760 }
    ensures { HoldsOrIsRuledOut (has_slots inst.now (P.plan_of plan.now) leg.0) at result }
{
    let leaves = at / 60;
    if !has_room(inst, plan, counts, Movement::Departure, leg, leaves) {
        return Some(60 * (leaves + 1));
    }
    let block = inst.leg(leg).block;
    let lands = (at + block) / 60;
    if !has_room(inst, plan, counts, Movement::Arrival, leg, lands) {
        return Some(60 * (lands + 1) - block);
    }
    None
}
