//! C1 to C4 and C7: what is asked of one leg and its row alone. Whoever judges a leg asks here, the
//! rules from scratch with the row of the plan.

ghost use Rattle.std.specs.Prelude.{◌≡◌, ◌<◌, ◌||◌};
ghost use Rattle.std.specs.List.{list_any};
ghost use Rattle.desk_data.specs.Situation.{legs_of, planes_of, fixed, due};
ghost use Rattle.desk_data.specs.Valid.{IsRowOf};
ghost use Rattle.desk_rules.specs.Rules.{c1_due, departs_in_time, c3_family, c4_range, c7_service, meets_span};

use desk_data::{Instance, Leg, Minute, Row};

/// Whether a leg with a row meets C1: it is movable, or the row is the one that is due.
pub fn c1_due(inst: &Instance, leg: Leg, row: Row) -> bool
    requires leg { leg.0 < legs_of inst.now }
    ensures { result ≡ c1_due (due inst.now leg.0) row }
{
    match inst.due(leg) {
        Some(asked) => asked == row,
        None => true,
    }
}

/// Whether a leg with a row meets C2: it is fixed, or cancelled, or not called off and departs from
/// its earliest to its latest departure.
pub fn c2_in_time(inst: &Instance, leg: Leg, row: Row) -> bool
    requires leg { leg.0 < legs_of inst.now }
    ensures { result ≡ (fixed inst.now leg.0 || departs_in_time inst.now leg.0 row) }
{
    if inst.fixed(leg) {
        return true;
    }
    match row {
        Row::Flown { dep, .. } => {
            !inst.called_off(leg) && inst.earliest(leg) <= dep && dep <= inst.latest(leg)
        }
        Row::Cancelled => true,
    }
}

/// Whether a leg with a row meets C3: it is cancelled, or flown by an aircraft of the family of its
/// scheduled aircraft.
pub fn c3_family(inst: &Instance, leg: Leg, row: Row) -> bool
    requires leg { leg.0 < legs_of inst.now }
    requires row { IsRowOf (planes_of inst.now) row }
    ensures { result ≡ c3_family inst.now leg.0 row }
{
    match row {
        Row::Flown { plane, .. } => {
            let scheduled = inst.leg(leg).plane;
            inst.plane(plane).family.as_slice() == inst.plane(scheduled).family.as_slice()
        }
        Row::Cancelled => true,
    }
}

/// Whether a leg with a row meets C4: it is cancelled, or no longer than its aircraft's range.
pub fn c4_range(inst: &Instance, leg: Leg, row: Row) -> bool
    requires leg { leg.0 < legs_of inst.now }
    requires row { IsRowOf (planes_of inst.now) row }
    ensures { result ≡ c4_range inst.now leg.0 row }
{
    match row {
        Row::Flown { plane, .. } => inst.leg(leg).distance <= inst.plane(plane).range,
        Row::Cancelled => true,
    }
}

/// Whether a leg with a row meets C7: it is cancelled or flown by surface transport, or meets no span
/// in which its aircraft is out of service.
pub fn c7_service(inst: &Instance, leg: Leg, row: Row) -> bool
    requires leg { leg.0 < legs_of inst.now }
    requires row { IsRowOf (planes_of inst.now) row }
    ensures { result ≡ c7_service inst.now leg.0 row }
{
    match row {
        Row::Flown { plane, dep } => {
            let arrival = dep.0 + inst.leg(leg).block;
            inst.plane(plane).surface || !meets_any_span(inst.spans(plane), dep.0, arrival)
        }
        Row::Cancelled => true,
    }
}

/// Whether a flight from one minute to another meets one of these spans.
fn meets_any_span(spans: &[(Minute, Minute)], departs: u32, arrives: u32) -> bool
    ensures { result ≡ list_any (λ span. meets_span departs arrives span.0 span.1) spans.now }
{
    spans
        .iter()
        .any(|span| meets_span(departs, arrives, span.0, span.1))
}

/// Whether a flight from one minute to another meets a span, as C7 and C8 ask: it departs before the
/// span's end, and the span starts before the flight arrives.
pub fn meets_span(departs: u32, arrives: u32, from: Minute, to: Minute) -> bool
    ensures { result ≡ meets_span departs arrives from to }
{
    departs < to.0 && from.0 < arrives
}
