//! The hours of airports after some changes.

ghost use Rattle.std.specs.Prelude.{◌≡◌, ◌<◌, ◌≤◌, ◌+◌, ◌-◌, ℕ, true, false};
ghost use Rattle.desk_data.specs.Situation.{Situation, legs_of, planes_of};
ghost use Rattle.desk_data.specs.Valid.{IsRowOf};
ghost use Rattle.near_draft.specs.Drafts.{AreChanges, drafted};
ghost use Rattle.hour_counts.specs.Counts.{one_if};
ghost use Rattle.near_draft.specs.Hours.{beside, is_counted_at};

use crate::base::Base;
use crate::change::Change;
use desk_data::{Airport, Instance, Leg, Row};
use hour_counts::{KnowsHours, Movement};

/// How many other legs than a leg depart from an airport in an hour after some changes of a plan, or
/// arrive there: those of the plan, and with each change one more or one less.
pub(crate) fn beside_after(
    base: &Base,
    changes: &[Change],
    movement: Movement,
    leg: Leg,
    airport: Airport,
    hour: u32,
) -> u32
    requires changes { AreChanges base.now.inst base.now.rows changes.now }
    requires leg { leg.0 < legs_of base.now.inst }
    ensures { result ≡ beside movement base.now.inst (drafted base.now.rows changes.now) leg.0 airport.0 hour }
{
    // the plan is one for the day, which has at most 20,000 legs
    let _ = base.plan();
    let inst = base.instance();
    let _few = inst.legs();
    let mut count = beside(base, movement, leg, airport, hour);
    for change in changes {
        if change.leg.0 != leg.0 {
            count = after_change(inst, movement, change, airport, hour, count);
        }
    }
    count
}

/// The same in the plan.
fn beside(base: &Base, movement: Movement, leg: Leg, airport: Airport, hour: u32) -> u32
    requires { leg.0 < legs_of base.now.inst }
    ensures { result ≡ beside movement base.now.inst base.now.rows leg.0 airport.0 hour }
{
    let inst = base.instance();
    let row = base.plan().read_row(leg);
    match movement {
        Movement::Departure => base.departures_beside(inst, leg, row, airport, hour),
        Movement::Arrival => base.arrivals_beside(inst, leg, row, airport, hour),
    }
}

/// How many legs depart from an airport in an hour after a change, or arrive there, given how many do before it.
fn after_change(
    inst: &Instance,
    movement: Movement,
    change: &Change,
    airport: Airport,
    hour: u32,
    count: u32,
) -> u32
    requires leg { change.now.leg.0 < legs_of inst.now }
    requires row { IsRowOf (planes_of inst.now) change.now.row }
    requires was { IsRowOf (planes_of inst.now) change.now.was }
    requires few { count ≤ 20000 }
    ensures { result ≡ (count + one_if (is_counted_at movement inst.now airport.0 hour change.now.leg.0 change.now.row)) - one_if (is_counted_at movement inst.now airport.0 hour change.now.leg.0 change.now.was) }
{
    if have_one_departure(change.was, change.row)
        || is_elsewhere(inst, movement, change.leg, airport)
    {
        return count;
    }
    let come = counted_at(inst, movement, change.leg, change.row, airport, hour);
    let gone = counted_at(inst, movement, change.leg, change.was, airport, hour);
    (count + come).saturating_sub(gone)
}

/// Whether a leg with either of two rows is flown, and departs at the same moment.
fn have_one_departure(row: Row, other: Row) -> bool
    ensures { result ≡ true → (m : Movement) (I : Situation) (a h y : ℕ) → is_counted_at m I a h y row ≡ is_counted_at m I a h y other }
{
    match (row, other) {
        (Row::Flown { dep, .. }, Row::Flown { dep: at, .. }) => dep.0 == at.0,
        _ => false,
    }
}

/// Whether a leg departs from another airport, or arrives at another one: then it is not counted there with any row.
fn is_elsewhere(inst: &Instance, movement: Movement, leg: Leg, airport: Airport) -> bool
    requires { leg.0 < legs_of inst.now }
    ensures { result ≡ true → (h : ℕ) (row : Row) → is_counted_at movement inst.now airport.0 h leg.0 row ≡ false }
{
    let info = inst.leg(leg);
    match movement {
        Movement::Departure => info.origin.0 != airport.0,
        Movement::Arrival => info.dest.0 != airport.0,
    }
}

/// 1 where a leg with a row departs from an airport in an hour, or arrives there, and its scheduled aircraft is no
/// surface transport, else 0.
fn counted_at(
    inst: &Instance,
    movement: Movement,
    leg: Leg,
    row: Row,
    airport: Airport,
    hour: u32,
) -> u32
    requires leg { leg.0 < legs_of inst.now }
    requires row { IsRowOf (planes_of inst.now) row }
    ensures { result ≡ one_if (is_counted_at movement inst.now airport.0 hour leg.0 row) }
{
    let Row::Flown { dep, .. } = row else {
        return 0;
    };
    let info = inst.leg(leg);
    if inst.plane(info.plane).surface {
        return 0;
    }
    let is_there = match movement {
        Movement::Departure => info.origin.0 == airport.0 && dep.0 / 60 == hour,
        Movement::Arrival => info.dest.0 == airport.0 && (dep.0 + info.block) / 60 == hour,
    };
    u32::from(is_there)
}
