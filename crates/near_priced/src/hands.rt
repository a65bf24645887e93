//! How many aircraft are at hand for positions.

ghost use Rattle.std.specs.Prelude.{◌≡◌, ◌<◌, ◌&&◌, IfOk, length, map};
ghost use Rattle.std.specs.Option.{ForSome};
ghost use Rattle.desk_data.specs.Situation.{legs_of, plane_at, planes_of};
ghost use Rattle.desk_rules.specs.Cost.{at_hand, is_wanted};
ghost use Rattle.plan_checks.specs.Stands.{end_of, is_there};
ghost use Rattle.plan_reads.specs.Last.{AreLasts, IsLastOf};
ghost use Rattle.near_priced.specs.Tables.{is_hand};

use crate::{end_of, is_at, is_wanted};
use desk_data::{Instance, Leg, NoMem, Plane, PositionInfo};
use plan_pages::Pages;
use std::alloc::Global;

/// Where there are more positions, the aircraft at hand are not counted.
const MOST_POSITIONS: usize = 256;

/// For each position how many aircraft are at hand, given the last leg of each before the window's end; empty where
/// there are more positions than 256. The only error is out of memory.
pub(crate) fn hands_of(
    alloc: Global,
    inst: &Instance,
    plan: &Pages,
    lasts: &[Option<Leg>],
) -> Result<Vec<u32>, NoMem>
    requires lasts { AreLasts inst.now plan.now (λ p. inst.now.parts.to.0) (legs_of inst.now) lasts.now }
    ensures { IfOk result (λ hands. length hands.items ≡ length inst.now.parts.positions → hands.items ≡ map (at_hand inst.now plan.now) inst.now.parts.positions) }
{
    if MOST_POSITIONS < inst.positions().len() {
        return Ok(Vec::new(alloc));
    }
    all_hands(alloc, inst, plan, lasts)
}

/// The same of all positions.
fn all_hands(
    alloc: Global,
    inst: &Instance,
    plan: &Pages,
    lasts: &[Option<Leg>],
) -> Result<Vec<u32>, NoMem>
    requires lasts { AreLasts inst.now plan.now (λ p. inst.now.parts.to.0) (legs_of inst.now) lasts.now }
    ensures { IfOk result (λ hands. hands.items ≡ map (at_hand inst.now plan.now) inst.now.parts.positions) }
{
    let mut hands = Vec::with_capacity(alloc, inst.positions().len())?;
    for position in inst.positions() {
        hands.push(at_hand(inst, plan, lasts, position))?;
    }
    Ok(hands)
}

/// How many aircraft are at hand for a position.
fn at_hand(inst: &Instance, plan: &Pages, lasts: &[Option<Leg>], position: &PositionInfo) -> u32
    requires lasts { AreLasts inst.now plan.now (λ p. inst.now.parts.to.0) (legs_of inst.now) lasts.now }
    ensures { result ≡ at_hand inst.now plan.now position.now }
{
    let mut count = 0;
    for p in 0..inst.planes() {
        if is_hand(inst, plan, Plane(p), lasts[p as usize], position) {
            count += 1;
        }
    }
    count
}

/// Whether an aircraft is at hand for a position, given its last leg before the window's end.
fn is_hand(
    inst: &Instance,
    _plan: &Pages,
    plane: Plane,
    last: Option<Leg>,
    position: &PositionInfo,
) -> bool
    requires plane { plane.0 < planes_of inst.now }
    requires last { IsLastOf _plan.now plane.0 inst.now.parts.to.0 (legs_of inst.now) last }
    ensures { result ≡ is_hand inst.now _plan.now position.now plane.0 }
{
    stands_ready(inst, plane, last, position)
}

/// Whether an aircraft is of the kind that a position wants, and ends there after its last leg.
pub(crate) fn stands_ready(
    inst: &Instance,
    plane: Plane,
    last: Option<Leg>,
    position: &PositionInfo,
) -> bool
    requires plane { plane.0 < planes_of inst.now }
    requires last { ForSome last (λ leg. leg.0 < legs_of inst.now) }
    ensures { result ≡ (is_wanted position.now (plane_at inst.now plane.0) && is_there (end_of inst.now plane.0 last) position.now.airport.0) }
{
    if !is_at(end_of(inst, plane, last), position.airport) {
        return false;
    }
    is_wanted(position, inst.plane(plane))
}
