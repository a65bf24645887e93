//! What the positions cost once two aircraft end elsewhere.

ghost use Rattle.std.specs.Prelude.{◌≡◌, ◌<◌, ◌≤◌, ◌^◌, ◌==◌, if◌then◌else◌, map};
ghost use Rattle.desk_data.specs.Situation.{planes_of};
ghost use Rattle.desk_rules.specs.Cost.{at_hand, position_cost};
ghost use Rattle.near_moves.specs.Chains.{stand, stand_before};
ghost use Rattle.near_dear.specs.Exchanged.{positions_then, serves, hand_then, stand_then};
ghost use Rattle.near_dear.specs.Stands.{AreStands, gaps_then, gaps_now};

use desk_data::{Airport, Instance, Plane, PositionInfo, Term};
use desk_units::per_item;
use near_priced::is_wanted;
use plan_pages::Pages;

/// Where two aircraft stand: at a moment, and at the end.
#[derive(Clone, Copy)]
pub struct Stands {
    pub before: Airport,
    pub other_before: Airport,
    pub end: Airport,
    pub other_end: Airport,
}

/// What the positions cost, in grains: now, and once two aircraft have exchanged their legs.
#[derive(Clone, Copy)]
pub(crate) struct PositionCosts {
    pub now: u128,
    pub then: u128,
}

/// That of two aircraft, given where they stand and how many are at hand for each position.
pub(crate) fn position_costs(
    inst: &Instance,
    plan: &Pages,
    hands: &[u32],
    planes: (Plane, Plane),
    stands: Stands,
    at: u32,
) -> PositionCosts
    requires hands { hands.now ≡ map (at_hand inst.now plan.now) inst.now.parts.positions }
    requires first { planes.0.0 < planes_of inst.now }
    requires second { planes.1.0 < planes_of inst.now }
    requires stands { AreStands inst.now plan.now planes.0.0 planes.1.0 at stands }
    ensures now { result.now ≡ position_cost inst.now plan.now }
    ensures then { result.then ≡ positions_then inst.now plan.now planes.0.0 planes.1.0 at }
    ensures few { result.now ≤ 10 ^ 37 }
    ensures few_then { result.then ≤ 10 ^ 37 }
{
    let _rows = inst.parts();
    let weight = inst.prices().weight(Term::Position);
    let price = inst.prices().position();
    let gaps = all_gaps(inst, plan, hands, planes, stands, at);
    PositionCosts {
        now: per_item(price, weight, gaps.now).0,
        then: per_item(price, weight, gaps.then).0,
    }
}

/// How many aircraft all positions lack, now and then.
#[derive(Clone, Copy)]
struct Gaps {
    now: u64,
    then: u64,
}

/// The same of all positions.
fn all_gaps(
    inst: &Instance,
    _plan: &Pages,
    hands: &[u32],
    planes: (Plane, Plane),
    stands: Stands,
    _at: u32,
) -> Gaps
    requires hands { hands.now ≡ map (at_hand inst.now _plan.now) inst.now.parts.positions }
    requires first { planes.0.0 < planes_of inst.now }
    requires second { planes.1.0 < planes_of inst.now }
    requires stands { AreStands inst.now _plan.now planes.0.0 planes.1.0 _at stands }
    ensures now { result.now ≡ gaps_now inst.now _plan.now }
    ensures then { result.then ≡ gaps_then inst.now _plan.now planes.0.0 planes.1.0 _at }
    ensures few { result.now ≤ 10 ^ 9 }
    ensures few_then { result.then ≤ 10 ^ 9 }
{
    let _rows = inst.parts();
    let mut gaps = Gaps { now: 0, then: 0 };
    let positions = inst.positions();
    for g in 0..positions.len() {
        let position = &positions[g];
        let hand = hands[g];
        let then = hand_after(inst, _plan, position, hand, planes, stands, _at);
        gaps.now += u64::from(position.count.saturating_sub(hand));
        gaps.then += u64::from(position.count.saturating_sub(then));
    }
    gaps
}

/// How many aircraft are at hand for a position then, given how many are now.
fn hand_after(
    inst: &Instance,
    _plan: &Pages,
    position: &PositionInfo,
    hand: u32,
    planes: (Plane, Plane),
    stands: Stands,
    _at: u32,
) -> u32
    requires hand { hand ≡ at_hand inst.now _plan.now position.now }
    requires first { planes.0.0 < planes_of inst.now }
    requires second { planes.1.0 < planes_of inst.now }
    requires stands { AreStands inst.now _plan.now planes.0.0 planes.1.0 _at stands }
    ensures { result ≡ hand_then inst.now _plan.now planes.0.0 planes.1.0 _at position.now }
{
    // there are no more at hand than aircraft
    let _rows = inst.parts();
    let first = end_then(
        stands.before,
        stands.other_before,
        stands.end,
        stands.other_end,
    );
    let second = end_then(
        stands.other_before,
        stands.before,
        stands.other_end,
        stands.end,
    );
    let come = serves(inst, planes.0, first, position) + serves(inst, planes.1, second, position);
    let gone = serves(inst, planes.0, stands.end, position)
        + serves(inst, planes.1, stands.other_end, position);
    hand.saturating_add(come).saturating_sub(gone)
}

/// Where an aircraft stands at the end then: where the other one does now, if both stand at one airport before.
fn end_then(before: Airport, other_before: Airport, end: Airport, other_end: Airport) -> Airport
    ensures { result.0 ≡ (if before.0 == other_before.0 then other_end.0 else end.0) }
{
    if before.0 == other_before.0 {
        other_end
    } else {
        end
    }
}

/// 1 where an aircraft is of the kind that a position wants and stands at its airport, else 0.
fn serves(inst: &Instance, plane: Plane, airport: Airport, position: &PositionInfo) -> u32
    requires { plane.0 < planes_of inst.now }
    ensures is { result ≡ serves inst.now plane.0 airport.0 position.now }
    ensures few { result ≤ 1 }
{
    u32::from(is_wanted(position, inst.plane(plane)) && airport.0 == position.airport.0)
}
