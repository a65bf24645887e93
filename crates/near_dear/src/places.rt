//! What an aircraft may save by ending where positions lack aircraft.

ghost use Rattle.std.specs.Prelude.{◌≡◌, ◌<◌, ◌≤◌, map};
ghost use Rattle.desk_data.specs.Situation.{planes_of};
ghost use Rattle.desk_rules.specs.Cost.{at_hand};
ghost use Rattle.near_priced.specs.Unpaid.{saved_by_ending};
ghost use Rattle.near_dear.specs.Drops.{lacks_one, places_for};

use desk_data::{Instance, Plane, PositionInfo, Term};
use desk_units::per_item;
use near_priced::is_wanted;
use plan_pages::Pages;

/// What an aircraft may save by ending elsewhere, in grains, or more: one aircraft more at each position that wants its like
/// and lacks one. Given is how many aircraft are at hand for each position.
pub(crate) fn saved(inst: &Instance, plan: &Pages, hands: &[u32], plane: Plane) -> u128
    requires hands { hands.now ≡ map (at_hand inst.now plan.now) inst.now.parts.positions }
    requires plane { plane.0 < planes_of inst.now }
    ensures { saved_by_ending inst.now plan.now plane.0 plane.0 ≤ result }
{
    let weight = inst.prices().weight(Term::Position);
    let count = places_for(inst, plan, hands, plane);
    per_item(inst.prices().position(), weight, count).0
}

/// How many positions want aircraft like an aircraft, and lack one.
fn places_for(inst: &Instance, _plan: &Pages, hands: &[u32], plane: Plane) -> u64
    requires hands { hands.now ≡ map (at_hand inst.now _plan.now) inst.now.parts.positions }
    requires plane { plane.0 < planes_of inst.now }
    ensures is { result ≡ places_for inst.now _plan.now plane.0 }
    ensures few { result ≤ 10000 }
{
    let _rows = inst.parts();
    let mut count = 0;
    let positions = inst.positions();
    for g in 0..positions.len() {
        if lacks_one(inst, _plan, &positions[g], hands[g], plane) {
            count += 1;
        }
    }
    count
}

/// Whether a position wants aircraft like an aircraft and lacks one, given how many are at hand for it.
fn lacks_one(
    inst: &Instance,
    _plan: &Pages,
    position: &PositionInfo,
    hand: u32,
    plane: Plane,
) -> bool
    requires hand { hand ≡ at_hand inst.now _plan.now position.now }
    requires plane { plane.0 < planes_of inst.now }
    ensures { result ≡ lacks_one inst.now _plan.now plane.0 position.now }
{
    is_wanted(position, inst.plane(plane)) && hand < position.count
}
