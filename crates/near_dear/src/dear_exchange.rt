//! Exchanges that are known to be dear.

ghost use Rattle.std.specs.Prelude.{◌≡◌, ◌≢◌, ◌+◌, ◌<◌, ◌≤◌, ◌^◌, All, map, true, false};
ghost use Rattle.desk_data.specs.Situation.{legs_of, plane_at, planes_of};
ghost use Rattle.desk_data.specs.Valid.{IsPlanFor};
ghost use Rattle.desk_rules.specs.Cost.{at_hand};
ghost use Rattle.desk_model.specs.Push.{rotation};
ghost use Rattle.near_draft.specs.Legs.{numbers_of};
ghost use Rattle.near_dear.specs.Dear.{IsDearExchange};
ghost use Rattle.near_dear.specs.Stands.{AreStands};
ghost use Rattle.near_dear.specs.Times.{ArePlaneTimes};

use crate::flying::tail_costs;
use crate::positions::{Stands, position_costs};
use crate::times::{PlaneTimes, are_done};
use desk_data::{Instance, Leg, Minute, Plane};
use plan_pages::Pages;

/// Whether it is known that it is dear where two aircraft exchange their legs from a moment on: that costs at least as much
/// more as those pay who are on their legs. Where it says no, nothing is known. Given are the legs of both, at most 16 each,
/// what is told of both (`PlaneTimes::of`), where they stand, and for each position how many aircraft are at hand.
pub fn is_dear_exchange(
    inst: &Instance,
    plan: &Pages,
    hands: &[u32],
    planes: (Plane, Plane),
    times: (PlaneTimes, PlaneTimes),
    legs: &[Leg],
    others: &[Leg],
    stands: Stands,
    at: Minute,
) -> bool
    requires plan { IsPlanFor inst.now plan.now }
    requires hands { hands.now ≡ map (at_hand inst.now plan.now) inst.now.parts.positions }
    requires first { planes.0.0 < planes_of inst.now }
    requires second { planes.1.0 < planes_of inst.now }
    requires times { ArePlaneTimes inst.now plan.now planes.0.0 times.0 }
    requires other_times { ArePlaneTimes inst.now plan.now planes.1.0 times.1 }
    requires legs { numbers_of legs.now ≡ rotation inst.now plan.now planes.0.0 }
    requires within { All (λ leg. leg.0 < legs_of inst.now) legs.now }
    requires others { numbers_of others.now ≡ rotation inst.now plan.now planes.1.0 }
    requires others_within { All (λ leg. leg.0 < legs_of inst.now) others.now }
    requires stands { AreStands inst.now plan.now planes.0.0 planes.1.0 at.0 stands }
    ensures { result ≡ true → IsDearExchange inst.now plan.now planes.0.0 planes.1.0 at.0 }
{
    if !are_two(inst, planes) || !are_done(inst, plan, planes, times.0, times.1) {
        return false;
    }
    let flying = tail_costs(inst, plan, planes, legs, others, at);
    let positions = position_costs(inst, plan, hands, planes, stands, at.0);
    let now = flying.own + positions.now;
    let then = flying.exchanged + positions.then;
    saves_at_most(now, then, times.0.paid, times.1.paid)
}

/// Whether two amounts that are paid, each counted for itself, are at most what something costs more.
fn saves_at_most(now: u128, then: u128, paid: u128, others_paid: u128) -> bool
    requires { now ≤ 10 ^ 38 }
    ensures { result ≡ true → now + (paid + others_paid) ≤ then }
{
    if then < now {
        return false;
    }
    let more = then - now;
    paid <= more && others_paid <= more - paid
}

/// Whether aircraft are two, and neither of them surface transport.
pub fn are_two(inst: &Instance, planes: (Plane, Plane)) -> bool
    requires first { planes.0.0 < planes_of inst.now }
    requires second { planes.1.0 < planes_of inst.now }
    ensures other { result ≡ true → planes.0.0 ≢ planes.1.0 }
    ensures air { result ≡ true → (plane_at inst.now planes.0.0).surface ≡ false }
    ensures other_air { result ≡ true → (plane_at inst.now planes.1.0).surface ≡ false }
{
    if planes.0.0 == planes.1.0 {
        return false;
    }
    !inst.plane(planes.0).surface && !inst.plane(planes.1).surface
}
