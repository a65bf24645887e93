//! What the legs of two aircraft from a moment on cost.

ghost use Rattle.std.specs.Prelude.{◌≡◌, ◌*◌, ◌<◌, ◌≤◌, ◌^◌, length, All, sum_by};
ghost use Rattle.desk_data.specs.Situation.{legs_of, planes_of};
ghost use Rattle.desk_data.specs.Valid.{IsPlanFor};
ghost use Rattle.desk_model.specs.Push.{rotation};
ghost use Rattle.desk_rules.specs.Cost.{by_hour, weight};
ghost use Rattle.desk_units.specs.declared.tariff.Term.TheVariants.{Operating};
ghost use Rattle.desk_data.specs.Situation.{plane_at};
ghost use Rattle.near_draft.specs.Legs.{numbers_of};
ghost use Rattle.near_dear.specs.Exchanged.{exchanged_cost, own_cost};
ghost use Rattle.near_dear.specs.Times.{late_block};

use desk_data::{Instance, Leg, Minute, Plane, Term};
use desk_units::per_hour;
use plan_pages::Pages;
use plan_reads::departure;

/// What the legs of two aircraft from a moment on cost, in grains: where each flies its own, and where each flies those of
/// the other.
#[derive(Clone, Copy)]
pub(crate) struct TailCosts {
    pub own: u128,
    pub exchanged: u128,
}

/// That of two aircraft, given their legs, at most 16 each.
pub(crate) fn tail_costs(
    inst: &Instance,
    plan: &Pages,
    planes: (Plane, Plane),
    legs: &[Leg],
    others: &[Leg],
    at: Minute,
) -> TailCosts
    requires plan { IsPlanFor inst.now plan.now }
    requires first { planes.0.0 < planes_of inst.now }
    requires second { planes.1.0 < planes_of inst.now }
    requires legs { numbers_of legs.now ≡ rotation inst.now plan.now planes.0.0 }
    requires within { All (λ leg. leg.0 < legs_of inst.now) legs.now }
    requires few { length legs.now ≤ 16 }
    requires others { numbers_of others.now ≡ rotation inst.now plan.now planes.1.0 }
    requires others_within { All (λ leg. leg.0 < legs_of inst.now) others.now }
    requires few_others { length others.now ≤ 16 }
    ensures own { result.own ≡ own_cost inst.now plan.now planes.0.0 planes.1.0 at.0 }
    ensures exchanged { result.exchanged ≡ exchanged_cost inst.now plan.now planes.0.0 planes.1.0 at.0 }
    ensures few { result.own ≤ 10 ^ 37 }
    ensures few_exchanged { result.exchanged ≤ 10 ^ 37 }
{
    let first = tail_minutes(inst, plan, legs, at);
    let second = tail_minutes(inst, plan, others, at);
    TailCosts {
        own: minutes_cost(inst, planes.0, first) + minutes_cost(inst, planes.1, second),
        exchanged: minutes_cost(inst, planes.1, first) + minutes_cost(inst, planes.0, second),
    }
}

/// What so many minutes of an aircraft cost.
fn minutes_cost(inst: &Instance, plane: Plane, minutes: u64) -> u128
    requires plane { plane.0 < planes_of inst.now }
    requires few { minutes ≤ 100000 }
    ensures is { result ≡ by_hour (weight inst.now Operating) (plane_at inst.now plane.0).hourly.0 minutes }
    ensures few { result ≤ 10 ^ 36 }
{
    let weight = inst.prices().weight(Term::Operating);
    per_hour(inst.plane(plane).hourly, weight, minutes).0
}

/// How many minutes those of some legs take that depart at a moment or later.
fn tail_minutes(inst: &Instance, plan: &Pages, legs: &[Leg], at: Minute) -> u64
    requires plan { IsPlanFor inst.now plan.now }
    requires few { length legs.now ≤ 16 }
    requires within { All (λ leg. leg.0 < legs_of inst.now) legs.now }
    ensures is { result ≡ sum_by (λ leg. late_block inst.now plan.now at.0 leg.0) legs.now }
    ensures few { result ≤ 100000 }
{
    let mut minutes = 0;
    for leg in legs {
        minutes += late_minutes(inst, plan, *leg, at);
    }
    minutes
}

/// How many minutes a leg takes, if it departs at a moment or later.
fn late_minutes(inst: &Instance, plan: &Pages, leg: Leg, at: Minute) -> u64
    requires plan { IsPlanFor inst.now plan.now }
    requires leg { leg.0 < legs_of inst.now }
    ensures is { result ≡ late_block inst.now plan.now at.0 leg.0 }
    ensures few { result ≤ 2880 }
{
    if departure(plan, leg) < at.0 {
        return 0;
    }
    u64::from(inst.leg(leg).block)
}
