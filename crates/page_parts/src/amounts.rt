//! What a group of passengers costs in each of their four terms.

ghost use Rattle.std.specs.Prelude.{◌≡◌, ◌<◌, ◌≤◌, length};
ghost use Rattle.desk_data.specs.Situation.{legs_of, reservations_of};
ghost use Rattle.desk_data.specs.Valid.{IsPathOf, IsPlanFor};
ghost use Rattle.desk_rules.specs.Cost.{cancellation, delay, downgrade, legal};
ghost use Rattle.desk_rules.specs.Passengers.{minutes_late};
ghost use Rattle.plan_checks.specs.Amounts.{group_cost};
ghost use Rattle.plan_checks.specs.Counted.{IsGroupOf, group_on};
ghost use Rattle.page_parts.specs.Amounts.{amount};

use desk_data::{Cabin, Grains, Instance, Leg, Res, Term};
use desk_units::{per_hour, per_item};
use plan_checks::{path_cost, path_end};
use plan_reads::{ReadPlan, all_flown, arrival, is_carried};

/// The terms that passengers cost.
#[derive(Clone, Copy)]
pub(crate) enum PassengerTerm {
    Delay,
    Cancellation,
    Downgrade,
    Legal,
}

// How many minutes after the booked arrival a path arrives whose legs are flown, 0 if not later.
#[tactic(auto, unfolding(desk_rules::specs::Passengers::minutes_late))]
fn minutes_late<P: ReadPlan>(inst: &Instance, plan: &P, res: Res, path: &[(Leg, Cabin)]) -> u32
    requires plan { IsPlanFor inst.now (P.plan_of plan.now) }
    requires res { res.0 < reservations_of inst.now }
    requires path { IsPathOf (legs_of inst.now) path.now }
    requires some { 1 ≤ length path.now }
    ensures minutes { result ≡ minutes_late inst.now (P.plan_of plan.now) res.0 path.now }
    ensures limit { result < 52502880 }
{
    let last = path[path.len() - 1].0;
    arrival(inst, plan, last).saturating_sub(inst.booked(res).arrival.0)
}

// The delay of a group: the hours by which it arrives late.
#[tactic(auto, unfolding(desk_rules::specs::Cost::delay))]
fn group_delay<P: ReadPlan>(
    inst: &Instance,
    plan: &P,
    res: Res,
    path: &[(Leg, Cabin)],
    count: u32,
) -> Grains
    requires plan { IsPlanFor inst.now (P.plan_of plan.now) }
    requires res { res.0 < reservations_of inst.now }
    requires group { IsGroupOf inst.now (group_on path.now count) }
    ensures { result.0 ≡ delay inst.now (P.plan_of plan.now) res.0 (group_on path.now count) }
{
    if !is_carried(path) || !all_flown(plan, path) {
        return Grains(0);
    }
    let booked = inst.booked(res);
    let hourly = inst.prices().delay(booked.haul, booked.cabin);
    let minutes = u64::from(count) * u64::from(minutes_late(inst, plan, res, path));
    per_hour(hourly, inst.prices().weight(Term::Delay), minutes)
}

// The cancellation of a group: nothing where it is carried.
#[tactic(auto, unfolding(desk_rules::specs::Cost::cancellation))]
fn group_cancellation(inst: &Instance, res: Res, path: &[(Leg, Cabin)], count: u32) -> Grains
    requires res { res.0 < reservations_of inst.now }
    requires group { IsGroupOf inst.now (group_on path.now count) }
    ensures { result.0 ≡ cancellation inst.now res.0 (group_on path.now count) }
{
    if is_carried(path) {
        return Grains(0);
    }
    let booked = inst.booked(res);
    let price = inst.prices().cancel(booked.haul, booked.cabin);
    per_item(
        price,
        inst.prices().weight(Term::Cancellation),
        u64::from(count),
    )
}

// The downgrades of a group: what it costs where it does not arrive, and all of its legs in a cabin below.
#[tactic(auto, unfolding(plan_checks::specs::Amounts::path_cost))]
fn group_downgrade(inst: &Instance, res: Res, path: &[(Leg, Cabin)], count: u32) -> Grains
    requires res { res.0 < reservations_of inst.now }
    requires group { IsGroupOf inst.now (group_on path.now count) }
    ensures { result.0 ≡ downgrade inst.now res.0 (group_on path.now count) }
{
    if !is_carried(path) {
        return Grains(0);
    }
    path_cost(inst, res, path, count, None)
}

// What a group costs in all four terms.
fn group_cost<P: ReadPlan>(
    inst: &Instance,
    plan: &P,
    res: Res,
    path: &[(Leg, Cabin)],
    count: u32,
) -> Grains
    requires plan { IsPlanFor inst.now (P.plan_of plan.now) }
    requires res { res.0 < reservations_of inst.now }
    requires group { IsGroupOf inst.now (group_on path.now count) }
    ensures { result.0 ≡ group_cost inst.now (P.plan_of plan.now) res.0 (group_on path.now count) }
{
    path_cost(inst, res, path, count, path_end(inst, plan, path))
}

// The legal term of a group: what is left of its cost.
fn group_legal<P: ReadPlan>(
    inst: &Instance,
    plan: &P,
    res: Res,
    path: &[(Leg, Cabin)],
    count: u32,
) -> Grains
    requires plan { IsPlanFor inst.now (P.plan_of plan.now) }
    requires res { res.0 < reservations_of inst.now }
    requires group { IsGroupOf inst.now (group_on path.now count) }
    ensures { result.0 ≡ legal inst.now (P.plan_of plan.now) res.0 (group_on path.now count) }
{
    let all = group_cost(inst, plan, res, path, count).0;
    let delay = group_delay(inst, plan, res, path, count).0;
    let cancellation = group_cancellation(inst, res, path, count).0;
    let downgrade = group_downgrade(inst, res, path, count).0;
    Grains(all - delay - cancellation - downgrade)
}

/// A term of a group of passengers of a reservation.
pub(crate) fn group_term<P: ReadPlan>(
    inst: &Instance,
    plan: &P,
    term: PassengerTerm,
    res: Res,
    path: &[(Leg, Cabin)],
    count: u32,
) -> Grains
    requires plan { IsPlanFor inst.now (P.plan_of plan.now) }
    requires res { res.0 < reservations_of inst.now }
    requires group { IsGroupOf inst.now (group_on path.now count) }
    ensures { result.0 ≡ amount inst.now (P.plan_of plan.now) term res.0 (group_on path.now count) }
{
    match term {
        PassengerTerm::Delay => group_delay(inst, plan, res, path, count),
        PassengerTerm::Cancellation => group_cancellation(inst, res, path, count),
        PassengerTerm::Downgrade => group_downgrade(inst, res, path, count),
        PassengerTerm::Legal => group_legal(inst, plan, res, path, count),
    }
}
