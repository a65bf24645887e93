//! Whether a path keeps what C13 and C14 ask of the paths on which passengers are carried. What C15
//! asks, `Instance::bound` tests: it reads no rows.

ghost use Rattle.std.specs.Prelude.{◌≡◌, ◌<◌, ◌≤◌, length};
ghost use Rattle.desk_data.specs.Situation.{legs_of, reservations_of};
ghost use Rattle.desk_data.specs.Valid.{IsPathOf, IsPlanFor};
ghost use Rattle.desk_rules.specs.Carriage.{is_good_path, is_in_time_path};
ghost use Rattle.desk_rules.specs.Passengers.{longest_delay};

use crate::connection::connects;
use crate::legs::{arrival, departure};
use crate::paths::all_flown;
use crate::reads::ReadPlan;
use desk_data::{Cabin, Haul, Instance, Leg, Res};

/// Whether a path that is not empty is flown, runs from a reservation's origin to its destination,
/// connects, and leaves no earlier than booked: what C13 asks of it.
#[tactic(auto, unfolding(desk_rules::specs::Carriage::is_good_path))]
pub fn is_good_path<P: ReadPlan>(inst: &Instance, plan: &P, res: Res, path: &[(Leg, Cabin)]) -> bool
    requires plan { IsPlanFor inst.now (P.plan_of plan.now) }
    requires res { res.0 < reservations_of inst.now }
    requires path { IsPathOf (legs_of inst.now) path.now }
    requires some { 1 ≤ length path.now }
    ensures { result ≡ is_good_path inst.now (P.plan_of plan.now) res.0 path.now }
{
    let booked = inst.booked(res);
    let first = path[0].0;
    let last = path[path.len() - 1].0;
    all_flown(plan, path)
        && inst.leg(first).origin.0 == booked.origin.0
        && inst.leg(last).dest.0 == booked.dest.0
        && connects(inst, plan, path)
        && booked.departure.0 <= departure(plan, first)
}

/// Whether a path that is not empty arrives no later than the longest delay after a reservation's
/// booked arrival, if its legs are all flown: what C14 asks of it.
#[tactic(auto, unfolding(desk_rules::specs::Carriage::is_in_time_path))]
pub fn is_in_time_path<P: ReadPlan>(
    inst: &Instance,
    plan: &P,
    res: Res,
    path: &[(Leg, Cabin)],
) -> bool
    requires plan { IsPlanFor inst.now (P.plan_of plan.now) }
    requires res { res.0 < reservations_of inst.now }
    requires path { IsPathOf (legs_of inst.now) path.now }
    requires some { 1 ≤ length path.now }
    ensures { result ≡ is_in_time_path inst.now (P.plan_of plan.now) res.0 path.now }
{
    let booked = inst.booked(res);
    let last = path[path.len() - 1].0;
    !all_flown(plan, path)
        || arrival(inst, plan, last) <= booked.arrival.0 + longest_delay(booked.haul)
}

/// The minutes after its booked arrival by which a reservation may arrive, by its haul, as C14 says.
pub fn longest_delay(haul: Haul) -> u32
    ensures delay { result ≡ longest_delay haul }
    ensures limit { result ≤ 2160 }
{
    match haul {
        Haul::D | Haul::C => 1_080,
        Haul::I => 2_160,
    }
}
