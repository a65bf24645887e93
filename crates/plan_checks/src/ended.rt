//! What passengers cost by the end of their path.

ghost use Rattle.std.specs.Prelude.{◌≡◌, ◌-◌, ◌<◌, ◌≤◌, ◌^◌};
ghost use Rattle.desk_data.specs.Booked.{booked_arrival};
ghost use Rattle.desk_data.specs.Situation.{legs_of, reservations_of};
ghost use Rattle.desk_data.specs.Valid.{IsPathOf, IsPlanFor};
ghost use Rattle.desk_rules.specs.Cost.{grains};
ghost use Rattle.plan_checks.specs.Amounts.{IsEnd, arriving, path_cost, path_end};
ghost use Rattle.plan_checks.specs.Counted.{IsGroupOf, group_on};
ghost use Rattle.plan_checks.specs.Weighed.{AreWeights};

use crate::cancellation::cancellation_cost;
use crate::delay::delay_cost;
use crate::downgrade::downgrade_cost;
use crate::legal::{late_cost, uncarried_cost};
use crate::weights::{Weights, weights_of};
use desk_data::{Cabin, Grains, Instance, Leg, Minute, Res};
use plan_reads::{ReadPlan, all_flown, arrival, is_carried};

/// What some passengers of a reservation cost on a path that arrives at a moment below 52,502,880, or,
/// with `None`, of which a leg is cancelled. On the empty path nobody is carried, and the moment plays no
/// part. No row of a plan is read.
pub fn path_cost(
    inst: &Instance,
    res: Res,
    path: &[(Leg, Cabin)],
    count: u32,
    end: Option<Minute>,
) -> Grains
    requires res { res.0 < reservations_of inst.now }
    requires group { IsGroupOf inst.now (group_on path.now count) }
    requires end { IsEnd end }
    ensures { result ≡ grains (path_cost inst.now res.0 (group_on path.now count) end) }
{
    cost_by_end(inst, weights_of(inst), res, path, count, end)
}

/// The same, with the weights that were looked up. Those who are not carried cost their cancellation and
/// what is owed to them. Those who are cost their downgrades and, where all their legs are flown, their
/// delay and what is owed for it.
#[tactic(auto, unfolding(crate::specs::Amounts::path_cost))]
pub(crate) fn cost_by_end(
    inst: &Instance,
    weights: Weights,
    res: Res,
    path: &[(Leg, Cabin)],
    count: u32,
    end: Option<Minute>,
) -> Grains
    requires weights { AreWeights inst.now weights }
    requires res { res.0 < reservations_of inst.now }
    requires group { IsGroupOf inst.now (group_on path.now count) }
    requires end { IsEnd end }
    ensures { result ≡ grains (path_cost inst.now res.0 (group_on path.now count) end) }
{
    let _rows = inst.parts();
    if is_carried(path) {
        let downgrades = downgrade_cost(inst, weights.downgrade, res, path, count);
        downgrades.plus(arriving_cost(inst, weights, res, count, end))
    } else {
        let cancellation = cancellation_cost(inst, weights.cancellation, res, count);
        cancellation.plus(uncarried_cost(inst, weights.legal, res, count))
    }
}

/// What it costs that passengers arrive at a moment, if they do: their delay, and what is owed for it.
fn arriving_cost(
    inst: &Instance,
    weights: Weights,
    res: Res,
    count: u32,
    end: Option<Minute>,
) -> Grains
    requires weights { AreWeights inst.now weights }
    requires res { res.0 < reservations_of inst.now }
    requires count { count ≤ 1000 }
    requires end { IsEnd end }
    ensures cost { result ≡ grains (arriving inst.now res.0 count end) }
    ensures limit { result.0 ≤ 10 ^ 37 }
{
    let _rows = inst.parts();
    let Some(at) = end else {
        return Grains(0);
    };
    let minutes = minutes_late(inst, res, at);
    let delay = delay_cost(inst, weights.delay, res, minutes, count);
    delay.plus(late_cost(inst, weights.legal, res, minutes, count))
}

/// How many minutes after the booked arrival a moment is, 0 if not later.
fn minutes_late(inst: &Instance, res: Res, at: Minute) -> u32
    requires res { res.0 < reservations_of inst.now }
    requires at { at.0 < 52502880 }
    ensures minutes { result ≡ at.0 - booked_arrival inst.now res.0 }
    ensures limit { result < 52502880 }
{
    at.0.saturating_sub(inst.booked(res).arrival.0)
}

/// When passengers arrive on a path by a plan: with its last leg, a moment below 52,502,880. `None` where the path is empty or
/// one of its legs is not flown.
#[tactic(auto, unfolding(crate::specs::Amounts::path_end))]
pub fn path_end<P: ReadPlan>(inst: &Instance, plan: &P, path: &[(Leg, Cabin)]) -> Option<Minute>
    requires plan { IsPlanFor inst.now (P.plan_of plan.now) }
    requires path { IsPathOf (legs_of inst.now) path.now }
    ensures end { result ≡ path_end inst.now (P.plan_of plan.now) path.now }
    ensures limit { IsEnd result }
{
    if !is_carried(path) || !all_flown(plan, path) {
        return None;
    }
    let last = path[path.len() - 1].0;
    Some(Minute(arrival(inst, plan, last)))
}
