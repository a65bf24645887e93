//! The first moment at which a leg can depart.

ghost use Rattle.std.specs.Prelude.{◌≡◌, ◌<◌, IfSome, max};
ghost use Rattle.std.specs.Option.{ForSome, option_map};
ghost use Rattle.desk_data.specs.Situation.{earliest, latest, legs_of, planes_of};
ghost use Rattle.desk_data.specs.PlanRows.{PlanRows};
ghost use Rattle.desk_data.specs.Valid.{IsPlanFor};
ghost use Rattle.desk_model.specs.Choices.{first_within};
ghost use Rattle.desk_model.specs.Push.{can_depart, first_departure, ready_moment};
ghost use Rattle.hour_counts.specs.Placings.{AreLegs, IsPlacing};

use crate::KnowsHours;
use crate::pushed::Placing;
use crate::ruled_out::ruled_out_until;
use desk_data::{Instance, Leg, Minute, Plane};
use plan_reads::{ReadPlan, arrival, ground_time};

/// The first moment at which a leg can depart when it is placed in the plan as it stands, in minutes
/// since 2000-01-01, below 52,500,000: not before its earliest departure, nor before the leg that was before it at the step's
/// start has arrived, as it stands now, and the ground time is over; not after its latest departure;
/// where the aircraft is in service and not at its maintenance; and where the airports have room in the
/// hours of departure and arrival, the leg itself not counted. `None` where it can at no moment. The hours
/// that are known are those of the plan as it stands.
pub fn first_departure<P: ReadPlan, C: KnowsHours>(
    inst: &Instance,
    plan: &P,
    counts: &C,
    plane: Plane,
    placing: &Placing,
) -> Option<Minute>
    requires plan { IsPlanFor inst.now (P.plan_of plan.now) }
    requires counts { C.knows counts.now inst.now (P.plan_of plan.now) }
    requires plane { plane.0 < planes_of inst.now }
    requires legs { AreLegs inst.now placing.now }
    ensures at { option_map (λ t. t.0) result ≡ first_within (max (ready_moment inst.now (P.plan_of plan.now) plane.0 placing.now.leg.0 (option_map (λ l. l.0) placing.now.before)) (earliest inst.now placing.now.leg.0)) (latest inst.now placing.now.leg.0) (can_depart inst.now (P.plan_of plan.now) plane.0 placing.now.leg.0) }
    ensures first { (start : PlanRows) → IsPlacing inst.now start placing.now → option_map (λ t. t.0) result ≡ first_departure inst.now start (P.plan_of plan.now) plane.0 placing.now.leg.0 }
    ensures limit { IfSome result (λ t. t.0 < 52500000) }
{
    let leg = placing.leg;
    let ready = ready_moment(inst, plan, plane, leg, placing.before);
    let low = ready.max(inst.earliest(leg).0);
    first_from(inst, plan, counts, plane, leg, low)
}

/// The first moment from `low` on at which a leg can depart, up to its latest departure.
fn first_from<P: ReadPlan, C: KnowsHours>(
    inst: &Instance,
    plan: &P,
    counts: &C,
    plane: Plane,
    leg: Leg,
    low: u32,
) -> Option<Minute>
    requires plan { IsPlanFor inst.now (P.plan_of plan.now) }
    requires counts { C.knows counts.now inst.now (P.plan_of plan.now) }
    requires plane { plane.0 < planes_of inst.now }
    requires leg { leg.0 < legs_of inst.now }
    ensures first { option_map (λ t. t.0) result ≡ first_within low (latest inst.now leg.0) (can_depart inst.now (P.plan_of plan.now) plane.0 leg.0) }
    ensures limit { IfSome result (λ t. t.0 < 52500000) }
{
    let latest = inst.latest(leg).0;
    let mut at = low;
    while at <= latest {
        match ruled_out_until(inst, plan, counts, plane, leg, at) {
            Some(next) => at = next,
            None => return Some(Minute(at)),
        }
    }
    None
}

/// When an aircraft is ready for a leg: once the leg before it has arrived and the ground time is
/// over; from minute 0 on where there is none.
fn ready_moment<P: ReadPlan>(
    inst: &Instance,
    plan: &P,
    plane: Plane,
    leg: Leg,
    before: Option<Leg>,
) -> u32
    requires plan { IsPlanFor inst.now (P.plan_of plan.now) }
    requires plane { plane.0 < planes_of inst.now }
    requires leg { leg.0 < legs_of inst.now }
    requires before { ForSome before (λ earlier. earlier.0 < legs_of inst.now) }
    ensures { result ≡ ready_moment inst.now (P.plan_of plan.now) plane.0 leg.0 (option_map (λ earlier. earlier.0) before) }
{
    match before {
        Some(earlier) => arrival(inst, plan, earlier) + ground_time(inst, plane, earlier, leg),
        None => 0,
    }
}
