//! The last leg of each aircraft that departs before a moment.

ghost use Rattle.std.specs.Prelude.{◌≡◌, ◌+◌, ◌<◌, true, length};
ghost use Rattle.desk_data.specs.Situation.{legs_of, planes_of};
ghost use Rattle.desk_data.specs.Valid.{IsPlanFor};
ghost use Rattle.desk_rules.specs.Maintenance.{flies};
ghost use Rattle.plan_reads.specs.Last.{AreLasts, IsLastOf};

use crate::legs::departure;
use crate::reads::ReadPlan;
use desk_data::{Instance, Leg, Minute, Plane, Row};

/// A moment for each aircraft.
pub trait Moments {
    ghost use Rattle.std.specs.Prelude.{◌≡◌, ◌<◌, ℕ};
    ghost use Rattle.desk_data.specs.Situation.{Situation, planes_of};

    ghost moment_of: { Self → Situation → ℕ → ℕ };

    /// The moment of an aircraft.
    fn moment(&self, inst: &Instance, plane: Plane) -> Minute
        requires { plane.0 < planes_of inst.now }
        ensures { result.0 ≡ moment_of self.now inst.now plane.0 };
}

/// A minute is the moment of all aircraft.
impl Moments for Minute {
    ghost moment_of = { λ at I p. at.0 };

    fn moment(&self, _inst: &Instance, _plane: Plane) -> Minute {
        *self
    }
}

/// Writes for each aircraft its last leg that departs before its moment, or `None` where none does,
/// in one walk over all legs. Of two legs that depart together the greater number is the later one.
/// `lasts` has a place for each aircraft.
pub fn put_lasts<M: Moments, P: ReadPlan>(
    moments: &M,
    inst: &Instance,
    plan: &P,
    lasts: &mut [Option<Leg>],
)
    requires plan { IsPlanFor inst.now (P.plan_of plan.now) }
    requires lasts { length lasts.old ≡ planes_of inst.now }
    ensures { AreLasts inst.now (P.plan_of plan.now) (M.moment_of moments.now inst.now) (legs_of inst.now) lasts.new }
{
    lasts.fill(None);
    for x in 0..inst.legs() {
        take_leg(moments, inst, plan, Leg(x), lasts);
    }
}

/// Takes one more leg into account.
fn take_leg<M: Moments, P: ReadPlan>(
    moments: &M,
    inst: &Instance,
    plan: &P,
    leg: Leg,
    lasts: &mut [Option<Leg>],
)
    requires plan { IsPlanFor inst.now (P.plan_of plan.now) }
    requires leg { leg.0 < legs_of inst.now }
    requires so_far { AreLasts inst.now (P.plan_of plan.now) (M.moment_of moments.now inst.now) leg.0 lasts.old }
    ensures { AreLasts inst.now (P.plan_of plan.now) (M.moment_of moments.now inst.now) (leg.0 + 1) lasts.new }
{
    match plan.read_row(leg) {
        Row::Flown { plane, .. } => {
            let at = moments.moment(inst, plane);
            let last = lasts[plane.0 as usize];
            lasts[plane.0 as usize] = with_leg(plan, plane, at, leg, last);
        }
        Row::Cancelled => {}
    }
}

/// The last leg of an aircraft that departs before a moment, given the last one up to a leg of it.
fn with_leg<P: ReadPlan>(
    plan: &P,
    plane: Plane,
    at: Minute,
    leg: Leg,
    last: Option<Leg>,
) -> Option<Leg>
    requires leg { leg.0 < length (P.plan_of plan.now).rows }
    requires flies { flies (P.plan_of plan.now) plane.0 leg.0 ≡ true }
    requires last { IsLastOf (P.plan_of plan.now) plane.0 at.0 leg.0 last }
    ensures { IsLastOf (P.plan_of plan.now) plane.0 at.0 (leg.0 + 1) result }
{
    let departs = departure(plan, leg);
    if at.0 <= departs {
        return last;
    }
    match last {
        Some(other) if departs < departure(plan, other) => last,
        _ => Some(leg),
    }
}
