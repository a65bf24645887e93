//! The maintenance of aircraft with their added legs: C8 and C9, by what the legs of the plan say of it.

ghost use Rattle.std.specs.Prelude.{◌≡◌, ◌*◌, ◌<◌, ◌≤◌, ◌||◌};
ghost use Rattle.std.specs.Option.{ForSome};
ghost use Rattle.desk_data.specs.Situation.{legs_of, planes_of, plane_at};
ghost use Rattle.desk_data.specs.Valid.{IsPlanFor};
ghost use Rattle.plan_checks.specs.Upkeep.{start_of};
ghost use Rattle.added_legs.specs.Asked.{is_within, makes_it, with_flight};
ghost use Rattle.added_legs.specs.Flights.{IsFlight};

use crate::flight::Flight;
use crate::stands::stand_with;
use desk_data::{Instance, Leg, Maint, Minute, Plan, Plane};
use plan_checks::Upkeep;
use plan_reads::{Moments, meets_span};

/// The start of each aircraft's maintenance; minute 0 where it has none.
pub struct Starts;

impl Moments for Starts {
    ghost moment_of = { λ starts I p. start_of (plane_at I p).maint };

    fn moment(&self, inst: &Instance, plane: Plane) -> Minute {
        match inst.plane(plane).maint {
            Some(maint) => maint.from,
            None => Minute(0),
        }
    }
}

/// What the legs of a plan say of an aircraft's maintenance, and its added leg.
fn with_flight(maint: Maint, upkeep: Upkeep, flight: Option<Flight>) -> Upkeep
    requires minutes { upkeep.minutes ≤ 2880 * 20000 }
    requires flight { ForSome flight (λ f. (f.minutes ≤ 100000) × (f.dep.0 < 52596000)) }
    ensures { result ≡ with_flight maint upkeep flight }
{
    let Some(flight) = flight else {
        return upkeep;
    };
    let departs = flight.dep.0;
    let is_before = departs < maint.from.0;
    Upkeep {
        stops: upkeep.stops && is_before,
        free: upkeep.free && !meets_span(departs, departs + flight.minutes, maint.from, maint.to),
        last: upkeep.last,
        minutes: upkeep.minutes + if is_before { flight.minutes } else { 0 },
    }
}

/// C8: whether an aircraft that flies from the start of its maintenance on is free for it, and was left at its airport.
/// Given are the last leg of the plan before the maintenance, and the aircraft's added leg.
pub(crate) fn c8_maintenance(
    inst: &Instance,
    plan: &Plan,
    plane: Plane,
    upkeep: Upkeep,
    last: Option<Leg>,
    flight: Option<Flight>,
) -> bool
    requires plan { IsPlanFor inst.now plan.now }
    requires plane { plane.0 < planes_of inst.now }
    requires upkeep { ForSome (plane_at inst.now plane.0).maint (λ maint. upkeep.minutes ≤ 2880 * 20000) }
    requires last { ForSome last (λ leg. leg.0 < legs_of inst.now) }
    requires flight { ForSome flight (IsFlight inst.now) }
    ensures { result ≡ ((plane_at inst.now plane.0).surface || makes_it inst.now plan.now plane.0 upkeep last flight (plane_at inst.now plane.0).maint) }
{
    let flying = inst.plane(plane);
    if flying.surface {
        return true;
    }
    let Some(maint) = flying.maint else {
        return true;
    };
    let upkeep = with_flight(maint, upkeep, flight);
    upkeep.stops
        || (upkeep.free
            && stand_with(inst, plan, plane, maint.from, last, flight).0 == maint.airport.0)
}

/// C9: whether an aircraft flies at most the stated minutes before its maintenance.
pub(crate) fn c9_minutes(
    inst: &Instance,
    plane: Plane,
    upkeep: Upkeep,
    flight: Option<Flight>,
) -> bool
    requires plane { plane.0 < planes_of inst.now }
    requires upkeep { ForSome (plane_at inst.now plane.0).maint (λ maint. upkeep.minutes ≤ 2880 * 20000) }
    requires flight { ForSome flight (IsFlight inst.now) }
    ensures { result ≡ ((plane_at inst.now plane.0).surface || is_within upkeep flight (plane_at inst.now plane.0).maint) }
{
    let flying = inst.plane(plane);
    if flying.surface {
        return true;
    }
    match flying.maint {
        Some(maint) => with_flight(maint, upkeep, flight).minutes <= maint.minutes,
        None => true,
    }
}
