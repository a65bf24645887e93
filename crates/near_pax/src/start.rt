//! Where and when passengers may go on after a stem.

ghost use Rattle.std.specs.Prelude.{◌≡◌, ◌<◌};
ghost use Rattle.desk_data.specs.Situation.{legs_of, reservations_of};
ghost use Rattle.desk_data.specs.Valid.{IsPathOf, IsPlanFor};
ghost use Rattle.near_moves.specs.Routes.{begun_path, is_other_stem};
ghost use Rattle.near_pax.specs.Start.{IsStemPath, due_before, place_after, ready_after};

use desk_data::{Airport, Cabin, Instance, Leg, Path, Res, same_path};
use plan_pages::Pages;
use plan_reads::{arrival, is_carried, longest_delay};

/// What routes are sought from: a stem of a reservation, and the routes that are told already.
#[derive(Clone, Copy)]
pub(crate) struct Outset<'a> {
    pub(crate) res: Res,
    pub(crate) stem: &'a [(Leg, Cabin)],
    pub(crate) told: &'a [Path],
}

/// What passengers of a reservation have begun: the legs of their scheduled path that are scheduled before the
/// window, at most 8. This is the first of its stems.
pub fn begun_path(inst: &Instance, res: Res) -> &[(Leg, Cabin)]
    requires { res.0 < reservations_of inst.now }
    ensures path { result.now ≡ begun_path inst.now res.0 }
    ensures sound { IsStemPath inst.now result.now }
{
    let begun = inst.begun(res) as usize;
    &inst.res(res).path.as_slice()[..begun]
}

/// Whether some legs that passengers have left on are one more stem: they are some, and not what was begun.
pub fn is_other_stem(begun: &[(Leg, Cabin)], legs: &[(Leg, Cabin)]) -> bool
    ensures { result ≡ is_other_stem begun.now legs.now }
{
    is_carried(legs) && !same_path(begun, legs)
}

/// The airport where passengers of a reservation stand after the legs of a path, and the minute from which they do, by
/// the rows of a plan: without legs, where and when they set out as they booked.
pub fn start_after(inst: &Instance, plan: &Pages, res: Res, path: &[(Leg, Cabin)]) -> (Airport, u32)
    requires plan { IsPlanFor inst.now plan.now }
    requires res { res.0 < reservations_of inst.now }
    requires path { IsPathOf (legs_of inst.now) path.now }
    ensures place { result.0.0 ≡ place_after inst.now res.0 path.now }
    ensures ready { result.1 ≡ ready_after inst.now plan.now res.0 path.now }
{
    if path.is_empty() {
        let booked = inst.booked(res);
        return (booked.origin, booked.departure.0);
    }
    let last = path[path.len() - 1].0;
    (inst.leg(last).dest, arrival(inst, plan, last))
}

/// The minute before which passengers of a reservation have to arrive: their booked arrival and the longest delay of
/// its haul, and one minute more.
pub fn due_before(inst: &Instance, res: Res) -> u32
    requires { res.0 < reservations_of inst.now }
    ensures { result ≡ due_before inst.now res.0 }
{
    let booked = inst.booked(res);
    booked.arrival.0 + longest_delay(booked.haul) + 1
}
