//! The usual moves and the routes of a reservation, which the desk gives whoever wants to propose something: that each is given, and
//! how long it is. What is in it their contracts say.

ghost use Rattle.desk_data.specs.Valid.{IsPlanFor};

use super::days::{Texts, day_of};
use desk_data::{Cabin, Instance, Leg, List, Minute, Path, Plane, Res};
use desk_eval::{cancel, delay, rebook, reroute, swap};
use desk_folder::File;
use near_pax::routes;
use plan_moves::Move;
use plan_pages::Pages;
use plan_reads::departure;
use std::alloc::Global;
use std::test::Fail;

/// Four passengers booked three legs of one aircraft. The fourth leg goes from where the first arrives to where they want to go.
const CHAIN: Texts<'static> = &[
    (File::Config, "01/01/00 06:00 02/01/00 06:00\n"),
    (
        File::Flights,
        "F1 AAA BBB 08:00 09:00 0\nF2 BBB CCC 09:30 10:30 0\nF3 CCC DDD 11:00 12:00 0\nF4 BBB DDD 10:30 11:30 0\n",
    ),
    (
        File::Rotations,
        "F1 01/01/00 P1\nF2 01/01/00 P1\nF3 01/01/00 P1\nF4 01/01/00 P2\n",
    ),
    (
        File::Aircraft,
        "P1 M1 NB 2/0/10 600 100 30 20 AAA NULL\nP2 M1 NB 2/0/10 600 120 30 20 BBB NULL\n",
    ),
    (
        File::Airports,
        "AAA 10 10 00:00 24:00\nBBB 10 10 00:00 24:00\nCCC 10 10 00:00 24:00\nDDD 10 10 00:00 24:00\n",
    ),
    (
        File::Dist,
        "AAA BBB 60 D\nBBB CCC 60 D\nCCC DDD 60 D\nBBB DDD 60 D\n",
    ),
    (
        File::Itineraries,
        "R1 A 100 4 F1 01/01/00 E F2 01/01/00 E F3 01/01/00 E\n",
    ),
];

/// How many steps a move has.
fn steps_of(m: Move) -> usize {
    m.steps.as_slice().len()
}

/// How many steps a rebooking of one passenger has, from the first leg to no path.
fn steps_of_rebooking(alloc: Global) -> Result<usize, Fail> {
    let first = vec![in alloc; (Leg(0), Cabin::E)]?;
    let from = Path { legs: List(first) };
    let to = Path {
        legs: List(Vec::new(alloc)),
    };
    Ok(steps_of(rebook(alloc, Res(0), &from, &to, 1)?))
}

/// How many steps a delay, a cancellation, a swap, a reroute and a rebooking have in a plan, and how many routes its first reservation has.
fn lengths(alloc: Global, inst: &Instance, plan: &Pages) -> Result<[usize; 6], Fail>
    requires { IsPlanFor inst.now plan.now }
{
    if inst.legs() < 1 || inst.planes() < 2 || inst.reservations() < 1 {
        return Err(Fail::new("the day has too few rows"));
    }
    if departure(plan, Leg(0)) > 52_000_000 {
        return Err(Fail::new("the first leg departs too late"));
    }
    Ok([
        steps_of(delay(alloc, inst, plan, Leg(0), 10)?),
        steps_of(cancel(alloc, inst, plan, Leg(0))?),
        steps_of(swap(alloc, Plane(0), Plane(1), Minute(0))?),
        steps_of(reroute(alloc, inst, plan, Leg(0), Plane(1))?),
        steps_of_rebooking(alloc)?,
        routes(alloc, inst, plan, Res(0))?.len(),
    ])
}

/// The same in the schedule.
fn lengths_in_the_schedule(alloc: Global) -> Result<[usize; 6], Fail> {
    let inst = day_of(alloc, &[], CHAIN)?;
    let plan = inst.schedule(alloc)?;
    let pages = Pages::from_plan(alloc, plan, inst.reservations())?;
    lengths(alloc, &inst, &pages)
}

#[test]
fn the_usual_moves_and_the_routes_are_given(rt: HostRuntime) -> Result<(), Fail> {
    // the scheduled path, and by the fourth leg in each cabin
    assert!(rt; lengths_in_the_schedule(rt.alloc())? == [3, 2, 4, 3, 1, 4]);
    Ok(())
}
