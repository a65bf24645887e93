//! How many positions an aircraft may serve by ending elsewhere.

ghost use Rattle.std.specs.Prelude.{◌≡◌, ◌<◌, ◌≤◌, ℕ, All, IfOk, count_by, length, not, ◌&&◌, slice_index_or};
ghost use Rattle.std.specs.Option.{ForSome};
ghost use Rattle.desk_data.specs.Situation.{legs_of, plane_at, planes_of};
ghost use Rattle.desk_data.specs.Valid.{IsPlanFor};
ghost use Rattle.desk_rules.specs.Cost.{is_wanted};
ghost use Rattle.plan_reads.specs.Last.{AreLasts, IsLastOf};
ghost use Rattle.plan_checks.specs.Stands.{end_of, is_there};
ghost use Rattle.near_priced.specs.Unpaid.{services};

use desk_data::{Airport, Instance, Leg, NoMem, Plane, PlaneInfo, PositionInfo};
use plan_pages::Pages;
use plan_reads::{put_lasts, same_seats, stand_of};
use std::alloc::Global;

/// Where there are more positions, each is taken for one that each aircraft may serve.
const MOST_POSITIONS: usize = 64;

/// For each aircraft how many positions it may serve, or more. The only error is out of memory.
pub(crate) fn services_of(alloc: Global, inst: &Instance, plan: &Pages) -> Result<Vec<u32>, NoMem>
    requires { IsPlanFor inst.now plan.now }
    ensures planes { IfOk result (λ all. length all.items ≡ planes_of inst.now) }
    ensures few { IfOk result (λ all. All (λ n. n ≤ 10000) all.items) }
    ensures serve { IfOk result (λ all. (p : ℕ) → p < planes_of inst.now → services inst.now plan.now p ≤ slice_index_or all.items p 0) }
{
    let mut lasts = vec![in alloc; None; inst.planes() as usize]?;
    let end = inst.window().1;
    put_lasts(&end, inst, plan, lasts.as_mut_slice());
    services_after(alloc, inst, plan, lasts.as_slice())
}

/// The same, given the last leg of each aircraft before the window's end.
fn services_after(
    alloc: Global,
    inst: &Instance,
    _plan: &Pages,
    lasts: &[Option<Leg>],
) -> Result<Vec<u32>, NoMem>
    requires { AreLasts inst.now _plan.now (λ p. inst.now.parts.to.0) (legs_of inst.now) lasts.now }
    ensures planes { IfOk result (λ all. length all.items ≡ planes_of inst.now) }
    ensures few { IfOk result (λ all. All (λ n. n ≤ 10000) all.items) }
    ensures serve { IfOk result (λ all. (p : ℕ) → p < planes_of inst.now → services inst.now _plan.now p ≤ slice_index_or all.items p 0) }
{
    let mut all = Vec::with_capacity(alloc, inst.planes() as usize)?;
    for p in 0..inst.planes() {
        let count = service_count(inst, _plan, Plane(p), lasts[p as usize]);
        all.push(count)?;
    }
    Ok(all)
}

/// How many positions an aircraft may serve, or more, given its last leg before the window's end.
fn service_count(inst: &Instance, _plan: &Pages, plane: Plane, last: Option<Leg>) -> u32
    requires plane { plane.0 < planes_of inst.now }
    requires last { IsLastOf _plan.now plane.0 inst.now.parts.to.0 (legs_of inst.now) last }
    ensures serve { services inst.now _plan.now plane.0 ≤ result }
    ensures few { result ≤ 10000 }
{
    wanted_elsewhere(inst, plane, end_of(inst, plane, last))
}

/// Where an aircraft ends after its last leg; `None` for surface transport.
pub fn end_of(inst: &Instance, plane: Plane, last: Option<Leg>) -> Option<Airport>
    requires plane { plane.0 < planes_of inst.now }
    requires last { ForSome last (λ leg. leg.0 < legs_of inst.now) }
    ensures { result ≡ end_of inst.now plane.0 last }
{
    if inst.plane(plane).surface {
        None
    } else {
        Some(stand_of(inst, plane, last))
    }
}

/// How many positions want an aircraft elsewhere than where it ends, or more.
fn wanted_elsewhere(inst: &Instance, plane: Plane, end: Option<Airport>) -> u32
    requires { plane.0 < planes_of inst.now }
    ensures wanted { count_by (λ position. is_wanted position (plane_at inst.now plane.0) && not (is_there end position.airport.0)) inst.now.parts.positions ≤ result }
    ensures few { result ≤ 10000 }
{
    let _rows = inst.parts();
    let positions = inst.positions();
    if MOST_POSITIONS < positions.len() {
        return positions.len() as u32;
    }
    let mut count = 0;
    for position in positions {
        if is_wanted(position, inst.plane(plane)) && !is_at(end, position.airport) {
            count += 1;
        }
    }
    count
}

/// Whether an aircraft ends at an airport.
pub fn is_at(end: Option<Airport>, airport: Airport) -> bool
    ensures { result ≡ is_there end airport.0 }
{
    match end {
        Some(there) => there.0 == airport.0,
        None => false,
    }
}

/// Whether an aircraft has the model and the seats of a position.
pub fn is_wanted(position: &PositionInfo, plane: &PlaneInfo) -> bool
    ensures { result ≡ is_wanted position.now plane.now }
{
    position.model.as_slice() == plane.model.as_slice() && same_seats(position.seats, plane.seats)
}
