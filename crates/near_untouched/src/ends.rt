//! Where aircraft end in a plan, and which end elsewhere in a later one.

ghost use Rattle.std.specs.Prelude.{◌≡◌, ℕ, ◌<◌, IfOk, length};
ghost use Rattle.std.specs.Option.{ForSome};
ghost use Rattle.desk_data.specs.Situation.{legs_of, planes_of};
ghost use Rattle.desk_data.specs.Valid.{IsPlanFor};
ghost use Rattle.desk_rules.specs.Cost.{ends_at};
ghost use Rattle.plan_reads.specs.Last.{AreLasts, IsLastOf};
ghost use Rattle.plan_checks.specs.Stands.{AreStands, end_of, is_there};
ghost use Rattle.near_untouched.specs.Positions.{AreElsewhere};

use desk_data::{Airport, Instance, Leg, NoMem, Plane};
use plan_pages::Pages;
use plan_reads::{put_lasts, stand_of};
use std::alloc::Global;

/// Where each aircraft ends, in one walk over the legs; `None` for surface transport. The only error is out of memory.
pub(crate) fn ends_of(
    alloc: Global,
    inst: &Instance,
    plan: &Pages,
) -> Result<Vec<Option<Airport>>, NoMem>
    requires { IsPlanFor inst.now plan.now }
    ensures { IfOk result (λ ends. AreStands inst.now plan.now ends.items) }
{
    let mut lasts = vec![in alloc; None; inst.planes() as usize]?;
    let end = inst.window().1;
    put_lasts(&end, inst, plan, lasts.as_mut_slice());
    ends_after(alloc, inst, plan, lasts.as_slice())
}

/// The same, given the last leg of each aircraft before the window's end.
fn ends_after(
    alloc: Global,
    inst: &Instance,
    _plan: &Pages,
    lasts: &[Option<Leg>],
) -> Result<Vec<Option<Airport>>, NoMem>
    requires { AreLasts inst.now _plan.now (λ p. inst.now.parts.to.0) (legs_of inst.now) lasts.now }
    ensures { IfOk result (λ ends. AreStands inst.now _plan.now ends.items) }
{
    let mut ends = Vec::with_capacity(alloc, inst.planes() as usize)?;
    for p in 0..inst.planes() {
        ends.push(end_after(inst, _plan, Plane(p), lasts[p as usize]))?;
    }
    Ok(ends)
}

/// Where an aircraft ends in a plan, given its last leg before the window's end.
fn end_after(inst: &Instance, _plan: &Pages, plane: Plane, last: Option<Leg>) -> Option<Airport>
    requires plane { plane.0 < planes_of inst.now }
    requires last { IsLastOf _plan.now plane.0 inst.now.parts.to.0 (legs_of inst.now) last }
    ensures { (airport : ℕ) → is_there result airport ≡ ends_at inst.now _plan.now plane.0 airport }
{
    end_of(inst, plane, last)
}

/// Where an aircraft ends after its last leg; `None` for surface transport.
fn end_of(inst: &Instance, plane: Plane, last: Option<Leg>) -> Option<Airport>
    requires plane { plane.0 < planes_of inst.now }
    requires last { ForSome last (λ x. x.0 < legs_of inst.now) }
    ensures { result ≡ end_of inst.now plane.0 last }
{
    if inst.plane(plane).surface {
        None
    } else {
        Some(stand_of(inst, plane, last))
    }
}

/// The aircraft that end elsewhere than they did, ascending, by where each ended and where it ends. The only error is
/// out of memory.
pub(crate) fn elsewhere(
    alloc: Global,
    inst: &Instance,
    was: &[Option<Airport>],
    now: &[Option<Airport>],
) -> Result<Vec<Plane>, NoMem>
    requires was { length was.now ≡ planes_of inst.now }
    requires now { length now.now ≡ planes_of inst.now }
    ensures { IfOk result (λ planes. AreElsewhere (planes_of inst.now) was.now now.now planes.items) }
{
    let mut planes = Vec::new(alloc);
    for p in 0..inst.planes() {
        if was[p as usize] != now[p as usize] {
            planes.push(Plane(p))?;
        }
    }
    Ok(planes)
}
