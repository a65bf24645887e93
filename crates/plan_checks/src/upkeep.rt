//! What the legs of each aircraft say of its maintenance, in two walks over all legs.

ghost use Rattle.std.specs.Prelude.{◌≡◌, ◌+◌, ◌<◌, true, map, IfOk};
ghost use Rattle.desk_data.specs.Situation.{legs_of, planes_of, plane_at};
ghost use Rattle.desk_data.specs.Valid.{IsPlanFor};
ghost use Rattle.desk_rules.specs.Maintenance.{flies};
ghost use Rattle.plan_checks.specs.Upkeep.{AreUpkeeps, IsUpkeep, blank, start_of};

use desk_data::{Instance, Leg, Maint, Minute, NoMem, Plan, Plane, Row};
use plan_reads::{Moments, departure, meets_span, put_lasts};
use std::alloc::Global;

/// What some legs say of an aircraft's maintenance, and the last of all its legs before it.
#[derive(Clone, Copy)]
pub struct Upkeep {
    /// Whether none of the aircraft's legs departs from the start of the maintenance on.
    pub stops: bool,
    /// Whether none meets the maintenance.
    pub free: bool,
    /// The last of all that depart before the start.
    pub last: Option<Leg>,
    /// The block minutes of those that depart before the start.
    pub minutes: u32,
}

/// The start of each aircraft's maintenance; minute 0 where it has none.
struct Starts;

impl Moments for Starts {
    ghost moment_of = { λ starts I p. start_of (plane_at I p).maint };

    fn moment(&self, inst: &Instance, plane: Plane) -> Minute {
        match inst.plane(plane).maint {
            Some(maint) => maint.from,
            None => Minute(0),
        }
    }
}

/// What the legs of a plan say of the maintenance of each aircraft: the last one before it, and then
/// the rest, leg by leg. Of an aircraft without maintenance nothing is said. The only error is out of memory.
pub fn upkeeps_of(alloc: Global, inst: &Instance, plan: &Plan) -> Result<Vec<Upkeep>, NoMem>
    requires { IsPlanFor inst.now plan.now }
    ensures { IfOk result (λ upkeeps. AreUpkeeps inst.now plan.now (legs_of inst.now) upkeeps.items) }
{
    let mut lasts = vec![in alloc; None; inst.planes() as usize]?;
    put_lasts(&Starts, inst, plan, lasts.as_mut_slice());
    let mut upkeeps = blank_upkeeps(alloc, lasts.as_slice())?;
    for x in 0..inst.legs() {
        count_leg(inst, plan, Leg(x), upkeeps.as_mut_slice());
    }
    Ok(upkeeps)
}

/// What is said of each aircraft before its legs are counted: only the last one before its
/// maintenance is known.
fn blank_upkeeps(alloc: Global, lasts: &[Option<Leg>]) -> Result<Vec<Upkeep>, NoMem>
    ensures { IfOk result (λ upkeeps. upkeeps.items ≡ map blank lasts.now) }
{
    let mut upkeeps = Vec::with_capacity(alloc, lasts.len())?;
    for last in lasts {
        upkeeps.push(Upkeep {
            stops: true,
            free: true,
            last: *last,
            minutes: 0,
        })?;
    }
    Ok(upkeeps)
}

/// Takes one more leg into account.
fn count_leg(inst: &Instance, plan: &Plan, leg: Leg, upkeeps: &mut [Upkeep])
    requires plan { IsPlanFor inst.now plan.now }
    requires leg { leg.0 < legs_of inst.now }
    requires so_far { AreUpkeeps inst.now plan.now leg.0 upkeeps.old }
    ensures { AreUpkeeps inst.now plan.now (leg.0 + 1) upkeeps.new }
{
    match plan.read_row(leg) {
        Row::Flown { plane, .. } => count_flown(inst, plan, plane, leg, upkeeps),
        Row::Cancelled => {}
    }
}

/// Takes one more leg into account, which an aircraft flies.
fn count_flown(inst: &Instance, plan: &Plan, plane: Plane, leg: Leg, upkeeps: &mut [Upkeep])
    requires plan { IsPlanFor inst.now plan.now }
    requires plane { plane.0 < planes_of inst.now }
    requires leg { leg.0 < legs_of inst.now }
    requires flies { flies plan.now plane.0 leg.0 ≡ true }
    requires so_far { AreUpkeeps inst.now plan.now leg.0 upkeeps.old }
    ensures { AreUpkeeps inst.now plan.now (leg.0 + 1) upkeeps.new }
{
    if let Some(maint) = inst.plane(plane).maint {
        let so_far = upkeeps[plane.0 as usize];
        upkeeps[plane.0 as usize] = with_leg(inst, plan, plane, maint, leg, so_far);
    }
}

/// What the legs up to and including one of the aircraft's say of its maintenance, given what those
/// before it say.
fn with_leg(
    inst: &Instance,
    plan: &Plan,
    plane: Plane,
    maint: Maint,
    leg: Leg,
    so_far: Upkeep,
) -> Upkeep
    requires plan { IsPlanFor inst.now plan.now }
    requires leg { leg.0 < legs_of inst.now }
    requires flies { flies plan.now plane.0 leg.0 ≡ true }
    requires so_far { IsUpkeep inst.now plan.now plane.0 maint leg.0 so_far }
    ensures { IsUpkeep inst.now plan.now plane.0 maint (leg.0 + 1) result }
{
    // there are at most 20,000 legs, so the minutes fit
    prove!(leg.0 < inst.legs());
    let departs = departure(plan, leg);
    let block = inst.leg(leg).block;
    let is_before = departs < maint.from.0;
    Upkeep {
        stops: so_far.stops && is_before,
        free: so_far.free && !meets_span(departs, departs + block, maint.from, maint.to),
        last: so_far.last,
        minutes: if is_before {
            so_far.minutes + block
        } else {
            so_far.minutes
        },
    }
}
