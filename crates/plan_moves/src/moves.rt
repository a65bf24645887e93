//! Proposed changes of a plan.

ghost use Rattle.std.specs.Prelude.{◌≡◌, ◌↔◌, ◌<◌, ◌≤◌, IfOk, IsTrue};
ghost use Rattle.std.specs.Option.{ForSome};
ghost use Rattle.desk_data.specs.Situation.{legs_of};
ghost use Rattle.desk_data.specs.Valid.{IsPathOf, IsRowOf};
ghost use Rattle.plan_moves.specs.Fits.{Fits, IsPathIn, StepFits};

use desk_data::{Cabin, DEPARTURES_END, Instance, Leg, List, Minute, NoMem, Path, Plane, Res, Row};
use std::alloc::Global;

/// One step of a move. Where it finds nothing to do, it leaves the plan as it is.
#[derive(Drop)]
pub enum Step {
    /// Where the leg's row is `was`, it becomes `new`; else nothing changes.
    Set {
        leg: Leg,
        was: Row,
        new: Row,
    },
    /// The movable legs of the aircraft that come after the leg `after`, or all of them where it is
    /// `None`, are placed anew, one by one, each at the first moment at which it may depart.
    Push {
        plane: Plane,
        after: Option<Leg>,
    },
    /// The legs of two aircraft that depart at the moment or after it go from one to the other.
    Swap {
        first: Plane,
        second: Plane,
        at: Minute,
    },
    /// Passengers of the reservation go from a path to another: `count` of them, or all that are on the
    /// path where they are fewer.
    Rebook {
        res: Res,
        path: Path,
        to: Path,
        count: u32,
    },
    /// Passengers on carried paths that break C13, C14 or C15 are no longer carried.
    Tidy,
    /// Passengers who are not carried and whose scheduled path has the leg go back to it, as far as it
    /// has seats.
    Refill {
        leg: Leg,
    },
}

impl Step {
    /// An equal step. The only error is out of memory.
    pub fn copy(&self, alloc: Global) -> Result<Step, NoMem>
        ensures { IfOk result (λ copy. copy ≡ self.now) }
    {
        match self {
            Step::Set { leg, was, new } => Ok(Step::Set {
                leg: *leg,
                was: *was,
                new: *new,
            }),
            Step::Push { plane, after } => Ok(Step::Push {
                plane: *plane,
                after: *after,
            }),
            Step::Swap { first, second, at } => Ok(Step::Swap {
                first: *first,
                second: *second,
                at: *at,
            }),
            Step::Rebook {
                res,
                path,
                to,
                count,
            } => {
                let path = path.copy(alloc)?;
                let to = to.copy(alloc)?;
                Ok(Step::Rebook {
                    res: *res,
                    path,
                    to,
                    count: *count,
                })
            }
            Step::Tidy => Ok(Step::Tidy),
            Step::Refill { leg } => Ok(Step::Refill { leg: *leg }),
        }
    }
}

/// A proposed change: 1 to 16 steps, taken one after another.
#[derive(Drop)]
pub struct Move {
    pub steps: List<Step>,
}

impl Move {
    /// An equal move. The only error is out of memory.
    pub fn copy(&self, alloc: Global) -> Result<Move, NoMem>
        ensures { IfOk result (λ copy. copy ≡ self.now) }
    {
        let mut steps = Vec::with_capacity(alloc, self.steps.as_slice().len())?;
        for step in self.steps.as_slice() {
            steps.push(step.copy(alloc)?)?;
        }
        Ok(Move { steps: List(steps) })
    }
}

fn row_fits(planes: u32, row: &Row) -> bool
    ensures { IsTrue result ↔ IsRowOf planes row.now }
{
    match row {
        Row::Flown { plane, dep } => plane.0 < planes && dep.0 < DEPARTURES_END,
        Row::Cancelled => true,
    }
}

/// Whether a leg, where there is one, is among so many.
fn after_fits(legs: u32, after: &Option<Leg>) -> bool
    ensures { IsTrue result ↔ ForSome after.now (λ leg. leg.0 < legs) }
{
    match after {
        Some(leg) => leg.0 < legs,
        None => true,
    }
}

/// Whether the legs of a path are among so many.
fn are_among(legs: u32, path: &[(Leg, Cabin)]) -> bool
    ensures { IsTrue result ↔ IsPathOf legs path.now }
{
    path.iter().all(|pair| pair.0.0 < legs)
}

fn path_fits(legs: u32, path: &Path) -> bool
    ensures { IsTrue result ↔ IsPathIn legs path.now }
{
    let pairs = path.as_slice();
    pairs.len() <= 8 && are_among(legs, pairs)
}

fn rebook_fits(inst: &Instance, path: &Path, to: &Path, count: u32) -> bool
    ensures { IsTrue result ↔ IsPathIn (legs_of inst.now) path.now × IsPathIn (legs_of inst.now) to.now × (1 ≤ count) × (count ≤ 1000) }
{
    let legs = inst.legs();
    path_fits(legs, path) && path_fits(legs, to) && 1 <= count && count <= 1_000
}

fn step_fits(inst: &Instance, step: &Step) -> bool
    ensures { IsTrue result ↔ StepFits inst.now step.now }
{
    let legs = inst.legs();
    let planes = inst.planes();
    match step {
        Step::Set { leg, was, new } => {
            leg.0 < legs && row_fits(planes, was) && row_fits(planes, new)
        }
        Step::Push { plane, after } => plane.0 < planes && after_fits(legs, after),
        Step::Swap { first, second, at } => {
            first.0 < planes && second.0 < planes && at.0 < DEPARTURES_END
        }
        Step::Rebook {
            res,
            path,
            to,
            count,
        } => res.0 < inst.reservations() && rebook_fits(inst, path, to, *count),
        Step::Tidy => true,
        Step::Refill { leg } => leg.0 < legs,
    }
}

/// Whether a move can be asked about: it has 1 to 16 steps, its numbers are in range, its departures
/// are below 52,500,000, its paths have at most 8 legs and its counts are 1 to 1,000.
pub fn fits(inst: &Instance, m: &Move) -> bool
    ensures { IsTrue result ↔ Fits inst.now m.now }
{
    let steps = m.steps.as_slice();
    !steps.is_empty() && steps.len() <= 16 && steps.iter().all(|step| step_fits(inst, step))
}
