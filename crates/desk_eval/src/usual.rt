//! The five usual moves: a delay, a cancellation, a swap, another aircraft for a leg, and a rebooking.

ghost use Rattle.std.specs.Prelude.{◌≡◌, ◌+◌, ◌<◌, ◌≤◌, IfOk};
ghost use Rattle.desk_data.specs.Situation.{Situation, legs_of, planes_of, reservations_of};
ghost use Rattle.desk_data.specs.Valid.{IsPlanFor};
ghost use Rattle.plan_moves.specs.Fits.{Fits, IsPathIn};
ghost use Rattle.desk_rules.specs.Rotations.{dep};
ghost use Rattle.desk_eval.specs.UsualMoves.{cancel_move, delay_move, rebook_move, reroute_move, swap_move};

use desk_data::{Instance, Leg, List, Minute, NoMem, Path, Plane, Res, Row};
use plan_moves::{Move, Step};
use plan_pages::Pages;
use std::alloc::Global;

/// Delays a leg by some minutes, at most 2,880, from its present departure; it departs then before minute
/// 52,500,000. The movable legs after it on its aircraft are placed anew, and passengers whose paths
/// break are no longer carried. Of a cancelled leg the move is a Tidy alone. The move fits the instance. The
/// only error is out of memory.
pub fn delay(
    alloc: Global,
    inst: &Instance,
    plan: &Pages,
    leg: Leg,
    minutes: u32,
) -> Result<Move, NoMem>
    requires plan { IsPlanFor inst.now plan.now }
    requires leg { leg.0 < legs_of inst.now }
    requires minutes { minutes ≤ 2880 }
    requires departs { dep plan.now leg.0 + minutes < 52500000 }
    ensures exact { IfOk result (λ m. m ≡ delay_move plan.now leg minutes) }
    ensures fits { IfOk result (Fits inst.now) }
{
    let was = plan.read_row(leg);
    match was {
        Row::Flown { plane, dep } => {
            let new = Row::Flown {
                plane,
                dep: Minute(dep.0 + minutes),
            };
            let after = Some(leg);
            let steps = vec![in alloc;
                Step::Set { leg, was, new },
                Step::Push { plane, after },
                Step::Tidy,
            ]?;
            Ok(Move { steps: List(steps) })
        }
        Row::Cancelled => {
            let steps = vec![in alloc; Step::Tidy]?;
            Ok(Move { steps: List(steps) })
        }
    }
}

/// Cancels a leg. Passengers whose paths break are no longer carried. The move fits the instance. The only
/// error is out of memory.
pub fn cancel(alloc: Global, inst: &Instance, plan: &Pages, leg: Leg) -> Result<Move, NoMem>
    requires plan { IsPlanFor inst.now plan.now }
    requires leg { leg.0 < legs_of inst.now }
    ensures exact { IfOk result (λ m. m ≡ cancel_move plan.now leg) }
    ensures fits { IfOk result (Fits inst.now) }
{
    let was = plan.read_row(leg);
    let new = Row::Cancelled;
    let steps = vec![in alloc; Step::Set { leg, was, new }, Step::Tidy]?;
    Ok(Move { steps: List(steps) })
}

/// Has two aircraft fly each other's legs from the minute `at` on. The movable legs of both are placed anew,
/// those of the first aircraft first, and passengers whose paths break are no longer carried. The move fits
/// where both aircraft are there and `at` is below minute 52,500,000. The only error is out of memory.
pub fn swap(alloc: Global, first: Plane, second: Plane, at: Minute) -> Result<Move, NoMem>
    ensures exact { IfOk result (λ m. m ≡ swap_move first second at) }
    ensures fits { IfOk result (λ m. (I : Situation) → first.0 < planes_of I → second.0 < planes_of I → at.0 < 52500000 → Fits I m) }
{
    let swap = Step::Swap { first, second, at };
    let first = Step::Push {
        plane: first,
        after: None,
    };
    let second = Step::Push {
        plane: second,
        after: None,
    };
    let steps = vec![in alloc; swap, first, second, Step::Tidy]?;
    Ok(Move { steps: List(steps) })
}

/// Has an aircraft fly a leg: at its present departure, or at its earliest one where it is cancelled. The
/// movable legs of that aircraft are placed anew, and passengers whose paths break are no longer carried.
/// The move fits the instance. The only error is out of memory.
pub fn reroute(
    alloc: Global,
    inst: &Instance,
    plan: &Pages,
    leg: Leg,
    plane: Plane,
) -> Result<Move, NoMem>
    requires plan { IsPlanFor inst.now plan.now }
    requires leg { leg.0 < legs_of inst.now }
    requires plane { plane.0 < planes_of inst.now }
    ensures exact { IfOk result (λ m. m ≡ reroute_move inst.now plan.now leg plane) }
    ensures fits { IfOk result (Fits inst.now) }
{
    let was = plan.read_row(leg);
    let dep = match was {
        Row::Flown { dep, .. } => dep,
        Row::Cancelled => inst.earliest(leg),
    };
    let new = Row::Flown { plane, dep };
    let after = None;
    let steps = vec![in alloc;
        Step::Set { leg, was, new },
        Step::Push { plane, after },
        Step::Tidy,
    ]?;
    Ok(Move { steps: List(steps) })
}

/// Has passengers of a reservation go from a path to another: `count` of them, or all that are on the path
/// where they are fewer. The move fits where the reservation is there, both paths have at most 8 legs of the
/// day and the count is 1 to 1,000. The only error is out of memory.
pub fn rebook(alloc: Global, res: Res, path: &Path, to: &Path, count: u32) -> Result<Move, NoMem>
    ensures exact { IfOk result (λ m. m ≡ rebook_move res path.now to.now count) }
    ensures fits { IfOk result (λ m. (I : Situation) → res.0 < reservations_of I → IsPathIn (legs_of I) path.now → IsPathIn (legs_of I) to.now → 1 ≤ count → count ≤ 1000 → Fits I m) }
{
    let path = path.copy(alloc)?;
    let to = to.copy(alloc)?;
    let steps = vec![in alloc;
        Step::Rebook {
            res,
            path,
            to,
            count
        },
    ]?;
    Ok(Move { steps: List(steps) })
}
