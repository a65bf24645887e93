//! The steps of a move, with numbers for names.

ghost use Rattle.std.specs.Prelude.{◌≡◌};
ghost use Rattle.std.specs.List.{list_all};
ghost use Rattle.desk_text.specs.Rows.{GivesRow};
ghost use Rattle.file_joins.specs.Join.{set_of, push_of, swap_of, rebook_of, refill_of, step_of, all_of, row_is_in_time, step_is_in_time, is_move, move_of, joined_move};

use crate::DayNames;
use crate::names::{after_of, leg_of, path_of, plane_of, res_of, row_of};
use desk_data::Row;
use desk_journal::{NamedLeg, NamedPath, NamedRes, NamedRow, NamedStep};
use desk_model::Event;
use desk_text::RowFault;
use desk_units::{List, Minute, Name};
use file_rows::{Cause, END_OF_TIME};
use plan_moves::{Move, Step};
use std::alloc::Global;

#[tactic(auto, unfolding(crate::specs::Join::set_of))]
fn set_of(
    names: &DayNames<'_>,
    leg: &NamedLeg,
    was: &NamedRow,
    new: &NamedRow,
) -> Result<Step, Cause>
    ensures { result ≡ set_of names.now leg.now was.now new.now }
{
    let leg = leg_of(names, leg)?;
    let was = row_of(names, was)?;
    let new = row_of(names, new)?;
    Ok(Step::Set { leg, was, new })
}

#[tactic(auto, unfolding(crate::specs::Join::push_of))]
fn push_of(names: &DayNames<'_>, plane: &Name, after: &Option<NamedLeg>) -> Result<Step, Cause>
    ensures { result ≡ push_of names.now plane.now after.now }
{
    let plane = plane_of(names, plane)?;
    let after = after_of(names, after)?;
    Ok(Step::Push { plane, after })
}

#[tactic(auto, unfolding(crate::specs::Join::swap_of))]
fn swap_of(names: &DayNames<'_>, first: &Name, second: &Name, at: Minute) -> Result<Step, Cause>
    ensures { result ≡ swap_of names.now first.now second.now at }
{
    let first = plane_of(names, first)?;
    let second = plane_of(names, second)?;
    Ok(Step::Swap { first, second, at })
}

#[tactic(auto, unfolding(crate::specs::Join::rebook_of))]
fn rebook_of(
    alloc: Global,
    names: &DayNames<'_>,
    res: &NamedRes,
    path: &NamedPath,
    to: &NamedPath,
    count: u32,
) -> Result<Step, RowFault>
    ensures { GivesRow result (rebook_of names.now res.now path.now to.now count) }
{
    let res = res_of(names, res)?;
    let path = path_of(alloc, names, path)?;
    let to = path_of(alloc, names, to)?;
    Ok(Step::Rebook {
        res,
        path,
        to,
        count,
    })
}

#[tactic(auto, unfolding(crate::specs::Join::refill_of))]
fn refill_of(names: &DayNames<'_>, leg: &NamedLeg) -> Result<Step, Cause>
    ensures { result ≡ refill_of names.now leg.now }
{
    let leg = leg_of(names, leg)?;
    Ok(Step::Refill { leg })
}

/// A step, where all that it names is there.
fn step_of(alloc: Global, names: &DayNames<'_>, step: &NamedStep) -> Result<Step, RowFault>
    ensures { GivesRow result (step_of names.now step.now) }
{
    match step {
        NamedStep::Set { leg, was, new } => Ok(set_of(names, leg, was, new)?),
        NamedStep::Push { plane, after } => Ok(push_of(names, plane, after)?),
        NamedStep::Swap { first, second, at } => Ok(swap_of(names, first, second, *at)?),
        NamedStep::Rebook {
            res,
            path,
            to,
            count,
        } => rebook_of(alloc, names, res, path, to, *count),
        NamedStep::Tidy => Ok(Step::Tidy),
        NamedStep::Refill { leg } => Ok(refill_of(names, leg)?),
    }
}

/// Steps, where all that they name is there.
fn steps_of(
    alloc: Global,
    names: &DayNames<'_>,
    named: &[NamedStep],
) -> Result<List<Step>, RowFault>
    ensures { GivesRow result (all_of (step_of names.now) named.now) }
{
    let mut steps = Vec::with_capacity(alloc, named.len())?;
    for step in named {
        steps.push(step_of(alloc, names, step)?)?;
    }
    Ok(List(steps))
}

fn row_is_in_time(row: &Row) -> bool
    ensures { result ≡ row_is_in_time row.now }
{
    match row {
        Row::Flown { plane: _, dep } => dep.0 < END_OF_TIME,
        Row::Cancelled => true,
    }
}

/// Whether the departures that a step names, and the moment from which it swaps, are before minute
/// 52,500,000.
fn step_is_in_time(step: &Step) -> bool
    ensures { result ≡ step_is_in_time step.now }
{
    match step {
        Step::Set { leg: _, was, new } => row_is_in_time(was) && row_is_in_time(new),
        Step::Swap {
            first: _,
            second: _,
            at,
        } => at.0 < END_OF_TIME,
        _ => true,
    }
}

fn are_in_time(steps: &[Step]) -> bool
    ensures { result ≡ list_all step_is_in_time steps.now }
{
    steps.iter().all(|step| step_is_in_time(step))
}

/// Whether these are 1 to 16 steps, each of them in time.
fn is_move(steps: &[Step]) -> bool
    ensures { result ≡ is_move steps.now }
{
    (1 <= steps.len() && steps.len() <= 16) && are_in_time(steps)
}

/// The move of these steps.
#[tactic(auto, unfolding(crate::specs::Join::move_of))]
fn move_of(steps: List<Step>) -> Result<Event, Cause>
    ensures { result ≡ move_of steps }
{
    if is_move(steps.as_slice()) {
        Ok(Event::Move(Move { steps }))
    } else {
        Err(Cause::Move)
    }
}

/// The move of named steps: first all that they name is found, and then they are a move.
#[tactic(auto, unfolding(crate::specs::Join::joined_move))]
pub(crate) fn joined_move(
    alloc: Global,
    names: &DayNames<'_>,
    named: &[NamedStep],
) -> Result<Event, RowFault>
    ensures { GivesRow result (joined_move names.now named.now) }
{
    let steps = steps_of(alloc, names, named)?;
    Ok(move_of(steps)?)
}
