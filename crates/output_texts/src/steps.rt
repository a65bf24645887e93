//! The texts of steps and moves.

ghost use Rattle.std.specs.Prelude.{◌≡◌, ◌<◌, ◌++◌, OnOk, All, codes, decimal};
ghost use Rattle.std.specs.List.{flat_map};
ghost use Rattle.std.specs.Option.{ForSome};
ghost use Rattle.desk_data.specs.Situation.{legs_of, planes_of, plane_at};
ghost use Rattle.desk_data.specs.Valid.{IsPathOf, IsRowOf};
ghost use Rattle.plan_moves.specs.Fits.{StepFits};
ghost use Rattle.desk_text.specs.Texts.{moment_text};
ghost use Rattle.output_texts.specs.Items.{leg_text, row_text, path_text};
ghost use Rattle.output_texts.specs.Lines.{after_text, step_text, move_text};

use crate::items::{push_leg, push_plane, push_reservation, push_row};
use crate::paths::push_path;
use desk_data::{Instance, Leg, Minute, NoMem, Path, Plane, Row};
use desk_text::{moment_text, push_all, push_number};
use plan_moves::{Move, Step};

/// Adds the steps of a move, joined by one space.
#[tactic(auto, unfolding(crate::specs::Lines::move_text))]
pub(crate) fn push_move(text: &mut Vec<u8>, inst: &Instance, m: &Move) -> Result<(), NoMem>
    requires { All (StepFits inst.now) m.now.steps }
    ensures { OnOk result (text.new.items ≡ text.old.items ++ move_text inst.now m.now) }
{
    match m.steps.as_slice() {
        [] => Ok(()),
        [first, rest @ ..] => {
            push_step(text, inst, first)?;
            push_more_steps(text, inst, rest)
        }
    }
}

/// Adds steps, each after a space.
fn push_more_steps(text: &mut Vec<u8>, inst: &Instance, steps: &[Step]) -> Result<(), NoMem>
    requires { All (StepFits inst.now) steps.now }
    ensures { OnOk result (
        text.new.items ≡ text.old.items
        ++ flat_map (λ step. codes " " ++ step_text inst.now step) steps.now) }
{
    for step in steps {
        push_all(text, &[b" "])?;
        push_step(text, inst, step)?;
    }
    Ok(())
}

/// Adds a step.
#[tactic(auto, unfolding(crate::specs::Lines::step_text))]
fn push_step(text: &mut Vec<u8>, inst: &Instance, step: &Step) -> Result<(), NoMem>
    requires { StepFits inst.now step.now }
    ensures { OnOk result (text.new.items ≡ text.old.items ++ step_text inst.now step.now) }
{
    match step {
        Step::Set { leg, was, new } => push_set(text, inst, *leg, *was, *new),
        Step::Push { plane, after } => {
            push_plane(text, b"push ", inst, *plane)?;
            push_after(text, inst, *after)
        }
        Step::Swap { first, second, at } => push_swap(text, inst, *first, *second, *at),
        Step::Rebook {
            res,
            path,
            to,
            count,
        } => {
            push_reservation(text, b"rebook ", inst, *res)?;
            push_count(text, *count)?;
            push_paths(text, inst, path, to)
        }
        Step::Tidy => push_all(text, &[b"tidy"]),
        Step::Refill { leg } => push_leg(text, b"refill ", inst, *leg),
    }
}

/// Adds a step that sets the row of a leg.
fn push_set(text: &mut Vec<u8>, inst: &Instance, leg: Leg, was: Row, new: Row) -> Result<(), NoMem>
    requires leg { leg.0 < legs_of inst.now }
    requires was { IsRowOf (planes_of inst.now) was }
    requires new { IsRowOf (planes_of inst.now) new }
    ensures { OnOk result (
        text.new.items ≡ text.old.items
        ++ (codes "set " ++ leg_text inst.now leg.0 ++ codes " " ++ row_text inst.now was ++ codes " "
        ++ row_text inst.now new)) }
{
    push_leg(text, b"set ", inst, leg)?;
    push_all(text, &[b" "])?;
    push_row(text, inst, was)?;
    push_all(text, &[b" "])?;
    push_row(text, inst, new)
}

/// Adds a space and which legs are pushed.
fn push_after(text: &mut Vec<u8>, inst: &Instance, after: Option<Leg>) -> Result<(), NoMem>
    requires { ForSome after (λ leg. leg.0 < legs_of inst.now) }
    ensures { OnOk result (text.new.items ≡ text.old.items ++ (codes " " ++ after_text inst.now after)) }
{
    match after {
        Some(leg) => push_leg(text, b" after ", inst, leg),
        None => push_all(text, &[b" all"]),
    }
}

/// Adds a step that swaps the legs of two aircraft.
fn push_swap(
    text: &mut Vec<u8>,
    inst: &Instance,
    first: Plane,
    second: Plane,
    at: Minute,
) -> Result<(), NoMem>
    requires first { first.0 < planes_of inst.now }
    requires second { second.0 < planes_of inst.now }
    requires at { at.0 < 52500000 }
    ensures { OnOk result (
        text.new.items ≡ text.old.items
        ++ (codes "swap " ++ (plane_at inst.now first.0).name ++ codes " "
        ++ (plane_at inst.now second.0).name ++ codes " " ++ moment_text at.0)) }
{
    let first = inst.plane(first).name.as_slice();
    let second = inst.plane(second).name.as_slice();
    let at = moment_text(at);
    push_all(text, &[b"swap ", first, b" ", second, b" ", &at])
}

/// Adds a count between two spaces.
fn push_count(text: &mut Vec<u8>, count: u32) -> Result<(), NoMem>
    ensures { OnOk result (text.new.items ≡ text.old.items ++ (codes " " ++ decimal count ++ codes " ")) }
{
    push_all(text, &[b" "])?;
    push_number(text, u128::from(count))?;
    push_all(text, &[b" "])
}

/// Adds two paths, a space between them.
fn push_paths(text: &mut Vec<u8>, inst: &Instance, path: &Path, to: &Path) -> Result<(), NoMem>
    requires path { IsPathOf (legs_of inst.now) path.now }
    requires to { IsPathOf (legs_of inst.now) to.now }
    ensures { OnOk result (
        text.new.items ≡ text.old.items
        ++ (path_text inst.now path.now ++ codes " " ++ path_text inst.now to.now)) }
{
    push_path(text, inst, path)?;
    push_all(text, &[b" "])?;
    push_path(text, inst, to)
}
