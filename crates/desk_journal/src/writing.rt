//! Spelling a move, or a batch by its number.
ghost use Rattle.std.specs.Prelude.{◌≡◌, ◌<◌, ◌++◌, ◌∷◌, length, OnOk, IfOk, All};
ghost use Rattle.desk_journal.specs.declared.payload.StoredEvent.TheVariants as event;
ghost use Rattle.desk_journal.specs.Spelling.{number_bytes, row_bytes, after_bytes, cabin_byte, pair_bytes, path_bytes, step_bytes, steps_bytes, payload, HasShortPaths};

use desk_data::{Cabin, Leg, NoMem, Path, Row};
use plan_moves::{Move, Step};
use std::alloc::Global;

fn put_number(out: &mut Vec<u8>, number: u32) -> Result<(), NoMem>
    ensures { OnOk result (out.new.items ≡ out.old.items ++ number_bytes number) }
{
    out.extend_from_slice(&number.to_be_bytes())?;
    Ok(())
}

fn put_two(out: &mut Vec<u8>, first: u32, second: u32) -> Result<(), NoMem>
    ensures { OnOk result (out.new.items ≡ out.old.items ++ (number_bytes first ++ number_bytes second)) }
{
    put_number(out, first)?;
    put_number(out, second)
}

fn put_row(out: &mut Vec<u8>, row: &Row) -> Result<(), NoMem>
    ensures { OnOk result (out.new.items ≡ out.old.items ++ row_bytes row.now) }
{
    match row {
        Row::Cancelled => {
            out.push(0)?;
            Ok(())
        }
        Row::Flown { plane, dep } => {
            out.push(1)?;
            put_two(out, plane.0, dep.0)
        }
    }
}

fn put_after(out: &mut Vec<u8>, after: &Option<Leg>) -> Result<(), NoMem>
    ensures { OnOk result (out.new.items ≡ out.old.items ++ after_bytes after.now) }
{
    match after {
        None => {
            out.push(0)?;
            Ok(())
        }
        Some(leg) => {
            out.push(1)?;
            put_number(out, leg.0)
        }
    }
}

fn byte_of(cabin: Cabin) -> u8
    ensures { result ≡ cabin_byte cabin }
{
    match cabin {
        Cabin::F => 0,
        Cabin::B => 1,
        Cabin::E => 2,
    }
}

fn put_pair(out: &mut Vec<u8>, pair: &(Leg, Cabin)) -> Result<(), NoMem>
    ensures { OnOk result (out.new.items ≡ out.old.items ++ pair_bytes pair.now) }
{
    put_number(out, pair.0.0)?;
    out.push(byte_of(pair.1))?;
    Ok(())
}

fn put_path(out: &mut Vec<u8>, path: &Path) -> Result<(), NoMem>
    requires { length path.now < 256 }
    ensures { OnOk result (out.new.items ≡ out.old.items ++ path_bytes path.now) }
{
    let pairs = path.as_slice();
    out.push(pairs.len() as u8)?;
    for pair in pairs {
        put_pair(out, pair)?;
    }
    Ok(())
}

fn put_step(out: &mut Vec<u8>, step: &Step) -> Result<(), NoMem>
    requires { HasShortPaths step.now }
    ensures { OnOk result (out.new.items ≡ out.old.items ++ step_bytes step.now) }
{
    match step {
        Step::Set { leg, was, new } => {
            out.push(0)?;
            put_number(out, leg.0)?;
            put_row(out, was)?;
            put_row(out, new)
        }
        Step::Push { plane, after } => {
            out.push(1)?;
            put_number(out, plane.0)?;
            put_after(out, after)
        }
        Step::Swap { first, second, at } => {
            out.push(2)?;
            put_number(out, first.0)?;
            put_two(out, second.0, at.0)
        }
        Step::Rebook {
            res,
            path,
            to,
            count,
        } => {
            out.push(3)?;
            put_number(out, res.0)?;
            put_number(out, *count)?;
            put_path(out, path)?;
            put_path(out, to)
        }
        Step::Tidy => {
            out.push(4)?;
            Ok(())
        }
        Step::Refill { leg } => {
            out.push(5)?;
            put_number(out, leg.0)
        }
    }
}

/// The payload of a caller's move: one that fits has at most 16 steps, with paths of at most 8 pairs. The
/// only error is that there is no memory left.
pub fn move_payload(alloc: Global, caller: u32, m: &Move) -> Result<Vec<u8>, NoMem>
    requires few { length m.now.steps < 256 }
    requires short { All HasShortPaths m.now.steps }
    ensures { IfOk result (λ bytes. bytes.items ≡ payload (event.Move caller m.now)) }
{
    let mut out = Vec::new(alloc);
    put_number(&mut out, caller)?;
    out.push(1)?;
    let steps = m.steps.as_slice();
    out.push(steps.len() as u8)?;
    for step in steps {
        put_step(&mut out, step)?;
    }
    Ok(out)
}

/// The payload of a caller's batch, by its number among those of the day, from 0 on. The only error is that
/// there is no memory left.
pub fn batch_payload(alloc: Global, caller: u32, number: u32) -> Result<Vec<u8>, NoMem>
    ensures { IfOk result (λ bytes. bytes.items ≡ payload (event.Batch caller number)) }
{
    let mut out = Vec::new(alloc);
    put_number(&mut out, caller)?;
    out.push(0)?;
    put_number(&mut out, number)?;
    Ok(out)
}
