//! What calls did to a file in memory, one behind another.
ghost use Rattle.std.specs.Prelude.{◌≡◌, ◌≤◌, ◌++◌, ◌∷◌, [], ◌+◌, ◌^◌, ◌-◌, ◌==◌, length, IsSome, OnOk, OnErr, min};
ghost use Rattle.std.specs.List.{list_any};
ghost use Rattle.desk_disk.specs.FileStates.{FileState, changed, put_at, written as written_at};
ghost use Rattle.desk_disk.specs.Memory.{after_change, side_after, standing, state_after};

use std::alloc::{AllocError, Global};

/// What a call did to the file: nothing, it wrote over a range of so many bytes at a place, of which these
/// stand, or it synced.
#[derive(Drop)]
pub enum Change {
    Nothing,
    Written { at: u64, room: u64, bytes: Vec<u8> },
    Synced,
}

// Writes over bytes that stand, as many as there are.
fn copy_over(bytes: &mut [u8], at: usize, new: &[u8])
    requires { at + length new.now ≤ length bytes.old }
    ensures { bytes.new ≡ put_at at new.now bytes.old }
{
    let (_, rest) = bytes.split_at_mut(at);
    let (here, _) = rest.split_at_mut(new.len());
    here.copy_from_slice(new);
}

// Writes over what stands from a place on and past the end, and notes it as a write of `room` bytes. An
// error changes nothing.
#[tactic(auto, using(crate::proofs::ChangeLaws::put_in_parts, crate::proofs::ChangeLaws::side_pushed))]
fn write_over(
    alloc: Global,
    bytes: &mut Vec<u8>,
    changes: &mut Vec<Change>,
    at: u64,
    room: usize,
    new: &[u8],
) -> Result<(), AllocError>
    requires { at ≤ length bytes.old.items }
    ensures bytes { OnOk result (bytes.new.items ≡ put_at at new.now bytes.old.items) }
    ensures changes { OnOk result ((h : FileState) → side_after h changes.new.items ≡ written_at at room new.now (side_after h changes.old.items)) }
    ensures err_bytes { OnErr result (bytes.new.items ≡ bytes.old.items) }
    ensures err_changes { OnErr result (changes.new.items ≡ changes.old.items) }
{
    let size = bytes.len();
    let change = Change::Written {
        at,
        room: room as u64,
        bytes: Vec::from_slice(alloc, new)?,
    };
    let (over, past) = new.split_at(new.len().min(size - at as usize));
    bytes.extend_from_slice(past)?;
    if let Err(error) = changes.push(change) {
        bytes.truncate(size);
        return Err(AllocError::from(error));
    }
    copy_over(bytes, at as usize, over);
    Ok(())
}

// Copies the bytes of the beginning, where there was no write yet.
fn begin(alloc: Global, begun: &[u8], written: &mut Option<Vec<u8>>) -> Result<(), AllocError>
    ensures same { standing begun.now written.new ≡ standing begun.now written.old }
    ensures some { OnOk result (IsSome written.new) }
{
    if written.is_none() {
        *written = Some(Vec::from_slice(alloc, begun)?);
    }
    Ok(())
}

/// Writes over what stands from a place on and past the end, and notes it as a write of `room` bytes. An
/// error changes nothing.
pub(crate) fn write(
    alloc: Global,
    begun: &[u8],
    written: &mut Option<Vec<u8>>,
    changes: &mut Vec<Change>,
    at: u64,
    room: usize,
    new: &[u8],
) -> Result<(), AllocError>
    requires { at ≤ length (standing begun.now written.old) }
    ensures bytes { OnOk result (standing begun.now written.new ≡ put_at at new.now (standing begun.now written.old)) }
    ensures changes { OnOk result ((h : FileState) → side_after h changes.new.items ≡ written_at at room new.now (side_after h changes.old.items)) }
    ensures err_bytes { OnErr result (standing begun.now written.new ≡ standing begun.now written.old) }
    ensures err_changes { OnErr result (changes.new.items ≡ changes.old.items) }
{
    begin(alloc, begun, written)?;
    match written {
        Some(bytes) => write_over(alloc, bytes, changes, at, room, new),
        None => Err(AllocError),
    }
}

/// Notes a call that changes no byte. An error changes nothing.
#[tactic(auto, using(crate::proofs::ChangeLaws::side_pushed))]
pub(crate) fn note(changes: &mut Vec<Change>, change: Change) -> Result<(), AllocError>
    ensures noted { OnOk result ((h : FileState) → side_after h changes.new.items ≡ changed (after_change (state_after h changes.old.items) change) (side_after h changes.old.items)) }
    ensures err { OnErr result (changes.new.items ≡ changes.old.items) }
{
    changes.push(change)?;
    Ok(())
}

/// Counts a call, and answers whether it is one of those that fail.
pub(crate) fn is_to_fail(calls: &mut u64, fail: &[u64]) -> bool
    ensures calls { calls.new ≡ min (calls.old + 1) (2 ^ 64 - 1) }
    ensures fails { result ≡ list_any (λ n. n == calls.new) fail.now }
{
    *calls = calls.saturating_add(1);
    fail.contains(calls)
}
