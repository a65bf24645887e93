//! Writing through to the disk, and reading all of a file.
ghost use Rattle.std.specs.Prelude.{◌≡◌, ◌≤◌, None, Some, IfOk, IfSome, OnOk, length, vec_len};
ghost use Rattle.desk_disk.specs.FileStates.{HasNothingPending, DiskSide, after_sync, put_at, synced, written};
ghost use Rattle.desk_disk.specs.Calls.{Counts};
ghost use Rattle.desk_disk.specs.Crashes.{IsTorn, ReadsTo, RunsTo};

use crate::{Disk, DiskFault};
use std::alloc::{AllocError, Global};

/// Writes bytes at a place, and sees to it that they are on the disk.
pub fn write_through<D: Disk>(
    alloc: Global,
    disk: &mut D,
    at: u64,
    bytes: &[u8],
) -> Result<(), DiskFault>
    requires { IfSome (D.shown disk.old) (λ was. at ≤ length was.file.bytes) }
    // At Ok they stand there, and nothing is pending.
    ensures ok { OnOk result ((was : DiskSide) → D.shown disk.old ≡ Some was → D.shown disk.new ≡ Some (synced (written at (length bytes.now) bytes.now was))) }
    // A crash at any moment of the call leaves anything in the range, and the same elsewhere.
    ensures any_moment { (was : DiskSide) → D.shown disk.old ≡ Some was → HasNothingPending was.file → RunsTo was (D.shown disk.new) (IsTorn at (length bytes.now) was.file.bytes) }
    // A disk that shows nothing goes on showing nothing.
    ensures unshown { D.shown disk.old ≡ None → D.shown disk.new ≡ None }
    ensures directory { D.directory disk.new ≡ D.directory disk.old }
    ensures counts { Counts (D.faults disk.old) (D.faults disk.new) result }
{
    disk.write_at(alloc, at, bytes)?;
    disk.sync(alloc)
}

// A buffer of this many bytes.
fn buffer(alloc: Global, size: usize) -> Result<Vec<u8>, AllocError>
    ensures { IfOk result (λ bytes. vec_len bytes ≡ size) }
{
    vec![in alloc; 0u8; size]
}

/// All bytes of the file.
pub fn read_whole<D: Disk>(alloc: Global, disk: &mut D) -> Result<Vec<u8>, DiskFault>
    ensures bytes { IfOk result (λ bytes. (was : DiskSide) → D.shown disk.old ≡ Some was → bytes.items ≡ was.file.bytes) }
    // The file stays, and a crash leaves no more than it might have left before.
    ensures reads { (was : DiskSide) → D.shown disk.old ≡ Some was → ReadsTo was (D.shown disk.new) }
    // A disk that shows nothing goes on showing nothing.
    ensures unshown { D.shown disk.old ≡ None → D.shown disk.new ≡ None }
    ensures directory { D.directory disk.new ≡ D.directory disk.old }
    ensures counts { Counts (D.faults disk.old) (D.faults disk.new) result }
{
    let size = disk.length(alloc)?;
    let mut bytes = buffer(alloc, size as usize)?;
    disk.read_at(alloc, 0, &mut bytes)?;
    Ok(bytes)
}
