//! Setting the byte behind the records of a file that is opened.
ghost use Rattle.std.specs.Prelude.{◌≡◌, ℕ, ◌<◌, ◌≤◌, ◌⊎◌, [], ◌∷◌, Some, IfSome, None, OnOk, length, slice_index};
ghost use Rattle.std.specs.Bool.{OnTrue, OnFalse};
ghost use Rattle.desk_disk.specs.FileStates.{HasNothingPending, DiskSide, put_at};
ghost use Rattle.desk_disk.specs.Calls.{Counts};
ghost use Rattle.desk_disk.specs.Crashes.{IsTorn, RunsTo};
ghost use Rattle.desk_disk.specs.Files.{LacksEndMark};

use crate::{Disk, DiskFault, write_through};
use std::alloc::Global;

// Whether a byte 0 stands at a place.
fn has_end_mark(bytes: &[u8], place: usize) -> bool
    ensures ends { OnTrue result ((place < length bytes.now) × (slice_index bytes.now place ≡ 0)) }
    ensures lacks { OnFalse result (LacksEndMark place bytes.now) }
{
    place < bytes.len() && bytes[place] == 0
}

/// Sets the byte at a place to 0 unless it is 0, on a disk with these bytes.
pub(crate) fn set_end_mark<D: Disk>(
    alloc: Global,
    disk: &mut D,
    bytes: &[u8],
    place: u64,
) -> Result<(), DiskFault>
    requires within { place ≤ length bytes.now }
    requires bytes { IfSome (D.shown disk.old) (λ was. was.file.bytes ≡ bytes.now) }
    ensures ok { OnOk result ((was : DiskSide) → D.shown disk.old ≡ Some was → HasNothingPending was.file →
        (now : DiskSide) × (D.shown disk.new ≡ Some now) × (now.file.bytes ≡ put_at place (0 ∷ []) bytes.now) × HasNothingPending now.file) }
    ensures any_moment { (was : DiskSide) → D.shown disk.old ≡ Some was → HasNothingPending was.file →
        RunsTo was (D.shown disk.new) (λ c. (c ≡ bytes.now) ⊎ (LacksEndMark place bytes.now × IsTorn place 1 bytes.now c)) }
    ensures unshown { D.shown disk.old ≡ None → D.shown disk.new ≡ None }
    ensures directory { D.directory disk.new ≡ D.directory disk.old }
    ensures counts { Counts (D.faults disk.old) (D.faults disk.new) result }
{
    if has_end_mark(bytes, place as usize) {
        return Ok(());
    }
    write_through(alloc, disk, place, &[0])
}
