//! Opening a file that a crash may have left.
ghost use Rattle.std.specs.Prelude.{◌≡◌, ℕ, ◌≤◌, [], List, Option, None, IfOk, IfErr, IfSome, OnOk, IsErrOf, length};
ghost use Rattle.desk_folder.specs.Calls.{Rose};
ghost use Rattle.desk_disk.specs.FileStates.{HasNothingPending, DiskSide};
ghost use Rattle.desk_disk.specs.Crashes.{RunsTo};
ghost use Rattle.desk_disk.specs.Records.{AreAccepted, Opens};
ghost use Rattle.desk_disk.specs.Files.{IsAtRest, IsOpening, IsReady, IsWhole, LeftBy, RefusedBy, opened_at};

use crate::appending::{MAX_PLACE, Tail};
use crate::end_mark::set_end_mark;
use crate::reader::PayloadReader;
use crate::record_faults::OpenFault;
use crate::walk::read_records;
use crate::{Disk, read_whole};
use std::alloc::Global;

/// Has a reader take the records of the file, and sets the byte behind them to 0 where it isn't 0. It may
/// crash too, at any moment. After `Disk` or `Memory` only a new run opens the file again:
/// something may be pending.
///
/// `Damaged` comes exactly where a record that begins with 1 doesn't end before the file does or may not
/// stand there, at the first such place, unless the disk fails or memory runs out. The disk was only read then.
pub fn open<D: Disk, R: PayloadReader>(
    alloc: Global,
    disk: &mut D,
    reader: &mut R,
) -> Result<Tail, OpenFault>
    requires fresh { R.taken reader.old ≡ [] }
    requires nothing_pending { IfSome (D.shown disk.old) (λ was. HasNothingPending was.file) }

    // The reader has taken the payloads of all records, and each may stand behind those before it.
    ensures opened { IfOk result (λ tail. (was : DiskSide) → D.shown disk.old ≡ Some was → Opens (R.taken reader.new) tail was.file.bytes) }
    ensures accepted { OnOk result (AreAccepted (R.accepts (R.rules reader.old)) [] (R.taken reader.new)) }
    ensures rules { R.rules reader.new ≡ R.rules reader.old }

    // Then a byte 0 stands behind them, all else is as before, and nothing is pending.
    ensures at_rest { IfOk result (λ tail. (was : DiskSide) → D.shown disk.old ≡ Some was →
        (now : DiskSide) × (D.shown disk.new ≡ Some now) × IsAtRest (R.taken reader.new) tail now.file × (now.file.bytes ≡ opened_at tail was.file.bytes)) }

    ensures ready { IfOk result (λ tail. IsReady (D.shown disk.new) tail) }

    // A crash at any moment of the call leaves the file as it was, or with another byte behind its records.
    ensures any_moment { (was : DiskSide) → D.shown disk.old ≡ Some was → RunsTo was (D.shown disk.new) (IsOpening was.file.bytes) }

    // So it leaves a whole file whole, with the same payloads, and the same one that is not acknowledged.
    ensures whole { (was : DiskSide) → D.shown disk.old ≡ Some was → (payloads : List (List ℕ)) → (next : Option (List ℕ)) →
        IsWhole payloads next was.file.bytes → RunsTo was (D.shown disk.new) (IsWhole payloads next) }

    // Each fault has its cause, and a damaged file was only read.
    ensures damaged { (was : DiskSide) → D.shown disk.old ≡ Some was → IfErr result (RefusedBy (R.accepts (R.rules reader.old)) was.file.bytes) }
    ensures untouched { (was : DiskSide) → D.shown disk.old ≡ Some was → IfErr result (LeftBy was (D.shown disk.new)) }
    ensures failed { IsErrOf result OpenFault.Disk → Rose (D.faults disk.old) (D.faults disk.new) }
    ensures kept { D.faults disk.old ≤ D.faults disk.new }
    ensures unshown { D.shown disk.old ≡ None → D.shown disk.new ≡ None }
    ensures directory { D.directory disk.new ≡ D.directory disk.old }
{
    let bytes = read_whole(alloc, disk)?;
    let place = read_records(alloc, reader, &bytes)? as u64;
    if place > MAX_PLACE {
        return Err(OpenFault::Memory);
    }
    set_end_mark(alloc, disk, &bytes, place)?;
    Ok(Tail { place })
}
