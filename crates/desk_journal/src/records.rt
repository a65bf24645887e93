//! Opening the file of a journal as a list of payloads.
ghost use Rattle.std.specs.Prelude.{◌≡◌, ℕ, ◌≤◌, [], List, Option, None, Some, IfOk, IfErr, IfSome, IsErrOf};
ghost use Rattle.desk_folder.specs.Calls.{Rose};
ghost use Rattle.desk_disk.specs.FileStates.{DiskSide, HasNothingPending};
ghost use Rattle.desk_disk.specs.Crashes.{RunsTo};
ghost use Rattle.desk_disk.specs.Records.{AreAccepted, Opens};
ghost use Rattle.desk_disk.specs.Files.{IsAtRest, IsOpening, IsReady, IsWhole, LeftBy, RefusedBy, opened_at};
ghost use Rattle.desk_disk.specs.Stored.{lists_of};
ghost use Rattle.desk_journal.specs.Payloads.{MayStand};

use crate::checker::Checker;
use desk_data::{Batch, Instance};
use desk_disk::{Disk, OpenFault, Tail};
use std::alloc::Global;

/// Opens the file of a journal on a disk as the payloads of its records, and the place behind them. Each
/// spells a caller with the next of these batches of the day or with a move that fits. Whether a journal has
/// room for the event makes no difference: a record that finds none is read, and adds no entry to the book
/// that its events are read into. It may crash too, at any moment, and leaves no byte changed but the one
/// behind the records, which it sets to 0.
///
/// `Damaged` comes exactly where, at the first such place, a record that begins with 1 doesn't end before
/// the file does or isn't such a one, unless the disk fails or memory runs out. The disk was only read then.
/// After `Disk` or `Memory` only a new run opens the file again.
pub fn open_records<D: Disk>(
    alloc: Global,
    disk: &mut D,
    inst: &Instance,
    batches: &[Batch],
) -> Result<(Tail, Vec<Vec<u8>>), OpenFault>
    requires nothing_pending { IfSome (D.shown disk.old) (λ was. HasNothingPending was.file) }

    // They are the payloads of all records, and each may stand behind those before it.
    ensures opened { IfOk result (λ r. (was : DiskSide) → D.shown disk.old ≡ Some was → Opens (lists_of r.1.items) r.0 was.file.bytes) }
    ensures accepted { IfOk result (λ r. AreAccepted (MayStand inst.now batches.now) [] (lists_of r.1.items)) }

    // Then a byte 0 stands behind them, all else is as before, and nothing is pending.
    ensures at_rest { IfOk result (λ r. (was : DiskSide) → D.shown disk.old ≡ Some was →
        (now : DiskSide) × (D.shown disk.new ≡ Some now) × IsAtRest (lists_of r.1.items) r.0 now.file × (now.file.bytes ≡ opened_at r.0 was.file.bytes)) }
    ensures ready { IfOk result (λ r. IsReady (D.shown disk.new) r.0) }

    // A crash at any moment of the call leaves the file as it was, or with another byte behind its records.
    ensures any_moment { (was : DiskSide) → D.shown disk.old ≡ Some was → RunsTo was (D.shown disk.new) (IsOpening was.file.bytes) }

    // So it leaves a whole file whole, with the same payloads, and the same one that is not acknowledged.
    ensures whole { (was : DiskSide) → D.shown disk.old ≡ Some was → (payloads : List (List ℕ)) → (next : Option (List ℕ)) →
        IsWhole payloads next was.file.bytes → RunsTo was (D.shown disk.new) (IsWhole payloads next) }

    // Each fault has its cause, and a damaged file was only read.
    ensures damaged { (was : DiskSide) → D.shown disk.old ≡ Some was → IfErr result (RefusedBy (MayStand inst.now batches.now) was.file.bytes) }
    ensures untouched { (was : DiskSide) → D.shown disk.old ≡ Some was → IfErr result (LeftBy was (D.shown disk.new)) }
    ensures failed { IsErrOf result OpenFault.Disk → Rose (D.faults disk.old) (D.faults disk.new) }
    ensures kept { D.faults disk.old ≤ D.faults disk.new }
    ensures unshown { D.shown disk.old ≡ None → D.shown disk.new ≡ None }
    ensures directory { D.directory disk.new ≡ D.directory disk.old }
{
    let mut checker = Checker {
        inst,
        batches,
        due: 0,
        payloads: Vec::new(alloc),
    };
    let tail = desk_disk::open(alloc, disk, &mut checker)?;
    Ok((tail, checker.payloads))
}
