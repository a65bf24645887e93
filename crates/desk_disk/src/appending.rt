//! Adding a record.
ghost use Rattle.std.specs.Prelude.{◌≡◌, ℕ, ◌+◌, ◌^◌, ◌<◌, ◌≤◌, ◌++◌, ◌∷◌, [], List, None, Some, IfOk, IsErrOf, OnOk, length};
ghost use Rattle.desk_folder.specs.Calls.{Rose};
ghost use Rattle.desk_disk.specs.FileStates.{DiskSide};
ghost use Rattle.desk_disk.specs.Crashes.{RunsTo};
ghost use Rattle.desk_disk.specs.Records.{framed};
ghost use Rattle.desk_disk.specs.Files.{IsAtRest, IsReady, IsWithOrWithout, MakesCalls, added_at};

use crate::record_faults::AppendFault;
use crate::{Disk, write_through};
use std::alloc::{AllocError, Global};
use std::marker::Model;

/// The last place that a record may end at.
pub(crate) const MAX_PLACE: u64 = 1 << 62;

/// The place of the byte 0 behind the last record of a file. A call that may write spends it.
#[derive(Drop)]
pub struct Tail {
    pub(crate) place: u64,
}

impl Model for Tail {
    ghost use Rattle.std.specs.Prelude.{ℕ, ◌^◌, ◌≤◌};

    ghost Value = { ℕ };

    ghost view = { λ t. t.place };

    ghost invariant = { λ t. t.place ≤ 2 ^ 62 };
}

// A payload with its length before it and a byte 0 behind it.
fn staged(alloc: Global, payload: &[u8]) -> Result<Vec<u8>, AllocError>
    requires { length payload.now < 2 ^ 32 }
    ensures { IfOk result (λ bytes. bytes.items ≡ framed payload.now ++ (0 ∷ [])) }
{
    let mut bytes = Vec::new(alloc);
    bytes.extend_from_slice(&(payload.len() as u32).to_be_bytes())?;
    bytes.extend_from_slice(payload)?;
    bytes.push(0)?;
    Ok(bytes)
}

/// Adds a record. It writes its length, its payload and a new end mark behind the end mark that stands, and
/// once all that is on the disk it makes a 1 of the old one, by a write of its own. After an error only a
/// new run opens the file again.
pub fn append<D: Disk>(
    alloc: Global,
    disk: &mut D,
    tail: Tail,
    payload: &[u8],
) -> Result<Tail, AppendFault>
    requires short { length payload.now < 2 ^ 32 }
    requires ready { IsReady (D.shown disk.old) tail }

    // Once it has answered Ok each crash leaves a file with the record, nothing is pending, and no byte is another but those of the
    // record and the one behind it.
    ensures acknowledged { IfOk result (λ next. (was : DiskSide) → D.shown disk.old ≡ Some was → (payloads : List (List ℕ)) → IsAtRest payloads tail was.file →
        (now : DiskSide) × (D.shown disk.new ≡ Some now) × IsAtRest (payloads ++ payload.now ∷ []) next now.file × (now.file.bytes ≡ added_at tail payload.now was.file.bytes)) }

    ensures ready { IfOk result (λ next. IsReady (D.shown disk.new) next) }

    // No call is made a second time: two writes, each with a sync.
    ensures calls { OnOk result (MakesCalls (D.shown disk.old) (D.shown disk.new) 4) }

    // A crash at any moment of the call leaves the records from before it, with the new one or without.
    ensures any_moment { (was : DiskSide) → D.shown disk.old ≡ Some was → (payloads : List (List ℕ)) → IsAtRest payloads tail was.file →
        RunsTo was (D.shown disk.new) (IsWithOrWithout payloads payload.now) }

    // A fault has its cause.
    ensures failed { IsErrOf result AppendFault.Disk → Rose (D.faults disk.old) (D.faults disk.new) }
    ensures kept { D.faults disk.old ≤ D.faults disk.new }
    ensures unshown { D.shown disk.old ≡ None → D.shown disk.new ≡ None }
    ensures directory { D.directory disk.new ≡ D.directory disk.old }
{
    let mark = tail.place;
    let place = mark + 5 + payload.len() as u64;
    if place > MAX_PLACE {
        return Err(AppendFault::Memory);
    }
    let behind = staged(alloc, payload)?;
    write_through(alloc, disk, mark + 1, &behind)?;
    write_through(alloc, disk, mark, &[1])?;
    Ok(Tail { place })
}
