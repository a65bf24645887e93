//! Adding an entry.
ghost use Rattle.std.specs.Prelude.{◌≡◌, ℕ, ◌<◌, ◌≤◌, ◌++◌, ◌∷◌, [], List, None, Some, IfOk, IsErrOf, OnOk, ◌^◌, length};
ghost use Rattle.desk_folder.specs.Calls.{Rose};
ghost use Rattle.desk_data.specs.Situation.{Situation};
ghost use Rattle.desk_model.specs.Histories.{IsAskable};
ghost use Rattle.desk_disk.specs.FileStates.{DiskSide};
ghost use Rattle.desk_disk.specs.Crashes.{RunsTo};
ghost use Rattle.desk_disk.specs.Files.{IsAtRest, IsReady, IsWithOrWithout, MakesCalls, added_at};
ghost use Rattle.desk_journal.specs.Payloads.{payload_by};

use crate::{batch_payload, move_payload};
use desk_data::NoMem;
use desk_disk::{AppendFault, Disk, Tail};
use desk_model::{Entry, Event};
use std::alloc::Global;

/// The payload of a caller's event: of a batch with its number among those of the day, from 0 on, and of a
/// move with any number. The only error is that there is no memory left.
pub fn event_payload(
    alloc: Global,
    caller: u32,
    event: &Event,
    number: u32,
) -> Result<Vec<u8>, NoMem>
    requires askable { (I : Situation) × IsAskable I event.now }
    ensures { IfOk result (λ bytes. bytes.items ≡ payload_by number caller event.now) }
{
    match event {
        Event::Batch(_) => batch_payload(alloc, caller, number),
        Event::Move(m) => move_payload(alloc, caller, m),
    }
}

/// Adds an entry, of a batch with its number among those of the day, from 0 on, and of a move with any
/// number. It takes two writes, each with a sync, and no walk over the file. `Disk` comes only where the disk
/// failed; after an error only a new run opens the file again.
pub fn append<D: Disk>(
    alloc: Global,
    disk: &mut D,
    tail: Tail,
    entry: &Entry,
    number: u32,
) -> Result<Tail, AppendFault>
    requires ready { IsReady (D.shown disk.old) tail }
    requires askable { (I : Situation) × IsAskable I entry.now.event }

    // Once it has answered Ok each crash leaves a file with the entry, nothing is pending, and no byte is another but those of the
    // record and the one behind it.
    ensures acknowledged { IfOk result (λ next. (was : DiskSide) → D.shown disk.old ≡ Some was → (payloads : List (List ℕ)) → IsAtRest payloads tail was.file →
        (now : DiskSide) × (D.shown disk.new ≡ Some now) × IsAtRest (payloads ++ payload_by number entry.now.caller entry.now.event ∷ []) next now.file
        × (now.file.bytes ≡ added_at tail (payload_by number entry.now.caller entry.now.event) was.file.bytes)) }
    ensures ready { IfOk result (λ next. IsReady (D.shown disk.new) next) }

    // No call is made a second time: two writes, each with a sync.
    ensures calls { OnOk result (MakesCalls (D.shown disk.old) (D.shown disk.new) 4) }

    // A crash at any moment of the call leaves the entries from before it, with the new one or without.
    ensures any_moment { (was : DiskSide) → D.shown disk.old ≡ Some was → (payloads : List (List ℕ)) → IsAtRest payloads tail was.file →
        RunsTo was (D.shown disk.new) (IsWithOrWithout payloads (payload_by number entry.now.caller entry.now.event)) }

    // A fault has its cause.
    ensures failed { IsErrOf result AppendFault.Disk → Rose (D.faults disk.old) (D.faults disk.new) }
    ensures kept { D.faults disk.old ≤ D.faults disk.new }
    ensures unshown { D.shown disk.old ≡ None → D.shown disk.new ≡ None }
    ensures directory { D.directory disk.new ≡ D.directory disk.old }
{
    let Ok(payload) = event_payload(alloc, entry.caller, &entry.event, number) else {
        return Err(AppendFault::Memory);
    };
    // no payload of a move that fits is nearly as long
    if payload.len() >= 1 << 32 {
        return Err(AppendFault::Memory);
    }
    desk_disk::append(alloc, disk, tail, payload.as_slice())
}
