//! The entries that a journal on a disk holds.

ghost use Rattle.std.specs.Prelude.{◌≡◌, IfOk, map};
ghost use Rattle.desk_disk.specs.Stored.{lists_of};
ghost use Rattle.story_commands.specs.Held.{entered};

use crate::room::takes;
use desk_data::NoMem;
use std::alloc::Global;

/// The payloads of the records that have an entry: one for which a journal would have no room has none.
pub(crate) fn entered<'a>(alloc: Global, records: &'a [Vec<u8>]) -> Result<Vec<&'a [u8]>, NoMem>
    ensures { IfOk result (λ held. map (λ p. p.now) held.items ≡ entered (lists_of records.now)) }
{
    let mut held = Vec::new(alloc);
    for record in records {
        let payload = record.as_slice();
        if takes(held.len(), payload) {
            held.push(payload)?;
        }
    }
    Ok(held)
}
