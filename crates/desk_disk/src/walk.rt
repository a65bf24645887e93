//! The records of a file that is read.
ghost use Rattle.std.specs.Prelude.{◌≡◌, ℕ, ◌+◌, ◌^◌, ◌<◌, ◌≤◌, ◌++◌, [], ◌∷◌, List, length, IfOk, IfErr, IfSome, IfNone, OnOk};
ghost use Rattle.desk_disk.specs.Records.{framed, AreAccepted, Opens};
ghost use Rattle.desk_disk.specs.Files.{RefusedBy};

use crate::reader::PayloadReader;
use crate::record_faults::OpenFault;
use std::alloc::Global;

/// The payload that its length stands before at the front, and what stands behind it, at least a byte; `None`
/// where there is none such.
pub(crate) fn first_payload(bytes: &[u8]) -> Option<(&[u8], &[u8])>
    ensures parts { IfSome result (λ r. bytes.now ≡ framed r.0.now ++ r.1.now) }
    ensures short { IfSome result (λ r. length r.0.now < 2 ^ 32) }
    ensures behind { IfSome result (λ r. 0 < length r.1.now) }
    ensures none { IfNone result ((payload more : List ℕ) → bytes.now ≡ framed payload ++ more → length payload < 2 ^ 32 → 0 < length more → ⊥) }
{
    if bytes.len() < 4 {
        return None;
    }
    let (front, rest) = bytes.split_at(4);
    let size = u32::from_be_bytes([front[0], front[1], front[2], front[3]]) as usize;
    if rest.len() <= size {
        return None;
    }
    Some(rest.split_at(size))
}

// What stands behind a byte 1.
fn behind_one(bytes: &[u8]) -> Option<&[u8]>
    ensures some { IfSome result (λ after. bytes.now ≡ 1 ∷ after.now) }
    ensures none { IfNone result ((after : List ℕ) → bytes.now ≡ 1 ∷ after → ⊥) }
{
    match bytes {
        [1, after @ ..] => Some(after),
        _ => None,
    }
}

/// Has a reader take the records of a file, and answers the place behind them.
pub(crate) fn read_records<R: PayloadReader>(
    alloc: Global,
    reader: &mut R,
    bytes: &[u8],
) -> Result<usize, OpenFault>
    requires { R.taken reader.old ≡ [] }
    ensures opened { IfOk result (λ place. Opens (R.taken reader.new) place bytes.now) }
    ensures within { IfOk result (λ place. place ≤ length bytes.now) }
    ensures accepted { OnOk result (AreAccepted (R.accepts (R.rules reader.old)) [] (R.taken reader.new)) }
    ensures rules { R.rules reader.new ≡ R.rules reader.old }
    ensures refused { IfErr result (RefusedBy (R.accepts (R.rules reader.old)) bytes.now) }
    ensures no_disk { IfErr result (λ e. e ≡ OpenFault.Disk → ⊥) }
{
    let mut place = 0;
    if bytes.len() <= 1 {
        return Ok(place);
    }
    let mut rest = bytes;
    'records: while let Some(after) = behind_one(rest) {
        let at = place as u64;
        let Some((payload, behind)) = first_payload(after) else {
            return Err(OpenFault::Damaged { at });
        };
        if !reader.take(alloc, payload)? {
            return Err(OpenFault::Damaged { at });
        }
        place += 5 + payload.len();
        rest = behind;
    }
    Ok(place)
}
