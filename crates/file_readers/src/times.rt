//! Times at which something ends.

ghost use Rattle.std.specs.Prelude.{◌≡◌, ◌≤◌, IfOk};
ghost use Rattle.file_readers.specs.Times.{end_of};

use desk_text::{Cause, minute};

/// The minute of the day of a time at which something ends, at most 1,440: `24:00` is the end of
/// the day. Else `Time`.
pub(crate) fn end(field: &[u8]) -> Result<u32, Cause>
    ensures exact { result ≡ end_of field.now }
    ensures small { IfOk result (λ minute. minute ≤ 1440) }
{
    if field == b"24:00".as_slice() {
        Ok(1_440)
    } else {
        minute(field)
    }
}
