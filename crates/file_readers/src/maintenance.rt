//! Maintenance, in one field of an aircraft.

ghost use Rattle.std.specs.Prelude.{◌≡◌, reverse, position, option_map, MatchResult, IfOk, IfSome};
ghost use Rattle.file_readers.specs.Maintenance.{is_dash, cut_at_last_dash, parts_of, maint_row, maint_of};
ghost use Rattle.file_rows.specs.Facts.{IsMaint};

use desk_text::{Cause, moment, name, number};
use file_rows::{DASH, MaintRow};

/// How many bytes come after the last dash.
fn after_last_dash(bytes: &[u8]) -> Option<usize>
    ensures { result ≡ position is_dash (reverse bytes.now) }
{
    bytes.iter().rev().position(|byte| *byte == DASH)
}

/// The bytes before the last dash and those after it, or `None` where there is no dash.
fn cut_at_last_dash(bytes: &[u8]) -> Option<(&[u8], &[u8])>
    ensures { option_map (λ parts. (parts.0.now, parts.1.now)) result ≡ cut_at_last_dash bytes.now }
{
    let after_dash = after_last_dash(bytes)?;
    let end = bytes.len() - after_dash;
    Some((&bytes[..end - 1], &bytes[end..]))
}

/// The parts before the last one, and the last one. One part alone is refused with `Word`.
fn parts(bytes: &[u8]) -> Result<(&[u8], &[u8]), Cause>
    ensures { MatchResult result (λ parts. parts_of bytes.now ≡ Ok (parts.0.now, parts.1.now)) (λ cause. parts_of bytes.now ≡ Err cause) }
{
    cut_at_last_dash(bytes).ok_or(Cause::Word)
}

/// A maintenance `AIRPORT-DATE-TIME-DATE-TIME-MINUTES`. The airport may have dashes of its own.
#[tactic(auto, unfolding(crate::specs::Maintenance::maint_row))]
fn maint_row(field: &[u8]) -> Result<MaintRow, Cause>
    ensures exact { result ≡ maint_row field.now }
    ensures facts { IfOk result IsMaint }
{
    let (rest, minutes) = parts(field)?;
    let (rest, to_time) = parts(rest)?;
    let (rest, to_date) = parts(rest)?;
    let (rest, from_time) = parts(rest)?;
    let (airport, from_date) = parts(rest)?;
    Ok(MaintRow {
        airport: name(airport)?,
        from: moment(from_date, from_time)?,
        to: moment(to_date, to_time)?,
        minutes: number(minutes, 0, 100_000)?,
    })
}

/// A maintenance, or `None` for `NULL`.
#[tactic(auto, unfolding(crate::specs::Maintenance::maint_of))]
pub(crate) fn maint(field: &[u8]) -> Result<Option<MaintRow>, Cause>
    ensures exact { result ≡ maint_of field.now }
    ensures facts { IfOk result (λ maint. IfSome maint IsMaint) }
{
    if field == b"NULL".as_slice() {
        Ok(None)
    } else {
        Ok(Some(maint_row(field)?))
    }
}
