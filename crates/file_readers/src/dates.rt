//! The date that was read last, and its day.

ghost use Rattle.std.specs.Prelude.{◌≡◌, ◌<◌, IfOk, IfSome, Ok};
ghost use Rattle.desk_text.specs.Fields.{date_of};

use desk_text::{Cause, date};

/// A date that was read, and the number of its day: the legs of a reservation are mostly of one day.
#[derive(Clone, Copy)]
pub(crate) struct ReadDate<'a> {
    field: &'a [u8],
    day: u32,
    ghost is: { date_of field.now ≡ Ok day },
    ghost small: { day < 36525 },
}

/// The number of the day of the last date, where this field is that date.
fn known_day(last: Option<ReadDate<'_>>, field: &[u8]) -> Option<u32>
    ensures exact { IfSome result (λ n. date_of field.now ≡ Ok n) }
    ensures small { IfSome result (λ n. n < 36525) }
{
    match last {
        Some(read) if read.field == field => Some(read.day),
        _ => None,
    }
}

/// The number of the day of a date, or `Date`, as `date` gives it. That of the last date is not worked out again.
pub(crate) fn day<'a>(last: &mut Option<ReadDate<'a>>, field: &'a [u8]) -> Result<u32, Cause>
    ensures exact { result ≡ date_of field.now }
    ensures small { IfOk result (λ n. n < 36525) }
{
    if let Some(day) = known_day(*last, field) {
        return Ok(day);
    }
    let day = date(field)?;
    *last = Some(ReadDate { field, day });
    Ok(day)
}
