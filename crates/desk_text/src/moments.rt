//! Times of a day, and moments.

ghost use Rattle.std.specs.Prelude.{◌≡◌, ◌<◌, IfOk};
ghost use Rattle.desk_text.specs.Moments.{minute_of, moment_of};

use crate::values::{date, time};
use desk_units::Minute;
use file_rows::Cause;

/// The minute of the day that a time names, below 1,440; else, and where it adds days, `Time`.
#[tactic(auto, unfolding(crate::specs::Moments::minute_of))]
pub fn minute(field: &[u8]) -> Result<u32, Cause>
    ensures exact { result ≡ minute_of field.now }
    ensures small { IfOk result (λ minute. minute < 1440) }
{
    match time(field)? {
        (minute, None) => Ok(minute),
        (_, Some(_)) => Err(Cause::Time),
    }
}

/// The moment of a date and a time, in two fields, of the years 2000 to 2099 and so below
/// 52,596,000; else `Date` or `Time`, of which the date is tried first. A time that adds days is
/// `Time`.
#[tactic(auto, unfolding(crate::specs::Moments::moment_of))]
pub fn moment(day: &[u8], time: &[u8]) -> Result<Minute, Cause>
    ensures exact { result ≡ moment_of day.now time.now }
    ensures small { IfOk result (λ at. at.0 < 52596000) }
{
    let day = date(day)?;
    let minute = minute(time)?;
    Ok(Minute(1_440 * day + minute))
}
