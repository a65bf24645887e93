//! Moments.

ghost use Rattle.std.specs.Prelude.{◌<◌};

use crate::{Page, Part};
use desk_data::Minute;
use desk_text::{date_text, time_text};
use desk_units::NoMem;

// The last day of 2099, counted from 2000-01-01.
const LAST_DAY: u32 = 36_524;

/// The time of day of a moment: `HH:MM`.
pub fn clock(at: Minute) -> [u8; 5] {
    time_text(at.0 % 1_440)
}

// The day of a moment, counted from 2000-01-01.
fn day_of(at: Minute) -> u32
    ensures { result < 36525 }
{
    let day = at.0 / 1_440;
    if day <= LAST_DAY { day } else { LAST_DAY }
}

/// The day of a moment: `dd/mm/yy`.
pub fn date(at: Minute) -> [u8; 8] {
    date_text(day_of(at))
}

/// Puts a moment that belongs to a day, counted from 2000-01-01: its time, and how many days it comes after that day or
/// before it, as `00:20+1`.
pub fn put_time(page: &mut Page, at: Minute, day: u32) -> Result<(), NoMem> {
    page.put(&[Part::Given(&clock(at))])?;
    let is = at.0 / 1_440;
    if day < is {
        page.put(&[Part::Own("+"), Part::Number(u64::from(is - day))])?;
    }
    if is < day {
        page.put(&[Part::Own("-"), Part::Number(u64::from(day - is))])?;
    }
    Ok(())
}
