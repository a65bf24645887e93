//! Days by their numbers.

ghost use Rattle.std.specs.Prelude.{◌≡◌, ◌≢◌, ◌↔◌, ◌+◌, ◌<◌, ◌≤◌, pos, ◌+ℤ◌, ◌≤ℤ◌, IsSome, IfSome, IfOk};
ghost use Rattle.jiff.specs.Words.{epoch_day, IsDate, IsYmd};
ghost use Rattle.desk_text.specs.Days.{day_of};
ghost use Rattle.desk_text.specs.Texts.{day_in_month, month_of, year_of};

use jiff::civil::Date;
use jiff_core::civil::Date as PlainDate;

/// The date of this day of the year 2000 + `year`, or `None` where there is no such day.
fn date_on(day: u32, month: u32, year: u32) -> Option<Date>
    requires { year < 100 }
    ensures there { IsSome result ↔ IsDate (pos (2000 + year)) (pos month) (pos day) }
    ensures parts { IfSome result (IsYmd (pos (2000 + year)) (pos month) (pos day)) }
{
    if month > 12 || day > 31 {
        return None;
    }
    Date::new((2_000 + year) as i16, month as i8, day as i8).ok()
}

/// The number of a date from 2000-01-01 on, which is 0.
fn number_of(date: Date) -> u32
    requires { pos 10957 ≤ℤ epoch_day date }
    ensures { epoch_day date ≡ pos (10957 + result) }
{
    (date.to_plain().to_unix_epoch_day() - 10_957) as u32
}

/// The number of a day of the year 2000 + `year`, 2000-01-01 being 0, or `None` where there is no
/// such day.
pub fn day_of(day: u32, month: u32, year: u32) -> Option<u32>
    requires { year < 100 }
    ensures exact { result ≡ day_of day month year }
    ensures small { IfSome result (λ n. n < 36525) }
{
    let date = date_on(day, month, year)?;
    Some(number_of(date))
}

/// The date that is so many days after 2000-01-01.
fn date_after(days: u32) -> Date
    requires { days < 36525 }
    ensures { epoch_day result ≡ pos (10957 + days) }
{
    let date = PlainDate::from_unix_epoch_day(i64::from(days) + 10_957).unwrap();
    Date::from_plain(date)
}

/// The date of a day, counted from 2000-01-01.
pub(crate) fn date_of(day: u32) -> Date
    requires { day < 36525 }
    ensures day { result.day ≡ day_in_month day }
    ensures day_fits { result.day ≤ 31 }
    ensures month { result.month ≡ month_of day }
    ensures month_fits { result.month ≤ 12 }
    ensures year { result.year ≡ pos (2000 + year_of day) }
    ensures year_fits { year_of day < 100 }
{
    date_after(day)
}
