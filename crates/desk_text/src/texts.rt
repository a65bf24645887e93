//! What days, moments, numbers, cabins and directions are written as.

ghost use Rattle.std.specs.Prelude.{◌≡◌, ℕ, ◌<◌, ◌++◌, decimal, OnOk, OnErr, Some};
ghost use Rattle.std.specs.List.{flat_map};
ghost use Rattle.desk_text.specs.Days.{day_of};
ghost use Rattle.desk_text.specs.Texts.{year_of, month_of, day_in_month, two_digits, date_text, time_text, moment_text, cabin_text, direction_text};

use crate::days::date_of;
use desk_units::{Cabin, Minute, NoMem};
use itoa::Buffer;

/// A number below 100 in two digits.
#[inline]
pub fn two_digits(number: u32) -> [u8; 2]
    requires { number < 100 }
    ensures { result ≡ two_digits number }
{
    [b'0' + (number / 10) as u8, b'0' + (number % 10) as u8]
}

/// The text of a day, counted from 2000-01-01 and below 36,525: `dd/mm/yy`.
#[tactic(auto, unfolding(crate::specs::Texts::date_text))]
pub fn date_text(day: u32) -> [u8; 8]
    requires { day < 36525 }
    ensures { result ≡ date_text day }
{
    let date = date_of(day);
    let day = two_digits(date.day() as u32);
    let month = two_digits(date.month() as u32);
    let year = two_digits((date.year() - 2_000) as u32);
    [
        day[0], day[1], b'/', month[0], month[1], b'/', year[0], year[1],
    ]
}

/// A day and its text, kept from one call to the next: a file mostly names one day many times in a row.
#[derive(Clone, Copy)]
pub struct LastDate {
    day: u32,
    text: [u8; 8],
    ghost is: { text ≡ date_text day },
}

impl LastDate {
    /// That of 2000-01-01.
    pub fn new() -> LastDate {
        let text = date_text(0);
        LastDate { day: 0, text }
    }

    /// The text of a day, counted from 2000-01-01 and below 36,525: `dd/mm/yy`. That of the last day is kept.
    pub fn text(&mut self, day: u32) -> [u8; 8]
        requires { day < 36525 }
        ensures { result ≡ date_text day }
    {
        if self.day != day {
            let text = date_text(day);
            *self = LastDate { day, text };
        }
        self.text
    }
}

/// The text of a minute of the day: `HH:MM`.
#[tactic(auto, unfolding(crate::specs::Texts::time_text))]
pub fn time_text(minute: u32) -> [u8; 5]
    requires { minute < 1440 }
    ensures { result ≡ time_text minute }
{
    let hour = two_digits(minute / 60);
    let minute = two_digits(minute % 60);
    [hour[0], hour[1], b':', minute[0], minute[1]]
}

/// The text of a moment below 52,596,000: `dd/mm/yy HH:MM`.
#[tactic(auto, unfolding(crate::specs::Texts::date_text, crate::specs::Texts::time_text))]
pub fn moment_text(at: Minute) -> [u8; 14]
    requires { at.0 < 52596000 }
    ensures { result ≡ moment_text at.0 }
{
    let mut text = [b' '; 14];
    text[..8].copy_from_slice(&date_text(at.0 / 1_440));
    text[9..].copy_from_slice(&time_text(at.0 % 1_440));
    text
}

/// The letter of a cabin.
pub fn cabin_letter(cabin: Cabin) -> [u8; 1]
    ensures { result ≡ cabin_text cabin }
{
    match cabin {
        Cabin::F => *b"F",
        Cabin::B => *b"B",
        Cabin::E => *b"E",
    }
}

/// The letter of a direction: `A` for outbound, `R` for inbound.
pub fn direction_letter(inbound: bool) -> [u8; 1]
    ensures { result ≡ direction_text inbound }
{
    if inbound { *b"R" } else { *b"A" }
}

/// Adds a day, counted from 2000-01-01 and below 36,525, as `dd/mm/yy`. Where memory runs out, the
/// text is as before.
pub fn push_date(out: &mut Vec<u8>, day: u32) -> Result<(), NoMem>
    requires { day < 36525 }
    ensures ok { OnOk result (out.new.items ≡ out.old.items ++ date_text day) }
    ensures err { OnErr result (out.new.items ≡ out.old.items) }
{
    out.extend_from_slice(&date_text(day))?;
    Ok(())
}

/// Adds a moment below 52,596,000 as `dd/mm/yy HH:MM`. Where memory runs out, the text is as before.
pub fn push_moment(out: &mut Vec<u8>, at: Minute) -> Result<(), NoMem>
    requires { at.0 < 52596000 }
    ensures ok { OnOk result (out.new.items ≡ out.old.items ++ moment_text at.0) }
    ensures err { OnErr result (out.new.items ≡ out.old.items) }
{
    out.extend_from_slice(&moment_text(at))?;
    Ok(())
}

/// Adds a number in decimal, without leading zeros. Where memory runs out, the text is as before.
pub fn push_number(out: &mut Vec<u8>, number: u128) -> Result<(), NoMem>
    ensures ok { OnOk result (out.new.items ≡ out.old.items ++ decimal number) }
    ensures err { OnErr result (out.new.items ≡ out.old.items) }
{
    let mut buffer = Buffer::new();
    out.extend_from_slice(buffer.format(number).as_bytes())?;
    Ok(())
}

/// Adds all parts, one after the other. Where memory runs out, the text is as before.
pub fn push_all(out: &mut Vec<u8>, parts: &[&[u8]]) -> Result<(), NoMem>
    ensures ok { OnOk result (out.new.items ≡ out.old.items ++ flat_map (λ part. part.now) parts.now) }
    ensures err { OnErr result (out.new.items ≡ out.old.items) }
{
    let start = out.len();
    for part in parts {
        if out.extend_from_slice(part).is_err() {
            out.truncate(start);
            return Err(NoMem);
        }
    }
    Ok(())
}

/// A written day reads back: the day of the month, the month and the year that are written are those
/// of the day, and two digits are enough for each.
pub fn written_days_read_back()
    ensures day { (day : ℕ) → day < 36525 → day_of (day_in_month day) (month_of day) (year_of day) ≡ Some day }
    ensures year { (day : ℕ) → day < 36525 → year_of day < 100 }
{}
