//! What a field spells.

ghost use Rattle.std.specs.Prelude.{◌≡◌, ◌+◌, ◌<◌, ◌≤◌, ◌^◌, [], ◌∷◌, length, true, IfOk, IfSome};
ghost use Rattle.std.specs.List.{list_all};
ghost use Rattle.std.specs.Char.{is_ascii_digit};
ghost use Rattle.desk_units.specs.Padded.{IsNameLength};
ghost use Rattle.desk_text.specs.Days.{day_of};
ghost use Rattle.file_rows.specs.Seen.{IsSeen};
ghost use Rattle.desk_text.specs.Fields.{only_if, name_of, decimal_value, digits_of, number_from, number_of, fraction_of, decimal_of, price_of, weight_of, three_numbers, seats_of, year_from, day_from, date_of, minutes_from, minutes_and_days, minute_from, time_of, haul_of, cabin_of, inbound_of};

use crate::days::day_of;
use crate::reading::cut;
use desk_units::{Cabin, Haul, Name, Price, Seats, Weight};
use file_rows::{COLON, Cause, PLUS, POINT, SLASH};

/// A name: 1 to 32 bytes, else `Size`.
pub fn name(field: &[u8]) -> Result<Name, Cause>
    ensures exact { result ≡ name_of field.now }
    ensures length { IfOk result (λ name. IsNameLength (length name)) }
    ensures seen { IsSeen field.now → IfOk result (λ name. IsSeen name) }
{
    Name::of(field).ok_or(Cause::Size)
}

/// The number that up to 9 bytes spell, where all of them are digits.
fn decimal_value(bytes: &[u8]) -> Option<u32>
    requires { length bytes.now ≤ 9 }
    ensures exact { result ≡ only_if (list_all is_ascii_digit bytes.now) (decimal_value bytes.now) }
    ensures below { IfSome result (λ n. n < 10 ^ length bytes.now) }
{
    let mut value = 0;
    for byte in bytes {
        if !byte.is_ascii_digit() {
            return None;
        }
        value = 10 * value + u32::from(*byte - b'0');
    }
    Some(value)
}

/// The number that 1 to `longest` digits spell.
#[tactic(auto, unfolding(crate::specs::Fields::digits_of))]
fn digits(bytes: &[u8], longest: usize) -> Option<u32>
    requires { longest ≤ 9 }
    ensures exact { result ≡ digits_of longest bytes.now }
    ensures below { IfSome result (λ n. n < 10 ^ length bytes.now) }
    ensures size { IfSome result (λ _. (1 ≤ length bytes.now) × (length bytes.now ≤ longest)) }
{
    if 1 <= bytes.len() && bytes.len() <= longest {
        decimal_value(bytes)
    } else {
        None
    }
}

/// The number from `low` to `high` that 1 to 9 digits spell.
#[tactic(auto, unfolding(crate::specs::Fields::number_from))]
fn number_from(bytes: &[u8], low: u32, high: u32) -> Option<u32>
    ensures exact { result ≡ number_from low high bytes.now }
    ensures range { IfSome result (λ n. (low ≤ n) × (n ≤ high)) }
{
    let n = digits(bytes, 9)?;
    if low <= n && n <= high { Some(n) } else { None }
}

/// A number from `low` to `high` in 1 to 9 digits, else `Number`.
pub fn number(field: &[u8], low: u32, high: u32) -> Result<u32, Cause>
    ensures exact { result ≡ number_of low high field.now }
    ensures range { IfOk result (λ n. (low ≤ n) × (n ≤ high)) }
{
    number_from(field, low, high).ok_or(Cause::Number)
}

/// What 1 to 4 digits after a point are worth, in ten-thousandths.
#[tactic(auto, unfolding(crate::specs::Fields::fraction_of))]
fn ten_thousandths(bytes: &[u8]) -> Option<u32>
    ensures exact { result ≡ fraction_of 4 bytes.now }
    ensures small { IfSome result (λ n. n ≤ 9999) }
{
    let n = digits(bytes, 4)?;
    let worth = match bytes.len() {
        1 => 1000,
        2 => 100,
        3 => 10,
        _ => 1,
    };
    Some(n * worth)
}

/// What 1 to 3 digits after a point are worth, in thousandths.
#[tactic(auto, unfolding(crate::specs::Fields::fraction_of))]
fn thousandths(bytes: &[u8]) -> Option<u32>
    ensures exact { result ≡ fraction_of 3 bytes.now }
    ensures small { IfSome result (λ n. n ≤ 999) }
{
    let n = digits(bytes, 3)?;
    let worth = match bytes.len() {
        1 => 100,
        2 => 10,
        _ => 1,
    };
    Some(n * worth)
}

/// Up to 9 digits, perhaps with a point and up to 4 digits, in ten-thousandths.
#[tactic(auto, unfolding(crate::specs::Fields::decimal_of))]
fn price_from(bytes: &[u8]) -> Option<u64>
    ensures exact { result ≡ decimal_of 9 4 bytes.now }
    ensures most { IfSome result (λ n. n ≤ 9999999999999) }
{
    match cut(bytes, POINT) {
        None => Some(10_000 * u64::from(digits(bytes, 9)?)),
        Some((whole, part)) => {
            let whole = u64::from(digits(whole, 9)?);
            Some(10_000 * whole + u64::from(ten_thousandths(part)?))
        }
    }
}

/// A price in 1 to 9 digits, perhaps with a point and 1 to 4 digits, else `Number`. It is at most
/// 999,999,999.9999.
pub fn price(field: &[u8]) -> Result<Price, Cause>
    ensures exact { result ≡ price_of field.now }
    ensures most { IfOk result (λ price. price.0 ≤ 9999999999999) }
{
    match price_from(field) {
        Some(price) => Ok(Price(price)),
        None => Err(Cause::Number),
    }
}

/// Up to 6 digits, perhaps with a point and up to 3 digits, in thousandths.
#[tactic(auto, unfolding(crate::specs::Fields::decimal_of))]
fn weight_from(bytes: &[u8]) -> Option<u32>
    ensures exact { result ≡ decimal_of 6 3 bytes.now }
    ensures most { IfSome result (λ n. n ≤ 999999999) }
{
    match cut(bytes, POINT) {
        None => Some(1_000 * digits(bytes, 6)?),
        Some((whole, part)) => {
            let whole = digits(whole, 6)?;
            Some(1_000 * whole + thousandths(part)?)
        }
    }
}

/// A weight in 1 to 6 digits, perhaps with a point and 1 to 3 digits, else `Number`. It is at most
/// 999,999.999.
pub fn weight(field: &[u8]) -> Result<Weight, Cause>
    ensures exact { result ≡ weight_of field.now }
    ensures most { IfOk result (λ weight. weight.0 ≤ 999999999) }
{
    match weight_from(field) {
        Some(weight) => Ok(Weight(weight)),
        None => Err(Cause::Number),
    }
}

/// Three numbers from 0 to 999 with slashes between them.
#[tactic(auto, unfolding(crate::specs::Fields::three_numbers))]
fn three_numbers(bytes: &[u8]) -> Option<Seats>
    ensures exact { result ≡ three_numbers bytes.now }
    ensures most { IfSome result (λ s. (s.f ≤ 999) × (s.b ≤ 999) × (s.e ≤ 999)) }
{
    let (first, rest) = cut(bytes, SLASH)?;
    let (business, economy) = cut(rest, SLASH)?;
    let f = number_from(first, 0, 999)?;
    let b = number_from(business, 0, 999)?;
    let e = number_from(economy, 0, 999)?;
    Some(Seats { f, b, e })
}

/// The seats of the three cabins as `F/B/E`, each from 0 to 999, else `Number`.
pub fn seats(field: &[u8]) -> Result<Seats, Cause>
    ensures exact { result ≡ seats_of field.now }
    ensures most { IfOk result (λ s. (s.f ≤ 999) × (s.b ≤ 999) × (s.e ≤ 999)) }
{
    three_numbers(field).ok_or(Cause::Number)
}

/// A year of two digits, or one from 2000 to 2099, counted from 2000.
#[tactic(auto, unfolding(crate::specs::Fields::year_from))]
fn year_from(bytes: &[u8]) -> Option<u32>
    ensures exact { result ≡ year_from bytes.now }
    ensures small { IfSome result (λ n. n < 100) }
{
    let n = digits(bytes, 4)?;
    if bytes.len() == 2 {
        Some(n)
    } else if bytes.len() == 4 && (2_000 <= n && n <= 2_099) {
        Some(n - 2_000)
    } else {
        None
    }
}

/// The number that two digits spell.
#[tactic(auto, unfolding(crate::specs::Fields::digits_of))]
fn number_of_two(a: u8, b: u8) -> Option<u32>
    ensures exact { result ≡ digits_of 2 (a ∷ b ∷ []) }
    ensures small { IfSome result (λ n. n < 100) }
{
    if a.is_ascii_digit() && b.is_ascii_digit() {
        Some(10 * u32::from(a - b'0') + u32::from(b - b'0'))
    } else {
        None
    }
}

/// The day, the month and the year of a date that is written `dd/mm/yy`, as most are.
fn usual_date(bytes: &[u8]) -> Option<(u32, u32, u32)>
    ensures exact { IfSome result (λ date. day_from bytes.now ≡ day_of date.0 date.1 date.2) }
    ensures small { IfSome result (λ date. date.2 < 100) }
{
    match bytes {
        [a, b, first, c, d, second, e, f] if *first == SLASH && *second == SLASH => {
            let day = number_of_two(*a, *b)?;
            let month = number_of_two(*c, *d)?;
            let year = number_of_two(*e, *f)?;
            Some((day, month, year))
        }
        _ => None,
    }
}

/// The number of the day that a date in any of its forms names.
#[tactic(auto, unfolding(crate::specs::Fields::day_from))]
fn day_of_parts(bytes: &[u8]) -> Option<u32>
    ensures exact { result ≡ day_from bytes.now }
    ensures small { IfSome result (λ n. n < 36525) }
{
    let (first, rest) = cut(bytes, SLASH)?;
    let (second, third) = cut(rest, SLASH)?;
    let day = digits(first, 2)?;
    let month = digits(second, 2)?;
    let year = year_from(third)?;
    day_of(day, month, year)
}

/// The number of the day that a date names.
fn day_from(bytes: &[u8]) -> Option<u32>
    ensures exact { result ≡ day_from bytes.now }
    ensures small { IfSome result (λ n. n < 36525) }
{
    match usual_date(bytes) {
        Some((day, month, year)) => day_of(day, month, year),
        None => day_of_parts(bytes),
    }
}

/// A date `dd/mm/yy` or `dd/mm/yyyy` of the years 2000 to 2099, its day and month in 1 or 2 digits,
/// as the number of its day, 2000-01-01 being 0; else, and where there is no such day, `Date`.
pub fn date(field: &[u8]) -> Result<u32, Cause>
    ensures exact { result ≡ date_of field.now }
    ensures small { IfOk result (λ n. n < 36525) }
{
    day_from(field).ok_or(Cause::Date)
}

/// Two digits that spell a number from 0 to 59.
fn minutes_from(a: u8, b: u8) -> Option<u32>
    ensures exact { result ≡ minutes_from a b }
    ensures small { IfSome result (λ n. n < 60) }
{
    if !(a.is_ascii_digit() && b.is_ascii_digit()) {
        return None;
    }
    let minutes = 10 * u32::from(a - b'0') + u32::from(b - b'0');
    if minutes < 60 { Some(minutes) } else { None }
}

/// The minutes, and perhaps a plus sign and a digit for the days.
#[tactic(auto, unfolding(crate::specs::Fields::minutes_and_days))]
fn minutes_and_days(bytes: &[u8]) -> Option<(u32, Option<u32>)>
    ensures exact { result ≡ minutes_and_days bytes.now }
    ensures small { IfSome result (λ later. later.0 < 60) }
    ensures days { IfSome result (λ later. IfSome later.1 (λ days. days ≤ 9)) }
{
    match bytes {
        [a, b] => Some((minutes_from(*a, *b)?, None)),
        [a, b, plus, days] => {
            let minutes = minutes_from(*a, *b)?;
            if *plus == PLUS && days.is_ascii_digit() {
                Some((minutes, Some(u32::from(*days - b'0'))))
            } else {
                None
            }
        }
        _ => None,
    }
}

/// The minute of the day that a time names, and the days that it adds.
#[tactic(auto, unfolding(crate::specs::Fields::minute_from))]
fn minute_from(bytes: &[u8]) -> Option<(u32, Option<u32>)>
    ensures exact { result ≡ minute_from bytes.now }
    ensures small { IfSome result (λ time. time.0 < 1440) }
    ensures days { IfSome result (λ time. IfSome time.1 (λ days. days ≤ 9)) }
{
    let (hours, later) = cut(bytes, COLON)?;
    let hours = digits(hours, 2)?;
    let (minutes, days) = minutes_and_days(later)?;
    if hours < 24 {
        Some((60 * hours + minutes, days))
    } else {
        None
    }
}

/// A time: an hour from 0 to 23 in 1 or 2 digits, a colon, two digits from 00 to 59, and perhaps a
/// plus sign and one digit; else `Time`. It is the minute of the day, and the days after the plus
/// sign where there is one.
pub fn time(field: &[u8]) -> Result<(u32, Option<u32>), Cause>
    ensures exact { result ≡ time_of field.now }
    ensures small { IfOk result (λ time. time.0 < 1440) }
    ensures days { IfOk result (λ time. IfSome time.1 (λ days. days ≤ 9)) }
{
    minute_from(field).ok_or(Cause::Time)
}

/// A haul, `D`, `C` or `I`, else `Word`.
pub fn haul(field: &[u8]) -> Result<Haul, Cause>
    ensures { result ≡ haul_of field.now }
{
    match field {
        [b'D'] => Ok(Haul::D),
        [b'C'] => Ok(Haul::C),
        [b'I'] => Ok(Haul::I),
        _ => Err(Cause::Word),
    }
}

/// A cabin, `F`, `B` or `E`, else `Word`.
pub fn cabin(field: &[u8]) -> Result<Cabin, Cause>
    ensures { result ≡ cabin_of field.now }
{
    match field {
        [b'F'] => Ok(Cabin::F),
        [b'B'] => Ok(Cabin::B),
        [b'E'] => Ok(Cabin::E),
        _ => Err(Cause::Word),
    }
}

/// Whether a trip is one back: false for `A`, true for `R`, else `Word`.
pub fn inbound(field: &[u8]) -> Result<bool, Cause>
    ensures { result ≡ inbound_of field.now }
{
    match field {
        [b'A'] => Ok(false),
        [b'R'] => Ok(true),
        _ => Err(Cause::Word),
    }
}
