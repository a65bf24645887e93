//! Sums of money.

ghost use Rattle.std.specs.Prelude.{◌≡◌, ◌+◌, ◌≤◌, ◌^◌};
ghost use Rattle.page_parts.specs.Money.{shown_term, ten_thousandths};

use crate::{Page, Part};
use desk_data::Grains;
use desk_units::NoMem;

/// Grains in ten-thousandths of a unit of money, the nearest. No cost reaches 10^38 grains.
pub fn ten_thousandths(grains: Grains) -> u128
    ensures { grains.0 ≤ 10 ^ 38 → result ≡ ten_thousandths grains.0 }
{
    grains.0.saturating_add(30_000) / 60_000
}

/// What a term adds to a rounded sum that has terms of so much before it, in ten-thousandths of a unit: so the terms of a
/// column add up to its sum.
pub fn shown_term(before: Grains, term: Grains) -> u128
    ensures { before.0 + term.0 ≤ 10 ^ 38 → result ≡ shown_term before.0 term.0 }
{
    let sum = Grains(before.0.saturating_add(term.0));
    ten_thousandths(sum).saturating_sub(ten_thousandths(before))
}

// The last digit of a number.
fn digit(number: u128) -> u8 {
    b'0' + (number % 10) as u8
}

// The last three digits of a number.
fn three_digits(number: u128) -> [u8; 3] {
    [digit(number / 100), digit(number / 10), digit(number)]
}

// The last four digits of a number.
fn four_digits(number: u128) -> [u8; 4] {
    [
        digit(number / 1_000),
        digit(number / 100),
        digit(number / 10),
        digit(number),
    ]
}

// A number below 2^64; the last of these for what is greater.
fn clamped(number: u128) -> u64 {
    if number < 10_000_000_000_000_000_000 {
        number as u64
    } else {
        u64::MAX
    }
}

/// Puts a sum in ten-thousandths of a unit of money, with four decimals: 12,345.6000.
pub fn put_units(page: &mut Page, sum: u128) -> Result<(), NoMem> {
    let units = sum / 10_000;
    if units >= 1_000_000 {
        page.put(&[
            Part::Number(clamped(units / 1_000_000)),
            Part::Own(","),
            Part::Given(&three_digits(units / 1_000)),
            Part::Own(","),
            Part::Given(&three_digits(units)),
        ])?;
    } else if units >= 1_000 {
        page.put(&[
            Part::Number(clamped(units / 1_000)),
            Part::Own(","),
            Part::Given(&three_digits(units)),
        ])?;
    } else {
        page.put(&[Part::Number(clamped(units))])?;
    }
    page.put(&[Part::Own("."), Part::Given(&four_digits(sum))])
}
