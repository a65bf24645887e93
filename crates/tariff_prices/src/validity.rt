//! The test whether rows make a tariff.

ghost use Rattle.std.specs.Prelude.{◌≡◌, ◌↔◌, ◌≤◌, false, IsTrue, AllPairs};
ghost use Rattle.std.specs.List.{list_any};
ghost use Rattle.std.specs.Option.{ForSome};
ghost use Rattle.tariff_prices.specs.Rows.{same_family, same_rate, same_key, IsPrice, IsThreshold, IsTariffRow, AreTariffRows};

use crate::purpose::{Rate, same_purpose};
use desk_units::{Price, TariffRow};

fn same_family(a: &TariffRow, b: &TariffRow) -> bool
    ensures { result ≡ same_family a.now b.now }
{
    match (a, b) {
        (TariffRow::Surface { family }, TariffRow::Surface { family: other }) => {
            family.as_slice() == other.as_slice()
        }
        _ => false,
    }
}

fn same_rate(a: Option<Rate>, b: Option<Rate>) -> bool
    ensures { result ≡ same_rate a b }
{
    match (a, b) {
        (Some(rate), Some(other)) => same_purpose(rate.purpose, other.purpose),
        _ => false,
    }
}

/// Whether two rows are for the same, though perhaps not at the same price or weight.
#[tactic(auto, unfolding(crate::specs::Rows::same_key))]
pub fn same_key(a: &TariffRow, b: &TariffRow) -> bool
    ensures { result ≡ same_key a.now b.now }
{
    same_family(a, b) || same_rate(Rate::of(a), Rate::of(b))
}

fn is_price(price: Price) -> bool
    ensures { IsTrue result ↔ IsPrice price.0 }
{
    price.0 <= 9_999_999_999_999
}

fn is_threshold(minutes: u32) -> bool
    ensures { IsTrue result ↔ IsThreshold minutes }
{
    1 <= minutes && minutes <= 10_000
}

fn are_thresholds(threshold: Option<u32>) -> bool
    ensures { IsTrue result ↔ ForSome threshold IsThreshold }
{
    threshold.is_none_or(is_threshold)
}

fn is_tariff_row(row: &TariffRow) -> bool
    ensures { IsTrue result ↔ IsTariffRow row.now }
{
    match row {
        TariffRow::Surface { .. } => true,
        TariffRow::Weight { weight, .. } => weight.0 <= 999_999_999,
        TariffRow::Delay { price, .. }
        | TariffRow::Cancel { price, .. }
        | TariffRow::Position { price } => is_price(*price),
        TariffRow::Downgrade {
            reference,
            below,
            price,
            ..
        } => reference.rank() < below.rank() && is_price(*price),
        TariffRow::Care {
            threshold,
            price,
            ..
        }
        | TariffRow::Compensation {
            threshold,
            price,
            ..
        } => are_thresholds(*threshold) && is_price(*price),
    }
}

fn is_among(rows: &[TariffRow], row: &TariffRow) -> bool
    ensures { result ≡ list_any (λ other. same_key other row.now) rows.now }
{
    rows.iter().any(|other| same_key(other, row))
}

fn are_distinct(rows: &[TariffRow]) -> bool
    ensures { IsTrue result ↔ AllPairs (λ a b. same_key a b ≡ false) rows.now }
{
    for (i, row) in rows.iter().enumerate() {
        if is_among(&rows[..i], row) {
            return false;
        }
    }
    true
}

/// Whether these rows make a tariff: at most 1,000 of them, each number in its range, and no two
/// that are for the same.
pub fn are_tariff_rows(rows: &[TariffRow]) -> bool
    ensures { IsTrue result ↔ AreTariffRows rows.now }
{
    rows.len() <= 1_000 && rows.iter().all(is_tariff_row) && are_distinct(rows)
}
