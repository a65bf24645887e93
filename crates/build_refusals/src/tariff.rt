//! Why a row of tariff.csv is refused.

ghost use Rattle.std.specs.Prelude.{◌≡◌, ◌≤◌, length};
ghost use Rattle.std.specs.List.{list_any};
ghost use Rattle.tariff_prices.specs.Rows.{same_key};
ghost use Rattle.build_refusals.specs.Tariff.{tariff_cause, tariff_refusal};

use desk_units::TariffRow;
use file_rows::{Cause, MOST_TARIFF_ROWS};
use tariff_prices::same_key;

/// Whether one of these rows says the same as a row.
fn is_said(rows: &[TariffRow], row: &TariffRow) -> bool
    ensures { result ≡ list_any (λ before. same_key before row.now) rows.now }
{
    rows.iter().any(|before| same_key(before, row))
}

/// Why a row of the tariff is refused, where it is. Its place counts from 0: so many rows stand
/// before it.
#[tactic(auto, unfolding(crate::specs::Tariff::tariff_cause))]
fn tariff_cause(rows: &[TariffRow], place: usize, row: &TariffRow) -> Option<Cause>
    requires { place ≤ length rows.now }
    ensures { result ≡ tariff_cause rows.now place row.now }
{
    if place >= MOST_TARIFF_ROWS {
        Some(Cause::Limit)
    } else if is_said(&rows[..place], row) {
        Some(Cause::Twice)
    } else {
        None
    }
}

/// The line of the first row of the tariff that is refused, counted from 1, and why.
///
/// Each row is compared with those before it, at most 1,000: the next one is past the limit.
pub(crate) fn tariff_refusal(rows: &[TariffRow]) -> Option<(u32, Cause)>
    ensures { result ≡ tariff_refusal rows.now }
{
    for (place, row) in rows.iter().enumerate() {
        if let Some(cause) = tariff_cause(rows, place, row) {
            return Some((place as u32 + 1, cause));
        }
    }
    None
}
