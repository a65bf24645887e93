//! Which families the tariff calls surface transport.

ghost use Rattle.std.specs.Prelude.{◌≡◌};
ghost use Rattle.desk_build.specs.Day.{names_surface, is_surface};

use desk_units::{Name, TariffRow};

/// Whether a row says that aircraft of this family are surface transport.
fn names_surface(family: &Name, row: &TariffRow) -> bool
    ensures { result ≡ names_surface family.now row.now }
{
    match row {
        TariffRow::Surface { family: surface } => family.as_slice() == surface.as_slice(),
        _ => false,
    }
}

/// Whether aircraft of this family are surface transport. All rows of the tariff are looked at, at
/// most 1,000 for each of at most 1,000 aircraft.
pub(crate) fn is_surface(rows: &[TariffRow], family: &Name) -> bool
    ensures { result ≡ is_surface rows.now family.now }
{
    rows.iter().any(|row| names_surface(family, row))
}
