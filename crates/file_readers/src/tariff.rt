//! The file of the tariff.

ghost use Rattle.std.specs.Prelude.{◌≡◌, All, IfOk};
ghost use Rattle.desk_text.specs.Rows.{Gives};
ghost use Rattle.tariff_prices.specs.Rows.{IsTariffRow};
ghost use Rattle.file_readers.specs.Tariff.{tariff_rows};

use crate::tariff_row::TariffRecord;
use comma_rows::{MOST_BYTES, ReadFault, read_records};
use desk_units::{List, Tariff};
use std::alloc::Global;

/// The tariff: its rows in the order of the file, or the first record that is refused.
///
/// The file is read as the crate `csv` reads one by its default settings, without a header row and
/// with records of any length; a byte order mark at the start is dropped. A record's line is its
/// number from 1: an empty line is no record, and a line end in quotes ends none. The fields of a
/// record, where H is a haul `D`, `C` or `I`, K and L are cabins `F`, `B` or `E`, and P is a price:
///
/// - `surface,FAMILY`: a name of 1 to 32 bytes.
/// - `weight,TERM,W`: `operating`, `delay`, `cancellation`, `downgrade`, `legal` or `position`, and
///   a weight.
/// - `delay,H,K,P` and `cancel,H,K,P`.
/// - `downgrade,H,K,L,P`: L is below K, where `E` is below `B`, and `B` below `F`.
/// - `care,H,T,P` and `compensation,H,T,P`: T is a number of minutes from 1 to 10,000, or the word
///   `none`.
/// - `position,P`.
///
/// Fields after these are passed over. Prices are at most 999,999,999.9999, and weights at most
/// 999,999.999. A file without records is an empty tariff. How many rows there are, and whether two
/// say the same, is not looked at.
///
/// # Errors
///
/// `Size` at line 0 for more than 67,108,864 bytes. Of a record `Byte` for a byte that is not from
/// 0x20 to 0x7e, in whichever field; then `Word` for an unknown first word; then `Fields` for a
/// missing field; then from the left the first cause of a field: `Size` of a name, `Word` of a
/// haul, a cabin or a term, `Number` of a price, a weight or a threshold.
#[tactic(auto, unfolding(crate::specs::Tariff::tariff_rows))]
pub fn read_tariff(alloc: Global, bytes: &[u8]) -> Result<Tariff, ReadFault>
    ensures exact { Gives (λ tariff. tariff.rows) result (tariff_rows bytes.now) }
    ensures facts { IfOk result (λ tariff. All IsTariffRow tariff.rows) }
{
    let rows = read_records(alloc, &TariffRecord, MOST_BYTES, bytes)?;
    Ok(Tariff { rows: List(rows) })
}
