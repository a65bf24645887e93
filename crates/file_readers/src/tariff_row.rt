//! The rows of the tariff.

ghost use Rattle.std.specs.Prelude.{◌≡◌, ◌<◌, ◌≤◌, IfOk};
ghost use Rattle.std.specs.Option.{ForSome};
ghost use Rattle.desk_units.specs.Ranks.{cabin_rank};
ghost use Rattle.tariff_prices.specs.Rows.{IsPrice, IsThreshold, IsTariffRow};
ghost use Rattle.file_readers.specs.Rows.{term_of, threshold_of, below_of, cabin_price, threshold_price, surface_row, weight_row, downgrade_row, position_row, row_of, tariff_row, record_row};

use crate::kinds::{TariffKind, kind_named};
use comma_rows::{Columns, CommaGrammar};
use desk_text::{Cause, RowFault, cabin, haul, name, number, price, weight};
use desk_units::{Cabin, Haul, Price, TariffRow, Term};
use std::alloc::Global;

/// The longest threshold of a row, in minutes.
const MOST_MINUTES: u32 = 10_000;

/// A cost term by its word, else `Word`.
fn term(field: &[u8]) -> Result<Term, Cause>
    ensures { result ≡ term_of field.now }
{
    if field == b"operating".as_slice() {
        Ok(Term::Operating)
    } else if field == b"delay".as_slice() {
        Ok(Term::Delay)
    } else if field == b"cancellation".as_slice() {
        Ok(Term::Cancellation)
    } else if field == b"downgrade".as_slice() {
        Ok(Term::Downgrade)
    } else if field == b"legal".as_slice() {
        Ok(Term::Legal)
    } else if field == b"position".as_slice() {
        Ok(Term::Position)
    } else {
        Err(Cause::Word)
    }
}

/// A threshold of 1 to 10,000 minutes, or `None` for the word `none`; else `Number`.
fn threshold(field: &[u8]) -> Result<Option<u32>, Cause>
    ensures exact { result ≡ threshold_of field.now }
    ensures range { IfOk result (λ threshold. ForSome threshold IsThreshold) }
{
    if field == b"none".as_slice() {
        return Ok(None);
    }
    let minutes = number(field, 1, MOST_MINUTES)?;
    Ok(Some(minutes))
}

/// A cabin below the reference, else `Word`.
fn cabin_below(reference: Cabin, field: &[u8]) -> Result<Cabin, Cause>
    ensures exact { result ≡ below_of reference field.now }
    ensures lower { IfOk result (λ below. cabin_rank reference < cabin_rank below) }
{
    let below = cabin(field)?;
    if reference.rank() < below.rank() {
        Ok(below)
    } else {
        Err(Cause::Word)
    }
}

/// A haul, a cabin and a price.
#[tactic(auto, unfolding(crate::specs::Rows::cabin_price))]
fn cabin_price(mut columns: Columns<'_>) -> Result<(Haul, Cabin, Price), Cause>
    ensures exact { result ≡ cabin_price columns.entry }
    ensures range { IfOk result (λ parts. IsPrice parts.2.0) }
{
    let first = columns.take()?;
    let second = columns.take()?;
    let third = columns.take()?;
    Ok((haul(first)?, cabin(second)?, price(third)?))
}

/// A haul, a threshold and a price.
#[tactic(auto, unfolding(crate::specs::Rows::threshold_price))]
fn threshold_price(mut columns: Columns<'_>) -> Result<(Haul, Option<u32>, Price), Cause>
    ensures exact { result ≡ threshold_price columns.entry }
    ensures range { IfOk result (λ parts. ForSome parts.1 IsThreshold × IsPrice parts.2.0) }
{
    let first = columns.take()?;
    let second = columns.take()?;
    let third = columns.take()?;
    Ok((haul(first)?, threshold(second)?, price(third)?))
}

/// A family of aircraft that are surface transport.
#[tactic(auto, unfolding(crate::specs::Rows::surface_row))]
fn surface(mut columns: Columns<'_>) -> Result<TariffRow, Cause>
    ensures exact { result ≡ surface_row columns.entry }
    ensures facts { IfOk result IsTariffRow }
{
    let family = columns.take()?;
    Ok(TariffRow::Surface {
        family: name(family)?,
    })
}

/// A cost term and its weight.
#[tactic(auto, unfolding(crate::specs::Rows::weight_row))]
fn weight_of_term(mut columns: Columns<'_>) -> Result<TariffRow, Cause>
    ensures exact { result ≡ weight_row columns.entry }
    ensures facts { IfOk result IsTariffRow }
{
    let word = columns.take()?;
    let number = columns.take()?;
    Ok(TariffRow::Weight {
        term: term(word)?,
        weight: weight(number)?,
    })
}

/// A haul, a cabin, one below it and a price.
#[tactic(auto, unfolding(crate::specs::Rows::downgrade_row))]
fn downgrade(mut columns: Columns<'_>) -> Result<TariffRow, Cause>
    ensures exact { result ≡ downgrade_row columns.entry }
    ensures facts { IfOk result IsTariffRow }
{
    let first = columns.take()?;
    let second = columns.take()?;
    let third = columns.take()?;
    let fourth = columns.take()?;
    let haul = haul(first)?;
    let reference = cabin(second)?;
    let below = cabin_below(reference, third)?;
    let price = price(fourth)?;
    Ok(TariffRow::Downgrade {
        haul,
        reference,
        below,
        price,
    })
}

/// A price alone.
#[tactic(auto, unfolding(crate::specs::Rows::position_row))]
fn position(mut columns: Columns<'_>) -> Result<TariffRow, Cause>
    ensures exact { result ≡ position_row columns.entry }
    ensures facts { IfOk result IsTariffRow }
{
    let paid = columns.take()?;
    Ok(TariffRow::Position {
        price: price(paid)?,
    })
}

/// The row of a kind whose fields are these.
fn row_of(kind: TariffKind, columns: Columns<'_>) -> Result<TariffRow, Cause>
    ensures exact { result ≡ row_of kind columns.entry }
    ensures facts { IfOk result IsTariffRow }
{
    match kind {
        TariffKind::Surface => surface(columns),
        TariffKind::Weight => weight_of_term(columns),
        TariffKind::Delay => {
            let (haul, cabin, price) = cabin_price(columns)?;
            Ok(TariffRow::Delay { haul, cabin, price })
        }
        TariffKind::Cancel => {
            let (haul, cabin, price) = cabin_price(columns)?;
            Ok(TariffRow::Cancel { haul, cabin, price })
        }
        TariffKind::Downgrade => downgrade(columns),
        TariffKind::Care => {
            let (haul, threshold, price) = threshold_price(columns)?;
            Ok(TariffRow::Care {
                haul,
                threshold,
                price,
            })
        }
        TariffKind::Compensation => {
            let (haul, threshold, price) = threshold_price(columns)?;
            Ok(TariffRow::Compensation {
                haul,
                threshold,
                price,
            })
        }
        TariffKind::Position => position(columns),
    }
}

/// The row of a record whose bytes were tried.
#[tactic(auto, unfolding(crate::specs::Rows::tariff_row))]
fn tariff_row(mut columns: Columns<'_>) -> Result<TariffRow, Cause>
    ensures exact { result ≡ tariff_row columns.entry }
    ensures facts { IfOk result IsTariffRow }
{
    let word = columns.take()?;
    row_of(kind_named(word)?, columns)
}

/// The fields of a record: a kind, and what it names.
#[derive(Drop)]
pub(crate) struct TariffRecord;

impl CommaGrammar<TariffRow> for TariffRecord {
    ghost row_of = { λ _. record_row };

    ghost holds = { λ _. IsTariffRow };

    fn row(&self, _alloc: Global, _line: u32, columns: Columns<'_>) -> Result<TariffRow, RowFault> {
        if !columns.are_printed() {
            return Err(RowFault::Refused(Cause::Byte));
        }
        Ok(tariff_row(columns)?)
    }
}
