//! The records of journal.csv.

ghost use Rattle.std.specs.Prelude.{◌≡◌, ◌≤◌, ◌↔◌, ◌∷◌, [], true, All, IfOk, MatchOption};
ghost use Rattle.std.specs.List.{list_all};
ghost use Rattle.desk_text.specs.Lines.{is_text};
ghost use Rattle.desk_text.specs.Rows.{Gives, GivesRow};
ghost use Rattle.comma_rows.specs.Records.{are_printed, is_printed};
ghost use Rattle.desk_journal.specs.Facts.{AreRows, IsJournalRow, IsNamedEvent};
ghost use Rattle.desk_journal.specs.Journal.{asked_row, batch_of, event_of, journal_row, journal_rows_of, looked_at, move_of, record_row};

use crate::journal_tokens::FullTokens;
use crate::{JournalRow, NamedEvent, read_steps};
use comma_rows::{Columns, CommaGrammar, is_field, read_records};
use desk_text::{Cause, ReadFault, RowFault, number};
use desk_units::List;
use file_rows::MOST_JOURNAL_BYTES;
use std::alloc::Global;

/// The greatest number of a caller.
const MOST_CALLER: u32 = 64;

/// The greatest number of a batch.
const MOST_BATCH: u32 = 1_000;

/// The batch whose number a detail spells.
#[tactic(auto, unfolding(crate::specs::Journal::batch_of))]
fn batch_of(detail: &[u8]) -> Result<NamedEvent, Cause>
    ensures exact { result ≡ batch_of detail.now }
    ensures facts { IfOk result IsNamedEvent }
{
    let number = number(detail, 0, MOST_BATCH)?;
    Ok(NamedEvent::Batch { number })
}

/// The move whose steps a detail spells.
#[tactic(auto, unfolding(crate::specs::Journal::move_of))]
fn move_of(alloc: Global, detail: &[u8]) -> Result<NamedEvent, RowFault>
    requires { list_all is_text detail.now ≡ true }
    ensures exact { GivesRow result (move_of detail.now) }
    ensures facts { IfOk result IsNamedEvent }
{
    let steps = read_steps(alloc, &FullTokens, detail)?;
    Ok(NamedEvent::Move { steps: List(steps) })
}

/// The event of a word and a detail.
#[tactic(auto, unfolding(crate::specs::Journal::event_of))]
fn event_of(alloc: Global, word: &[u8], detail: &[u8]) -> Result<NamedEvent, RowFault>
    requires { list_all is_text detail.now ≡ true }
    ensures exact { GivesRow result (event_of word.now detail.now) }
    ensures facts { IfOk result IsNamedEvent }
{
    if word == b"batch".as_slice() {
        Ok(batch_of(detail)?)
    } else if word == b"move".as_slice() {
        move_of(alloc, detail)
    } else {
        Err(RowFault::Refused(Cause::Word))
    }
}

/// The row of three fields.
#[tactic(auto, unfolding(crate::specs::Journal::asked_row))]
fn asked_row(
    alloc: Global,
    line: u32,
    caller: &[u8],
    word: &[u8],
    detail: &[u8],
) -> Result<JournalRow, RowFault>
    requires { list_all is_text detail.now ≡ true }
    ensures exact { GivesRow result (asked_row line caller.now word.now detail.now) }
    ensures facts { IfOk result IsJournalRow }
{
    let caller = number(caller, 0, MOST_CALLER)?;
    let event = event_of(alloc, word, detail)?;
    Ok(JournalRow {
        line,
        caller,
        event,
    })
}

/// The row of a record, of which the fourth field is passed over.
#[tactic(auto, unfolding(crate::specs::Journal::journal_row, crate::specs::Journal::record_row, crate::specs::Journal::looked_at), using(crate::proofs::TextLemmas::text_if_printed))]
fn record_row(alloc: Global, line: u32, mut columns: Columns<'_>) -> Result<JournalRow, RowFault>
    ensures exact { GivesRow result (journal_row line columns.entry) }
    ensures facts { IfOk result IsJournalRow }
{
    let Some(caller) = columns.next() else {
        return Err(RowFault::Refused(Cause::Fields));
    };
    if !is_field(caller) {
        return Err(RowFault::Refused(Cause::Byte));
    }
    let Some(word) = columns.next() else {
        return Err(RowFault::Refused(Cause::Fields));
    };
    if !is_field(word) {
        return Err(RowFault::Refused(Cause::Byte));
    }
    let Some(detail) = columns.next() else {
        return Err(RowFault::Refused(Cause::Fields));
    };
    if !is_field(detail) {
        return Err(RowFault::Refused(Cause::Byte));
    }
    let _reply = columns.next();
    if !columns.are_printed() {
        return Err(RowFault::Refused(Cause::Byte));
    }
    if columns.count() > 0 {
        return Err(RowFault::Refused(Cause::Fields));
    }
    asked_row(alloc, line, caller, word, detail)
}

/// The fields of a record: a caller, a word, a detail and perhaps a reply.
#[derive(Drop)]
struct JournalRecord;

impl CommaGrammar<JournalRow> for JournalRecord {
    ghost row_of = { λ _. journal_row };

    ghost holds = { λ _. IsJournalRow };

    fn row(&self, alloc: Global, line: u32, columns: Columns<'_>) -> Result<JournalRow, RowFault> {
        record_row(alloc, line, columns)
    }
}

/// The rows of a journal, in the order of its records, each with its record's number; or the first
/// record that is refused.
///
/// The file is read as the crate `csv` reads one by its default settings, without a header row and
/// with records of any length; a byte order mark at the start is dropped. A record's line is its
/// number from 1: an empty line is no record, and a line end in quotes ends none. A record is
/// `CALLER,batch,NUMBER` or `CALLER,move,STEPS`; a fourth field is passed over unread, its bytes too.
/// The caller is a number from 0 to 64, and a batch's number one from 0 to 1,000. The steps are as
/// `read_steps` reads them, with runs of spaces between tokens, names of 1 to 32 bytes, and dates and
/// times as the text files have them; no time adds days. Without a token there are no steps.
///
/// # Errors
///
/// `Size` at line 0 for more than 268,435,456 bytes. Of a record `Byte` for a byte that is not from
/// 0x20 to 0x7e, in whichever field but the fourth; then `Fields` for a record that has not 3 or 4
/// fields; then from the left `Number` of the caller, `Word` of the event, `Number` of a batch, and
/// the first cause of the steps.
#[tactic(auto, unfolding(crate::specs::Journal::journal_rows_of))]
pub fn read_journal(alloc: Global, bytes: &[u8]) -> Result<Vec<JournalRow>, ReadFault>
    ensures exact { Gives (λ rows. rows.items) result (journal_rows_of bytes.now) }
    ensures facts { IfOk result (λ rows. AreRows rows.items) }
{
    read_records(alloc, &JournalRecord, MOST_JOURNAL_BYTES, bytes)
}
