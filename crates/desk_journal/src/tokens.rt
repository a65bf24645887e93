//! The tokens of a move's steps, one at a time.

ghost use Rattle.std.specs.Prelude.{◌≡◌, ◌<◌, ◌≤◌, IfOk};
ghost use Rattle.file_rows.specs.Seen.{IsSeen};
ghost use Rattle.desk_text.specs.Fields.{number_of, cabin_of, inbound_of};
ghost use Rattle.desk_journal.specs.Tokens.{TokenReaders, token, Takes, kind_of, flown_of, later_of};

use crate::kind::StepKind;
use desk_text::{Cause, Fields, cabin, inbound, number};
use desk_units::{Cabin, Name};

/// A form of tokens: which of them are names, dates and times. All other tokens are the same in each
/// form.
pub trait TokenForm {
    ghost readers: { Self → TokenReaders };

    /// The name that a token is, or why it is none.
    fn name(&self, token: &[u8]) -> Result<Name, Cause>
        ensures exact { result ≡ (readers self.now).name_of token.now }
        ensures seen { IsSeen token.now → IfOk result (λ name. IsSeen name) };

    /// The day that a token names, below 36,525, or why it names none.
    fn date(&self, token: &[u8]) -> Result<u32, Cause>
        ensures exact { result ≡ (readers self.now).date_of token.now }
        ensures small { IfOk result (λ day. day < 36525) };

    /// The minute of the day that a token names, below 1,440, or why it names none.
    fn time(&self, token: &[u8]) -> Result<u32, Cause>
        ensures exact { result ≡ (readers self.now).time_of token.now }
        ensures small { IfOk result (λ time. time < 1440) };
}

/// The name that the next token is.
pub(crate) fn next_name<F: TokenForm>(form: &F, tokens: &mut Fields<'_>) -> Result<Name, Cause>
    ensures exact { Takes result tokens.new (token (F.readers form.now).name_of tokens.old) }
    ensures seen { IfOk result (λ name. IsSeen name) }
{
    form.name(tokens.take()?)
}

/// The day that the next token names.
pub(crate) fn next_date<F: TokenForm>(form: &F, tokens: &mut Fields<'_>) -> Result<u32, Cause>
    ensures exact { Takes result tokens.new (token (F.readers form.now).date_of tokens.old) }
    ensures small { IfOk result (λ day. day < 36525) }
{
    form.date(tokens.take()?)
}

/// The minute of the day that the next token names.
pub(crate) fn next_time<F: TokenForm>(form: &F, tokens: &mut Fields<'_>) -> Result<u32, Cause>
    ensures exact { Takes result tokens.new (token (F.readers form.now).time_of tokens.old) }
    ensures small { IfOk result (λ time. time < 1440) }
{
    form.time(tokens.take()?)
}

/// The number from `low` to `high` that the next token spells.
pub(crate) fn next_number(tokens: &mut Fields<'_>, low: u32, high: u32) -> Result<u32, Cause>
    ensures exact { Takes result tokens.new (token (number_of low high) tokens.old) }
    ensures range { IfOk result (λ n. (low ≤ n) × (n ≤ high)) }
{
    number(tokens.take()?, low, high)
}

/// The cabin that the next token is.
pub(crate) fn next_cabin(tokens: &mut Fields<'_>) -> Result<Cabin, Cause>
    ensures { Takes result tokens.new (token cabin_of tokens.old) }
{
    cabin(tokens.take()?)
}

/// Whether the next token says that a reservation is inbound.
pub(crate) fn next_inbound(tokens: &mut Fields<'_>) -> Result<bool, Cause>
    ensures { Takes result tokens.new (token inbound_of tokens.old) }
{
    inbound(tokens.take()?)
}

/// Whether a token says that a row is flown: `+` where it is, `-` where it is cancelled.
fn flown(token: &[u8]) -> Result<bool, Cause>
    ensures { result ≡ flown_of token.now }
{
    if token == b"+".as_slice() {
        Ok(true)
    } else if token == b"-".as_slice() {
        Ok(false)
    } else {
        Err(Cause::Word)
    }
}

/// Whether the next token says that a row is flown.
pub(crate) fn next_flown(tokens: &mut Fields<'_>) -> Result<bool, Cause>
    ensures { Takes result tokens.new (token flown_of tokens.old) }
{
    flown(tokens.take()?)
}

/// Whether a token says that a push begins after a leg: `after` where it does, `all` where it takes
/// all legs.
fn after_or_all(token: &[u8]) -> Result<bool, Cause>
    ensures { result ≡ later_of token.now }
{
    if token == b"after".as_slice() {
        Ok(true)
    } else if token == b"all".as_slice() {
        Ok(false)
    } else {
        Err(Cause::Word)
    }
}

/// Whether the next token says that a push begins after a leg.
pub(crate) fn next_after(tokens: &mut Fields<'_>) -> Result<bool, Cause>
    ensures { Takes result tokens.new (token later_of tokens.old) }
{
    after_or_all(tokens.take()?)
}

/// The kind of the step whose first token is this one.
pub(crate) fn kind(token: &[u8]) -> Result<StepKind, Cause>
    ensures { result ≡ kind_of token.now }
{
    if token == b"set".as_slice() {
        Ok(StepKind::Set)
    } else if token == b"push".as_slice() {
        Ok(StepKind::Push)
    } else if token == b"swap".as_slice() {
        Ok(StepKind::Swap)
    } else if token == b"rebook".as_slice() {
        Ok(StepKind::Rebook)
    } else if token == b"tidy".as_slice() {
        Ok(StepKind::Tidy)
    } else if token == b"refill".as_slice() {
        Ok(StepKind::Refill)
    } else {
        Err(Cause::Word)
    }
}
