//! The steps of a move, from their text.

ghost use Rattle.std.specs.Prelude.{◌≡◌, ℕ, List, [], ◌∷◌, All, IfOk, Ok, true};
ghost use Rattle.std.specs.List.{list_all};
ghost use Rattle.desk_text.specs.Lines.{fields, is_text};
ghost use Rattle.desk_journal.specs.declared.kind.StepKind.TheVariants as kinds;
ghost use Rattle.desk_journal.specs.Tokens.{TokenReaders, Takes, TakesInMemory};
ghost use Rattle.desk_journal.specs.Steps.{step_from, step_at, steps_from, steps_of, StepsAre};
ghost use Rattle.desk_journal.specs.Facts.{IsNamedStep};

use crate::kind::StepKind;
use crate::parts::{after_from, next_leg, next_moment, next_path, next_row};
use crate::rows::{NamedRes, NamedStep};
use crate::tokens::{TokenForm, kind, next_after, next_inbound, next_name, next_number};
use desk_text::{Cause, Fields, RowFault};
use std::alloc::Global;

/// What follows `set`: `FLIGHT DATE WAS NEW`.
#[tactic(auto, unfolding(crate::specs::Steps::step_from))]
fn next_set<F: TokenForm>(form: &F, tokens: &mut Fields<'_>) -> Result<NamedStep, Cause>
    ensures exact { Takes result tokens.new (step_from (F.readers form.now) kinds.Set tokens.old) }
    ensures facts { IfOk result IsNamedStep }
{
    let leg = next_leg(form, tokens)?;
    let was = next_row(form, tokens)?;
    let new = next_row(form, tokens)?;
    Ok(NamedStep::Set { leg, was, new })
}

/// What follows `push`: `AIRCRAFT all`, or `AIRCRAFT after FLIGHT DATE`.
#[tactic(auto, unfolding(crate::specs::Steps::step_from))]
fn next_push<F: TokenForm>(form: &F, tokens: &mut Fields<'_>) -> Result<NamedStep, Cause>
    ensures exact { Takes result tokens.new (step_from (F.readers form.now) kinds.Push tokens.old) }
    ensures facts { IfOk result IsNamedStep }
{
    let plane = next_name(form, tokens)?;
    let is_after = next_after(tokens)?;
    let after = after_from(form, is_after, tokens)?;
    Ok(NamedStep::Push { plane, after })
}

/// What follows `swap`: `AIRCRAFT AIRCRAFT DATE TIME`.
#[tactic(auto, unfolding(crate::specs::Steps::step_from))]
fn next_swap<F: TokenForm>(form: &F, tokens: &mut Fields<'_>) -> Result<NamedStep, Cause>
    ensures exact { Takes result tokens.new (step_from (F.readers form.now) kinds.Swap tokens.old) }
    ensures facts { IfOk result IsNamedStep }
{
    let first = next_name(form, tokens)?;
    let second = next_name(form, tokens)?;
    let at = next_moment(form, tokens)?;
    Ok(NamedStep::Swap { first, second, at })
}

/// What follows `rebook`: `RESERVATION TYPE COUNT PATH PATH`.
#[tactic(auto, unfolding(crate::specs::Steps::step_from))]
fn next_rebook<F: TokenForm>(
    alloc: Global,
    form: &F,
    tokens: &mut Fields<'_>,
) -> Result<NamedStep, RowFault>
    ensures exact { TakesInMemory result tokens.new (step_from (F.readers form.now) kinds.Rebook tokens.old) }
    ensures facts { IfOk result IsNamedStep }
{
    let name = next_name(form, tokens)?;
    let inbound = next_inbound(tokens)?;
    let count = next_number(tokens, 1, 1_000)?;
    let path = next_path(alloc, form, tokens)?;
    let to = next_path(alloc, form, tokens)?;
    Ok(NamedStep::Rebook {
        res: NamedRes { name, inbound },
        path,
        to,
        count,
    })
}

/// What follows `refill`: `FLIGHT DATE`.
#[tactic(auto, unfolding(crate::specs::Steps::step_from))]
fn next_refill<F: TokenForm>(form: &F, tokens: &mut Fields<'_>) -> Result<NamedStep, Cause>
    ensures exact { Takes result tokens.new (step_from (F.readers form.now) kinds.Refill tokens.old) }
    ensures facts { IfOk result IsNamedStep }
{
    let leg = next_leg(form, tokens)?;
    Ok(NamedStep::Refill { leg })
}

/// What follows the first token of a step of this kind.
#[tactic(auto, unfolding(crate::specs::Steps::step_from))]
fn step_from<F: TokenForm>(
    alloc: Global,
    form: &F,
    kind: StepKind,
    tokens: &mut Fields<'_>,
) -> Result<NamedStep, RowFault>
    ensures exact { TakesInMemory result tokens.new (step_from (F.readers form.now) kind tokens.old) }
    ensures facts { IfOk result IsNamedStep }
{
    match kind {
        StepKind::Set => Ok(next_set(form, tokens)?),
        StepKind::Push => Ok(next_push(form, tokens)?),
        StepKind::Swap => Ok(next_swap(form, tokens)?),
        StepKind::Rebook => next_rebook(alloc, form, tokens),
        StepKind::Tidy => Ok(NamedStep::Tidy),
        StepKind::Refill => Ok(next_refill(form, tokens)?),
    }
}

/// The step whose first token is this one.
#[tactic(auto, unfolding(crate::specs::Steps::step_at))]
fn step_at<F: TokenForm>(
    alloc: Global,
    form: &F,
    word: &[u8],
    tokens: &mut Fields<'_>,
) -> Result<NamedStep, RowFault>
    ensures exact { TakesInMemory result tokens.new (step_at (F.readers form.now) word.now tokens.old) }
    ensures facts { IfOk result IsNamedStep }
{
    let kind = kind(word)?;
    step_from(alloc, form, kind, tokens)
}

/// The steps of a move's text, in their order, however many they are, or why they are refused.
///
/// Tokens are separated by spaces and tabs, and steps stand one after another: `set FLIGHT DATE WAS
/// NEW`, `push AIRCRAFT all`, `push AIRCRAFT after FLIGHT DATE`, `swap AIRCRAFT AIRCRAFT DATE TIME`,
/// `rebook RESERVATION TYPE COUNT PATH PATH`, `tidy` and `refill FLIGHT DATE`. WAS and NEW are `-` for
/// a cancelled leg or `+ AIRCRAFT DATE TIME`; TYPE is `A` or `R`, COUNT 1 to 1,000; PATH is a number of
/// legs, 0 to 8, and `FLIGHT DATE CABIN` for each. The place of a token decides what it is: an
/// aircraft may be named `all`.
///
/// # Errors
///
/// The cause of the first token from the left that is refused: `Word` of a word that is none of those
/// that may stand there, `Number` of a number, and what `form` gives for a name, a date and a time;
/// `Fields` where tokens run out.
pub fn read_steps<F: TokenForm>(
    alloc: Global,
    form: &F,
    detail: &[u8],
) -> Result<Vec<NamedStep>, RowFault>
    requires { list_all is_text detail.now ≡ true }
    ensures exact { StepsAre (λ steps. steps.items) result (steps_of (F.readers form.now) (fields detail.now)) }
    ensures facts { IfOk result (λ steps. All IsNamedStep steps.items) }
{
    // room for one step, which most moves have: a vector grows to four at once
    let mut steps = Vec::with_capacity(alloc, 1)?;
    let mut tokens = Fields::of(detail);
    while let Some(word) = tokens.next() {
        steps.push(step_at(alloc, form, word, &mut tokens)?)?;
    }
    Ok(steps)
}

/// The steps of tokens are the one that begins with the first token, and those of the tokens that it
/// leaves. No tokens are no steps.
pub fn steps_are_read_in_turn()
    ensures none { (T : TokenReaders) → steps_of T [] ≡ Ok [] }
    ensures first { (T : TokenReaders) (word : List ℕ) (tokens : List (List ℕ)) → steps_of T (word ∷ tokens) ≡ steps_from T (step_at T word tokens) }
{}
