//! The texts of answers.

ghost use Rattle.std.specs.Prelude.{◌≡◌, ◌++◌, OnOk, decimal};
ghost use Rattle.output_texts.specs.Lines.{answer_text, which_text};
ghost use Rattle.output_texts.specs.Writable.{AnswerNames};

use crate::items::push_broken;
use desk_data::{Grains, Instance, NoMem};
use desk_model::{Answer, Which};
use desk_text::{push_all, push_number};

/// Adds an answer; costs are in grains.
#[tactic(auto, unfolding(crate::specs::Lines::answer_text))]
pub fn push_answer(text: &mut Vec<u8>, inst: &Instance, answer: &Answer) -> Result<(), NoMem>
    requires { AnswerNames inst.now answer.now }
    ensures { OnOk result (text.new.items ≡ text.old.items ++ answer_text inst.now answer.now) }
{
    match *answer {
        Answer::Taken { which, cost } => push_cost(text, which_text(which), cost),
        Answer::Accepted { cost } => push_cost(text, b"accepted ", cost),
        Answer::Breaks(item) => {
            push_all(text, &[b"breaks "])?;
            push_broken(text, inst, &item)
        }
        Answer::Dearer { now, would } => {
            push_cost(text, b"dearer ", now)?;
            push_cost(text, b" ", would)
        }
        Answer::NoPlan(item) => {
            push_all(text, &[b"no plan "])?;
            push_broken(text, inst, &item)
        }
        Answer::Full { entries } => {
            push_all(text, &[b"full "])?;
            push_number(text, u128::from(entries))
        }
    }
}

/// The word for what the desk falls back on, and a space.
#[tactic(auto, unfolding(crate::specs::Lines::which_text))]
fn which_text(which: Which) -> &'static [u8]
    ensures { result.now ≡ which_text which }
{
    match which {
        Which::Keep => b"keep ",
        Which::Shift => b"shift ",
        Which::Ground => b"ground ",
    }
}

/// Adds a word and a cost.
fn push_cost(text: &mut Vec<u8>, word: &[u8], cost: Grains) -> Result<(), NoMem>
    ensures { OnOk result (text.new.items ≡ text.old.items ++ (word.now ++ decimal cost.0)) }
{
    push_all(text, &[word])?;
    push_number(text, cost.0)
}
