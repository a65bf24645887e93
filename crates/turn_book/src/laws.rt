//! What holds of the rule and of histories.

ghost use Rattle.std.specs.Prelude.{List, Option};
ghost use mathlib.Core.List.{IsPrefix};
ghost use Rattle.atomic_table.specs.Table.{State};
ghost use Rattle.turn_book.specs.Histories.{IsLegal};
ghost use Rattle.turn_book.specs.Rule.{TurnRule};
ghost use Rattle.turn_book.specs.InWords.{RuleInWords};

use crate::shared_book::SharedBook;
use crate::view::View;

/// The rule that holds between any two steps says of the live passes: of one history each has seen a
/// beginning, and the word front is its length; held is 1 where just one has the turn, else 0; the book
/// is in the slot, except where that one has read the front; each place after the journal at `open` is
/// in the list of just one pass; and each name that a split gave is among the names of just one.
pub fn the_rule_in_words<B: SharedBook>()
    ensures { (key : B) (s : State (Option B) (View B.Opening B.Item)) → TurnRule B.opening B.journal (IsLegal B.may_ask B.answers) key s
        → RuleInWords B.opening B.journal (IsLegal B.may_ask B.answers) key s }
{}

/// A beginning of a legal history is legal.
pub fn a_beginning_of_a_legal_history_is_legal<B: SharedBook>()
    ensures { (o : B.Opening) (xs ys : List B.Item) → IsPrefix xs ys → IsLegal B.may_ask B.answers o ys → IsLegal B.may_ask B.answers o xs }
{}
