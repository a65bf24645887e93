//! The rule of a turn's table, and what each kind of step shows the thread that makes it.

use crate::shared_book::SharedBook;
use crate::view::View;
use atomic_table::{Join, Play, Split, TableRule};
use std::marker::{Brand, PhantomData};
use std::snapshot::Snapshot;

/// The rule. Word 0, held, is 1 while a pass has the turn; word 1, front, is the length of the history;
/// and the one slot has the book.
pub struct Law<B> {
    of: PhantomData<B>,
}

impl<B: SharedBook> TableRule<Option<B>, View<B::Opening, B::Item>, Snapshot<B>> for Law<B> {
    ghost use Rattle.turn_book.specs.Rule.{TurnRule};
    ghost use Rattle.turn_book.specs.Knowing.{opened};
    ghost use Rattle.turn_book.specs.Histories.{IsLegal};

    ghost holds = { λ key. TurnRule B.opening B.journal (IsLegal B.may_ask B.answers) key.value };

    ghost first = { λ key. opened (B.opening key.value) (B.journal key.value) };
}

/// Takes the turn.
pub struct Take;

impl<S, O, I> Play<S, View<O, I>> for Take {
    ghost use Rattle.turn_book.specs.Rule.{takes_turn};

    ghost then = { takes_turn };
}

/// Reads the front under the turn.
pub struct Read<B> {
    of: PhantomData<B>,
}

impl<B: SharedBook> Play<Option<B>, View<B::Opening, B::Item>> for Read<B> {
    ghost use Rattle.turn_book.specs.Rule.{reads_front};
    ghost use Rattle.turn_book.specs.Histories.{IsLegal};

    ghost then = { reads_front B.opening B.journal (IsLegal B.may_ask B.answers) };
}

/// The items that a call adds to the history: each call of `count` picks them.
pub trait Added<I> {
    ghost use Rattle.std.specs.Prelude.{List};

    ghost items: { List I };
}

impl<I> Added<I> for Brand {
    ghost use Rattle.std.specs.Prelude.{[]};

    ghost items = { [] };
}

/// Counts an entry.
pub struct Count<J> {
    of: PhantomData<J>,
}

impl<S, O, I, J: Added<I>> Play<S, View<O, I>> for Count<J> {
    ghost use Rattle.turn_book.specs.Rule.{counts_entry};

    ghost then = { counts_entry J.items };
}

/// Gives the turn back.
pub struct Give;

impl<S, O, I> Play<S, View<O, I>> for Give {
    ghost use Rattle.turn_book.specs.Rule.{gives_turn};

    ghost then = { gives_turn };
}

/// Splits a pass, and joins two.
pub struct Cut;

impl<O, I> Split<View<O, I>> for Cut {
    ghost use Rattle.turn_book.specs.Knowing.{split_left, split_right};

    ghost left = { split_left };

    ghost right = { split_right };
}

impl<O, I> Join<View<O, I>> for Cut {
    ghost use Rattle.turn_book.specs.Knowing.{joined, spent};

    ghost both = { joined };

    ghost spent = { spent };
}

/// Gives a pass what the rule says of it, and of the two passes of its last join.
pub struct Tell<B> {
    of: PhantomData<B>,
}

impl<B: SharedBook> Play<Option<B>, View<B::Opening, B::Item>> for Tell<B> {
    ghost use Rattle.turn_book.specs.Rule.{tells_rule};
    ghost use Rattle.turn_book.specs.Histories.{IsLegal};

    ghost then = { tells_rule (IsLegal B.may_ask B.answers) };
}
