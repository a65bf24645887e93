//! The turn and its passes.

ghost use Rattle.std.specs.Prelude.{◌≡◌, [], length, false};

use crate::law::Law;
use crate::shared_book::SharedBook;
use crate::view::View;
use atomic_table::{Seat, Table};
use std::alloc::Global;
use std::snapshot::Snapshot;

/// A book that threads share, of which one at a time has the turn. It can't be dropped: it ends in
/// `close`, which hands the book back.
pub struct Turn<B: SharedBook> {
    pub(crate) table: Table<Option<B>, View<B::Opening, B::Item>, Snapshot<B>, Law<B>, Global>,
    ghost sized: { (table.shared.table_id.words ≡ 2) × (table.shared.table_id.slots ≡ 1) },
}

/// What one thread knows of a turn: a history that it has seen, and which of its entries are of its own
/// calls. A pass that is dropped stays out, and then the turn can't be closed.
#[derive(Drop)]
pub struct Pass<B: SharedBook> {
    pub(crate) seat: Seat<Option<B>, View<B::Opening, B::Item>>,
    /// The length of the history that it has seen.
    pub(crate) count: u32,
    ghost rests: { (seat.me.0.has_turn ≡ false) × (seat.me.0.has_read ≡ false) × (seat.me.1 ≡ []) },
    ghost counted: { count ≡ length seat.me.0.seen },
}
