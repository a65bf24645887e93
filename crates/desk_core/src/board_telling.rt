//! What tells a board.

ghost use Rattle.std.specs.Prelude.{◌≡◌, length};
ghost use Rattle.live_board.specs.Histories.{history};
ghost use Rattle.live_board.specs.Words.{told_by, IsShown};
ghost use Rattle.desk_core.specs.Posts.{posted};

use crate::posted::Posted;
use crate::sight::Sight;
use live_board::{Naming, Teller};
use std::sync::Wait;

/// Publishes on a board what the desk sees of the history.
#[derive(Drop)]
pub struct BoardTelling<J: Naming, R: Wait + Drop> {
    pub(crate) teller: Teller<Sight, Posted, J, R>,
    /// How many entries are published.
    pub(crate) told: u32,
    ghost counted: { told ≡ length (history (told_by teller)) },
    ghost shown: { IsShown posted teller },
}
