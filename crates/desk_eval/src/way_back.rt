//! What takes back a move that was applied.

use std::marker::Model;

/// What takes an applied move back: spent by `undo` or `keep`. Contracts see it as the depth that the
/// evaluator's past had when the move was applied.
#[derive(Drop)]
pub struct Undo {
    pub(crate) depth: u32,
}

impl Model for Undo {
    ghost use Rattle.desk_eval.specs.Back.{WayBack};

    ghost Value = { WayBack };

    ghost view = { λ undo. record { depth = undo.depth } };
}
