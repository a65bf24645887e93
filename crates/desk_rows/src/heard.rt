//! What a listener hears of a recovery.

use desk_units::{Headway, Listener};
use std::alloc::Global;

/// Writes down what it hears: a line for each batch that is taken and each move that is accepted, and one where moves were tried after
/// that. A line for which there is no memory is left out.
#[derive(Drop)]
pub(crate) struct Notes {
    pub(crate) lines: Vec<u8>,
    has_tried: bool,
}

impl Notes {
    pub(crate) fn new(alloc: Global) -> Notes {
        Notes {
            lines: Vec::new(alloc),
            has_tried: false,
        }
    }
}

impl Listener for Notes {
    ghost hears = { λ before told after. Unit {0} };

    fn reached(&mut self, headway: Headway) {
        let (batch, changes, cost) = (headway.batch, headway.changes, headway.cost.0);
        let line = format!(in *self.lines.allocator(); "heard {batch} {changes} {cost}\n");
        if let Ok(line) = line {
            let _ = self.lines.extend_from_slice(line.as_bytes());
        }
        self.has_tried = false;
    }

    fn tried(&mut self) {
        if !self.has_tried {
            let _ = self.lines.extend_from_slice(b"tried\n");
        }
        self.has_tried = true;
    }
}
