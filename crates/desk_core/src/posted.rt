//! What viewers of the desk are shown, as a board publishes it.

use crate::sight::Sight;
use crate::{Book, Entry};
use left_right::Absorb;
use live_board::{Boarded, Saw, Shown};
use std::alloc::AllocError;

/// What is published.
#[derive(Drop)]
pub struct Posted(Shown<Sight>);

impl Absorb<Posted> for Posted {
    type State = Saw<Book, Entry>;

    ghost use Rattle.live_board.specs.Saws.{saw};

    ghost state = { λ p. saw p.0.seen.book p.0.seen.log };

    ghost applied = { λ s p. saw p.0.seen.book p.0.seen.log };

    ghost never_fails = { Unit {0} };

    fn absorb_first(&mut self, operation: &Posted, _other: &Posted) -> Result<(), AllocError> {
        *self = Posted(operation.0.again());
        Ok(())
    }
}

impl Boarded<Sight> for Posted {
    ghost use Rattle.std.proofs.Common.{refl};
    ghost use Rattle.live_board.specs.Saws.{same_saw};

    ghost board = { λ p. p.0.seen.book };

    ghost log = { λ p. p.0.seen.log };

    fn new(shown: &Shown<Sight>) -> Posted {
        Posted(shown.again())
    }

    fn again(&self) -> Posted {
        Posted(self.0.again())
    }

    fn shown(&self) -> &Shown<Sight> {
        &self.0
    }

    ghost same = { λ x y e. same_saw x.0.seen.book y.0.seen.book x.0.seen.log y.0.seen.log e };

    ghost replaces = { λ s x. refl };

    ghost sure = { tt };
}
