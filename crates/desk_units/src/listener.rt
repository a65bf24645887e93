//! Who is told how far a recovery has come.

ghost use Rattle.desk_units.specs.declared.headway.Headway.{Headway as Told};

use crate::headway::Headway;

/// Whoever is told how far a recovery has come. It answers nothing, so nothing that is searched for, answered or
/// written depends on it.
pub trait Listener {
    /// Whether telling it a headway makes of the first of these the other one.
    ghost hears: { Self → Told → Self → Type 0 };

    /// The recovery has come so far. It is told once after each batch and once after each accepted move.
    fn reached(&mut self, headway: Headway)
        ensures { hears self.old headway self.new };

    /// A move is tried near the plan. Of moves that a law rules out it may be called or not, so no clause says how often
    /// it is: it serves a count for whoever waits.
    fn tried(&mut self);
}

/// A listener that hears nothing.
#[derive(Clone, Copy)]
pub struct Nobody;

impl Listener for Nobody {
    ghost hears = { λ before told after. Unit {0} };

    fn reached(&mut self, _headway: Headway) {}

    fn tried(&mut self) {}
}
