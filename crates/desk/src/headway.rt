//! Lines that say how far a recovery has come, for a person who waits.

ghost use Rattle.std.specs.Prelude.{◌≡◌, Some};
ghost use Rattle.desk_units.specs.declared.headway.Headway.{Headway as Told};

use desk_units::{Headway, Listener};
use std::alloc::Global;
use std::env;
use std::env::Env;

// The environment variable that asks for the lines: after how many tried moves the next one comes.
const VARIABLE: &str = "DESK_HEADWAY";

/// A listener that prints a line on standard error after every so many tried moves.
#[derive(Drop)]
pub(crate) struct HeadwayLines<R: Eprint + Drop> {
    rt: R,
    /// After how many tried moves the next line comes; after 0 none does.
    every: u64,
    /// How many moves were tried.
    tried: u64,
    /// After how many tried moves in all the next line comes.
    next: u64,
    /// How far the recovery has come.
    headway: Option<Headway>,
}

impl<R: Eprint + Drop> HeadwayLines<R> {
    /// Lines after every so many tried moves, or none where that is 0.
    pub(crate) fn new(rt: R, every: u64) -> HeadwayLines<R> {
        HeadwayLines {
            rt,
            every,
            tried: 0,
            next: every,
            headway: None,
        }
    }

    // Prints a line. Where standard error takes none, nobody is told.
    fn print(&self) {
        if let Some(
            Headway {
                batch,
                changes,
                cost,
            },
        ) = self.headway
        {
            let (grains, tried) = (cost.0, self.tried);
            let _ = eprintln!(self.rt;
                "headway: batch {batch} changes {changes} cost {grains} tried {tried}"
            );
        }
    }
}

impl<R: Eprint + Drop> Listener for HeadwayLines<R> {
    ghost hears = { λ before told after. after.headway ≡ Some told };

    fn reached(&mut self, headway: Headway) {
        self.headway = Some(headway);
    }

    fn tried(&mut self) {
        self.tried = self.tried.saturating_add(1);
        if self.tried == self.next {
            self.next = self.next.saturating_add(self.every);
            self.print();
        }
    }
}

/// After how many tried moves a line is asked for, by the environment; 0, no line at all, where it asks for none.
pub(crate) fn lines_asked<R: Env + Alloc<A = Global>>(rt: &R) -> u64 {
    match env::var(rt, VARIABLE) {
        Ok(text) => text.as_str().parse().unwrap_or(0),
        Err(_) => 0,
    }
}
