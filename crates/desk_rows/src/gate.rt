//! A gate that decides who goes when.

use desk_folder::Gate;
use std::sync::atomic::{AtomicBool, Ordering};
use std::thread::yield_now;

/// A worker with how many rounds it has made before, or the desk, as worker 0, with the number of a batch: each up to 2.
pub(crate) type Entrance = (u32, u32);

/// Where one stands among nine.
fn place_of(entrance: Entrance) -> Option<usize> {
    match entrance {
        (0..=2, 0..=2) => Some(3 * entrance.0 as usize + entrance.1 as usize),
        _ => None,
    }
}

fn none_yet() -> AtomicBool {
    AtomicBool::new(false)
}

/// A gate that holds whoever comes to an entrance until another has been entered.
#[derive(Drop)]
pub(crate) struct HoldingGate<'a> {
    /// Each entrance that holds, and the other one.
    holds: &'a [(Entrance, Entrance)],
    entered: [AtomicBool; 9],
    /// Someone waited too long.
    late: AtomicBool,
}

impl<'a> HoldingGate<'a> {
    pub(crate) fn new(holds: &'a [(Entrance, Entrance)]) -> HoldingGate<'a> {
        HoldingGate {
            holds,
            entered: [
                none_yet(),
                none_yet(),
                none_yet(),
                none_yet(),
                none_yet(),
                none_yet(),
                none_yet(),
                none_yet(),
                none_yet(),
            ],
            late: none_yet(),
        }
    }

    fn was_entered(&self, entrance: Entrance) -> bool {
        match place_of(entrance).and_then(|place| self.entered.get(place)) {
            Some(entered) => entered.load(Ordering::SeqCst),
            None => false,
        }
    }

    /// Waits until an entrance has been entered, for 100,000,000 looks at most; the others then wait for nobody.
    fn wait(&self, entrance: Entrance) {
        for _ in 0..100_000_000u32 {
            if self.was_entered(entrance) || self.late.load(Ordering::SeqCst) {
                return;
            }
            yield_now();
        }
        self.late.store(true, Ordering::SeqCst);
    }

    /// Whether all came to where the gate holds, and nobody waited too long.
    pub(crate) fn all_came(&self) -> bool {
        let came = self
            .holds
            .iter()
            .all(|(entrance, _)| self.was_entered(*entrance));
        came && !self.late.load(Ordering::SeqCst)
    }
}

impl Gate for HoldingGate<'_> {
    fn enter(&self, worker: u32, round: u32) {
        let here = (worker, round);
        if let Some(entered) = place_of(here).and_then(|place| self.entered.get(place)) {
            entered.store(true, Ordering::SeqCst);
        }
        for (entrance, other) in self.holds {
            if *entrance == here {
                self.wait(*other);
            }
        }
    }
}
