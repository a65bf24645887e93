//! Between which airports legs of the day go.

ghost use Rattle.std.specs.Prelude.{◌≡◌, ◌*◌, ◌<◌, IfOk, false, length, replicate};
ghost use Rattle.desk_data.specs.Situation.{Situation, airports_of};
ghost use Rattle.near_memory.specs.Untouched.{goes_between};
ghost use Rattle.near_notes.specs.Links.{AreLinks, link_number};

use desk_data::{Airport, Instance, Leg, NoMem};
use std::alloc::Global;

/// For each pair of airports whether some leg of the day goes from the one to the other, whoever flies it and when.
#[derive(Drop)]
pub(crate) struct Links {
    pub known: Vec<bool>,
}

impl Links {
    /// Those of a day. The only error is out of memory.
    pub(crate) fn of(alloc: Global, inst: &Instance) -> Result<Links, NoMem>
        ensures { IfOk result (λ links. AreLinks inst.now links.known.items) }
    {
        let _rows = inst.parts();
        let mut known = none_known(alloc, 500 * inst.airports() as usize)?;
        for x in 0..inst.legs() {
            let leg = inst.leg(Leg(x));
            known[link_number(leg.origin, leg.dest)] = true;
        }
        Ok(Links { known })
    }

    /// Whether one goes from an airport to another.
    pub(crate) fn go_between(&self, inst: &Instance, from: Airport, to: Airport) -> bool
        requires links { AreLinks inst.now self.now.known.items }
        requires from { from.0 < airports_of inst.now }
        requires to { to.0 < airports_of inst.now }
        ensures { result ≡ goes_between inst.now from.0 to.0 }
    {
        let _few = inst.airports();
        self.known[link_number(from, to)]
    }
}

/// The place of a pair of airports: there are at most 500.
fn link_number(from: Airport, to: Airport) -> usize
    requires from { from.0 < 500 }
    requires to { to.0 < 500 }
    ensures { result ≡ link_number from.0 to.0 }
{
    500 * from.0 as usize + to.0 as usize
}

/// So many times no.
fn none_known(alloc: Global, count: usize) -> Result<Vec<bool>, NoMem>
    ensures { IfOk result (λ none. none.items ≡ replicate count false) }
{
    Ok(vec![in alloc; false; count]?)
}
