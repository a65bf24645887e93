//! The passengers of a reservation, as the lines give them.

ghost use Rattle.std.specs.Prelude.{◌≡◌, not, [], IfOk, OnOk};
ghost use Rattle.std.specs.BTreeMap.{insert_entry};
ghost use Rattle.desk_data.specs.PlanRows.{path_cmp};
ghost use Rattle.file_joins.specs.Groups.{groups_in, has_path};
ghost use Rattle.file_joins.specs.Parties.{passengers_in};

use desk_data::{Group, Path};
use desk_units::{Cabin, Leg, List, NoMem};
use std::alloc::Global;
use std::collections::BTreeMap;
use std::marker::Model;

/// The passengers of a reservation by their paths. Contracts see them as a list in the order of the paths.
pub(crate) struct Party {
    by_path: BTreeMap<Vec<(Leg, Cabin)>, u32>,
}

/// Dropped in one call, so that a function that owns one proves it once, and not part by part.
impl Drop for Party {
    fn drop(self) {
        let Party { by_path: _ } = self;
    }
}

impl Model for Party {
    ghost use Rattle.file_joins.specs.Groups.{Passengers};
    ghost use Rattle.file_joins.specs.Parties.{passengers_in};

    ghost Value = { Passengers };

    ghost view = { λ p. passengers_in p.by_path };
}

impl Party {
    /// No passengers.
    pub(crate) fn new(alloc: Global) -> Party
        ensures { result ≡ [] }
    {
        Party {
            by_path: BTreeMap::new(alloc),
        }
    }

    /// Puts passengers on a path; false where there were passengers on it.
    pub(crate) fn put(&mut self, path: Path, count: u32) -> Result<bool, NoMem>
        ensures new { IfOk result (λ new. new ≡ not (has_path path self.old)) }
        ensures put { OnOk result (self.new ≡ insert_entry path_cmp self.old path count) }
    {
        let Path { legs } = path;
        let List(seats) = legs;
        let before = self.by_path.insert(seats, count)?;
        Ok(before.is_none())
    }

    /// Their groups.
    pub(crate) fn groups(&self, alloc: Global) -> Result<Vec<Group>, NoMem>
        ensures { IfOk result (λ groups. groups.items ≡ groups_in self.now) }
    {
        groups_in(alloc, &self.by_path)
    }
}

/// The groups of a reservation.
fn groups_in(
    alloc: Global,
    passengers: &BTreeMap<Vec<(Leg, Cabin)>, u32>,
) -> Result<Vec<Group>, NoMem>
    ensures { IfOk result (λ groups. groups.items ≡ groups_in (passengers_in passengers.now)) }
{
    let mut groups = Vec::with_capacity(alloc, passengers.len())?;
    for (seats, count) in passengers {
        let legs = List(Vec::from_slice(alloc, seats.as_slice())?);
        groups.push(Group {
            count: *count,
            path: Path { legs },
        })?;
    }
    Ok(groups)
}
