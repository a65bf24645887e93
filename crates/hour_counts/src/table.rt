//! A number for each airport and hour.

ghost use Rattle.std.specs.Prelude.{◌≡◌, ℕ, ◌≤◌, [], OnOk};
ghost use Rattle.hour_counts.specs.Counts.{IsWritten, Enters, Leaves, count_at};

use desk_data::NoMem;
use std::alloc::Global;
use std::collections::BTreeMap;
use std::marker::Model;

/// A number for each airport and hour, 0 where none was written.
#[derive(Drop)]
pub(crate) struct Table {
    counts: BTreeMap<(u32, u32), u32>,
}

impl Model for Table {
    ghost use Rattle.std.specs.Prelude.{List, ℕ};

    ghost Value = { List ((ℕ × ℕ) × ℕ) };

    ghost view = { λ t. t.counts.entries };
}

impl Table {
    /// 0 for each.
    pub(crate) fn new(alloc: Global) -> Table
        ensures { result ≡ [] }
    {
        Table {
            counts: BTreeMap::new(alloc),
        }
    }

    /// The number at an airport in an hour.
    pub(crate) fn at(&self, airport: u32, hour: u32) -> u32
        ensures { result ≡ count_at self.now airport hour }
    {
        match self.counts.get(&(airport, hour)) {
            Some(count) => *count,
            None => 0,
        }
    }

    /// Writes another number.
    fn write(&mut self, airport: u32, hour: u32, count: u32) -> Result<(), NoMem>
        ensures { OnOk result (IsWritten self.old self.new airport hour count) }
    {
        self.counts.insert((airport, hour), count)?;
        Ok(())
    }

    /// One more where one comes; none where the number is as great as can be.
    pub(crate) fn enter(&mut self, come: Option<(u32, u32)>) -> Result<(), NoMem>
        ensures { OnOk result (Enters self.old self.new come) }
    {
        let Some((airport, hour)) = come else {
            return Ok(());
        };
        let count = self.at(airport, hour).saturating_add(1);
        self.write(airport, hour, count)
    }

    /// One less where one goes; none where the number is 0.
    pub(crate) fn leave(&mut self, gone: Option<(u32, u32)>) -> Result<(), NoMem>
        ensures { OnOk result (Leaves self.old self.new gone) }
    {
        let Some((airport, hour)) = gone else {
            return Ok(());
        };
        let count = self.at(airport, hour).saturating_sub(1);
        self.write(airport, hour, count)
    }
}
