//! The places of rows, found by what they are named by.

ghost use Rattle.std.specs.Prelude.{◌≡◌, ◌≢◌, ◌≤◌, ◌<◌, ◌^◌, IfOk, IfSome, OnOk, length, map, position, AllPairs};
ghost use Rattle.file_joins.specs.Keys.{is_key, key_in, with_key};

use desk_units::NoMem;
use indexmap::IndexSet;
use std::alloc::Global;
use std::marker::Model;

/// What a row is found by.
#[derive(Clone, Copy, PartialEq, Eq, Hash)]
pub(crate) enum Key<'a> {
    /// An aircraft or an airport, by its name.
    Named(&'a [u8]),
    /// A leg, by its flight and its day.
    OnDay(&'a [u8], u32),
    /// A reservation, by its name and whether it is inbound.
    Booked(&'a [u8], bool),
}

/// A row that is found by a key.
pub(crate) trait Keyed {
    ghost use Rattle.file_joins.specs.Keys.{Key as RowKey, key_in};

    ghost key_of: { Self → RowKey };

    /// Its key.
    fn key(&self) -> Key<'_>
        ensures { key_in result ≡ key_of self.now };
}

/// Different keys in the order of their rows.
pub(crate) struct NamePlaces<'a> {
    keys: IndexSet<Key<'a>>,
}

/// Dropped in one call, so that a function that owns one proves it once, and not part by part.
impl<'a> Drop for NamePlaces<'a> {
    fn drop(self) {
        let NamePlaces { keys: _ } = self;
    }
}

impl<'a> Model for NamePlaces<'a> {
    ghost use Rattle.std.specs.Prelude.{List, map};
    ghost use Rattle.file_joins.specs.Keys.{Key as RowKey, key_in};

    ghost Value = { List RowKey };

    ghost view = { λ p. map key_in p.keys.keys };
}

impl<'a> NamePlaces<'a> {
    /// The place of the row with this key, from 0.
    pub(crate) fn place_of(&self, key: Key<'_>) -> Option<u32>
        requires { length self.now ≤ 2 ^ 32 }
        ensures place { result ≡ position (is_key (key_in key.entry)) self.now }
        ensures within { IfSome result (λ place. place < length self.now) }
    {
        let place = self.keys.get_index_of(&key)?;
        Some(place as u32)
    }

    // Puts a key after the others, where it is not among them. The only error is out of memory.
    fn put(&mut self, key: Key<'a>) -> Result<(), NoMem>
        ensures { OnOk result (self.new ≡ with_key self.old (key_in key.entry)) }
    {
        let _ = self.keys.insert_full(key)?;
        Ok(())
    }
}

/// The places of these rows, no two of which have the same key.
pub(crate) fn places_of<'a, T: Keyed>(alloc: Global, rows: &'a [T]) -> Result<NamePlaces<'a>, NoMem>
    requires { AllPairs (λ a b. T.key_of a ≢ T.key_of b) rows.now }
    ensures { IfOk result (λ places. places ≡ map T.key_of rows.now) }
{
    let mut places = NamePlaces {
        keys: IndexSet::with_capacity(alloc, rows.len())?,
    };
    for row in rows {
        places.put(row.key())?;
    }
    Ok(places)
}
