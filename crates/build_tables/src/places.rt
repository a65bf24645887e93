//! The places of rows, found by the names that they have.

ghost use Rattle.std.specs.Prelude.{◌≡◌, true, [], ◌∷◌, Some, None, IfOk, OnOk, if◌then◌else◌};
ghost use Rattle.std.specs.Cmp.Rules.{hashing};
ghost use Rattle.std.proofs.Common.{rules};
ghost use Rattle.build_tables.specs.Keys.{Key as RowKey, is_key, AreApart};
ghost use Rattle.build_tables.specs.Found.{ArePlacesOf, place_in, key_of_borrowed, hash_input};

use desk_units::{List, Name, NoMem};
use indexmap::IndexMap;
use std::alloc::Global;
use std::hash::{Hash, Hasher};

/// The bytes of a name, which a hasher takes in one write.
#[derive(Clone, Copy, PartialEq, Eq)]
pub(crate) struct Spelled<'a>(&'a [u8]);

impl<'a> Spelled<'a> {
    /// The bytes of this name.
    pub(crate) fn of(name: &'a Name) -> Spelled<'a>
        ensures { result.0.now ≡ name.now }
    {
        Spelled(name.as_slice())
    }
}

impl<'a> Hash for Spelled<'a> {
    ghost hash_input = { λ name. name.0.now ∷ [] };

    ghost respects_eq = { Prim.search (hashing, rules) };

    fn hash<H: Hasher>(&self, state: &mut H) {
        state.write(self.0);
    }
}

/// What a row is found by.
#[derive(Clone, Copy, PartialEq, Eq)]
pub(crate) enum Key<'a> {
    /// A flight, an aircraft or an airport, by its name.
    Named(Spelled<'a>),
    /// A rotation, by its flight and its day.
    OnDay(Spelled<'a>, u32),
    /// A distance, by the two airports.
    Between(Spelled<'a>, Spelled<'a>),
    /// A reservation, by its name and whether it is inbound.
    Booked(Spelled<'a>, bool),
}

/// The keys of a table are of one kind, so the kind is not hashed.
impl<'a> Hash for Key<'a> {
    ghost hash_input = { hash_input };

    ghost respects_eq = { Prim.search (hashing, rules) };

    fn hash<H: Hasher>(&self, state: &mut H) {
        match self {
            Key::Named(name) => name.hash(state),
            Key::OnDay(flight, day) => {
                flight.hash(state);
                state.write_u32(*day);
            }
            Key::Between(origin, dest) => {
                origin.hash(state);
                dest.hash(state);
            }
            Key::Booked(name, inbound) => {
                name.hash(state);
                inbound.hash(state);
            }
        }
    }
}

/// A row that is found by a key.
pub(crate) trait Keyed {
    ghost use Rattle.build_tables.specs.Keys.{Key as RowKey};
    ghost use Rattle.build_tables.specs.Found.{key_of_borrowed};

    ghost key_of: { Self → RowKey };

    /// Its key.
    fn key(&self) -> Key<'_>
        ensures { key_of_borrowed result ≡ key_of self.now };
}

/// The places of rows by their keys, counted from 0. A key stands for the first row that has it.
pub(crate) struct RowPlaces<'a> {
    places: IndexMap<Key<'a>, usize>,
    /// Whether no two rows have one key, which spares those who ask each row whether its key came before.
    apart: bool,
}

/// Dropped in one call, so that a function that owns one proves it once, and not part by part.
impl<'a> Drop for RowPlaces<'a> {
    fn drop(self) {
        let RowPlaces {
            places: _,
            apart: _,
        } = self;
    }
}

impl<'a> RowPlaces<'a> {
    /// Of no rows.
    pub(crate) fn none(alloc: Global) -> Result<RowPlaces<'a>, NoMem>
        ensures { IfOk result (λ none. (k : RowKey) → place_in none k ≡ None) }
    {
        Ok(RowPlaces {
            places: IndexMap::with_capacity(alloc, 0)?,
            apart: true,
        })
    }

    /// The place of the first row with this key.
    pub(crate) fn place_of(&self, key: Key<'_>) -> Option<usize>
        ensures { result ≡ place_in self.now (key_of_borrowed key.entry) }
    {
        self.places.get(&key).copied()
    }

    /// Whether no two rows have one key.
    pub(crate) fn are_apart(&self) -> bool
        ensures { result ≡ self.now.apart }
    {
        self.apart
    }

    // Puts in the place of a row that stands before those whose places are in. The only error is out of memory.
    pub(crate) fn put(&mut self, key: Key<'a>, place: usize) -> Result<(), NoMem>
        ensures kept { OnOk result ((k : RowKey) → place_in self.new k ≡ (if is_key k (key_of_borrowed key.entry) then Some place else place_in self.old k)) }
        ensures apart { OnOk result (self.new.apart ≡ true → self.old.apart ≡ true) }
        ensures new { OnOk result (self.new.apart ≡ true → place_in self.old (key_of_borrowed key.entry) ≡ None) }
    {
        let later = self.places.insert(key, place)?;
        self.apart &= later.is_none();
        Ok(())
    }
}

/// The places of these rows. They are put in from the last row on, so that of those with one key the
/// first stays.
fn places_of<'a, T: Keyed>(alloc: Global, rows: &'a [T]) -> Result<RowPlaces<'a>, NoMem>
    ensures places { IfOk result (ArePlacesOf T.key_of rows.now) }
    ensures apart { IfOk result (λ kept. kept.apart ≡ true → AreApart T.key_of rows.now) }
{
    let mut found = RowPlaces {
        places: IndexMap::with_capacity(alloc, rows.len())?,
        apart: true,
    };
    let mut place = rows.len();
    while place > 0 {
        place -= 1;
        found.put(rows[place].key(), place)?;
    }
    Ok(found)
}

/// The places of the rows of a list.
pub(crate) fn places_in<'a, T: Keyed>(
    alloc: Global,
    rows: &'a List<T>,
) -> Result<RowPlaces<'a>, NoMem>
    ensures places { IfOk result (ArePlacesOf T.key_of rows.now) }
    ensures apart { IfOk result (λ kept. kept.apart ≡ true → AreApart T.key_of rows.now) }
{
    places_of(alloc, rows.as_slice())
}
