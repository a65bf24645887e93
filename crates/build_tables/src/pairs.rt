//! The places of the rows of dist.csv, found by the places of their two airports.

ghost use Rattle.std.specs.Prelude.{◌≡◌, ◌+◌, ◌*◌, ◌<◌, ◌≤◌, true, None, Some, List, ℕ, length, min, slice_index_or, IfOk, OnOk, IfSome, if◌then◌else◌};
ghost use Rattle.build_tables.specs.Keys.{Key as RowKey, by_name, between, is_key, AreApart};
ghost use Rattle.build_tables.specs.Found.{ArePlacesOf, place_in};
ghost use Rattle.build_tables.specs.Names.{airport_place, is_between};
ghost use Rattle.build_tables.specs.Pairs.{pair_place, pair_at, numbered_with, named_with, place_between, ArePairPlaces};

use crate::files::Files;
use crate::places::{Key, Keyed, RowPlaces, Spelled};
use desk_units::{Name, NoMem};
use file_rows::DistRow;
use std::alloc::Global;

/// Near which places the airports of a row are looked for.
#[derive(Clone, Copy)]
pub(crate) struct Near {
    origin: usize,
    dest: usize,
}

/// The places of rows by their two airports, counted from 0. Two names stand for the first row that has them.
pub(crate) struct PairPlaces<'a> {
    /// By the places of two airports, where both are among the first 500.
    pairs: Vec<Option<usize>>,
    /// By the two names, of the other rows.
    others: RowPlaces<'a>,
}

/// Dropped in one call, so that a function that owns one proves it once, and not part by part.
impl<'a> Drop for PairPlaces<'a> {
    fn drop(self) {
        let PairPlaces {
            pairs: _,
            others: _,
        } = self;
    }
}

/// The number of a pair of airports, by the places of the two, which are below 500.
pub(crate) fn pair_place(origin: usize, dest: usize) -> usize
    requires origin { origin < 500 }
    requires dest { dest < 500 }
    ensures { result ≡ pair_place origin dest }
{
    500 * origin + dest
}

/// The number of a pair of airports, where both have places and these are below 500.
pub(crate) fn pair_at(origin: Option<usize>, dest: Option<usize>) -> Option<usize>
    ensures { result ≡ pair_at origin dest }
{
    match origin {
        Some(origin) => match dest {
            Some(dest) => {
                if origin < 500 && dest < 500 {
                    Some(pair_place(origin, dest))
                } else {
                    None
                }
            }
            None => None,
        },
        None => None,
    }
}

/// The place of an airport. Where no two have one name it is looked for at a place first.
fn place_near(files: &Files, airports: &RowPlaces<'_>, near: usize, name: &Name) -> Option<usize>
    requires placed { ArePlacesOf (λ row. by_name row.airport) files.now.airports airports.now }
    requires apart { airports.now.apart ≡ true → AreApart (λ row. by_name row.airport) files.now.airports }
    ensures { result ≡ airport_place files.now.airports name.now }
{
    if airports.are_apart() {
        if let Some(row) = files.airports.as_slice().get(near) {
            if row.airport.as_slice() == name.as_slice() {
                return Some(near);
            }
        }
    }
    airports.place_of(Key::Named(Spelled::of(name)))
}

/// Near which places to look for the airports of the row before one whose airports have these places.
fn near_to(origin: Option<usize>, dest: Option<usize>) -> Near {
    Near {
        origin: origin.unwrap_or(0),
        dest: dest.unwrap_or(0).saturating_sub(1),
    }
}

impl<'a> PairPlaces<'a> {
    /// No places yet, of rows between so many airports.
    fn none(alloc: Global, airports: usize) -> Result<PairPlaces<'a>, NoMem>
        ensures long { IfOk result (λ none. length none.pairs.items ≡ 500 * min airports 500) }
        ensures numbered { IfOk result (λ none. (k : ℕ) → slice_index_or none.pairs.items k None ≡ None) }
        ensures named { IfOk result (λ none. (k : RowKey) → place_in none.others k ≡ None) }
    {
        let pairs = vec![in alloc; None; 500 * airports.min(500)]?;
        let others = RowPlaces::none(alloc)?;
        Ok(PairPlaces { pairs, others })
    }

    /// The place that is kept under the number of a pair.
    pub(crate) fn place_at(&self, pair: usize) -> Option<usize>
        ensures { result ≡ slice_index_or self.now.pairs.items pair None }
    {
        match self.pairs.as_slice().get(pair) {
            Some(place) => *place,
            None => None,
        }
    }

    /// The place that is kept under two names.
    pub(crate) fn place_named(&self, origin: &Name, dest: &Name) -> Option<usize>
        ensures { result ≡ place_in self.now.others (between origin.now dest.now) }
    {
        self.others
            .place_of(Key::Between(Spelled::of(origin), Spelled::of(dest)))
    }

    // Keeps the place of a row, under the number of its pair or else under its names.
    fn keep(&mut self, pair: Option<usize>, row: &'a DistRow, place: usize) -> Result<(), NoMem>
        requires { IfSome pair (λ k. k < length self.old.pairs.items) }
        ensures numbered { OnOk result (self.new.pairs.items ≡ numbered_with self.old.pairs.items pair place) }
        ensures named { OnOk result ((k : RowKey) → place_in self.new.others k ≡ named_with (place_in self.old.others k) pair (is_key k (between row.now.origin row.now.dest)) place) }
    {
        match pair {
            Some(pair) => {
                self.pairs.as_mut_slice()[pair] = Some(place);
                Ok(())
            }
            None => self.others.put(row.key(), place),
        }
    }

    // Puts in the place of a row that stands before those whose places are in, and says near which places to look
    // for the airports of the row before it.
    fn put(
        &mut self,
        files: &Files,
        airports: &RowPlaces<'_>,
        near: Near,
        row: &'a DistRow,
        place: usize,
    ) -> Result<Near, NoMem>
        requires placed { ArePlacesOf (λ row. by_name row.airport) files.now.airports airports.now }
        requires apart { airports.now.apart ≡ true → AreApart (λ row. by_name row.airport) files.now.airports }
        requires long { length self.old.pairs.items ≡ 500 * min (length files.now.airports) 500 }
        ensures long { OnOk result (length self.new.pairs.items ≡ length self.old.pairs.items) }
        ensures kept { OnOk result ((origin dest : List ℕ) → place_between files.now.airports self.new origin dest ≡ (if is_between origin dest row.now then Some place else place_between files.now.airports self.old origin dest)) }
    {
        let origin = place_near(files, airports, near.origin, &row.origin);
        let dest = place_near(files, airports, near.dest, &row.dest);
        self.keep(pair_at(origin, dest), row, place)?;
        Ok(near_to(origin, dest))
    }
}

/// The places of the rows of dist.csv. They are put in from the last row on, so that of those with the same airports
/// the first stays.
pub(crate) fn pairs_in<'a>(
    alloc: Global,
    files: &'a Files,
    airports: &RowPlaces<'_>,
) -> Result<PairPlaces<'a>, NoMem>
    requires placed { ArePlacesOf (λ row. by_name row.airport) files.now.airports airports.now }
    requires apart { airports.now.apart ≡ true → AreApart (λ row. by_name row.airport) files.now.airports }
    ensures { IfOk result (ArePairPlaces files.now.airports files.now.dist) }
{
    let rows = files.dist.as_slice();
    let mut found = PairPlaces::none(alloc, files.airports.as_slice().len())?;
    let mut near = Near { origin: 0, dest: 0 };
    let mut place = rows.len();
    while place > 0 {
        place -= 1;
        near = found.put(files, airports, near, &rows[place], place)?;
    }
    Ok(found)
}
