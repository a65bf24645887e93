//! The positions of a day, by airport.

ghost use Rattle.std.specs.Prelude.{◌≡◌, ◌∷◌, ◌++◌, ◌<◌, ◌≤◌, [], All, IfOk, OnOk, length, map, replicate, slice_index_or, slice_set};
ghost use Rattle.ferry_legs.specs.Positions.{ArePositions, gained, lost, with_hand, with_one_less, with_one_more};

use crate::wanted::{Wanted, is_gained, is_lost, with_one_less, with_one_more};
use desk_data::{Airport, Instance, NoMem, PlaneInfo, PositionInfo};
use std::alloc::Global;

/// The positions of a day by airport, with no aircraft at hand. The only error is out of memory.
pub(crate) fn positions_of(alloc: Global, inst: &Instance) -> Result<Vec<Vec<Wanted>>, NoMem>
    ensures { IfOk result (λ airports. ArePositions inst.now (λ position. 0) (map (λ rows. rows.items) airports.items)) }
{
    // the day is a valid one: its positions are of airports that there are
    let _rows = inst.parts();
    let mut airports = no_positions(alloc, inst.airports() as usize)?;
    for position in inst.positions() {
        push_position(&mut airports, *position)?;
    }
    Ok(airports)
}

/// No positions, of so many airports.
fn no_positions(alloc: Global, count: usize) -> Result<Vec<Vec<Wanted>>, NoMem>
    ensures { IfOk result (λ airports. map (λ rows. rows.items) airports.items ≡ replicate count []) }
{
    let mut airports = Vec::with_capacity(alloc, count)?;
    for _ in 0..count {
        airports.push(Vec::new(alloc))?;
    }
    Ok(airports)
}

/// One position more, for which no aircraft is at hand.
fn push_position(airports: &mut Vec<Vec<Wanted>>, position: PositionInfo) -> Result<(), NoMem>
    requires { position.airport.0 < length airports.old.items }
    ensures { OnOk result (map (λ rows. rows.items) airports.new.items ≡ slice_set (map (λ rows. rows.items) airports.old.items) position.airport.0 (slice_index_or (map (λ rows. rows.items) airports.old.items) position.airport.0 [] ++ with_hand (λ position. 0) position ∷ [])) }
{
    airports[position.airport.0 as usize].push(Wanted {
        position,
        at_hand: 0,
    })?;
    Ok(())
}

/// An aircraft comes to an airport.
pub(crate) fn come(airports: &mut Vec<Vec<Wanted>>, plane: &PlaneInfo, airport: Airport)
    requires airport { airport.0 < length airports.old.items }
    requires few { All (λ w. w.at_hand < 2000) (slice_index_or (map (λ rows. rows.items) airports.old.items) airport.0 []) }
    ensures { map (λ rows. rows.items) airports.new.items ≡ slice_set (map (λ rows. rows.items) airports.old.items) airport.0 (map (with_one_more plane.now) (slice_index_or (map (λ rows. rows.items) airports.old.items) airport.0 [])) }
{
    add_one(&mut airports[airport.0 as usize], plane);
}

/// An aircraft leaves an airport.
pub(crate) fn leave(airports: &mut Vec<Vec<Wanted>>, plane: &PlaneInfo, airport: Airport)
    requires { airport.0 < length airports.old.items }
    ensures { map (λ rows. rows.items) airports.new.items ≡ slice_set (map (λ rows. rows.items) airports.old.items) airport.0 (map (with_one_less plane.now) (slice_index_or (map (λ rows. rows.items) airports.old.items) airport.0 [])) }
{
    take_one(&mut airports[airport.0 as usize], plane);
}

/// Counts an aircraft among those at hand, at each position that wants it.
fn add_one(rows: &mut Vec<Wanted>, plane: &PlaneInfo)
    requires { All (λ w. w.at_hand < 2000) rows.old.items }
    ensures { rows.new.items ≡ map (with_one_more plane.now) rows.old.items }
{
    for k in 0..rows.len() {
        rows[k] = with_one_more(plane, &rows[k]);
    }
}

/// Counts an aircraft no longer among those at hand, at each position that wants it.
fn take_one(rows: &mut Vec<Wanted>, plane: &PlaneInfo)
    ensures { rows.new.items ≡ map (with_one_less plane.now) rows.old.items }
{
    for k in 0..rows.len() {
        rows[k] = with_one_less(plane, &rows[k]);
    }
}

/// How many aircraft less are missing at these positions as an aircraft comes.
pub(crate) fn gained(plane: &PlaneInfo, rows: &[Wanted]) -> usize
    ensures { result ≡ gained plane.now rows.now }
{
    rows.iter().filter(|row| is_gained(plane, row)).count()
}

/// How many aircraft more are missing at these positions as an aircraft leaves.
pub(crate) fn lost(plane: &PlaneInfo, rows: &[Wanted]) -> usize
    ensures { result ≡ lost plane.now rows.now }
{
    rows.iter().filter(|row| is_lost(plane, row)).count()
}
