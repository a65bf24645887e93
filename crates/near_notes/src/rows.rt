//! Numbers in rows.

ghost use Rattle.std.specs.Prelude.{◌≡◌, ℕ, ◌<◌, [], ◌==◌, if◌then◌else◌, IfOk, OnOk, length, map, replicate, slice_index_or};
ghost use Rattle.near_notes.specs.Rows.{IsPut, number_at};

use desk_units::NoMem;
use std::alloc::Global;
use std::marker::Model;

/// A number for each place, a row and a column: 0 where none was put. Contracts see it as its rows, each of which may
/// stop where only zeros follow.
#[derive(Drop)]
pub struct NumberRows {
    rows: Vec<Vec<u32>>,
}

impl Model for NumberRows {
    ghost use Rattle.std.specs.Prelude.{ℕ, List, map};

    ghost Value = { List (List ℕ) };

    ghost view = { λ n. map (λ row. row.items) n.rows.items };
}

impl NumberRows {
    /// So many rows of zeros. The only error is out of memory.
    pub fn zeros(alloc: Global, rows: usize) -> Result<NumberRows, NoMem>
        ensures { IfOk result (λ numbers. numbers ≡ replicate rows []) }
    {
        let mut all = Vec::with_capacity(alloc, rows)?;
        for _ in 0..rows {
            all.push(Vec::new(alloc))?;
        }
        Ok(NumberRows { rows: all })
    }

    /// How many rows there are.
    pub fn rows(&self) -> usize
        ensures { result ≡ length self.now }
    {
        self.rows.len()
    }

    /// The number at a place.
    pub fn at(&self, row: usize, column: usize) -> u32
        ensures { result ≡ number_at self.now row column }
    {
        match self.rows.as_slice().get(row) {
            Some(numbers) => number_in(numbers.as_slice(), column),
            None => 0,
        }
    }

    /// Puts a number at a place of a row that there is. The only error is out of memory, and then nothing is promised of the numbers.
    pub fn put(&mut self, row: usize, column: usize, number: u32) -> Result<(), NoMem>
        requires { row < length self.old }
        ensures { OnOk result (IsPut self.old self.new row column number) }
    {
        put_in(&mut self.rows[row], column, number)
    }
}

/// The number at a place of a row, 0 past its end.
fn number_in(numbers: &[u32], column: usize) -> u32
    ensures { result ≡ slice_index_or numbers.now column 0 }
{
    match numbers.get(column) {
        Some(number) => *number,
        None => 0,
    }
}

/// Puts a number at a place of a row.
fn put_in(numbers: &mut Vec<u32>, column: usize, number: u32) -> Result<(), NoMem>
    ensures { OnOk result ((c : ℕ) → slice_index_or numbers.new.items c 0 ≡ (if c == column then number else slice_index_or numbers.old.items c 0)) }
{
    while numbers.len() <= column {
        numbers.push(0)?;
    }
    numbers[column] = number;
    Ok(())
}
