//! The seats that are left on each leg.

ghost use Rattle.std.specs.Prelude.{◌≡◌, [], ◌++◌, ◌∷◌, ◌<◌, ◌≤◌, length, slice_set, IfOk};
ghost use Rattle.output_texts.specs.Seats.{in_cabin, fewer, plane_seats, row_at, AreLeft, IsTripWithin, granted_by, rows_without};

use crate::demand::{Request, Trip};
use crate::fleet::{kind_of, seats_of};
use desk_units::{Cabin, NoMem, Seats};
use std::alloc::Global;

// The seats of an aircraft.
fn plane_seats(plane: u32) -> Seats
    ensures { result ≡ plane_seats plane }
{
    let kind = kind_of(plane);
    Seats {
        f: seats_of(kind, Cabin::F),
        b: seats_of(kind, Cabin::B),
        e: seats_of(kind, Cabin::E),
    }
}

/// The seats on each leg of a day of this size, 1 to 40, before any is taken. The only error is out
/// of memory.
pub(crate) fn all_seats(alloc: Global, size: u32) -> Result<Vec<Seats>, NoMem>
    requires { size ≤ 40 }
    ensures { IfOk result (λ rows. AreLeft size [] rows.items) }
{
    let mut rows = Vec::new(alloc);
    for x in 0..24 * size {
        rows.push(plane_seats(x / 4))?;
    }
    Ok(rows)
}

// The seats of one cabin.
fn in_cabin(seats: Seats, cabin: Cabin) -> u32
    ensures { result ≡ in_cabin seats cabin }
{
    match cabin {
        Cabin::F => seats.f,
        Cabin::B => seats.b,
        Cabin::E => seats.e,
    }
}

// So many fewer seats in one cabin.
fn fewer(seats: Seats, cabin: Cabin, count: u32) -> Seats
    requires { count ≤ in_cabin seats cabin }
    ensures { result ≡ fewer seats cabin count }
{
    let Seats { f, b, e } = seats;
    match cabin {
        Cabin::F => Seats { f: f - count, b, e },
        Cabin::B => Seats { f, b: b - count, e },
        Cabin::E => Seats { f, b, e: e - count },
    }
}

/// For how many passengers of a reservation there are seats on each of its legs.
pub(crate) fn granted(rows: &[Seats], request: &Request) -> u32
    requires { IsTripWithin (length rows.now) request.now.trip }
    ensures { result ≡ granted_by rows.now request.now }
{
    let room = match request.trip {
        Trip::One(x) => in_cabin(rows[x as usize], request.cabin),
        Trip::Two(x, y) => {
            let first = in_cabin(rows[x as usize], request.cabin);
            first.min(in_cabin(rows[y as usize], request.cabin))
        }
    };
    request.passengers.min(room)
}

// Takes so many seats of a cabin on one leg.
fn take_seats(rows: &mut Vec<Seats>, x: u32, cabin: Cabin, count: u32)
    requires leg { x < length rows.old.items }
    requires room { count ≤ in_cabin (row_at rows.old.items x) cabin }
    ensures { rows.new.items ≡ slice_set rows.old.items x (fewer (row_at rows.old.items x) cabin count) }
{
    rows[x as usize] = fewer(rows[x as usize], cabin, count);
}

/// Takes the seats of a reservation for so many passengers, for whom there are seats.
pub(crate) fn take(rows: &mut Vec<Seats>, request: &Request, count: u32)
    requires within { IsTripWithin (length rows.old.items) request.now.trip }
    requires room { count ≤ granted_by rows.old.items request.now }
    ensures { rows.new.items ≡ rows_without rows.old.items request.now count }
{
    match request.trip {
        Trip::One(x) => take_seats(rows, x, request.cabin, count),
        Trip::Two(x, y) => {
            take_seats(rows, x, request.cabin, count);
            take_seats(rows, y, request.cabin, count);
        }
    }
}
