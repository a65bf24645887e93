//! Seats, by cabin.

ghost use Rattle.std.specs.Prelude.{◌≡◌};
ghost use Rattle.desk_rules.specs.Cost.{same_seats};
ghost use Rattle.desk_rules.specs.Passengers.{seats_in};

use desk_data::{Cabin, Seats};

/// The seats of a cabin, of an aircraft or taken on a leg.
pub fn seats_in(seats: Seats, cabin: Cabin) -> u32
    ensures { result ≡ seats_in seats cabin }
{
    match cabin {
        Cabin::F => seats.f,
        Cabin::B => seats.b,
        Cabin::E => seats.e,
    }
}

/// Whether both have as many seats in each cabin.
pub fn same_seats(seats: Seats, other: Seats) -> bool
    ensures { result ≡ same_seats seats other }
{
    seats.f == other.f && seats.b == other.b && seats.e == other.e
}
