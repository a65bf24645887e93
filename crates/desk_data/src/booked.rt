//! What reservations booked, from their scheduled paths: worked out once for a day.

ghost use Rattle.std.specs.Prelude.{◌≡◌, ◌<◌, ◌≤◌, IfOk, length};
ghost use Rattle.desk_data.specs.Booked.{AreBookings, IsBooked, booked_path, higher_cabin, higher_haul, highest_cabin, highest_haul};
ghost use Rattle.desk_data.specs.Situation.{fresh_day, leg_at};
ghost use Rattle.desk_data.specs.Valid.{AreParts, IsLeg, IsPathOf};

use crate::info::LegInfo;
use crate::parts::Parts;
use desk_units::{Airport, Cabin, Haul, Leg, List, Minute, NoMem, Res};
use std::alloc::Global;

/// What a reservation booked.
#[derive(Clone, Copy)]
pub struct Booked {
    /// Where its first leg leaves.
    pub origin: Airport,
    /// Where its last leg arrives.
    pub dest: Airport,
    /// The scheduled departure of its first leg.
    pub departure: Minute,
    /// The scheduled arrival of its last leg: at most 52,482,880.
    pub arrival: Minute,
    /// The highest haul of its legs.
    pub haul: Haul,
    /// The highest of its cabins, its reference cabin.
    pub cabin: Cabin,
}

/// What each reservation of a day booked, by its number: in a walk over the legs of all scheduled
/// paths.
pub(crate) fn bookings_of(alloc: Global, parts: &Parts) -> Result<List<Booked>, NoMem>
    requires { AreParts parts.now }
    ensures { IfOk result (AreBookings (fresh_day parts.now)) }
{
    let count = parts.res.as_slice().len();
    let mut bookings = Vec::with_capacity(alloc, count)?;
    for r in 0..count {
        bookings.push(booked_of(parts, Res(r as u32)))?;
    }
    Ok(List(bookings))
}

#[tactic(auto, unfolding(crate::specs::Booked::origin_of, crate::specs::Booked::dest_of, crate::specs::Booked::booked_departure, crate::specs::Booked::booked_arrival, crate::specs::Booked::haul_of, crate::specs::Booked::reference_of))]
fn booked_of(parts: &Parts, res: Res) -> Booked
    requires parts { AreParts parts.now }
    requires res { res.0 < length parts.now.res }
    ensures { IsBooked (fresh_day parts.now) res.0 result }
{
    let path = path_of(parts, res);
    let first = leg_of(parts, path[0].0);
    let last = leg_of(parts, path[path.len() - 1].0);
    Booked {
        origin: first.origin,
        dest: last.dest,
        departure: first.sched,
        arrival: Minute(last.sched.0 + last.block),
        haul: highest_haul(parts, path),
        cabin: highest_cabin(path),
    }
}

/// The scheduled path of a reservation.
fn path_of(parts: &Parts, res: Res) -> &[(Leg, Cabin)]
    requires parts { AreParts parts.now }
    requires res { res.0 < length parts.now.res }
    ensures path { result.now ≡ booked_path (fresh_day parts.now) res.0 }
    ensures legs { IsPathOf (length parts.now.legs) result.now }
    ensures starts { 1 ≤ length result.now }
{
    parts.res.as_slice()[res.0 as usize].path.as_slice()
}

fn leg_of(parts: &Parts, leg: Leg) -> &LegInfo
    requires parts { AreParts parts.now }
    requires leg { leg.0 < length parts.now.legs }
    ensures row { result.now ≡ leg_at (fresh_day parts.now) leg.0 }
    ensures ranges { IsLeg (length parts.now.airports) (length parts.now.planes) (length parts.now.legs) result.now }
{
    &parts.legs.as_slice()[leg.0 as usize]
}

/// The highest haul of the legs of a path; domestic for the empty path.
fn highest_haul(parts: &Parts, path: &[(Leg, Cabin)]) -> Haul
    requires parts { AreParts parts.now }
    requires path { IsPathOf (length parts.now.legs) path.now }
    ensures { result ≡ highest_haul (fresh_day parts.now) path.now }
{
    let mut highest = Haul::D;
    for (leg, _) in path {
        highest = higher_haul(highest, leg_of(parts, *leg).haul);
    }
    highest
}

fn higher_haul(haul: Haul, other: Haul) -> Haul
    ensures { result ≡ higher_haul haul other }
{
    if haul.rank() < other.rank() {
        other
    } else {
        haul
    }
}

/// The highest cabin of a path; economy for the empty path.
fn highest_cabin(path: &[(Leg, Cabin)]) -> Cabin
    ensures { result ≡ highest_cabin path.now }
{
    let mut highest = Cabin::E;
    for (_, cabin) in path {
        highest = higher_cabin(highest, *cabin);
    }
    highest
}

fn higher_cabin(cabin: Cabin, other: Cabin) -> Cabin
    ensures { result ≡ higher_cabin cabin other }
{
    if other.rank() < cabin.rank() {
        other
    } else {
        cabin
    }
}
