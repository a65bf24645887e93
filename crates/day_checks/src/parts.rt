//! Whether rows make a day.

ghost use Rattle.std.specs.Prelude.{◌≡◌, ◌≢◌, ◌↔◌, ◌≤◌, ◌<◌, ℕ, List, if◌then◌else◌, IsTrue, IfOk, All, AllPairs, length};
ghost use Rattle.tariff_prices.specs.Rows.{IsPrice};
ghost use Rattle.desk_data.specs.Valid.{IsSeen, IsPathOf, IsMoment, AreSeats, IsCap, IsAirport, IsMaint, IsPlane, IsLeg, IsReservation, IsPosition, IsDistance, AreDistinct, AreWithinLimits, AreParts};

use desk_data::{
    AirportInfo, Cap, DAY, LAST_SCHEDULED, LegInfo, List, MOMENTS_END, Maint, Minute, Name, NoMem,
    Parts, PlaneInfo, PositionInfo, Price, ResInfo, Seats,
};
use std::alloc::Global;
use std::collections::HashSet;
use tariff_prices::are_tariff_rows;

fn is_seen(name: &Name) -> bool
    ensures { IsTrue result ↔ IsSeen name.now }
{
    name.as_slice()
        .iter()
        .all(|byte| 0x21 <= *byte && *byte <= 0x7e)
}

fn is_moment(at: Minute) -> bool
    ensures { IsTrue result ↔ IsMoment at.0 }
{
    at.0 < MOMENTS_END
}

fn is_price(price: Price) -> bool
    ensures { IsTrue result ↔ IsPrice price.0 }
{
    price.0 <= 9_999_999_999_999
}

fn are_seats(seats: &Seats) -> bool
    ensures { IsTrue result ↔ AreSeats seats.now }
{
    seats.f <= 999 && seats.b <= 999 && seats.e <= 999
}

fn is_cap(cap: &Cap) -> bool
    ensures { IsTrue result ↔ IsCap cap.now }
{
    cap.deps <= 100_000 && cap.arrs <= 100_000 && cap.from < DAY && cap.to <= DAY
}

fn is_airport(airport: &AirportInfo) -> bool
    ensures { IsTrue result ↔ IsAirport airport.now }
{
    is_seen(&airport.name) && airport.caps.as_slice().iter().all(is_cap)
}

fn is_maint(airports: usize, maint: &Maint) -> bool
    ensures { IsTrue result ↔ IsMaint airports maint.now }
{
    (maint.airport.0 as usize) < airports
        && is_moment(maint.from)
        && is_moment(maint.to)
        && maint.minutes <= 100_000
}

fn are_plane_names(plane: &PlaneInfo) -> bool
    ensures { IsTrue result ↔ (IsSeen plane.now.name × IsSeen plane.now.model × IsSeen plane.now.family) }
{
    is_seen(&plane.name) && is_seen(&plane.model) && is_seen(&plane.family)
}

fn are_plane_numbers(plane: &PlaneInfo) -> bool
    ensures { IsTrue result ↔ ((plane.now.range ≤ 100000) × IsPrice plane.now.hourly.0 × (plane.now.turnaround ≤ 2880) × (plane.now.transit ≤ 2880)) }
{
    plane.range <= 100_000
        && is_price(plane.hourly)
        && plane.turnaround <= 2_880
        && plane.transit <= 2_880
}

fn is_plane(airports: usize, plane: &PlaneInfo) -> bool
    ensures { IsTrue result ↔ IsPlane airports plane.now }
{
    are_plane_names(plane)
        && are_seats(&plane.seats)
        && are_plane_numbers(plane)
        && (plane.origin.0 as usize) < airports
        && plane
            .maint
            .as_ref()
            .is_none_or(|maint| is_maint(airports, maint))
}

fn are_leg_numbers(leg: &LegInfo) -> bool
    ensures { IsTrue result ↔ ((leg.now.day < 36525) × (leg.now.sched.0 ≤ 52480000) × (1 ≤ leg.now.block) × (leg.now.block ≤ 2880) × (leg.now.distance ≤ 100000)) }
{
    leg.day < 36_525
        && leg.sched.0 <= LAST_SCHEDULED
        && 1 <= leg.block
        && leg.block <= 2_880
        && leg.distance <= 100_000
}

fn is_leg(airports: usize, planes: usize, legs: usize, leg: &LegInfo) -> bool
    ensures { IsTrue result ↔ IsLeg airports planes legs leg.now }
{
    is_seen(&leg.flight)
        && (leg.origin.0 as usize) < airports
        && (leg.dest.0 as usize) < airports
        && are_leg_numbers(leg)
        && (leg.plane.0 as usize) < planes
        && leg.prev.is_none_or(|prev| (prev.0 as usize) < legs)
}

fn is_path_of(legs: usize, res: &ResInfo) -> bool
    ensures { IsTrue result ↔ IsPathOf legs res.now.path }
{
    res.path
        .as_slice()
        .iter()
        .all(|(leg, _)| (leg.0 as usize) < legs)
}

fn is_reservation(legs: usize, res: &ResInfo) -> bool
    ensures { IsTrue result ↔ IsReservation legs res.now }
{
    let taken = res.path.as_slice().len();
    is_seen(&res.name)
        && is_price(res.price)
        && 1 <= res.count
        && res.count <= 1_000
        && 1 <= taken
        && taken <= 8
        && is_path_of(legs, res)
}

fn is_position(airports: usize, position: &PositionInfo) -> bool
    ensures { IsTrue result ↔ IsPosition airports position.now }
{
    (position.airport.0 as usize) < airports
        && is_seen(&position.model)
        && are_seats(&position.seats)
        && position.count <= 1_000
}

fn are_within_limits(parts: &Parts) -> bool
    ensures { IsTrue result ↔ AreWithinLimits parts.now }
{
    parts.airports.as_slice().len() <= 500
        && parts.planes.as_slice().len() <= 1_000
        && parts.legs.as_slice().len() <= 20_000
        && parts.res.as_slice().len() <= 100_000
        && parts.positions.as_slice().len() <= 10_000
}

/// A row that has a name, which no other row of its list may have. Where the bytes alone name it,
/// the number is 0.
trait Named {
    ghost key_of: { Self → List ℕ × ℕ };

    /// Its name: some bytes and a number.
    fn key(&self) -> (&[u8], u32)
        ensures bytes { result.0.now ≡ (key_of self.now).0 }
        ensures number { result.1 ≡ (key_of self.now).1 };
}

impl Named for AirportInfo {
    ghost key_of = { λ airport. (airport.name, 0) };

    fn key(&self) -> (&[u8], u32) {
        (self.name.as_slice(), 0)
    }
}

impl Named for PlaneInfo {
    ghost key_of = { λ plane. (plane.name, 0) };

    fn key(&self) -> (&[u8], u32) {
        (self.name.as_slice(), 0)
    }
}

impl Named for LegInfo {
    ghost key_of = { λ leg. (leg.flight, leg.day) };

    fn key(&self) -> (&[u8], u32) {
        (self.flight.as_slice(), self.day)
    }
}

impl Named for ResInfo {
    ghost key_of = { λ r. (r.name, (if r.inbound then 1 else 0)) };

    fn key(&self) -> (&[u8], u32) {
        (self.name.as_slice(), u32::from(self.inbound))
    }
}

fn are_named_apart<T: Named>(alloc: Global, rows: &[T]) -> Result<bool, NoMem>
    ensures { IfOk result (λ apart. IsTrue apart ↔ AllPairs (λ a b. T.key_of a ≢ T.key_of b) rows.now) }
{
    let mut seen = HashSet::new(alloc);
    for row in rows {
        if !seen.insert(row.key())? {
            return Ok(false);
        }
    }
    Ok(true)
}

fn are_distinct(alloc: Global, parts: &Parts) -> Result<bool, NoMem>
    ensures { IfOk result (λ distinct. IsTrue distinct ↔ AreDistinct parts.now) }
{
    Ok(
        are_named_apart(alloc, parts.airports.as_slice())?
            && are_named_apart(alloc, parts.planes.as_slice())?
            && are_named_apart(alloc, parts.legs.as_slice())?
            && are_named_apart(alloc, parts.res.as_slice())?,
    )
}

fn are_airports(parts: &Parts) -> bool
    ensures { IsTrue result ↔ All IsAirport parts.now.airports }
{
    parts.airports.as_slice().iter().all(is_airport)
}

fn are_planes(parts: &Parts) -> bool
    ensures { IsTrue result ↔ All (IsPlane (length parts.now.airports)) parts.now.planes }
{
    let airports = parts.airports.as_slice().len();
    parts
        .planes
        .as_slice()
        .iter()
        .all(|plane| is_plane(airports, plane))
}

fn are_legs(parts: &Parts) -> bool
    ensures { IsTrue result ↔ All (IsLeg (length parts.now.airports) (length parts.now.planes) (length parts.now.legs)) parts.now.legs }
{
    let airports = parts.airports.as_slice().len();
    let planes = parts.planes.as_slice().len();
    let legs = parts.legs.as_slice();
    legs.iter()
        .all(|leg| is_leg(airports, planes, legs.len(), leg))
}

fn are_reservations(parts: &Parts) -> bool
    ensures { IsTrue result ↔ All (IsReservation (length parts.now.legs)) parts.now.res }
{
    let legs = parts.legs.as_slice().len();
    parts
        .res
        .as_slice()
        .iter()
        .all(|res| is_reservation(legs, res))
}

fn are_positions(parts: &Parts) -> bool
    ensures { IsTrue result ↔ All (IsPosition (length parts.now.airports)) parts.now.positions }
{
    let airports = parts.airports.as_slice().len();
    parts
        .positions
        .as_slice()
        .iter()
        .all(|position| is_position(airports, position))
}

fn is_distance(distance: &Option<u32>) -> bool
    ensures { IsTrue result ↔ IsDistance distance.now }
{
    match distance {
        Some(minutes) => *minutes <= 100_000,
        None => true,
    }
}

fn are_distances_from(row: &List<Option<u32>>) -> bool
    ensures { IsTrue result ↔ All IsDistance row.now }
{
    row.as_slice().iter().all(is_distance)
}

fn are_distances(parts: &Parts) -> bool
    ensures { IsTrue result ↔ All (λ row. All IsDistance row) parts.now.dist }
{
    parts.dist.as_slice().iter().all(are_distances_from)
}

fn is_window(from: Minute, to: Minute) -> bool
    ensures { IsTrue result ↔ (IsMoment from.0 × IsMoment to.0) }
{
    is_moment(from) && is_moment(to)
}

/// Whether these rows make an instance: no list is longer than its limit, each number is in its
/// range, each name is of bytes from `!` to `~`, no two airports, aircraft, legs (by flight and
/// day) or reservations (by name and direction) are named alike, and no two rows of the tariff
/// say the same.
///
/// # Errors
///
/// Memory was refused.
pub fn are_parts(alloc: Global, parts: &Parts) -> Result<bool, NoMem>
    ensures { IfOk result (λ valid. IsTrue valid ↔ AreParts parts.now) }
{
    if !are_within_limits(parts)
        || !are_airports(parts)
        || !are_planes(parts)
        || !are_legs(parts)
        || !are_reservations(parts)
        || !are_positions(parts)
        || !are_distances(parts)
        || !is_window(parts.from, parts.to)
        || !are_tariff_rows(parts.tariff.rows.as_slice())
    {
        return Ok(false);
    }
    are_distinct(alloc, parts)
}
