//! Why a row of itineraries.csv is refused.

ghost use Rattle.std.specs.Prelude.{◌≡◌, ◌||◌, ◌<◌, take, get_or, length, is_some, nat_lt};
ghost use Rattle.std.specs.List.{list_any, list_all};
ghost use Rattle.file_rows.specs.Limits.{most_passengers, most_legs};
ghost use Rattle.build_tables.specs.Names.{leg_places};
ghost use Rattle.build_refusals.specs.First.{first_refusal_in};
ghost use Rattle.build_refusals.specs.Itineraries.{itinerary_cause, is_same_reservation, has_known_legs};

use crate::before::is_before;
use build_tables::{NameTables, cut_legs};
use file_rows::{Cause, ItineraryRow, MOST_ITINERARIES, MOST_LEGS, MOST_PASSENGERS};

/// Whether a reservation has more passengers or more legs than it may have.
fn is_too_large(row: &ItineraryRow) -> bool
    ensures { result ≡ (nat_lt most_passengers row.now.count || nat_lt most_legs (length row.now.legs)) }
{
    row.count > MOST_PASSENGERS || row.legs.as_slice().len() > MOST_LEGS
}

/// Whether the reservation of the row at this place stands before it. It is looked for only where two rows
/// are of one.
fn has_reservation_before(tables: &NameTables<'_>, row: &ItineraryRow, place: usize) -> bool
    requires below { place < length tables.now.files.now.itineraries }
    requires at { row.now ≡ get_or tables.now.files.now.itineraries place row.now }
    ensures { result ≡ list_any (is_same_reservation row.now) (take place tables.now.files.now.itineraries) }
{
    if tables.are_reservations_apart() {
        return false;
    }
    is_before(tables.itinerary_place(&row.name, row.inbound), place)
}

/// Whether there is a rotation of each leg, whose places these are.
fn are_known(legs: &[Option<usize>]) -> bool
    ensures { result ≡ list_all is_some legs.now }
{
    legs.iter().all(|place| place.is_some())
}

/// Whether there is a rotation of each leg of a reservation, given the places of these.
fn has_known_legs(tables: &NameTables<'_>, row: &ItineraryRow, legs: &[Option<usize>]) -> bool
    requires { legs.now ≡ leg_places tables.now.files.now.rotations row.now }
    ensures { result ≡ has_known_legs tables.now.files.now.rotations row.now }
{
    are_known(legs)
}

/// Why the row at this place is refused, where it is, given the places of the rotations of its legs.
#[tactic(auto, unfolding(crate::specs::Itineraries::itinerary_cause))]
fn itinerary_cause(
    tables: &NameTables<'_>,
    place: usize,
    row: &ItineraryRow,
    legs: &[Option<usize>],
) -> Option<Cause>
    requires below { place < length tables.now.files.now.itineraries }
    requires at { row.now ≡ get_or tables.now.files.now.itineraries place row.now }
    requires legs { legs.now ≡ leg_places tables.now.files.now.rotations row.now }
    ensures { result ≡ itinerary_cause tables.now.files.now place row.now }
{
    if place >= MOST_ITINERARIES || is_too_large(row) {
        Some(Cause::Limit)
    } else if has_reservation_before(tables, row, place) {
        Some(Cause::Twice)
    } else if has_known_legs(tables, row, legs) {
        None
    } else {
        Some(Cause::Unknown)
    }
}

/// The line of the first reservation that is refused, and why.
pub(crate) fn itinerary_refusal(tables: &NameTables<'_>) -> Option<(u32, Cause)>
    ensures { result ≡ first_refusal_in (itinerary_cause tables.now.files.now) (λ row. row.line) tables.now.files.now.itineraries }
{
    let rows = tables.files.itineraries.as_slice();
    let mut rest = tables.leg_places();
    for (place, row) in rows.iter().enumerate() {
        let (legs, after) = cut_legs(rest, row);
        if let Some(cause) = itinerary_cause(tables, place, row, legs) {
            return Some((row.line, cause));
        }
        rest = after;
    }
    None
}
