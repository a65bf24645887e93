//! One position, with the aircraft that are at hand for it.

ghost use Rattle.std.specs.Prelude.{◌≡◌, ◌<◌};
ghost use Rattle.desk_rules.specs.Cost.{is_wanted};
ghost use Rattle.ferry_legs.specs.Positions.{is_gained, is_lost, with_one_less, with_one_more};

use desk_data::{PlaneInfo, PositionInfo};
use plan_reads::same_seats;

/// A position, and how many of the aircraft that it wants are at hand.
#[derive(Clone, Copy)]
pub(crate) struct Wanted {
    pub(crate) position: PositionInfo,
    pub(crate) at_hand: u32,
}

/// Whether one aircraft less is missing as an aircraft comes.
pub(crate) fn is_gained(plane: &PlaneInfo, wanted: &Wanted) -> bool
    ensures { result ≡ is_gained plane.now wanted.now }
{
    is_wanted(&wanted.position, plane) && wanted.at_hand < wanted.position.count
}

/// Whether one aircraft more is missing as an aircraft leaves, which is at hand.
pub(crate) fn is_lost(plane: &PlaneInfo, wanted: &Wanted) -> bool
    ensures { result ≡ is_lost plane.now wanted.now }
{
    is_wanted(&wanted.position, plane) && wanted.at_hand <= wanted.position.count
}

/// A position as an aircraft comes. There are at most 1,000 aircraft.
pub(crate) fn with_one_more(plane: &PlaneInfo, wanted: &Wanted) -> Wanted
    requires { wanted.now.at_hand < 2000 }
    ensures { result ≡ with_one_more plane.now wanted.now }
{
    if !is_wanted(&wanted.position, plane) {
        return *wanted;
    }
    Wanted {
        at_hand: wanted.at_hand + 1,
        ..*wanted
    }
}

/// A position as an aircraft leaves.
pub(crate) fn with_one_less(plane: &PlaneInfo, wanted: &Wanted) -> Wanted
    ensures { result ≡ with_one_less plane.now wanted.now }
{
    if !is_wanted(&wanted.position, plane) {
        return *wanted;
    }
    Wanted {
        at_hand: wanted.at_hand.saturating_sub(1),
        ..*wanted
    }
}

/// Whether an aircraft has the model and the seats of a position.
fn is_wanted(position: &PositionInfo, plane: &PlaneInfo) -> bool
    ensures { result ≡ is_wanted position.now plane.now }
{
    position.model.as_slice() == plane.model.as_slice() && same_seats(position.seats, plane.seats)
}
