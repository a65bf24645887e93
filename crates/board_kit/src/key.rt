//! An item by three numbers, in whose order items are reported.

ghost use Rattle.std.specs.Prelude.{◌≡◌};
ghost use Rattle.board_kit.specs.Items.{cabin_of, item_of, key_of};

use desk_data::{Airport, Broken, Cabin, Leg, Plane, Res};

/// The number of an item's rule; of the leg, aircraft, airport or reservation that it names; and its
/// hour or the rank of its cabin, 0 where it names none.
#[derive(Clone, Copy, PartialEq, Eq, PartialOrd, Ord)]
pub(crate) struct ItemKey {
    pub rule: u32,
    pub named: u32,
    pub part: u32,
}

/// The numbers of an item.
pub(crate) fn key_of(item: Broken) -> ItemKey
    ensures { result ≡ key_of item }
{
    let (rule, named, part) = match item {
        Broken::C1(leg) => (1, leg.0, 0),
        Broken::C2(leg) => (2, leg.0, 0),
        Broken::C3(leg) => (3, leg.0, 0),
        Broken::C4(leg) => (4, leg.0, 0),
        Broken::C5(leg) => (5, leg.0, 0),
        Broken::C6(leg) => (6, leg.0, 0),
        Broken::C7(leg) => (7, leg.0, 0),
        Broken::C8(plane) => (8, plane.0, 0),
        Broken::C9(plane) => (9, plane.0, 0),
        Broken::C10(airport, hour) => (10, airport.0, hour),
        Broken::C11(airport, hour) => (11, airport.0, hour),
        Broken::C12(leg, cabin) => (12, leg.0, cabin.rank() as u32),
        Broken::C13(res) => (13, res.0, 0),
        Broken::C14(res) => (14, res.0, 0),
        Broken::C15(res) => (15, res.0, 0),
    };
    ItemKey { rule, named, part }
}

/// The item that has these numbers.
#[tactic(auto, unfolding(crate::specs::Items::item_of))]
pub(crate) fn item_of(key: ItemKey) -> Broken
    ensures { result ≡ item_of key }
{
    let ItemKey { rule, named, part } = key;
    match rule {
        1 => Broken::C1(Leg(named)),
        2 => Broken::C2(Leg(named)),
        3 => Broken::C3(Leg(named)),
        4 => Broken::C4(Leg(named)),
        5 => Broken::C5(Leg(named)),
        6 => Broken::C6(Leg(named)),
        7 => Broken::C7(Leg(named)),
        8 => Broken::C8(Plane(named)),
        9 => Broken::C9(Plane(named)),
        10 => Broken::C10(Airport(named), part),
        11 => Broken::C11(Airport(named), part),
        12 => Broken::C12(Leg(named), cabin_of(part)),
        13 => Broken::C13(Res(named)),
        14 => Broken::C14(Res(named)),
        _ => Broken::C15(Res(named)),
    }
}

/// The cabin of a rank: 0 for first, 1 for business, else economy.
fn cabin_of(rank: u32) -> Cabin
    ensures { result ≡ cabin_of rank }
{
    match rank {
        0 => Cabin::F,
        1 => Cabin::B,
        _ => Cabin::E,
    }
}
