//! The prices and weights of the cost terms.

ghost use Rattle.std.specs.Prelude.{◌≡◌, ◌<◌};
ghost use Rattle.desk_units.specs.Ranks.{term_rank};

use crate::list::List;
use crate::money::{Price, Weight};
use crate::name::Name;
use crate::numbers::{Cabin, Haul};

/// A term of a plan's cost.
#[derive(Clone, Copy)]
pub enum Term {
    /// The hours that aircraft fly.
    Operating,
    /// The hours by which passengers arrive late.
    Delay,
    /// Passengers who are not carried.
    Cancellation,
    /// Legs that passengers fly in a cabin below the one that they booked.
    Downgrade,
    /// Care and compensation owed to passengers, and the price of a journey that is not made.
    Legal,
    /// Aircraft that are not where they are needed when the window ends.
    Position,
}

impl Term {
    /// Its place in the list of terms, from 0 for operating to 5 for position.
    pub fn rank(self) -> usize
        ensures place { result ≡ term_rank self }
        ensures small { result < 6 }
    {
        match self {
            Term::Operating => 0,
            Term::Delay => 1,
            Term::Cancellation => 2,
            Term::Downgrade => 3,
            Term::Legal => 4,
            Term::Position => 5,
        }
    }
}

/// A row of the tariff. Prices are from 0 to 999,999,999.9999 units of money, weights from 0 to
/// 999,999.999, and thresholds from 1 to 10,000 minutes.
#[derive(Clone, Copy)]
pub enum TariffRow {
    /// Aircraft of this family are surface transport.
    Surface {
        family: Name,
    },
    /// The weight of a cost term, 1 where no row gives it.
    Weight {
        term: Term,
        weight: Weight,
    },
    /// What a passenger's delay costs for each hour, by the haul and the highest cabin of the
    /// reservation.
    Delay {
        haul: Haul,
        cabin: Cabin,
        price: Price,
    },
    /// What a passenger who is not carried costs, by the haul and the highest cabin of the
    /// reservation.
    Cancel {
        haul: Haul,
        cabin: Cabin,
        price: Price,
    },
    /// What a leg in a cabin `below` the highest cabin of the reservation costs for each passenger,
    /// by the haul of the leg.
    Downgrade {
        haul: Haul,
        reference: Cabin,
        below: Cabin,
        price: Price,
    },
    /// What care costs for each passenger who arrives so many minutes late, or later; or, where the
    /// threshold is `None`, for each who is not carried.
    Care {
        haul: Haul,
        threshold: Option<u32>,
        price: Price,
    },
    /// The compensation owed to each passenger who arrives so many minutes late, or later; or, where
    /// the threshold is `None`, to each who is not carried.
    Compensation {
        haul: Haul,
        threshold: Option<u32>,
        price: Price,
    },
    /// What each aircraft costs that is missing where the window ends.
    Position {
        price: Price,
    },
}

/// The tariff of a day: its rows in the order of the file. A row's line is its place in this list,
/// counted from 1.
#[derive(Drop)]
pub struct Tariff {
    pub rows: List<TariffRow>,
}
