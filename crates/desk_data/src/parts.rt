//! The rows from which an instance is made.

use crate::info::{AirportInfo, LegInfo, PlaneInfo, PositionInfo, ResInfo};
use desk_units::{List, Minute, Tariff};

/// The rows of a joined day. Airports, aircraft, legs and reservations are numbered by their places
/// in these lists, from 0.
pub struct Parts {
    /// At most 500.
    pub airports: List<AirportInfo>,
    /// At most 1,000.
    pub planes: List<PlaneInfo>,
    /// At most 20,000.
    pub legs: List<LegInfo>,
    /// At most 100,000.
    pub res: List<ResInfo>,
    /// The start of the window in which the desk may move legs.
    pub from: Minute,
    /// The end of that window.
    pub to: Minute,
    /// At most 10,000.
    pub positions: List<PositionInfo>,
    /// By the airport of departure, and then by that of arrival: the minutes from the one to the other, at
    /// most 100,000, or none where the day has no distance between them. What is not in the list is none.
    pub dist: List<List<Option<u32>>>,
    /// At most 1,000 rows, of which no two say the same.
    pub tariff: Tariff,
}

/// Dropped in one call, so that a function that owns one proves it once, and not part by part.
impl Drop for Parts {
    fn drop(self) {
        let Parts {
            airports: _,
            planes: _,
            legs: _,
            res: _,
            from: _,
            to: _,
            positions: _,
            dist: _,
            tariff: _,
        } = self;
    }
}
