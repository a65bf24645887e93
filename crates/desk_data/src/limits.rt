//! Numbers of minutes that the rules of a day name.

/// The minutes of a day.
pub const DAY: u32 = 1_440;

/// The most minutes by which an order delays a leg, and by which a leg departs after its ordered
/// departure.
pub const MOST_DELAY: u32 = 2_880;

/// Legs are scheduled to depart, and batches tell moments, at this minute at the latest.
pub const LAST_SCHEDULED: u32 = 52_480_000;

/// Plans have all their departures before this minute.
pub const DEPARTURES_END: u32 = 52_500_000;

/// Moments are before this minute, with which the hundred years from 2000 end.
pub const MOMENTS_END: u32 = 52_596_000;
