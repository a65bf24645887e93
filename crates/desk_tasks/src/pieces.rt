//! Where the reservations are cut into pieces, so that four threads end at about the same time.

use desk_data::Instance;

// What a large day takes, as it was measured, in tens of nanoseconds: for each leg the rules of rotations, and its hour of departure or of
// arrival, and for each reservation its seats, and the rules of its paths.
const ROTATIONS: u32 = 4;

const HOUR: u32 = 5;

const SEATS: u32 = 1;

const PATHS: u32 = 3;

/// The numbers at which the reservations are cut into four pieces, each of which may be empty.
#[derive(Clone, Copy)]
pub(crate) struct Cuts {
    /// Before it are those of the thread that counts the departures.
    pub(crate) departures: u32,
    /// From there on, before this one, are those of the thread that counts the arrivals.
    pub(crate) arrivals: u32,
    /// From there on, before this one, are those of the thread of the rotations. The last are those of the thread that counts the
    /// seats.
    pub(crate) rotations: u32,
}

/// Four pieces, so that each thread has a quarter of all that is to do, beside the rule that it has whole.
pub(crate) fn cuts_of(inst: &Instance) -> Cuts {
    let legs = inst.legs();
    let reservations = inst.reservations();
    let share = (legs * (ROTATIONS + 2 * HOUR) + reservations * (SEATS + PATHS)) / 4;
    let beside_hours = share.saturating_sub(legs * HOUR) / PATHS;
    let beside_rotations = share.saturating_sub(legs * ROTATIONS) / PATHS;
    Cuts {
        departures: beside_hours,
        arrivals: 2 * beside_hours,
        rotations: 2 * beside_hours + beside_rotations,
    }
}
