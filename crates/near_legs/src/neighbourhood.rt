//! The neighbourhoods of a plan: the kinds of moves of legs and aircraft.

ghost use Rattle.std.specs.Prelude.{◌≡◌, ◌≤◌};
ghost use Rattle.near_legs.specs.Walk.{next_neighbourhood, owners};

use desk_data::Instance;

/// The neighbourhoods, in their order.
#[derive(Clone, Copy)]
pub(crate) enum Neighbourhood {
    Retimed,
    Swapped,
    Dropped,
    Restored,
    Handed,
}

impl Neighbourhood {
    /// The neighbourhood after this one, if there is one.
    pub(crate) fn next(self) -> Option<Neighbourhood>
        ensures { result ≡ next_neighbourhood self }
    {
        match self {
            Neighbourhood::Retimed => Some(Neighbourhood::Swapped),
            Neighbourhood::Swapped => Some(Neighbourhood::Dropped),
            Neighbourhood::Dropped => Some(Neighbourhood::Restored),
            Neighbourhood::Restored => Some(Neighbourhood::Handed),
            Neighbourhood::Handed => None,
        }
    }

    /// How many owners it has: aircraft, or legs. They are numbered from 0.
    pub(crate) fn owners(self, inst: &Instance) -> u32
        ensures count { result ≡ owners inst.now self }
        ensures limit { result ≤ 20000 }
    {
        match self {
            Neighbourhood::Swapped => inst.planes(),
            Neighbourhood::Retimed
            | Neighbourhood::Dropped
            | Neighbourhood::Restored
            | Neighbourhood::Handed => inst.legs(),
        }
    }
}
