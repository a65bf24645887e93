//! What the rows of a day are found by.

ghost use Rattle.file_joins.specs.Keys.{leg_key, plane_key, res_key, airport_key};

use crate::places::{Key, Keyed};
use desk_data::{AirportInfo, LegInfo, PlaneInfo, ResInfo};

impl Keyed for LegInfo {
    ghost key_of = { leg_key };

    fn key(&self) -> Key<'_> {
        Key::OnDay(self.flight.as_slice(), self.day)
    }
}

impl Keyed for PlaneInfo {
    ghost key_of = { plane_key };

    fn key(&self) -> Key<'_> {
        Key::Named(self.name.as_slice())
    }
}

impl Keyed for ResInfo {
    ghost key_of = { res_key };

    fn key(&self) -> Key<'_> {
        Key::Booked(self.name.as_slice(), self.inbound)
    }
}

impl Keyed for AirportInfo {
    ghost key_of = { airport_key };

    fn key(&self) -> Key<'_> {
        Key::Named(self.name.as_slice())
    }
}
