//! What the rows of the files are found by.

ghost use Rattle.build_tables.specs.Keys.{by_name, on_day, between, by_reservation};

use crate::places::{Key, Keyed, Spelled};
use file_rows::{AircraftRow, AirportRow, DistRow, FlightRow, ItineraryRow, RotationRow};

impl Keyed for FlightRow {
    ghost key_of = { λ row. by_name row.flight };

    fn key(&self) -> Key<'_> {
        Key::Named(Spelled::of(&self.flight))
    }
}

impl Keyed for RotationRow {
    ghost key_of = { λ row. on_day row.flight row.day };

    fn key(&self) -> Key<'_> {
        Key::OnDay(Spelled::of(&self.flight), self.day)
    }
}

impl Keyed for AircraftRow {
    ghost key_of = { λ row. by_name row.name };

    fn key(&self) -> Key<'_> {
        Key::Named(Spelled::of(&self.name))
    }
}

impl Keyed for AirportRow {
    ghost key_of = { λ row. by_name row.airport };

    fn key(&self) -> Key<'_> {
        Key::Named(Spelled::of(&self.airport))
    }
}

impl Keyed for DistRow {
    ghost key_of = { λ row. between row.origin row.dest };

    fn key(&self) -> Key<'_> {
        Key::Between(Spelled::of(&self.origin), Spelled::of(&self.dest))
    }
}

impl Keyed for ItineraryRow {
    ghost key_of = { λ row. by_reservation row.name row.inbound };

    fn key(&self) -> Key<'_> {
        Key::Booked(Spelled::of(&self.name), self.inbound)
    }
}
