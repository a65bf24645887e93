//! The rows of a day by their names.

ghost use Rattle.std.specs.Prelude.{◌≡◌, ◌<◌, IfOk, IfSome};
ghost use Rattle.desk_data.specs.Situation.{legs_of, planes_of, reservations_of, airports_of};
ghost use Rattle.file_joins.specs.Names.{leg_named, plane_named, res_named, airport_named};

use crate::places::{Key, NamePlaces, places_of};
use desk_data::Instance;
use desk_units::{Airport, Leg, NoMem, Plane, Res};
use std::alloc::Global;
use std::marker::Model;

/// The names of a day's legs, aircraft, reservations and airports. Contracts see it as the day.
pub struct DayNames<'a> {
    inst: &'a Instance,
    legs: NamePlaces<'a>,
    planes: NamePlaces<'a>,
    reservations: NamePlaces<'a>,
    airports: NamePlaces<'a>,
}

/// Dropped in one call, so that a function that owns one proves it once, and not part by part.
impl<'a> Drop for DayNames<'a> {
    fn drop(self) {
        let DayNames {
            inst: _,
            legs: _,
            planes: _,
            reservations: _,
            airports: _,
        } = self;
    }
}

impl<'a> Model for DayNames<'a> {
    ghost use Rattle.desk_data.specs.Situation.{Situation};
    ghost use Rattle.file_joins.specs.Names.{AreKeysOf};

    ghost Value = { Situation };

    ghost view = { λ n. n.inst.now };

    ghost invariant = { λ n. AreKeysOf n.inst.now n.legs n.planes n.reservations n.airports };
}

impl<'a> DayNames<'a> {
    /// The names of a day, in time that is near linear in its rows. The only error is out of memory.
    pub fn of(alloc: Global, inst: &'a Instance) -> Result<DayNames<'a>, NoMem>
        ensures { IfOk result (λ names. names ≡ inst.now) }
    {
        let parts = inst.parts();
        let legs = places_of(alloc, parts.legs.as_slice())?;
        let planes = places_of(alloc, parts.planes.as_slice())?;
        let reservations = places_of(alloc, parts.res.as_slice())?;
        let airports = places_of(alloc, parts.airports.as_slice())?;
        Ok(DayNames {
            inst,
            legs,
            planes,
            reservations,
            airports,
        })
    }

    /// The leg of a flight on a day, counted from 2000-01-01; `None` where there is none.
    pub fn leg(&self, flight: &[u8], day: u32) -> Option<Leg>
        ensures number { result ≡ leg_named self.now flight.now day }
        ensures within { IfSome result (λ leg. leg.0 < legs_of self.now) }
    {
        self.legs
            .place_of(Key::OnDay(flight, day))
            .map(|place| Leg(place))
    }

    /// The aircraft of a name; `None` where there is none.
    pub fn plane(&self, name: &[u8]) -> Option<Plane>
        ensures number { result ≡ plane_named self.now name.now }
        ensures within { IfSome result (λ plane. plane.0 < planes_of self.now) }
    {
        self.planes
            .place_of(Key::Named(name))
            .map(|place| Plane(place))
    }

    /// The reservation of a name, the inbound one where `inbound` is set, else the outbound one; `None` where
    /// there is none.
    pub fn reservation(&self, name: &[u8], inbound: bool) -> Option<Res>
        ensures number { result ≡ res_named self.now name.now inbound }
        ensures within { IfSome result (λ r. r.0 < reservations_of self.now) }
    {
        self.reservations
            .place_of(Key::Booked(name, inbound))
            .map(|place| Res(place))
    }

    /// The airport of a name; `None` where there is none.
    pub fn airport(&self, name: &[u8]) -> Option<Airport>
        ensures number { result ≡ airport_named self.now name.now }
        ensures within { IfSome result (λ airport. airport.0 < airports_of self.now) }
    {
        self.airports
            .place_of(Key::Named(name))
            .map(|place| Airport(place))
    }
}
