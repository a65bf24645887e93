//! The rows of the files, found by their names.

ghost use Rattle.std.specs.Prelude.{◌≡◌, ◌≢◌, ◌<◌, ◌≤◌, true, length, slice_index_or, IfOk, IfSome, option_map, find, position, ◌==◌, ◌&&◌, bytes_eq};
ghost use Rattle.std.specs.List.{flat_map, AllPairs};
ghost use Rattle.file_rows.specs.declared.network.AirportRow.{AirportRow};
ghost use Rattle.build_tables.specs.Keys.{by_name, on_day, between, by_reservation, type_number, AreApart};
ghost use Rattle.build_tables.specs.Found.{ArePlacesOf};
ghost use Rattle.build_tables.specs.Names.{flight_named, rotation_place, leg_places, airport_place, aircraft_place, is_between, distance_between};
ghost use Rattle.build_tables.specs.Pairs.{ArePairPlaces};

use crate::files::Files;
use crate::legs::leg_places;
use crate::pairs::{PairPlaces, pair_at, pair_place, pairs_in};
use crate::places::{Key, RowPlaces, Spelled, places_in};
use desk_units::{Name, NoMem};
use file_rows::{DistRow, FlightRow};
use std::alloc::Global;

/// The rows of the files, found by their names. A name stands for the first row that has it.
pub struct NameTables<'a> {
    /// The rows.
    pub files: &'a Files,
    flights: RowPlaces<'a>,
    rotations: RowPlaces<'a>,
    aircraft: RowPlaces<'a>,
    airports: RowPlaces<'a>,
    dist: PairPlaces<'a>,
    itineraries: RowPlaces<'a>,
    legs: Vec<Option<usize>>,
    ghost flights_placed: { ArePlacesOf (λ row. by_name row.flight) files.now.flights flights },
    ghost rotations_placed: { ArePlacesOf (λ row. on_day row.flight row.day) files.now.rotations rotations },
    ghost aircraft_placed: { ArePlacesOf (λ row. by_name row.name) files.now.aircraft aircraft },
    ghost airports_placed: { ArePlacesOf (λ row. by_name row.airport) files.now.airports airports },
    ghost dist_placed: { ArePairPlaces files.now.airports files.now.dist dist },
    ghost itineraries_placed: { ArePlacesOf (λ row. by_reservation row.name row.inbound) files.now.itineraries itineraries },
    ghost itineraries_apart: { itineraries.apart ≡ true → AreApart (λ row. by_reservation row.name row.inbound) files.now.itineraries },
    ghost legs_placed: { legs.items ≡ flat_map (leg_places files.now.rotations) files.now.itineraries },
}

/// Dropped in one call, so that a function that owns one proves it once, and not part by part.
impl<'a> Drop for NameTables<'a> {
    fn drop(self) {
        let NameTables {
            files: _,
            flights: _,
            rotations: _,
            aircraft: _,
            airports: _,
            dist: _,
            itineraries: _,
            legs: _,
        } = self;
    }
}

/// The places of flights and aircraft.
fn places_of_fleet<'a>(
    alloc: Global,
    files: &'a Files,
) -> Result<(RowPlaces<'a>, RowPlaces<'a>), NoMem>
    ensures flights { IfOk result (λ places. ArePlacesOf (λ row. by_name row.flight) files.now.flights places.0) }
    ensures aircraft { IfOk result (λ places. ArePlacesOf (λ row. by_name row.name) files.now.aircraft places.1) }
{
    let flights = places_in(alloc, &files.flights)?;
    let aircraft = places_in(alloc, &files.aircraft)?;
    Ok((flights, aircraft))
}

/// The places of rotations, and those of the legs of reservations among them.
fn places_of_legs<'a>(
    alloc: Global,
    files: &'a Files,
) -> Result<(RowPlaces<'a>, Vec<Option<usize>>), NoMem>
    ensures rotations { IfOk result (λ places. ArePlacesOf (λ row. on_day row.flight row.day) files.now.rotations places.0) }
    ensures legs { IfOk result (λ places. places.1.items ≡ flat_map (leg_places files.now.rotations) files.now.itineraries) }
{
    let rotations = places_in(alloc, &files.rotations)?;
    let legs = leg_places(alloc, files, &rotations)?;
    Ok((rotations, legs))
}

/// The places of airports and distances.
fn places_of_network<'a>(
    alloc: Global,
    files: &'a Files,
) -> Result<(RowPlaces<'a>, PairPlaces<'a>), NoMem>
    ensures airports { IfOk result (λ places. ArePlacesOf (λ row. by_name row.airport) files.now.airports places.0) }
    ensures dist { IfOk result (λ places. ArePairPlaces files.now.airports files.now.dist places.1) }
{
    let airports = places_in(alloc, &files.airports)?;
    let dist = pairs_in(alloc, files, &airports)?;
    Ok((airports, dist))
}

impl<'a> NameTables<'a> {
    /// The tables of these rows. The only error is out of memory.
    pub fn of(alloc: Global, files: &'a Files) -> Result<NameTables<'a>, NoMem>
        ensures { IfOk result (λ tables. tables.files.now ≡ files.now) }
    {
        let (flights, aircraft) = places_of_fleet(alloc, files)?;
        let (rotations, legs) = places_of_legs(alloc, files)?;
        let (airports, dist) = places_of_network(alloc, files)?;
        let itineraries = places_in(alloc, &files.itineraries)?;
        Ok(NameTables {
            files,
            flights,
            rotations,
            aircraft,
            airports,
            dist,
            itineraries,
            legs,
        })
    }

    /// The place of a flight.
    pub fn flight_place(&self, name: &Name) -> Option<usize>
        ensures { result ≡ position (λ f. bytes_eq name.now f.flight) self.now.files.now.flights }
    {
        self.flights.place_of(Key::Named(Spelled::of(name)))
    }

    /// The flight of this name.
    pub fn flight(&self, name: &Name) -> Option<&'a FlightRow>
        ensures { option_map (λ row. row.now) result ≡ flight_named self.now.files.now.flights name.now }
    {
        let place = self.flight_place(name)?;
        Some(&self.files.flights.as_slice()[place])
    }

    /// The place of the rotation of a flight on a day.
    pub fn rotation_place(&self, flight: &Name, day: u32) -> Option<usize>
        ensures { result ≡ rotation_place self.now.files.now.rotations flight.now day }
    {
        self.rotations
            .place_of(Key::OnDay(Spelled::of(flight), day))
    }

    /// The place of an aircraft.
    pub fn aircraft_place(&self, name: &Name) -> Option<usize>
        ensures { result ≡ aircraft_place self.now.files.now.aircraft name.now }
    {
        self.aircraft.place_of(Key::Named(Spelled::of(name)))
    }

    /// The place of an airport.
    pub fn airport_place(&self, name: &Name) -> Option<usize>
        ensures { result ≡ airport_place self.now.files.now.airports name.now }
    {
        self.airports.place_of(Key::Named(Spelled::of(name)))
    }

    /// The place of the first row of a reservation, by its name and its type.
    pub fn itinerary_place(&self, name: &Name, inbound: bool) -> Option<usize>
        ensures { result ≡ position (λ row. bytes_eq name.now row.name && (type_number inbound == type_number row.inbound)) self.now.files.now.itineraries }
    {
        self.itineraries
            .place_of(Key::Booked(Spelled::of(name), inbound))
    }

    /// Whether no two rows are of one reservation.
    pub fn are_reservations_apart(&self) -> bool
        ensures { result ≡ true → AreApart (λ row. by_reservation row.name row.inbound) self.now.files.now.itineraries }
    {
        self.itineraries.are_apart()
    }

    /// The place of the rotation of each leg of the reservations, where there is one, in the order of the
    /// lines and of the legs in a line.
    pub fn leg_places(&self) -> &[Option<usize>]
        ensures { result.now ≡ flat_map (leg_places self.now.files.now.rotations) self.now.files.now.itineraries }
    {
        self.legs.as_slice()
    }

    /// The place of the first row from the one airport to the other, given the places of the two.
    fn dist_place(
        &self,
        origin: &Name,
        dest: &Name,
        places: (Option<usize>, Option<usize>),
    ) -> Option<usize>
        requires origin { places.0 ≡ airport_place self.now.files.now.airports origin.now }
        requires dest { places.1 ≡ airport_place self.now.files.now.airports dest.now }
        ensures { result ≡ position (is_between origin.now dest.now) self.now.files.now.dist }
    {
        match pair_at(places.0, places.1) {
            Some(pair) => self.dist.place_at(pair),
            None => self.dist.place_named(origin, dest),
        }
    }

    /// The first row from the one airport to the other, given the places of the two.
    fn distance_from(
        &self,
        origin: &Name,
        dest: &Name,
        places: (Option<usize>, Option<usize>),
    ) -> Option<&'a DistRow>
        requires origin { places.0 ≡ airport_place self.now.files.now.airports origin.now }
        requires dest { places.1 ≡ airport_place self.now.files.now.airports dest.now }
        ensures { option_map (λ row. row.now) result ≡ find (is_between origin.now dest.now) self.now.files.now.dist }
    {
        let place = self.dist_place(origin, dest, places)?;
        Some(&self.files.dist.as_slice()[place])
    }

    /// The distance between two airports: the first row from the one to the other, else the first
    /// row the other way.
    pub fn distance(&self, origin: &Name, dest: &Name) -> Option<&'a DistRow>
        ensures { option_map (λ row. row.now) result ≡ distance_between self.now.files.now.dist origin.now dest.now }
    {
        let places = (self.airport_place(origin), self.airport_place(dest));
        self.distance_with(origin, dest, places)
    }

    /// The same, given the places of the two airports, so that no name is looked up again.
    pub fn distance_with(
        &self,
        origin: &Name,
        dest: &Name,
        places: (Option<usize>, Option<usize>),
    ) -> Option<&'a DistRow>
        requires origin { places.0 ≡ airport_place self.now.files.now.airports origin.now }
        requires dest { places.1 ≡ airport_place self.now.files.now.airports dest.now }
        ensures { option_map (λ row. row.now) result ≡ distance_between self.now.files.now.dist origin.now dest.now }
    {
        match self.distance_from(origin, dest, places) {
            Some(row) => Some(row),
            None => self.distance_from(dest, origin, (places.1, places.0)),
        }
    }

    /// The place of the first row from the one airport to the other, by the places of the two.
    fn dist_place_at(&self, origin: usize, dest: usize) -> Option<usize>
        requires few { length self.now.files.now.airports ≤ 500 }
        requires apart { AllPairs (λ a b. a.airport ≢ b.airport) self.now.files.now.airports }
        requires origin { origin < length self.now.files.now.airports }
        requires dest { dest < length self.now.files.now.airports }
        ensures exact { (a b : AirportRow) → result ≡ position (is_between (slice_index_or self.now.files.now.airports origin a).airport (slice_index_or self.now.files.now.airports dest b).airport) self.now.files.now.dist }
        ensures within { IfSome result (λ place. place < length self.now.files.now.dist) }
    {
        self.dist.place_at(pair_place(origin, dest))
    }

    /// The first row from the one airport to the other, by the places of the two.
    fn distance_from_at(&self, origin: usize, dest: usize) -> Option<&'a DistRow>
        requires few { length self.now.files.now.airports ≤ 500 }
        requires apart { AllPairs (λ a b. a.airport ≢ b.airport) self.now.files.now.airports }
        requires origin { origin < length self.now.files.now.airports }
        requires dest { dest < length self.now.files.now.airports }
        ensures { (a b : AirportRow) → option_map (λ row. row.now) result ≡ find (is_between (slice_index_or self.now.files.now.airports origin a).airport (slice_index_or self.now.files.now.airports dest b).airport) self.now.files.now.dist }
    {
        let place = self.dist_place_at(origin, dest)?;
        Some(&self.files.dist.as_slice()[place])
    }

    /// The distance between two airports, by their places: the first row from the one to the other, else the
    /// first row the other way. No name is looked up.
    pub fn distance_at(&self, origin: usize, dest: usize) -> Option<&'a DistRow>
        requires few { length self.now.files.now.airports ≤ 500 }
        requires apart { AllPairs (λ a b. a.airport ≢ b.airport) self.now.files.now.airports }
        requires origin { origin < length self.now.files.now.airports }
        requires dest { dest < length self.now.files.now.airports }
        ensures { (a b : AirportRow) → option_map (λ row. row.now) result ≡ distance_between self.now.files.now.dist (slice_index_or self.now.files.now.airports origin a).airport (slice_index_or self.now.files.now.airports dest b).airport }
    {
        match self.distance_from_at(origin, dest) {
            Some(row) => Some(row),
            None => self.distance_from_at(dest, origin),
        }
    }
}
