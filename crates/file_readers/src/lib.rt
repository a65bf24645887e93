//! The readers of the files of a day, of its crews and of a plan: each gives the rows of the bytes of a whole file.
//!
//! Each reader gives the rows of the bytes of a whole file, or its first refused line with the cause. Where a file has lines, a
//! `Grammar` of desk_text takes the fields of one as its definition in `specs/` does, line for line. Proved, of each: the answer
//! is what that definition says of the bytes (`exact`), and the rows are within the ranges that the join relies on (`facts`).
//!
//! # Flights and rotations
//!
//! The readers of flights.csv and rotations.csv.
//!
//! A line of flights.csv is `FLIGHT ORIGIN DESTINATION DEPARTURE ARRIVAL PREVIOUS`, and one of
//! rotations.csv `FLIGHT DATE AIRCRAFT`; docs/FORMATS.md gives the fields. `read_flights` and
//! `read_rotations` give the rows of the bytes of a whole file, in the order of its lines, or the
//! first refused line with its cause.
//!
//! # Aircraft and positions
//!
//! The readers of aircraft.csv and position.csv: the aircraft, and where aircraft are wanted at the end.
//!
//! A line of aircraft.csv has an aircraft's name, model, family, seats, range, cost of an hour, ground
//! times, airport and maintenance; one of position.csv an airport and groups of model, seats and count.
//! docs/FORMATS.md gives the fields. `read_aircraft` and `read_position` give the rows of the bytes of a
//! whole file, in the order of its lines, or the first refused line with its cause.
//!
//! # Airports, distances and the configuration
//!
//! The readers of config.csv, airports.csv and dist.csv: the window, the airports with their caps, and
//! the distances.
//!
//! `read_config` gives the window of the first line with fields, and passes over what comes after it;
//! `read_airports` and `read_dist` give the rows of the bytes of a whole file, in the order of its
//! lines. Each gives the first refused line with its cause where there is one. docs/FORMATS.md gives
//! the fields.
//!
//! # Itineraries
//!
//! The reader of itineraries.csv: reservations, with the legs that their passengers fly.
//!
//! A line is `NAME TYPE PRICE COUNT` and groups of `FLIGHT DATE CABIN`, one for each leg of the path;
//! docs/FORMATS.md gives the fields. `read_itineraries` gives the rows of the bytes of the whole file,
//! in the order of its lines, or the first refused line with its cause. Limits of passengers and of
//! legs are the join's.
//!
//! # Crews
//!
//! The reader of crew.csv: the crews, each with the legs that it works.
//!
//! A line is `CREW HOME DUTY REST` and then `FLIGHT DATE` for each leg; docs/FORMATS.md gives the fields.
//! `read_crew` gives the rows of the bytes of the whole file, in the order of its lines, or the first refused
//! line with its cause. How many rows and legs there may be, and whether the names in them are known, is the join's.
//!
//! # Disruptions
//!
//! The readers of the files of disruptions: alt_flights.csv, alt_aircraft.csv, alt_airports.csv and
//! feed.csv.
//!
//! The first three are text files with one order a line: a flight that is late or not flown, an
//! aircraft that is out of service, an airport with other caps. feed.csv is a comma file; a record
//! is the number of a batch, one of the words `flight`, `aircraft`, `airport`, `none` and `at`, and the
//! fields of that kind. docs/FORMATS.md gives the fields.
//!
//! `read_alt_flights`, `read_alt_aircraft`, `read_alt_airports` and `read_feed` give the rows of the
//! bytes of a whole file, in the order of its lines or records, or the first refused one with its
//! cause. Whether the things named are known, whether an end comes after its start, and the order of
//! the batches and of their moments are for the join.
//!
//! Proved: the answer is what the definition in `specs/` says of the bytes (`exact`), and the rows are
//! within their ranges (`facts`).
//!
//! # The tariff
//!
//! The reader of tariff.csv: the prices and weights of the cost terms.
//!
//! This is a comma file: its records are those that `csv` reads with its default settings, and a
//! refusal's line is the number of its record. The first field says what a row gives, as
//! `delay,D,E,10`; docs/FORMATS.md gives the kinds. Fields after the last one that is named are passed
//! over. `read_tariff` gives the rows in the order of the file, or the first refused record with its
//! cause.
//!
//! Proved: the answer is what the definition in `specs/` says of the records of the bytes (`exact`), and
//! the rows are within the ranges that the prices rely on (`facts`).
//!
//! # A plan
//!
//! The readers of the files of a plan: sol_rotations.csv and sol_itineraries.csv.
//!
//! A line of the first is `FLIGHT DATE AIRCRAFT DATE TIME`, or `FLIGHT DATE cancelled`; one of the second
//! is `RESERVATION TYPE COUNT` and then `FLIGHT DATE CABIN` for each leg of the path. Lines may come in any
//! order, and names need not be known: that is the join's. `solution_grammar` only tries a file.
//!
//! Proved: the rows, or the first line that is refused with its cause, are those of the definitions in
//! `specs/` (`exact`), and the rows are in the ranges that the join relies on (`facts`).
#![tactic(auto)]

mod aircraft;
mod airports;
mod alternatives;
mod config;
mod crew_row;
mod crews;
mod dates;
mod dist;
mod feed;
mod flights;
mod itineraries;
mod kinds;
mod maintenance;
mod orders;
mod position;
mod rotations;
mod sol_grammar;
mod sol_groups;
mod sol_legs;
mod sol_row;
mod tariff;
mod tariff_row;
mod times;

pub use aircraft::read_aircraft;
pub use airports::read_airports;
pub use alternatives::{read_alt_aircraft, read_alt_airports, read_alt_flights};
pub use config::read_config;
pub use crew_row::{CrewLeg, CrewRow};
pub use crews::read_crew;
pub use desk_folder::File;
pub use desk_text::{Cause, ReadFault};
pub use desk_units::{Cabin, Haul, List, Minute, Name, Price, Tariff, TariffRow, Term, Weight};
pub use dist::read_dist;
pub use feed::read_feed;
pub use file_rows::{
    AircraftRow, AirportRow, AltRow, CapRow, DistRow, FlightRow, ItineraryRow, LegRow, MaintRow,
    PositionGroup, PositionRow, RotationRow, Window,
};
pub use flights::read_flights;
pub use itineraries::{legs, read_itineraries};
pub use position::read_position;
pub use rotations::read_rotations;
pub use sol_grammar::solution_grammar;
pub use sol_groups::read_planned_groups;
pub use sol_legs::read_planned_legs;
pub use sol_row::{PlannedFlight, PlannedGroup, PlannedLeg};
pub use tariff::read_tariff;
