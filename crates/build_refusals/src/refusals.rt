//! The first refusal of the rows of all files.

ghost use Rattle.std.specs.Prelude.{◌≡◌, IfNone};
ghost use Rattle.build_tables.specs.Fitting.{FitTogether};
ghost use Rattle.build_refusals.specs.First.{first_refusal_in};
ghost use Rattle.build_refusals.specs.Refusals.{in_file, refusal_of_schedule, room_for_aircraft, room_for_airports, room_for_feed, refusal_of_alternatives, refusal_of_demand, refusal_of};

use crate::config::window_refusal;
use crate::feed::feed_refusal;
use crate::first::{Check, Lined, first_refusal_in};
use crate::itineraries::itinerary_refusal;
use crate::orders::{alt_refusal, room_after};
use crate::position::Positions;
use crate::tariff::tariff_refusal;
use build_tables::{Files, NameTables};
use desk_folder::File;
use file_rows::{Cause, MOST_ORDERS};

/// A refusal in this file.
fn in_file(file: File, refused: Option<(u32, Cause)>) -> Option<(File, u32, Cause)>
    ensures { result ≡ in_file file refused }
{
    let (line, cause) = refused?;
    Some((file, line, cause))
}

/// The first refusal of the rows of a file.
fn in_rows<Row: Lined, C: Check<Row>>(
    file: File,
    check: &C,
    rows: &[Row],
) -> Option<(File, u32, Cause)>
    ensures { result ≡ in_file file (first_refusal_in (C.cause_of check.now) Row.line_of rows.now) }
{
    in_file(file, first_refusal_in(check, rows))
}

/// The first refusal in the files of the schedule.
#[tactic(auto, unfolding(crate::specs::Refusals::refusal_of_schedule))]
fn refusal_in_schedule(tables: &NameTables<'_>) -> Option<(File, u32, Cause)>
    ensures { result ≡ refusal_of_schedule tables.now.files.now }
{
    let files = tables.files;
    if let Some(refusal) = in_file(File::Config, window_refusal(&files.config)) {
        return Some(refusal);
    }
    if let Some(refusal) = in_rows(File::Flights, tables, files.flights.as_slice()) {
        return Some(refusal);
    }
    if let Some(refusal) = in_rows(File::Rotations, tables, files.rotations.as_slice()) {
        return Some(refusal);
    }
    if let Some(refusal) = in_rows(File::Aircraft, tables, files.aircraft.as_slice()) {
        return Some(refusal);
    }
    if let Some(refusal) = in_rows(File::Airports, tables, files.airports.as_slice()) {
        return Some(refusal);
    }
    in_rows(File::Dist, tables, files.dist.as_slice())
}

/// How many orders may come in alt_aircraft.csv.
fn room_for_aircraft(files: &Files) -> usize
    ensures { result ≡ room_for_aircraft files.now }
{
    room_after(MOST_ORDERS, files.alt_flights.as_slice())
}

/// How many orders may come in alt_airports.csv.
fn room_for_airports(files: &Files) -> usize
    ensures { result ≡ room_for_airports files.now }
{
    room_after(room_for_aircraft(files), files.alt_aircraft.as_slice())
}

/// How many orders may come in feed.csv.
fn room_for_feed(files: &Files) -> usize
    ensures { result ≡ room_for_feed files.now }
{
    room_after(room_for_airports(files), files.alt_airports.as_slice())
}

/// The first refusal in the alt files.
#[tactic(auto, unfolding(crate::specs::Refusals::refusal_of_alternatives))]
fn refusal_in_alternatives(tables: &NameTables<'_>) -> Option<(File, u32, Cause)>
    ensures { result ≡ refusal_of_alternatives tables.now.files.now }
{
    let files = tables.files;
    let flights = alt_refusal(tables, MOST_ORDERS, files.alt_flights.as_slice());
    if let Some(refusal) = in_file(File::AltFlights, flights) {
        return Some(refusal);
    }
    let room = room_for_aircraft(files);
    let aircraft = alt_refusal(tables, room, files.alt_aircraft.as_slice());
    if let Some(refusal) = in_file(File::AltAircraft, aircraft) {
        return Some(refusal);
    }
    let room = room_for_airports(files);
    let airports = alt_refusal(tables, room, files.alt_airports.as_slice());
    in_file(File::AltAirports, airports)
}

/// The first refusal in the files of what is asked of the schedule, and in the tariff.
#[tactic(auto, unfolding(crate::specs::Refusals::refusal_of_demand))]
fn refusal_in_demand(tables: &NameTables<'_>) -> Option<(File, u32, Cause)>
    ensures { result ≡ refusal_of_demand tables.now.files.now }
{
    let files = tables.files;
    if let Some(refusal) = in_file(File::Itineraries, itinerary_refusal(tables)) {
        return Some(refusal);
    }
    let positions = Positions::of(tables);
    if let Some(refusal) = in_rows(File::Position, &positions, files.position.as_slice()) {
        return Some(refusal);
    }
    if let Some(refusal) = refusal_in_alternatives(tables) {
        return Some(refusal);
    }
    if let Some(refusal) = in_file(File::Tariff, tariff_refusal(files.tariff.rows.as_slice())) {
        return Some(refusal);
    }
    let room = room_for_feed(files);
    in_file(
        File::Feed,
        feed_refusal(tables, room, files.feed.as_slice()),
    )
}

/// The first refusal in all files.
#[tactic(auto, unfolding(crate::specs::Refusals::refusal_of))]
fn refusal(tables: &NameTables<'_>) -> Option<(File, u32, Cause)>
    ensures { result ≡ refusal_of tables.now.files.now }
{
    match refusal_in_schedule(tables) {
        Some(refusal) => Some(refusal),
        None => refusal_in_demand(tables),
    }
}

/// The first refusal: in the order of the files, then of their lines, which count from 1, then of
/// the causes. Where there is none, the rows fit together.
pub fn first_refusal(tables: &NameTables<'_>) -> Option<(File, u32, Cause)>
    ensures exact { result ≡ refusal_of tables.now.files.now }
    ensures fit { IfNone result (FitTogether tables.now.files.now) }
{
    refusal(tables)
}
