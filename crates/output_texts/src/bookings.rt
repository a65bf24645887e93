//! The file of the itineraries.

ghost use Rattle.std.specs.Prelude.{◌≡◌, ◌<◌, ◌≤◌, ◌++◌, ◌∷◌, [], length, IfOk, OnOk};
ghost use Rattle.std.specs.List.{flat_map};
ghost use Rattle.output_texts.specs.Schedule.{flight_name};
ghost use Rattle.output_texts.specs.Demand.{seat_text, trip_legs, itinerary_line, itineraries_text};
ghost use Rattle.output_texts.specs.Seats.{IsTripWithin, rows_served, text_served};
ghost use Rattle.output_texts.specs.Generated.{IsSize};

use crate::demand::{Request, Trip, after_tours, next_request};
use crate::seats::{all_seats, granted, take};
use desk_text::{cabin_letter, push_all};
use desk_units::{Cabin, NoMem, Seats};
use itoa::Buffer;
use std::alloc::Global;

/// The reservations of a day of this seed and size: a line for each that has seats. The only error is
/// out of memory.
#[tactic(auto, unfolding(crate::specs::Demand::itineraries_text))]
pub(crate) fn itineraries_text(alloc: Global, seed: u32, size: u32) -> Result<Vec<u8>, NoMem>
    requires { IsSize size }
    ensures { IfOk result (λ text. text.items ≡ itineraries_text seed size) }
{
    let mut words = after_tours(seed, size);
    let mut rows = all_seats(alloc, size)?;
    let mut text = Vec::new(alloc);
    for number in 0..40 * size {
        let request = next_request(&mut words, size, number);
        serve(&mut rows, &mut text, &request)?;
    }
    Ok(text)
}

/// Gives a reservation seats, as far as there are some, and adds its line where it got any.
fn serve(rows: &mut Vec<Seats>, text: &mut Vec<u8>, request: &Request) -> Result<(), NoMem>
    requires within { IsTripWithin (length rows.old.items) request.now.trip }
    requires number { request.now.number < 1600 }
    ensures rows { OnOk result (rows.new.items ≡ rows_served rows.old.items request.now) }
    ensures text { OnOk result (text.new.items ≡ text.old.items ++ text_served rows.old.items request.now) }
{
    let count = granted(rows, request);
    if count == 0 {
        return Ok(());
    }
    take(rows, request, count);
    push_line(text, request, count)
}

/// Adds the line of a reservation, with the number of passengers who have seats.
#[tactic(auto, unfolding(crate::specs::Demand::itinerary_line))]
fn push_line(text: &mut Vec<u8>, request: &Request, count: u32) -> Result<(), NoMem>
    requires { request.now.number < 1600 }
    ensures { OnOk result (
        text.new.items ≡ text.old.items ++ itinerary_line (record { request = request.now; count = count })) }
{
    let mut number = Buffer::new();
    let mut price = Buffer::new();
    let mut passengers = Buffer::new();
    push_all(
        text,
        &[
            b"R",
            number.format(request.number + 1).as_bytes(),
            b" A ",
            price.format(request.price).as_bytes(),
            b" ",
            passengers.format(count).as_bytes(),
        ],
    )?;
    push_trip(text, request.trip, request.cabin)?;
    push_all(text, &[b"\n"])
}

/// Adds the legs of a trip.
fn push_trip(text: &mut Vec<u8>, trip: Trip, cabin: Cabin) -> Result<(), NoMem>
    ensures { OnOk result (text.new.items ≡ text.old.items ++ flat_map (seat_text cabin) (trip_legs trip)) }
{
    match trip {
        Trip::One(x) => push_seat(text, x, cabin),
        Trip::Two(x, y) => {
            push_seat(text, x, cabin)?;
            push_seat(text, y, cabin)
        }
    }
}

/// Adds a leg and a cabin, after a space.
fn push_seat(text: &mut Vec<u8>, x: u32, cabin: Cabin) -> Result<(), NoMem>
    ensures { OnOk result (text.new.items ≡ text.old.items ++ seat_text cabin x) }
{
    let mut flight = Buffer::new();
    push_all(
        text,
        &[
            b" F",
            flight.format(u64::from(x) + 1).as_bytes(),
            b" 01/03/08 ",
            &cabin_letter(cabin),
        ],
    )
}
