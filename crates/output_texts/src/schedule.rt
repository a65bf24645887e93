//! The files of the flights and of the legs.

ghost use Rattle.std.specs.Prelude.{◌≡◌, ◌<◌, ◌≤◌, ◌+◌, ◌++◌, IfOk, OnOk};
ghost use Rattle.output_texts.specs.Draws.{state_after};
ghost use Rattle.output_texts.specs.Schedule.{nth_station, station_name, block_of, tour_at, flight_line, there_and_back, tour_lines, flights_text, rotation_line, rotations_text};

use crate::draws::{draw, seeded};
use desk_text::{push_all, time_text};
use desk_units::NoMem;
use itoa::Buffer;
use rand_xoshiro::Xoshiro256PlusPlus;
use std::alloc::Global;

/// The airports beside the hub.
#[derive(Clone, Copy, PartialEq, Eq)]
pub enum Outstation {
    Aaa,
    Bbb,
    Ccc,
}

impl Outstation {
    // Its name.
    fn name(self) -> &'static [u8]
        ensures { result.now ≡ station_name self }
    {
        match self {
            Outstation::Aaa => b"AAA",
            Outstation::Bbb => b"BBB",
            Outstation::Ccc => b"CCC",
        }
    }

    // The minutes of a flight from the hub to it, or back.
    fn block(self) -> u32
        ensures value { result ≡ block_of self }
        ensures most { result ≤ 90 }
    {
        match self {
            Outstation::Aaa => 60,
            Outstation::Bbb => 75,
            Outstation::Ccc => 90,
        }
    }
}

/// The tour of an aircraft: from the hub to an outstation and back, and to another one and back.
#[derive(Clone, Copy, PartialEq, Eq)]
pub struct Tour {
    /// the minute of the day of the first departure, 360 to 420
    pub start: u32,
    pub first: Outstation,
    pub second: Outstation,
}

// The outstation of this number, 0 to 2.
fn nth_station(number: u32) -> Outstation
    ensures { result ≡ nth_station number }
{
    match number {
        0 => Outstation::Aaa,
        1 => Outstation::Bbb,
        _ => Outstation::Ccc,
    }
}

// The tour of the next aircraft, by three draws.
#[tactic(auto, unfolding(crate::specs::Schedule::tour_at, crate::specs::Draws::draw, crate::specs::Draws::state_after))]
fn next_tour(words: &mut Xoshiro256PlusPlus) -> Tour
    ensures tour { result ≡ tour_at words.old }
    ensures moved { words.new ≡ state_after words.old 3 }
    ensures early { result.start ≤ 420 }
{
    let start = 360 + 5 * draw(words, 13);
    let first = draw(words, 3);
    let second = (first + 1 + draw(words, 2)) % 3;
    Tour {
        start,
        first: nth_station(first),
        second: nth_station(second),
    }
}

/// The flights of a day of this seed and size, 1 to 40: four for each aircraft. The only error is out
/// of memory.
#[tactic(auto, unfolding(crate::specs::Schedule::flights_text))]
pub(crate) fn flights_text(alloc: Global, seed: u32, size: u32) -> Result<Vec<u8>, NoMem>
    requires { size ≤ 40 }
    ensures { IfOk result (λ text. text.items ≡ flights_text seed size) }
{
    let mut words = seeded(seed);
    let mut text = Vec::new(alloc);
    for plane in 0..6 * size {
        let tour = next_tour(&mut words);
        push_tour(&mut text, plane, &tour)?;
    }
    Ok(text)
}

/// Adds the four flights of an aircraft.
#[tactic(auto, unfolding(crate::specs::Schedule::tour_lines))]
fn push_tour(text: &mut Vec<u8>, plane: u32, tour: &Tour) -> Result<(), NoMem>
    requires plane { plane < 240 }
    requires early { tour.now.start ≤ 420 }
    ensures { OnOk result (text.new.items ≡ text.old.items ++ tour_lines plane tour.now) }
{
    let block = tour.first.block();
    push_there_and_back(text, 4 * plane, tour.first, tour.start)?;
    let again = tour.start + block + 40 + block + 40;
    push_there_and_back(text, 4 * plane + 2, tour.second, again)
}

/// Adds two flights, from the hub and back.
#[tactic(auto, unfolding(crate::specs::Schedule::there_and_back))]
fn push_there_and_back(
    text: &mut Vec<u8>,
    x: u32,
    station: Outstation,
    departure: u32,
) -> Result<(), NoMem>
    requires leg { x < 1000 }
    requires early { departure ≤ 1000 }
    ensures { OnOk result (text.new.items ≡ text.old.items ++ there_and_back x station departure) }
{
    let name = station.name();
    let block = station.block();
    push_flight(text, x, b"HUB", name, departure, block)?;
    push_flight(text, x + 1, name, b"HUB", departure + block + 40, block)
}

/// Adds the line of the flight of leg x.
#[tactic(auto, unfolding(crate::specs::Schedule::flight_line))]
fn push_flight(
    text: &mut Vec<u8>,
    x: u32,
    origin: &[u8],
    destination: &[u8],
    departure: u32,
    block: u32,
) -> Result<(), NoMem>
    requires leg { x ≤ 1000 }
    requires day { departure + block < 1440 }
    ensures { OnOk result (
        text.new.items ≡ text.old.items ++ flight_line x origin.now destination.now departure block) }
{
    let mut buffer = Buffer::new();
    let number = buffer.format(x + 1);
    let leaves = time_text(departure);
    let arrives = time_text(departure + block);
    push_all(
        text,
        &[
            b"F",
            number.as_bytes(),
            b" ",
            origin,
            b" ",
            destination,
            b" ",
        ],
    )?;
    push_all(text, &[&leaves, b" ", &arrives, b" 0\n"])
}

/// The legs of a day of this size, 1 to 40, each with its aircraft. The only error is out of memory.
#[tactic(auto, unfolding(crate::specs::Schedule::rotations_text))]
pub(crate) fn rotations_text(alloc: Global, size: u32) -> Result<Vec<u8>, NoMem>
    requires { size ≤ 40 }
    ensures { IfOk result (λ text. text.items ≡ rotations_text size) }
{
    let mut text = Vec::new(alloc);
    for x in 0..24 * size {
        push_rotation(&mut text, x)?;
    }
    Ok(text)
}

/// Adds the line of leg x.
#[tactic(auto, unfolding(crate::specs::Schedule::rotation_line))]
fn push_rotation(text: &mut Vec<u8>, x: u32) -> Result<(), NoMem>
    requires { x < 960 }
    ensures { OnOk result (text.new.items ≡ text.old.items ++ rotation_line x) }
{
    let mut flight = Buffer::new();
    let mut plane = Buffer::new();
    push_all(
        text,
        &[
            b"F",
            flight.format(x + 1).as_bytes(),
            b" 01/03/08 P",
            plane.format(x / 4 + 1).as_bytes(),
            b"\n",
        ],
    )
}
