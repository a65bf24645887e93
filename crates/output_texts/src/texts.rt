//! The text of each file.

ghost use Rattle.std.specs.Prelude.{◌≡◌, ◌≤◌, ◌++◌, IfOk, OnOk};
ghost use Rattle.output_texts.specs.Generated.{IsSize, airports_text, airport_line, position_text, text_of};

use crate::bookings::itineraries_text;
use crate::fleet::aircraft_text;
use crate::schedule::{flights_text, rotations_text};
use desk_folder::File;
use desk_text::push_all;
use desk_units::NoMem;
use itoa::Buffer;
use std::alloc::Global;

const TARIFF: &str = "surface,SURFACE\ndelay,D,E,10\ndelay,D,B,20\ndelay,C,E,12\ndelay,C,B,24\n\
    cancel,D,E,200\ncancel,D,B,400\ncancel,C,E,250\ncancel,C,B,500\n\
    downgrade,D,B,E,100\ndowngrade,C,B,E,150\ncare,D,120,20\ncare,C,180,30\n\
    compensation,D,none,250\ncompensation,C,none,400\nposition,500\n";

/// The text of a file of a day of this seed and size; files after the feed are empty. The only error
/// is out of memory.
pub(crate) fn text_of(alloc: Global, seed: u32, size: u32, file: File) -> Result<Vec<u8>, NoMem>
    requires { IsSize size }
    ensures { IfOk result (λ text. text.items ≡ text_of seed size file) }
{
    match file {
        File::Config => constant(alloc, "01/03/08 06:00 02/03/08 06:00\n"),
        File::Flights => flights_text(alloc, seed, size),
        File::Rotations => rotations_text(alloc, size),
        File::Aircraft => aircraft_text(alloc, size),
        File::Airports => airports_text(alloc, size),
        File::Dist => constant(alloc, "HUB AAA 60 D\nHUB BBB 75 D\nHUB CCC 90 C\n"),
        File::Itineraries => itineraries_text(alloc, seed, size),
        File::Position => position_text(alloc, size),
        File::AltFlights => constant(alloc, "F1 01/03/08 60\n"),
        File::AltAircraft => constant(alloc, "P2 01/03/08 10:00 01/03/08 13:00\n"),
        File::AltAirports => constant(alloc, "AAA 01/03/08 09:00 01/03/08 11:00 0 0\n"),
        File::Tariff => constant(alloc, TARIFF),
        File::Feed => constant(alloc, "1,flight,F5,01/03/08,-1\n"),
        File::Crew | File::Journal | File::SolRotations | File::SolItineraries | File::SolAdded =>
            constant(alloc, ""),
    }
}

// A text that is the same in each day.
fn constant(alloc: Global, text: &str) -> Result<Vec<u8>, NoMem>
    ensures { IfOk result (λ bytes. bytes.items ≡ text.now) }
{
    let mut bytes = Vec::new(alloc);
    bytes.extend_from_slice(text.as_bytes())?;
    Ok(bytes)
}

// The airports of a day of this size.
#[tactic(auto, unfolding(crate::specs::Generated::airports_text))]
fn airports_text(alloc: Global, size: u32) -> Result<Vec<u8>, NoMem>
    requires { size ≤ 40 }
    ensures { IfOk result (λ text. text.items ≡ airports_text size) }
{
    let mut text = Vec::new(alloc);
    push_airport(&mut text, b"HUB", size)?;
    push_airport(&mut text, b"AAA", size)?;
    push_airport(&mut text, b"BBB", size)?;
    push_airport(&mut text, b"CCC", size)?;
    Ok(text)
}

/// Adds the line of an airport.
fn push_airport(text: &mut Vec<u8>, name: &[u8], size: u32) -> Result<(), NoMem>
    requires { size ≤ 40 }
    ensures { OnOk result (text.new.items ≡ text.old.items ++ airport_line name.now size) }
{
    let mut buffer = Buffer::new();
    let cap = buffer.format(6 * size).as_bytes();
    push_all(text, &[name, b" ", cap, b" ", cap, b" 00:00 24:00\n"])
}

// The aircraft that have to stand at the hub at the end of a day of this size.
fn position_text(alloc: Global, size: u32) -> Result<Vec<u8>, NoMem>
    requires { size ≤ 40 }
    ensures { IfOk result (λ text. text.items ≡ position_text size) }
{
    let mut text = Vec::new(alloc);
    push_position(&mut text, size)?;
    Ok(text)
}

/// Adds the line of the hub.
#[tactic(auto, unfolding(crate::specs::Generated::position_text))]
fn push_position(text: &mut Vec<u8>, size: u32) -> Result<(), NoMem>
    requires { size ≤ 40 }
    ensures { OnOk result (text.new.items ≡ text.old.items ++ position_text size) }
{
    let mut large = Buffer::new();
    let mut small = Buffer::new();
    push_all(
        text,
        &[
            b"HUB M1 0/20/100 ",
            large.format(3 * size).as_bytes(),
            b" M1 0/12/80 ",
            small.format(2 * size).as_bytes(),
            b"\n",
        ],
    )
}
