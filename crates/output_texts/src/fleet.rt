//! The file of the aircraft.

ghost use Rattle.std.specs.Prelude.{◌≡◌, ◌<◌, ◌≤◌, ◌++◌, IfOk, OnOk};
ghost use Rattle.output_texts.specs.Fleet.{is_bus, kind_of, seats_of, kind_text, aircraft_line, aircraft_text};

use desk_text::push_all;
use desk_units::{Cabin, NoMem};
use itoa::Buffer;
use std::alloc::Global;

/// The kinds of aircraft: surface transport, and two kinds that fly.
#[derive(Clone, Copy, PartialEq, Eq)]
pub enum Vehicle {
    Bus,
    Large,
    Small,
}

/// Whether an aircraft is surface transport.
pub(crate) fn is_bus(plane: u32) -> bool
    ensures { result ≡ is_bus plane }
{
    plane % 6 == 5
}

/// The kind of an aircraft.
pub(crate) fn kind_of(plane: u32) -> Vehicle
    ensures { result ≡ kind_of plane }
{
    if is_bus(plane) {
        Vehicle::Bus
    } else if plane % 2 == 0 {
        Vehicle::Large
    } else {
        Vehicle::Small
    }
}

/// The seats of a kind in a cabin, 0 to 100.
pub(crate) fn seats_of(kind: Vehicle, cabin: Cabin) -> u32
    ensures { result ≡ seats_of kind cabin }
{
    match (kind, cabin) {
        (Vehicle::Bus, Cabin::E) => 50,
        (Vehicle::Large, Cabin::B) => 20,
        (Vehicle::Large, Cabin::E) => 100,
        (Vehicle::Small, Cabin::B) => 12,
        (Vehicle::Small, Cabin::E) => 80,
        _ => 0,
    }
}

// What a line says of an aircraft after its name.
fn kind_text(kind: Vehicle) -> &'static [u8]
    ensures { result.now ≡ kind_text kind }
{
    match kind {
        Vehicle::Bus => b"BUS SURFACE 0/0/50 600 40 30 20 HUB NULL",
        Vehicle::Large => b"M1 NARROW 0/20/100 600 1000 30 20 HUB NULL",
        Vehicle::Small => b"M1 NARROW 0/12/80 600 900 30 20 HUB NULL",
    }
}

/// The aircraft of a day of this size, 1 to 40: a line for each. The only error is out of memory.
#[tactic(auto, unfolding(crate::specs::Fleet::aircraft_text))]
pub(crate) fn aircraft_text(alloc: Global, size: u32) -> Result<Vec<u8>, NoMem>
    requires { size ≤ 40 }
    ensures { IfOk result (λ text. text.items ≡ aircraft_text size) }
{
    let mut text = Vec::new(alloc);
    for plane in 0..6 * size {
        push_line(&mut text, plane)?;
    }
    Ok(text)
}

/// Adds the line of an aircraft.
#[tactic(auto, unfolding(crate::specs::Fleet::aircraft_line))]
fn push_line(text: &mut Vec<u8>, plane: u32) -> Result<(), NoMem>
    requires { plane < 240 }
    ensures { OnOk result (text.new.items ≡ text.old.items ++ aircraft_line plane) }
{
    let mut buffer = Buffer::new();
    let number = buffer.format(plane + 1);
    push_all(
        text,
        &[
            b"P",
            number.as_bytes(),
            b" ",
            kind_text(kind_of(plane)),
            b"\n",
        ],
    )
}
