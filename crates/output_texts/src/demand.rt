//! What reservations ask for.

ghost use Rattle.std.specs.Prelude.{◌≡◌, ◌<◌, ◌≤◌, ◌*◌, ◌+◌};
ghost use Rattle.output_texts.specs.Draws.{state_after};
ghost use Rattle.output_texts.specs.Demand.{trip_of, cabin_of, request_at, after_tours};
ghost use Rattle.output_texts.specs.Seats.{IsTripWithin};

use crate::draws::{draw, seeded};
use crate::fleet::is_bus;
use desk_units::Cabin;
use rand_xoshiro::Xoshiro256PlusPlus;

/// One leg or two, by their places in rotations.csv, from 0.
#[derive(Clone, Copy, PartialEq, Eq)]
pub enum Trip {
    One(u32),
    Two(u32, u32),
}

/// What a reservation asks for.
#[derive(Clone, Copy, PartialEq, Eq)]
pub struct Request {
    /// its number, from 0
    pub number: u32,
    pub trip: Trip,
    /// how many want to travel, 1 to 8
    pub passengers: u32,
    /// what each pays, 50 to 249 units of money
    pub price: u32,
    pub cabin: Cabin,
}

// The legs of a reservation with this aircraft, by its kind.
fn trip_of(plane: u32, kind: u32) -> Trip
    requires { plane < 240 }
    ensures trip { result ≡ trip_of plane kind }
    ensures within { IsTripWithin (4 * plane + 3) result }
{
    match kind {
        0 => Trip::One(4 * plane),
        1 => Trip::One(4 * plane + 1),
        2 => Trip::One(4 * plane + 2),
        _ => Trip::Two(4 * plane + 1, 4 * plane + 2),
    }
}

// The cabin of a reservation with this aircraft, by its luck, 0 to 4.
fn cabin_of(plane: u32, luck: u32) -> Cabin
    ensures { result ≡ cabin_of plane luck }
{
    if luck == 0 && !is_bus(plane) {
        Cabin::B
    } else {
        Cabin::E
    }
}

/// The generator after the draws of all tours of a day of this seed and size, 1 to 40.
#[tactic(auto, unfolding(crate::specs::Draws::state_after))]
pub(crate) fn after_tours(seed: u32, size: u32) -> Xoshiro256PlusPlus
    requires { size ≤ 40 }
    ensures { result ≡ after_tours seed size }
{
    let mut words = seeded(seed);
    for _ in 0..18 * size {
        draw(&mut words, 1);
    }
    words
}

/// What reservation `number` asks for, by the next five draws, in a day of this size, 1 to 40.
#[tactic(auto, unfolding(crate::specs::Demand::request_at, crate::specs::Draws::draw, crate::specs::Draws::state_after))]
pub(crate) fn next_request(words: &mut Xoshiro256PlusPlus, size: u32, number: u32) -> Request
    requires least { 1 ≤ size }
    requires most { size ≤ 40 }
    ensures request { result ≡ request_at words.old size number }
    ensures within { IsTripWithin (24 * size) result.trip }
    ensures number { result.number ≡ number }
    ensures moved { words.new ≡ state_after words.old 5 }
{
    let plane = draw(words, 6 * size);
    let kind = draw(words, 4);
    let passengers = 1 + draw(words, 8);
    let price = 50 + draw(words, 200);
    let luck = draw(words, 5);
    Request {
        number,
        trip: trip_of(plane, kind),
        passengers,
        price,
        cabin: cabin_of(plane, luck),
    }
}
