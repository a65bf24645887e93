//! How often hours of airports are taken.

ghost use Rattle.std.specs.Prelude.{◌≡◌, ◌≤◌, ℕ, length, count_by};
ghost use Rattle.std.specs.List.Sorted.{IsSorted};
ghost use Rattle.day_orders.specs.Slots.{slot_count, slot_cmp, is_before, is_up_to};

use desk_units::Airport;
use std::marker::Model;

/// An hour of an airport, as a departure or an arrival takes one.
#[derive(Clone, Copy, PartialEq, Eq, PartialOrd, Ord)]
pub struct AirportHour {
    pub airport: Airport,
    /// Hour h is the minutes from 60h to 60h + 59 since 2000-01-01 00:00.
    pub hour: u32,
}

/// Hours of airports, at most 20,000, each as often as it is taken. Contracts see it as the list of them.
#[derive(Drop)]
pub struct AirportHours {
    /// By airport, then by hour.
    slots: Vec<AirportHour>,
}

impl Model for AirportHours {
    ghost use Rattle.std.specs.Prelude.{List};
    ghost use Rattle.day_orders.specs.declared.slots.AirportHour.{AirportHour};
    ghost use Rattle.day_orders.specs.Slots.{AreSlots};

    ghost Value = { List AirportHour };

    ghost view = { λ h. h.slots.items };

    ghost invariant = { λ h. AreSlots h.slots.items };
}

impl AirportHours {
    /// Those of a list, in whatever order it has them. Sorted once.
    pub fn of(slots: Vec<AirportHour>) -> AirportHours
        requires { length slots.items ≤ 20000 }
        ensures { (a h : ℕ) → slot_count a h result ≡ slot_count a h slots.items }
    {
        let mut slots = slots;
        slots.sort_unstable();
        AirportHours { slots }
    }

    /// How often an hour of an airport is taken. Two searches by halves.
    pub fn count(&self, airport: Airport, hour: u32) -> u32
        ensures { result ≡ slot_count airport.0 hour self.now }
    {
        let slots = self.slots.as_slice();
        let before = count_before(slots, airport, hour);
        let up_to = count_up_to(slots, airport, hour);
        (up_to - before) as u32
    }
}

/// How many stand before an hour of an airport.
fn count_before(slots: &[AirportHour], airport: Airport, hour: u32) -> usize
    requires { IsSorted slot_cmp slots.now }
    ensures { result ≡ count_by (is_before airport.0 hour) slots.now }
{
    slots.partition_point(|slot| is_before(slot, airport, hour))
}

/// How many stand before the next hour.
fn count_up_to(slots: &[AirportHour], airport: Airport, hour: u32) -> usize
    requires { IsSorted slot_cmp slots.now }
    ensures { result ≡ count_by (is_up_to airport.0 hour) slots.now }
{
    slots.partition_point(|slot| is_up_to(slot, airport, hour))
}

/// Whether one stands before an hour of an airport.
fn is_before(slot: &AirportHour, airport: Airport, hour: u32) -> bool
    ensures { result ≡ is_before airport.0 hour slot.now }
{
    slot.airport.0 < airport.0 || (slot.airport.0 == airport.0 && slot.hour < hour)
}

/// Whether one stands before the next hour.
fn is_up_to(slot: &AirportHour, airport: Airport, hour: u32) -> bool
    ensures { result ≡ is_up_to airport.0 hour slot.now }
{
    slot.airport.0 < airport.0 || (slot.airport.0 == airport.0 && slot.hour <= hour)
}
