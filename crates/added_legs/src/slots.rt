//! The rules of an airport's hours, C10 and C11, with added legs: the first hour in which more depart, or arrive, than the cap.

ghost use Rattle.std.specs.Prelude.{◌≡◌, ◌++◌, ◌<◌, length, find, All, IfOk, OnOk};
ghost use Rattle.std.specs.List.Sorted.{IsSorted};
ghost use Rattle.std.specs.Option.{ForSome};
ghost use Rattle.desk_data.specs.Situation.{legs_of, planes_of};
ghost use Rattle.desk_data.specs.Valid.{IsPlanFor};
ghost use Rattle.desk_rules.specs.Least.{breaks, each_hour};
ghost use Rattle.hour_counts.specs.Slots.{is_slot, slot_cmp};
ghost use Rattle.plan_checks.specs.TakenSlots.{IsLeastOverfull, is_one_too_many, item_of, slot_of, slots};
ghost use Rattle.added_legs.specs.Merged.{merged_day, merged_plan};
ghost use Rattle.added_legs.specs.Flights.{AreFlights, AreRanges, IsFlight};
ghost use Rattle.added_legs.specs.Hours.{IsTaken, extra_slot, extra_slots};

use crate::Added;
use crate::flight::Flight;
use desk_data::{Broken, Instance, Leg, NoMem, Plan, Plane, Row};
use hour_counts::{Movement, Slot};
use std::alloc::Global;

/// The hours of the years 2000 to 2099: later ones have no caps.
const HOURS: u32 = 876_600;

/// The first airport and hour in which there are more departures than the cap, or more arrivals, as the item of the rule of
/// that movement. The only error is out of memory.
pub(crate) fn first_overfull(
    alloc: Global,
    inst: &Instance,
    plan: &Plan,
    added: &[Added],
    flights: &[Option<Flight>],
    movement: Movement,
) -> Result<Option<Broken>, NoMem>
    requires plan { IsPlanFor inst.now plan.now }
    requires flights { AreFlights inst.now plan.now added.now flights.now }
    ensures { IfOk result (λ first. first ≡ find (breaks (merged_day inst.now plan.now added.now) (merged_plan inst.now plan.now added.now)) (each_hour inst.now (item_of movement))) }
{
    let _rows = inst.parts();
    let mut taken = plan_slots(alloc, inst, plan, movement)?;
    add_slots(inst, flights, movement, &mut taken)?;
    taken.sort()?;
    match least_overfull(inst, taken.as_slice(), movement) {
        Some(slot) => Ok(Some(slot.item())),
        None => Ok(None),
    }
}

/// The slots that the legs of the plan take that are in the air, by leg.
fn plan_slots(
    alloc: Global,
    inst: &Instance,
    plan: &Plan,
    movement: Movement,
) -> Result<Vec<Slot>, NoMem>
    requires { IsPlanFor inst.now plan.now }
    ensures taken { IfOk result (λ all. all.items ≡ slots inst.now plan.now movement (legs_of inst.now)) }
    ensures ranges { IfOk result (λ all. All (IsTaken inst.now movement) all.items) }
{
    let mut taken = Vec::new(alloc);
    for x in 0..inst.legs() {
        if let Some(slot) = slot_of_leg(inst, plan, movement, Leg(x)) {
            taken.push(slot)?;
        }
    }
    Ok(taken)
}

/// The slot that a leg of the plan takes: none where it is cancelled or flown by surface transport.
#[tactic(auto, unfolding(desk_rules::specs::Least::all_hours))]
fn slot_of_leg(inst: &Instance, plan: &Plan, movement: Movement, leg: Leg) -> Option<Slot>
    requires plan { IsPlanFor inst.now plan.now }
    requires leg { leg.0 < legs_of inst.now }
    ensures slot { result ≡ slot_of inst.now plan.now movement leg.0 }
    ensures ranges { ForSome result (IsTaken inst.now movement) }
{
    let Row::Flown { plane, dep } = plan.read_row(leg) else {
        return None;
    };
    if inst.plane(plane).surface {
        return None;
    }
    let info = inst.leg(leg);
    let (airport, at) = match movement {
        Movement::Departure => (info.origin, dep.0),
        Movement::Arrival => (info.dest, dep.0 + info.block),
    };
    Some(Slot {
        movement,
        airport,
        hour: at / 60,
    })
}

/// Adds the slots that added legs take, by aircraft.
fn add_slots(
    inst: &Instance,
    flights: &[Option<Flight>],
    movement: Movement,
    taken: &mut Vec<Slot>,
) -> Result<(), NoMem>
    requires flights { AreRanges inst.now flights.now }
    requires ranges { All (IsTaken inst.now movement) taken.old.items }
    ensures taken { OnOk result (taken.new.items ≡ taken.old.items ++ extra_slots inst.now movement flights.now (planes_of inst.now)) }
    ensures ranges { OnOk result (All (IsTaken inst.now movement) taken.new.items) }
{
    for p in 0..inst.planes() {
        if let Some(slot) = slot_of_flight(inst, movement, Plane(p), flights[p as usize]) {
            taken.push(slot)?;
        }
    }
    Ok(())
}

/// The slot that the added leg of an aircraft takes: none for surface transport, and none after the hundred years.
#[tactic(auto, unfolding(desk_rules::specs::Least::all_hours))]
fn slot_of_flight(
    inst: &Instance,
    movement: Movement,
    plane: Plane,
    flight: Option<Flight>,
) -> Option<Slot>
    requires plane { plane.0 < planes_of inst.now }
    requires flight { ForSome flight (IsFlight inst.now) }
    ensures slot { result ≡ extra_slot inst.now movement plane.0 flight }
    ensures ranges { ForSome result (IsTaken inst.now movement) }
{
    let flight = flight?;
    let (airport, at) = match movement {
        Movement::Departure => (flight.origin, flight.dep.0),
        Movement::Arrival => (flight.dest, flight.dep.0 + flight.minutes),
    };
    let hour = at / 60;
    if inst.plane(plane).surface || hour >= HOURS {
        return None;
    }
    Some(Slot {
        movement,
        airport,
        hour,
    })
}

/// The least slot that stands more often in a sorted list than its cap. The list is walked once.
fn least_overfull(inst: &Instance, sorted: &[Slot], movement: Movement) -> Option<Slot>
    requires ranges { All (IsTaken inst.now movement) sorted.now }
    requires order { IsSorted slot_cmp sorted.now }
    ensures least { IsLeastOverfull inst.now sorted.now result }
    ensures movement { ForSome result (λ slot. slot.movement ≡ movement) }
{
    for k in 0..sorted.len() {
        if is_one_too_many(inst, sorted, movement, k) {
            return Some(sorted[k]);
        }
    }
    None
}

/// Whether the slot at a place of a sorted list is one more than its cap: it stands already as many places to the left as the
/// cap has.
fn is_one_too_many(inst: &Instance, sorted: &[Slot], movement: Movement, k: usize) -> bool
    requires ranges { All (IsTaken inst.now movement) sorted.now }
    requires place { k < length sorted.now }
    ensures { result ≡ is_one_too_many inst.now sorted.now k }
{
    let slot = sorted[k];
    let Some(cap) = slot.cap(inst) else {
        return false;
    };
    let cap = cap as usize;
    cap <= k && is_same(sorted[k - cap], slot)
}

/// Whether both are one slot.
#[tactic(auto, using(hour_counts::proofs::SlotLaws::derived_is))]
fn is_same(slot: Slot, other: Slot) -> bool
    ensures { result ≡ is_slot slot other }
{
    slot == other
}
