//! The first hour of an airport in which more legs depart, or arrive, than its cap.

ghost use Rattle.std.specs.Prelude.{◌≡◌, ◌<◌, length, find, All, IfOk};
ghost use Rattle.std.specs.List.Sorted.{IsSorted};
ghost use Rattle.desk_data.specs.Valid.{IsPlanFor};
ghost use Rattle.desk_rules.specs.Least.{breaks, each_hour};
ghost use Rattle.hour_counts.specs.Slots.{IsSlot, is_slot, slot_cmp};
ghost use Rattle.plan_checks.specs.TakenSlots.{item_of, IsLeastOverfull, is_one_too_many};

use crate::slots::taken_slots;
use desk_data::{Broken, Instance, NoMem, Plan};
use hour_counts::{Movement, Slot};
use std::alloc::Global;

/// The first airport and hour in which a plan has more departures than the cap, or more arrivals,
/// as the item of the rule of that movement.
pub(crate) fn first_overfull(
    alloc: Global,
    inst: &Instance,
    plan: &Plan,
    movement: Movement,
) -> Result<Option<Broken>, NoMem>
    requires { IsPlanFor inst.now plan.now }
    ensures { IfOk result (λ first. first ≡ find (breaks inst.now plan.now) (each_hour inst.now (item_of movement))) }
{
    let mut slots = taken_slots(alloc, inst, plan, movement)?;
    slots.sort()?;
    match least_overfull(inst, slots.as_slice()) {
        Some(slot) => Ok(Some(slot.item())),
        None => Ok(None),
    }
}

/// The least slot that stands more often in a sorted list than its cap. The list is walked once.
fn least_overfull(inst: &Instance, sorted: &[Slot]) -> Option<Slot>
    requires ranges { All (IsSlot inst.now) sorted.now }
    requires order { IsSorted slot_cmp sorted.now }
    ensures { IsLeastOverfull inst.now sorted.now result }
{
    for k in 0..sorted.len() {
        if is_one_too_many(inst, sorted, k) {
            return Some(sorted[k]);
        }
    }
    None
}

/// Whether the slot at a place of a sorted list is one more than its cap: it stands already as many
/// places to the left as the cap has.
fn is_one_too_many(inst: &Instance, sorted: &[Slot], k: usize) -> bool
    requires ranges { All (IsSlot inst.now) sorted.now }
    requires place { k < length sorted.now }
    ensures { result ≡ is_one_too_many inst.now sorted.now k }
{
    let slot = sorted[k];
    let Some(cap) = slot.cap(inst) else {
        return false;
    };
    let cap = cap as usize;
    cap <= k && is_same(sorted[k - cap], slot)
}

/// Whether both are one slot.
#[tactic(auto, using(hour_counts::proofs::SlotLaws::derived_is))]
fn is_same(slot: Slot, other: Slot) -> bool
    ensures { result ≡ is_slot slot other }
{
    slot == other
}
