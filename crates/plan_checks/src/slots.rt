//! The slots that legs take: where and in which hour they depart, or arrive.

ghost use Rattle.std.specs.Prelude.{◌≡◌, ◌<◌, IfOk, All};
ghost use Rattle.std.specs.Option.{ForSome};
ghost use Rattle.desk_data.specs.Situation.{legs_of};
ghost use Rattle.desk_data.specs.Valid.{IsPlanFor};
ghost use Rattle.hour_counts.specs.Slots.{IsSlot};
ghost use Rattle.plan_checks.specs.TakenSlots.{slot_of, slots};

use desk_data::{Instance, Leg, NoMem, Plan, Row};
use hour_counts::{Movement, Slot};
use std::alloc::Global;

/// The slots that the legs in the air take, by leg.
pub(crate) fn taken_slots(
    alloc: Global,
    inst: &Instance,
    plan: &Plan,
    movement: Movement,
) -> Result<Vec<Slot>, NoMem>
    requires { IsPlanFor inst.now plan.now }
    ensures taken { IfOk result (λ all. all.items ≡ slots inst.now plan.now movement (legs_of inst.now)) }
    ensures ranges { IfOk result (λ all. All (IsSlot inst.now) all.items) }
{
    let mut taken = Vec::new(alloc);
    for x in 0..inst.legs() {
        if let Some(slot) = slot_of_leg(inst, plan, movement, Leg(x)) {
            taken.push(slot)?;
        }
    }
    Ok(taken)
}

/// The slot that a leg takes: none where it is cancelled or flown by surface transport.
#[tactic(auto, unfolding(desk_rules::specs::Least::all_hours))]
fn slot_of_leg(inst: &Instance, plan: &Plan, movement: Movement, leg: Leg) -> Option<Slot>
    requires plan { IsPlanFor inst.now plan.now }
    requires leg { leg.0 < legs_of inst.now }
    ensures slot { result ≡ slot_of inst.now plan.now movement leg.0 }
    ensures ranges { ForSome result (IsSlot inst.now) }
{
    let Row::Flown { plane, dep } = plan.read_row(leg) else {
        return None;
    };
    if inst.plane(plane).surface {
        return None;
    }
    let info = inst.leg(leg);
    let (airport, at) = match movement {
        Movement::Departure => (info.origin, dep.0),
        Movement::Arrival => (info.dest, dep.0 + info.block),
    };
    Some(Slot {
        movement,
        airport,
        hour: at / 60,
    })
}
