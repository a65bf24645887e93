//! Slots, and what a row of a plan takes of them.

ghost use Rattle.std.specs.Prelude.{◌≡◌, ◌<◌, IsTrue};
ghost use Rattle.desk_data.specs.Situation.{legs_of, planes_of};
ghost use Rattle.desk_data.specs.Valid.{IsRowOf};
ghost use Rattle.board_kit.specs.Slots.{AreSlots, grown, is_over, moved, slots_of, stepped};

use desk_data::{Instance, Leg, Row};
use hour_counts::{Movement, Slot};

/// Which aircraft decides whether a leg counts, which it does where that is no surface transport: the
/// one that flies it, or the one that is scheduled.
#[derive(Clone, Copy)]
pub(crate) enum By {
    Flyer,
    Schedule,
}

/// The slots of a row that is flown, and by which aircraft its leg counts there.
#[derive(Clone, Copy, PartialEq, Eq)]
pub(crate) struct SlotUse {
    pub from: Slot,
    pub to: Slot,
    pub by_flyer: bool,
    pub by_schedule: bool,
}

/// The slots that a leg left, and those that it took.
#[derive(Clone, Copy)]
pub(crate) struct SlotChange {
    pub gone: Option<SlotUse>,
    pub come: Option<SlotUse>,
}

/// How many legs take a slot, by either aircraft, and how many may; `None` where any number may.
#[derive(Clone, Copy)]
pub(crate) struct SlotLoad {
    pub by_flyer: u32,
    pub by_schedule: u32,
    pub cap: Option<u32>,
}

/// Whether a leg takes the slots that it left, and counts there as it did.
pub(crate) fn is_same(gone: Option<SlotUse>, come: Option<SlotUse>) -> bool
    ensures { IsTrue result → gone ≡ come }
{
    gone == come
}

/// Whether a slot is overfull.
pub(crate) fn is_over(load: SlotLoad) -> bool
    ensures { result ≡ is_over load }
{
    match load.cap {
        Some(cap) => cap < load.by_flyer,
        None => false,
    }
}

/// A load as a leg comes, or as one goes.
pub(crate) fn moved(load: SlotLoad, taken: SlotUse, more: bool) -> SlotLoad
    ensures { result ≡ moved more taken load }
{
    SlotLoad {
        by_flyer: stepped(load.by_flyer, taken.by_flyer, more),
        by_schedule: stepped(load.by_schedule, taken.by_schedule, more),
        cap: load.cap,
    }
}

/// One more or one less, where it counts.
fn stepped(count: u32, counts: bool, more: bool) -> u32
    ensures { result ≡ stepped more counts count }
{
    if !counts {
        return count;
    }
    if more {
        grown(count)
    } else {
        count.saturating_sub(1)
    }
}

/// One more, but not more than the greatest number.
fn grown(count: u32) -> u32
    ensures { result ≡ grown count }
{
    if count < 4_294_967_295 {
        count + 1
    } else {
        count
    }
}

/// The slots of a row of a leg, if it is flown.
#[tactic(auto, unfolding(desk_rules::specs::Least::all_hours))]
pub(crate) fn slots_of(inst: &Instance, leg: Leg, row: Row) -> Option<SlotUse>
    requires leg { leg.0 < legs_of inst.now }
    requires row { IsRowOf (planes_of inst.now) row }
    ensures slots { result ≡ slots_of inst.now leg.0 row }
    ensures ranges { AreSlots inst.now result }
{
    let Row::Flown { plane, dep } = row else {
        return None;
    };
    let info = inst.leg(leg);
    Some(SlotUse {
        from: Slot {
            movement: Movement::Departure,
            airport: info.origin,
            hour: dep.0 / 60,
        },
        to: Slot {
            movement: Movement::Arrival,
            airport: info.dest,
            hour: (dep.0 + info.block) / 60,
        },
        by_flyer: !inst.plane(plane).surface,
        by_schedule: !inst.plane(info.plane).surface,
    })
}
