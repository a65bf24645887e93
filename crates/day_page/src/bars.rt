//! What is drawn of the legs: bars and outlines.

ghost use Rattle.desk_data.specs.Situation.{legs_of};
ghost use Rattle.desk_data.specs.Valid.{IsPlanFor};
ghost use Rattle.std.specs.Prelude.{◌<◌};

use desk_data::{Instance, Leg, NoMem, Plan, Res, Row};
use page_parts::Shift;
use std::alloc::Global;

/// What a bar shows.
#[derive(Clone, Copy, PartialEq, Eq)]
pub(crate) enum Look {
    /// A leg that is flown: how its time is shifted, and whether another aircraft flies it than is scheduled.
    Flown { shift: Shift, swapped: bool },
    /// Where a leg is scheduled that is flown at another time or by another aircraft: `now` is the number of the one that flies it.
    Left { now: u32 },
    /// Where a leg is scheduled that is cancelled.
    Cancelled,
}

/// A leg as it is drawn in the row of an aircraft.
#[derive(Clone, Copy)]
pub(crate) struct Bar {
    /// The aircraft, by its number.
    pub plane: u32,
    /// From when to when it is drawn, in minutes since 01/01/2000 00:00.
    pub from: u32,
    pub to: u32,
    /// The leg, by its number.
    pub leg: u32,
    pub look: Look,
}

impl Bar {
    /// Whether it stands among the flown legs, and not below them.
    pub(crate) fn is_flown(&self) -> bool {
        matches!(self.look, Look::Flown { .. })
    }

    /// Whether it shows a change.
    pub(crate) fn is_change(&self) -> bool {
        self.look
            != Look::Flown {
                shift: Shift::Same,
                swapped: false,
            }
    }
}

// How a time is shifted.
fn shift_of(was: u32, now: u32) -> Shift {
    if now < was {
        Shift::Earlier(was - now)
    } else if was < now {
        Shift::Later(now - was)
    } else {
        Shift::Same
    }
}

// Adds the bars of a leg: that of its row, and where it is scheduled if that is another place.
fn push_bars(out: &mut Vec<Bar>, inst: &Instance, plan: &Plan, leg: Leg) -> Result<(), NoMem>
    requires plan { IsPlanFor inst.now plan.now }
    requires leg { leg.0 < legs_of inst.now }
{
    let info = inst.leg(leg);
    let sched = info.sched.0;
    let left = Bar {
        plane: info.plane.0,
        from: sched,
        to: sched.saturating_add(info.block),
        leg: leg.0,
        look: Look::Cancelled,
    };
    match plan.read_row(leg) {
        Row::Cancelled => out.push(left)?,
        Row::Flown { plane, dep } => {
            let shift = shift_of(sched, dep.0);
            let swapped = plane.0 != info.plane.0;
            let bar = Bar {
                plane: plane.0,
                from: dep.0,
                to: dep.0.saturating_add(info.block),
                look: Look::Flown { shift, swapped },
                ..left
            };
            out.push(bar)?;
            if bar.is_change() {
                out.push(Bar {
                    look: Look::Left { now: plane.0 },
                    ..left
                })?;
            }
        }
    }
    Ok(())
}

/// The bars of all legs.
pub(crate) fn bars_of(alloc: Global, inst: &Instance, plan: &Plan) -> Result<Vec<Bar>, NoMem>
    requires { IsPlanFor inst.now plan.now }
{
    let mut out = Vec::new(alloc);
    for x in 0..inst.legs() {
        push_bars(&mut out, inst, plan, Leg(x))?;
    }
    Ok(out)
}

// Adds a count for a leg.
fn add(counts: &mut Vec<u32>, leg: Leg, count: u32) {
    if let Some(place) = counts.get_mut(leg.0 as usize) {
        *place = place.saturating_add(count);
    }
}

/// How many passengers are aboard each leg, by its number.
pub(crate) fn aboard_of(alloc: Global, inst: &Instance, plan: &Plan) -> Result<Vec<u32>, NoMem>
    requires { IsPlanFor inst.now plan.now }
{
    let mut counts = vec![in alloc; 0; inst.legs() as usize]?;
    for r in 0..inst.reservations() {
        for group in plan.groups(Res(r)) {
            for pair in group.path.as_slice() {
                add(&mut counts, pair.0, group.count);
            }
        }
    }
    Ok(counts)
}

/// The bars of an aircraft in a piece of time.
pub(crate) fn bars_in(
    alloc: Global,
    bars: &[Bar],
    plane: u32,
    from: u32,
    to: u32,
) -> Result<Vec<Bar>, NoMem> {
    let mut out = Vec::new(alloc);
    for bar in bars {
        if bar.plane == plane && bar.from < to && from < bar.to {
            out.push(*bar)?;
        }
    }
    Ok(out)
}

/// In which lane a bar stands among those of its row: 0, and one more for each bar that began before it and goes on, up
/// to 3.
pub(crate) fn lane_of(bars: &[Bar], bar: &Bar) -> u32 {
    let mut lane: u32 = 0;
    for other in bars {
        let is_before = other.from < bar.from || (other.from == bar.from && other.leg < bar.leg);
        if is_before && bar.from < other.to && other.is_flown() == bar.is_flown() && lane < 3 {
            lane += 1;
        }
    }
    lane
}
