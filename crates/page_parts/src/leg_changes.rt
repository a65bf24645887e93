//! The legs that changed.

ghost use Rattle.std.specs.Prelude.{◌≡◌, ◌<◌, ◌++◌, IfOk, OnOk};
ghost use Rattle.desk_data.specs.Situation.{legs_of};
ghost use Rattle.desk_data.specs.Valid.{IsPlanFor};
ghost use Rattle.page_parts.specs.Legs.{changed_leg, changed_legs, leg_change, same_row, shift};

use desk_data::{Instance, Leg, Minute, NoMem, Plan, Row};
use std::alloc::Global;

/// By how many minutes a leg departs earlier or later than before.
#[derive(Clone, Copy, PartialEq, Eq)]
pub enum Shift {
    /// By so many minutes, at least one.
    Earlier(u32),
    Same,
    /// By so many minutes, at least one.
    Later(u32),
}

/// What became of a leg.
#[derive(Clone, Copy, PartialEq, Eq)]
pub enum LegChange {
    /// It was flown, and is cancelled.
    Cancelled,
    /// It was cancelled, and is flown.
    Restored,
    /// It is flown at another time, or by another aircraft (`swapped`), or both.
    Moved { shift: Shift, swapped: bool },
}

/// A leg that changed.
#[derive(Clone, Copy)]
pub struct ChangedLeg {
    /// The leg, by its number.
    pub leg: Leg,
    /// What became of it.
    pub change: LegChange,
}

// By how many minutes a departure is earlier or later than it was.
fn shift_between(was: Minute, now: Minute) -> Shift
    ensures { result ≡ shift was.0 now.0 }
{
    if now.0 < was.0 {
        Shift::Earlier(was.0 - now.0)
    } else if was.0 < now.0 {
        Shift::Later(now.0 - was.0)
    } else {
        Shift::Same
    }
}

// Whether two rows are the same.
fn same_row(was: Row, now: Row) -> bool
    ensures { result ≡ same_row was now }
{
    match was {
        Row::Flown { plane, dep } => match now {
            Row::Flown {
                plane: other,
                dep: at,
            } => plane.0 == other.0 && dep.0 == at.0,
            Row::Cancelled => false,
        },
        Row::Cancelled => match now {
            Row::Flown { .. } => false,
            Row::Cancelled => true,
        },
    }
}

// What became of a leg.
fn leg_change(was: Row, now: Row) -> LegChange
    ensures { result ≡ leg_change was now }
{
    match was {
        Row::Flown { plane, dep } => match now {
            Row::Flown {
                plane: other,
                dep: at,
            } => LegChange::Moved {
                shift: shift_between(dep, at),
                swapped: plane.0 != other.0,
            },
            Row::Cancelled => LegChange::Cancelled,
        },
        Row::Cancelled => LegChange::Restored,
    }
}

// Adds a leg, if its row is another one.
fn push_changed(
    out: &mut Vec<ChangedLeg>,
    inst: &Instance,
    before: &Plan,
    now: &Plan,
    leg: Leg,
) -> Result<(), NoMem>
    requires before { IsPlanFor inst.now before.now }
    requires plan { IsPlanFor inst.now now.now }
    requires leg { leg.0 < legs_of inst.now }
    ensures { OnOk result (out.new.items ≡ out.old.items ++ changed_leg before.now now.now leg.0) }
{
    let was = before.read_row(leg);
    let is = now.read_row(leg);
    if same_row(was, is) {
        return Ok(());
    }
    out.push(ChangedLeg {
        leg,
        change: leg_change(was, is),
    })?;
    Ok(())
}

/// The legs whose row in the second plan is not that of the first, in their order. The only error is out of memory.
pub fn changed_legs(
    alloc: Global,
    inst: &Instance,
    before: &Plan,
    now: &Plan,
) -> Result<Vec<ChangedLeg>, NoMem>
    requires before { IsPlanFor inst.now before.now }
    requires plan { IsPlanFor inst.now now.now }
    ensures { IfOk result (λ list. list.items ≡ changed_legs before.now now.now (legs_of inst.now)) }
{
    let mut out = Vec::new(alloc);
    for x in 0..inst.legs() {
        push_changed(&mut out, inst, before, now, Leg(x))?;
    }
    Ok(out)
}
