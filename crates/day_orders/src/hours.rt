//! What orders say of an airport's hours, kept as the hours at which that changes.

ghost use Rattle.std.specs.Prelude.{◌≡◌, ◌≤◌, ◌<◌, ℕ, IfOk, Some, false, ◌&&◌, nat_le, nat_lt, if◌then◌else◌, IfSome, IfNone, All, length, take, drop};
ghost use Rattle.day_orders.specs.LastOrders.{touches};
ghost use Rattle.day_orders.specs.KeptLists.{AreInOrder, kept_cap};

use desk_units::{Minute, NoMem};
use std::alloc::Global;

/// What an airport takes in an hour.
#[derive(Clone, Copy)]
pub struct HourCap {
    /// Departures.
    pub deps: u32,
    /// Arrivals.
    pub arrs: u32,
}

/// What the orders say of an airport from an hour on, up to the hour of the next change.
#[derive(Clone, Copy)]
pub struct CapChange {
    pub hour: u32,
    /// `None` where they say nothing.
    pub cap: Option<HourCap>,
}

/// The hours that have a minute of a span: from the first up to but not including the second. `None`
/// where the span has no minute.
pub fn hours_of(from: Minute, to: Minute) -> Option<(u32, u32)>
    ensures some { IfSome result (λ hours. (h : ℕ) → touches h from.0 to.0 ≡ (nat_le hours.0 h && nat_lt h hours.1)) }
    ensures up { IfSome result (λ hours. hours.0 < hours.1) }
    ensures none { IfNone result ((h : ℕ) → touches h from.0 to.0 ≡ false) }
{
    if from.0 < to.0 {
        Some((from.0 / 60, (to.0 - 1) / 60 + 1))
    } else {
        None
    }
}

/// How many changes stand before an hour.
fn count_before(changes: &[CapChange], hour: u32) -> usize
    requires { AreInOrder changes.now }
    ensures within { result ≤ length changes.now }
    ensures front { All (λ change. change.hour < hour) (take result changes.now) }
    ensures rest { All (λ change. hour ≤ change.hour) (drop result changes.now) }
{
    changes.partition_point(|change| change.hour < hour)
}

/// How many changes stand at or before an hour.
fn count_up_to(changes: &[CapChange], hour: u32) -> usize
    requires { AreInOrder changes.now }
    ensures within { result ≤ length changes.now }
    ensures front { All (λ change. change.hour ≤ hour) (take result changes.now) }
    ensures rest { All (λ change. hour < change.hour) (drop result changes.now) }
{
    changes.partition_point(|change| change.hour <= hour)
}

/// What the changes say of an hour: what the last one at or before it says.
pub fn cap_at(changes: &[CapChange], hour: u32) -> Option<HourCap>
    requires { AreInOrder changes.now }
    ensures { result ≡ kept_cap changes.now hour }
{
    let next = count_up_to(changes, hour);
    if next == 0 {
        None
    } else {
        changes[next - 1].cap
    }
}

/// The changes with this cap from one hour up to but not including the other. The only error is out of
/// memory.
pub fn with_cap(
    alloc: Global,
    changes: &[CapChange],
    first: u32,
    after_last: u32,
    cap: HourCap,
) -> Result<Vec<CapChange>, NoMem>
    requires order { AreInOrder changes.now }
    requires up { first < after_last }
    ensures order { IfOk result (λ new. AreInOrder new.items) }
    ensures caps { IfOk result (λ new. (h : ℕ) → kept_cap new.items h ≡ (if nat_le first h && nat_lt h after_last then Some cap else kept_cap changes.now h)) }
{
    let start = count_before(changes, first);
    let end = count_up_to(changes, after_last);
    let resumed = cap_at(changes, after_last);
    let mut new = Vec::from_slice(alloc, &changes[..start])?;
    new.push(CapChange {
        hour: first,
        cap: Some(cap),
    })?;
    new.push(CapChange {
        hour: after_last,
        cap: resumed,
    })?;
    new.extend_from_slice(&changes[end..])?;
    Ok(new)
}
