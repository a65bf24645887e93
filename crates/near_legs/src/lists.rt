//! Lists of legs, by the aircraft that flies them or by their airports.

ghost use Rattle.std.specs.Prelude.{◌≡◌, ◌+◌, ◌<◌, [], ◌∷◌, ◌++◌, IfOk, OnOk, IfSome, length, map, replicate, slice_index_or, slice_set};
ghost use Rattle.std.specs.Option.{ForSome};
ghost use Rattle.desk_data.specs.Situation.{legs_of};
ghost use Rattle.desk_data.specs.PlanRows.{row_at};
ghost use Rattle.desk_data.specs.Valid.{IsPlanFor};
ghost use Rattle.near_moves.specs.MoveParts.{is_movable_flown, is_restorable};
ghost use Rattle.near_legs.specs.LegTables.{AreListed, count_of, pair_number, place};

use desk_data::{Airport, Instance, Leg, NoMem, Row};
use plan_pages::Pages;
use plan_reads::is_flown;
use std::alloc::Global;

/// By what legs are listed.
#[derive(Clone, Copy)]
pub(crate) enum By {
    /// Movable legs by the aircraft that flies them.
    Aircraft,
    /// Legs that may be restored by their origin and destination.
    AirportPair,
}

/// Under each number, of an aircraft or of a pair of airports, the legs that are listed there, by leg. The
/// only error is out of memory.
pub(crate) fn lists(
    alloc: Global,
    inst: &Instance,
    plan: &Pages,
    by: By,
) -> Result<Vec<Vec<Leg>>, NoMem>
    requires { IsPlanFor inst.now plan.now }
    ensures { IfOk result (λ lists. AreListed (legs_of inst.now) inst.now plan.now by (map (λ l. l.items) lists.items)) }
{
    let mut lists = no_lists(alloc, count_of(inst, by))?;
    for x in 0..inst.legs() {
        take_leg(inst, plan, by, Leg(x), &mut lists)?;
    }
    Ok(lists)
}

/// How many numbers there are.
fn count_of(inst: &Instance, by: By) -> u32
    ensures { result ≡ count_of inst.now by }
{
    match by {
        By::Aircraft => inst.planes(),
        By::AirportPair => 500 * inst.airports(),
    }
}

/// So many empty lists.
fn no_lists(alloc: Global, count: u32) -> Result<Vec<Vec<Leg>>, NoMem>
    ensures { IfOk result (λ lists. map (λ l. l.items) lists.items ≡ replicate count []) }
{
    let mut lists = Vec::with_capacity(alloc, count as usize)?;
    for _ in 0..count {
        lists.push(Vec::new(alloc))?;
    }
    Ok(lists)
}

/// Takes one more leg into account.
fn take_leg(
    inst: &Instance,
    plan: &Pages,
    by: By,
    leg: Leg,
    lists: &mut Vec<Vec<Leg>>,
) -> Result<(), NoMem>
    requires plan { IsPlanFor inst.now plan.now }
    requires leg { leg.0 < legs_of inst.now }
    requires so_far { AreListed leg.0 inst.now plan.now by (map (λ l. l.items) lists.old.items) }
    ensures { OnOk result (AreListed (leg.0 + 1) inst.now plan.now by (map (λ l. l.items) lists.new.items)) }
{
    match place(inst, plan, by, leg) {
        Some(number) => push_leg(lists, number, leg),
        None => Ok(()),
    }
}

/// Under which number a leg is listed, if it is.
fn place(inst: &Instance, plan: &Pages, by: By, leg: Leg) -> Option<u32>
    requires plan { IsPlanFor inst.now plan.now }
    requires leg { leg.0 < legs_of inst.now }
    ensures place { result ≡ place inst.now plan.now by leg.0 }
    ensures limit { ForSome result (λ number. number < count_of inst.now by) }
{
    match by {
        By::Aircraft => flier_of_movable(inst, plan, leg),
        By::AirportPair => airports_of_restorable(inst, plan, leg),
    }
}

/// The aircraft that flies a leg, if it is movable and one does.
fn flier_of_movable(inst: &Instance, plan: &Pages, leg: Leg) -> Option<u32>
    requires plan { IsPlanFor inst.now plan.now }
    requires leg { leg.0 < legs_of inst.now }
    ensures place { result ≡ place inst.now plan.now By.Aircraft leg.0 }
    ensures limit { ForSome result (λ number. number < count_of inst.now By.Aircraft) }
{
    if inst.fixed(leg) {
        return None;
    }
    match plan.read_row(leg) {
        Row::Flown { plane, .. } => Some(plane.0),
        Row::Cancelled => None,
    }
}

/// The number of the airports of a leg, if it may be restored.
fn airports_of_restorable(inst: &Instance, plan: &Pages, leg: Leg) -> Option<u32>
    requires plan { IsPlanFor inst.now plan.now }
    requires leg { leg.0 < legs_of inst.now }
    ensures place { result ≡ place inst.now plan.now By.AirportPair leg.0 }
    ensures limit { ForSome result (λ number. number < count_of inst.now By.AirportPair) }
{
    if is_restorable(inst, plan, leg) {
        let _few = inst.airports();
        let leg = inst.leg(leg);
        Some(pair_number(leg.origin, leg.dest))
    } else {
        None
    }
}

/// The number of a pair of airports, from one to the other: there are at most 500.
pub(crate) fn pair_number(from: Airport, to: Airport) -> u32
    requires from { from.0 < 500 }
    requires to { to.0 < 500 }
    ensures { result ≡ pair_number from.0 to.0 }
{
    500 * from.0 + to.0
}

/// Whether a leg is movable, and flown.
pub(crate) fn is_movable_flown(inst: &Instance, plan: &Pages, leg: Leg) -> bool
    requires plan { IsPlanFor inst.now plan.now }
    requires leg { leg.0 < legs_of inst.now }
    ensures { result ≡ is_movable_flown inst.now plan.now leg.0 }
{
    !inst.fixed(leg) && is_flown(plan.read_row(leg))
}

/// Whether a leg is movable, and cancelled though it is not called off.
pub(crate) fn is_restorable(inst: &Instance, plan: &Pages, leg: Leg) -> bool
    requires plan { IsPlanFor inst.now plan.now }
    requires leg { leg.0 < legs_of inst.now }
    ensures { result ≡ is_restorable inst.now plan.now leg.0 }
{
    !inst.fixed(leg) && !is_flown(plan.read_row(leg)) && !inst.called_off(leg)
}

/// Adds a leg to those under a number.
fn push_leg(lists: &mut Vec<Vec<Leg>>, number: u32, leg: Leg) -> Result<(), NoMem>
    requires { number < length lists.old.items }
    ensures { OnOk result (map (λ l. l.items) lists.new.items ≡ slice_set (map (λ l. l.items) lists.old.items) number (slice_index_or (map (λ l. l.items) lists.old.items) number [] ++ leg ∷ [])) }
{
    lists[number as usize].push(leg)?;
    Ok(())
}
