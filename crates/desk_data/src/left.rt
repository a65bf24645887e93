//! What has left: how far a day has gone on, and what is looked up of it.

ghost use Rattle.std.specs.Prelude.{◌≡◌, ◌<◌, ◌≤◌, ℕ, List, None, length, map, replicate, max, zip, slice_index_or, All, IfOk};
ghost use Rattle.std.specs.List.{filter_map};
ghost use Rattle.std.specs.Option.{ForSome, option_or};
ghost use Rattle.day_orders.specs.declared.orders.Order.{Order};
ghost use Rattle.desk_data.specs.Insides.{entries_in, progress_of};
ghost use Rattle.desk_data.specs.Keeps.{KeepsLeft};
ghost use Rattle.desk_data.specs.PlanRows.{row_at};
ghost use Rattle.desk_data.specs.Progress.{leaving, frozen_by, progress_at};
ghost use Rattle.desk_data.specs.Situation.{first_progress, fresh_day, legs_of, now_of, frozen_at, lands, lands_frozen, no_plane};
ghost use Rattle.desk_data.specs.HoursTaken.{hour_taken, departs_in, arrives_in, last_landing};
ghost use Rattle.desk_data.specs.Valid.{AreParts, IsPlanFor, IsRowOf};

use crate::instance::Instance;
use crate::parts::Parts;
use crate::plan::Plan;
use crate::row::Row;
use crate::tally::{Tally, all_waiting, tallies};
use day_orders::{AirportHour, AirportHours};
use desk_units::{Airport, Leg, Minute, NoMem, Plane};
use std::alloc::Global;

/// How far a day has gone on, and what is looked up of it.
pub struct Left {
    /// Up to which moment the day has gone on.
    pub now: Minute,
    /// By leg, the row with which it is frozen.
    pub frozen: Vec<Option<Row>>,
    /// By reservation, how many passengers have flown which frozen legs, in the order of paths.
    pub tally: Vec<Tally>,
    /// Where and when frozen rows depart, but for those of surface transport.
    pub departures: AirportHours,
    /// Where and when they arrive.
    pub arrivals: AirportHours,
    /// By aircraft, when the last of its frozen rows arrives; 0 where it has none.
    pub landings: Vec<Minute>,
}

/// Dropped in one call, so that a function that owns one proves it once, and not part by part.
impl Drop for Left {
    fn drop(self) {
        let Left {
            now: _,
            frozen: _,
            tally: _,
            departures: _,
            arrivals: _,
            landings: _,
        } = self;
    }
}

impl Left {
    /// Before any batch: nothing has left.
    pub fn of(alloc: Global, parts: &Parts) -> Result<Left, NoMem>
        requires { AreParts parts.now }
        ensures progress { IfOk result (λ left. progress_of left ≡ first_progress parts.now) }
        ensures kept { IfOk result (λ left. KeepsLeft (fresh_day parts.now) left.departures left.arrivals left.landings.items) }
    {
        let frozen = nothing_frozen(alloc, parts.legs.as_slice().len())?;
        let tally = all_waiting(alloc, parts.res.as_slice())?;
        Left::known(alloc, parts, parts.from, frozen, tally)
    }

    /// A day at a later moment: what leaves before it by the plan is frozen, and then passengers are tallied.
    pub fn at(alloc: Global, inst: &Instance, plan: &Plan, at: Minute) -> Result<Left, NoMem>
        requires later { now_of inst.now < at.0 }
        requires soon { at.0 ≤ 52480000 }
        requires plan { IsPlanFor inst.now plan.now }
        ensures progress { IfOk result (λ left. progress_of left ≡ progress_at inst.now plan.now at.0) }
        ensures kept { IfOk result (λ left. KeepsLeft (record inst.now { progress = progress_of left }) left.departures left.arrivals left.landings.items) }
    {
        let frozen = frozen_by(alloc, inst, plan, at)?;
        let tally = tallies(alloc, inst, plan, frozen.as_slice())?;
        Left::known(alloc, inst.parts(), at, frozen, tally)
    }

    /// How far a day of these rows has gone on, with these frozen rows, and what is looked up of it, whatever
    /// its orders are.
    fn known(
        alloc: Global,
        parts: &Parts,
        now: Minute,
        frozen: Vec<Option<Row>>,
        tally: Vec<Tally>,
    ) -> Result<Left, NoMem>
        requires parts { AreParts parts.now }
        requires legs { length frozen.items ≡ length parts.now.legs }
        requires rows { All (λ row. ForSome row (IsRowOf (length parts.now.planes))) frozen.items }
        ensures progress { IfOk result (λ left. progress_of left ≡ record { now = now; frozen = frozen.items; tally = map entries_in tally.items }) }
        ensures kept { IfOk result (λ left. (orders : List Order) → KeepsLeft (record { parts = parts.now; orders = orders; progress = progress_of left }) left.departures left.arrivals left.landings.items) }
    {
        let departures = departures_of(alloc, parts, frozen.as_slice())?;
        let arrivals = arrivals_of(alloc, parts, frozen.as_slice())?;
        let landings = landings_of(alloc, parts, frozen.as_slice())?;
        Ok(Left {
            now,
            frozen,
            tally,
            departures: AirportHours::of(departures),
            arrivals: AirportHours::of(arrivals),
            landings,
        })
    }
}

fn nothing_frozen(alloc: Global, legs: usize) -> Result<Vec<Option<Row>>, NoMem>
    ensures { IfOk result (λ frozen. frozen.items ≡ replicate legs None) }
{
    let mut frozen = Vec::with_capacity(alloc, legs)?;
    for _ in 0..legs {
        frozen.push(None)?;
    }
    Ok(frozen)
}

/// By leg, the row with which it is frozen at a moment.
#[tactic(auto, unfolding(crate::specs::Progress::frozen_by))]
fn frozen_by(
    alloc: Global,
    inst: &Instance,
    plan: &Plan,
    at: Minute,
) -> Result<Vec<Option<Row>>, NoMem>
    requires { IsPlanFor inst.now plan.now }
    ensures { IfOk result (λ frozen. frozen.items ≡ frozen_by inst.now plan.now at.0) }
{
    let legs = inst.legs();
    let mut frozen = Vec::with_capacity(alloc, legs as usize)?;
    for x in 0..legs {
        frozen.push(row_at(inst, plan, at, Leg(x)))?;
    }
    Ok(frozen)
}

/// The row with which a leg is frozen at a moment: the one with which it was, or with which it leaves before it.
fn row_at(inst: &Instance, plan: &Plan, at: Minute, leg: Leg) -> Option<Row>
    requires plan { IsPlanFor inst.now plan.now }
    requires leg { leg.0 < legs_of inst.now }
    ensures { result ≡ option_or (frozen_at inst.now leg.0) (leaving inst.now at.0 leg.0 (row_at plan.now leg.0)) }
{
    let row = plan.read_row(leg);
    inst.frozen(leg).or(leaving(inst, at, leg, row))
}

/// The row with which a leg leaves before a moment, by its row in the plan.
fn leaving(inst: &Instance, at: Minute, leg: Leg, row: Row) -> Option<Row>
    requires { leg.0 < legs_of inst.now }
    ensures { result ≡ leaving inst.now at.0 leg.0 row }
{
    let leaves = match row {
        Row::Flown { plane: _, dep } => dep.0 < at.0,
        Row::Cancelled => inst.fixed(leg) && inst.earliest(leg).0 < at.0,
    };
    if leaves { Some(row) } else { None }
}

/// Where and when the frozen rows depart.
fn departures_of(
    alloc: Global,
    parts: &Parts,
    frozen: &[Option<Row>],
) -> Result<Vec<AirportHour>, NoMem>
    ensures { IfOk result (λ hours. hours.items ≡ filter_map (departs_in parts.now) (zip parts.now.legs frozen.now)) }
{
    let hours = parts
        .legs
        .as_slice()
        .iter()
        .zip(frozen)
        .filter_map(|(leg, row)| hour_taken(parts, leg.origin, 0, *row))
        .collect(alloc)?;
    Ok(hours)
}

/// Where and when they arrive.
fn arrivals_of(
    alloc: Global,
    parts: &Parts,
    frozen: &[Option<Row>],
) -> Result<Vec<AirportHour>, NoMem>
    ensures { IfOk result (λ hours. hours.items ≡ filter_map (arrives_in parts.now) (zip parts.now.legs frozen.now)) }
{
    let hours = parts
        .legs
        .as_slice()
        .iter()
        .zip(frozen)
        .filter_map(|(leg, row)| hour_taken(parts, leg.dest, leg.block, *row))
        .collect(alloc)?;
    Ok(hours)
}

/// The hour of an airport that a row takes, so many minutes after it departs; surface transport takes none.
fn hour_taken(parts: &Parts, airport: Airport, after: u32, row: Option<Row>) -> Option<AirportHour>
    ensures { result ≡ hour_taken parts.now airport after row }
{
    match row {
        Some(Row::Flown { plane, dep }) if !is_surface(parts, plane) => {
            let minute = u64::from(dep.0) + u64::from(after);
            Some(AirportHour {
                airport,
                hour: (minute / 60) as u32,
            })
        }
        _ => None,
    }
}

/// Whether an aircraft is surface transport; one that there is not is none.
#[tactic(auto, unfolding(crate::specs::Situation::no_plane))]
fn is_surface(parts: &Parts, plane: Plane) -> bool
    ensures { result ≡ (slice_index_or parts.now.planes plane.0 no_plane).surface }
{
    match parts.planes.as_slice().get(plane.0 as usize) {
        Some(info) => info.surface,
        None => false,
    }
}

/// By aircraft, when the last of its frozen rows arrives; 0 where it has none.
fn landings_of(alloc: Global, parts: &Parts, frozen: &[Option<Row>]) -> Result<Vec<Minute>, NoMem>
    requires parts { AreParts parts.now }
    requires legs { length frozen.now ≡ length parts.now.legs }
    requires rows { All (λ row. ForSome row (IsRowOf (length parts.now.planes))) frozen.now }
    ensures all { IfOk result (λ landings. length landings.items ≡ length parts.now.planes) }
    ensures landed { IfOk result (λ landings. (p : ℕ) → p < length parts.now.planes → (slice_index_or landings.items p (record { 0 = 0 })).0 ≡ last_landing p (zip parts.now.legs frozen.now)) }
{
    let mut landings = no_landings(alloc, parts.planes.as_slice().len())?;
    for (x, leg) in parts.legs.as_slice().iter().enumerate() {
        land(landings.as_mut_slice(), leg.block, frozen[x]);
    }
    Ok(landings)
}

fn no_landings(alloc: Global, planes: usize) -> Result<Vec<Minute>, NoMem>
    ensures { IfOk result (λ landings. landings.items ≡ replicate planes (record { 0 = 0 })) }
{
    Ok(vec![in alloc; Minute(0); planes]?)
}

/// Counts in the arrival of a row, if one is, for the aircraft that flies it.
fn land(landings: &mut [Minute], block: u32, row: Option<Row>)
    requires block { block ≤ 2880 }
    requires row { ForSome row (IsRowOf (length landings.old)) }
    ensures all { length landings.new ≡ length landings.old }
    ensures landed { (p : ℕ) → p < length landings.old → (slice_index_or landings.new p (record { 0 = 0 })).0 ≡ max (slice_index_or landings.old p (record { 0 = 0 })).0 (lands_frozen p block row) }
{
    if let Some(row) = row {
        land_row(landings, block, row);
    }
}

fn land_row(landings: &mut [Minute], block: u32, row: Row)
    requires block { block ≤ 2880 }
    requires row { IsRowOf (length landings.old) row }
    ensures all { length landings.new ≡ length landings.old }
    ensures landed { (p : ℕ) → p < length landings.old → (slice_index_or landings.new p (record { 0 = 0 })).0 ≡ max (slice_index_or landings.old p (record { 0 = 0 })).0 (lands p block row) }
{
    if let Row::Flown { plane, dep } = row {
        let p = plane.0 as usize;
        landings[p] = landings[p].max(Minute(dep.0 + block));
    }
}
