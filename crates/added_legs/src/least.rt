//! The first item that a plan breaks with added legs.

ghost use Rattle.std.specs.Prelude.{◌≡◌, find, IfOk};
ghost use Rattle.std.specs.List.{flat_map};
ghost use Rattle.std.specs.Option.{option_map};
ghost use Rattle.desk_data.specs.Situation.{legs_of};
ghost use Rattle.desk_data.specs.Valid.{IsPlanFor};
ghost use Rattle.desk_rules.specs.Least.{breaks, slot_items};
ghost use Rattle.plan_reads.specs.Last.{AreLasts};
ghost use Rattle.added_legs.specs.Added.{least_added, named};
ghost use Rattle.added_legs.specs.Merged.{AreAdded, merged_day, merged_plan};
ghost use Rattle.added_legs.specs.Flights.{AreFlights, departure_end};
ghost use Rattle.added_legs.specs.Items.{AreKnown, items_of, six_rules};

use crate::flight::{Flight, put_flights};
use crate::rule::{Known, Rule, first_broken};
use crate::slots::first_overfull;
use crate::upkeep::Starts;
use crate::{AddBroken, Added};
use desk_data::{Instance, Leg, Minute, NoMem, Plan, Plane};
use hour_counts::Movement;
use plan_checks::upkeeps_of;
use plan_reads::{Moments, legs_before, put_lasts};
use std::alloc::Global;

/// The minute after each aircraft's added leg departs; minute 0 where it has none.
#[derive(Clone, Copy)]
struct Departures<'a> {
    flights: &'a [Option<Flight>],
}

impl Moments for Departures<'_> {
    ghost use Rattle.std.specs.Prelude.{None, slice_index_or};

    ghost moment_of = { λ departures I p. departure_end (slice_index_or departures.flights.now p None) };

    fn moment(&self, _inst: &Instance, plane: Plane) -> Minute {
        match self.flights.get(plane.0 as usize) {
            Some(Some(flight)) => Minute(flight.dep.0.saturating_add(1)),
            _ => Minute(0),
        }
    }
}

/// The first item of C4 to C11 that is broken where added legs are flown beside a plan, by rule and then by what it names, or
/// `None`. C4 to C7 name an added leg by its aircraft, after the legs of the plan; any other item is one of the plan's. The time is
/// near linear in the legs. The only error is out of memory.
pub fn least_added(
    alloc: Global,
    inst: &Instance,
    plan: &Plan,
    added: &[Added],
) -> Result<Option<AddBroken>, NoMem>
    requires plan { IsPlanFor inst.now plan.now }
    requires added { AreAdded inst.now plan.now added.now }
    ensures { IfOk result (λ item. item ≡ least_added inst.now plan.now added.now) }
{
    let flights = flights_of(alloc, inst, plan, added)?;
    match first_of_planes(alloc, inst, plan, added, flights.as_slice())? {
        Some(item) => Ok(Some(item)),
        None => first_of_hours(alloc, inst, plan, added, flights.as_slice()),
    }
}

/// The added leg of each aircraft.
fn flights_of(
    alloc: Global,
    inst: &Instance,
    plan: &Plan,
    added: &[Added],
) -> Result<Vec<Option<Flight>>, NoMem>
    requires plan { IsPlanFor inst.now plan.now }
    requires added { AreAdded inst.now plan.now added.now }
    ensures { IfOk result (λ flights. AreFlights inst.now plan.now added.now flights.items) }
{
    let planes = inst.planes() as usize;
    let mut lasts = vec![in alloc; None; planes]?;
    let mut flights = vec![in alloc; None; planes]?;
    put_flights(
        inst,
        plan,
        added,
        lasts.as_mut_slice(),
        flights.as_mut_slice(),
    );
    Ok(flights)
}

/// The last leg of the plan before each aircraft's moment.
fn lasts_of<M: Moments>(
    alloc: Global,
    inst: &Instance,
    plan: &Plan,
    moments: &M,
) -> Result<Vec<Option<Leg>>, NoMem>
    requires { IsPlanFor inst.now plan.now }
    ensures { IfOk result (λ lasts. AreLasts inst.now plan.now (M.moment_of moments.now inst.now) (legs_of inst.now) lasts.items) }
{
    let mut lasts = vec![in alloc; None; inst.planes() as usize]?;
    put_lasts(moments, inst, plan, lasts.as_mut_slice());
    Ok(lasts)
}

/// The first item of C4 to C9, given the added leg of each aircraft. The flown legs of the plan are sorted once, and four walks over
/// them find what stands before added legs and maintenance.
fn first_of_planes(
    alloc: Global,
    inst: &Instance,
    plan: &Plan,
    added: &[Added],
    flights: &[Option<Flight>],
) -> Result<Option<AddBroken>, NoMem>
    requires plan { IsPlanFor inst.now plan.now }
    requires flights { AreFlights inst.now plan.now added.now flights.now }
    ensures { IfOk result (λ item. item ≡ option_map (named (legs_of inst.now)) (find (breaks (merged_day inst.now plan.now added.now) (merged_plan inst.now plan.now added.now)) (flat_map (items_of inst.now) six_rules))) }
{
    let before = legs_before(alloc, plan, inst.legs())?;
    let upkeeps = upkeeps_of(alloc, inst, plan)?;
    let earlier = lasts_of(alloc, inst, plan, &Departures { flights })?;
    let lasts = lasts_of(alloc, inst, plan, &Starts)?;
    let known = Known {
        added,
        flights,
        before: before.as_slice(),
        earlier: earlier.as_slice(),
        lasts: lasts.as_slice(),
        upkeeps: upkeeps.as_slice(),
    };
    let rules = [
        Rule::C4Range,
        Rule::C5Location,
        Rule::C6GroundTime,
        Rule::C7Service,
        Rule::C8Maintenance,
        Rule::C9Minutes,
    ];
    Ok(first_of_rules(&rules, inst, plan, known))
}

/// The first item of these rules.
fn first_of_rules(
    rules: &[Rule],
    inst: &Instance,
    plan: &Plan,
    known: Known<'_>,
) -> Option<AddBroken>
    requires plan { IsPlanFor inst.now plan.now }
    requires known { AreKnown inst.now plan.now known }
    ensures { result ≡ option_map (named (legs_of inst.now)) (find (breaks (merged_day inst.now plan.now known.entry.added.now) (merged_plan inst.now plan.now known.entry.added.now)) (flat_map (items_of inst.now) rules.now)) }
{
    for rule in rules {
        if let Some(item) = first_broken(*rule, inst, plan, known) {
            return Some(item);
        }
    }
    None
}

/// The first item of C10 and C11, given the added leg of each aircraft.
fn first_of_hours(
    alloc: Global,
    inst: &Instance,
    plan: &Plan,
    added: &[Added],
    flights: &[Option<Flight>],
) -> Result<Option<AddBroken>, NoMem>
    requires plan { IsPlanFor inst.now plan.now }
    requires flights { AreFlights inst.now plan.now added.now flights.now }
    ensures { IfOk result (λ item. item ≡ option_map (named (legs_of inst.now)) (find (breaks (merged_day inst.now plan.now added.now) (merged_plan inst.now plan.now added.now)) (slot_items inst.now))) }
{
    if let Some(item) = first_overfull(alloc, inst, plan, added, flights, Movement::Departure)? {
        return Ok(Some(AddBroken::Old(item)));
    }
    match first_overfull(alloc, inst, plan, added, flights, Movement::Arrival)? {
        Some(item) => Ok(Some(AddBroken::Old(item))),
        None => Ok(None),
    }
}
