//! The first item that a plan breaks.

ghost use Rattle.std.specs.Prelude.{◌≡◌, ◌||◌, true, nat_le, find, IfOk};
ghost use Rattle.desk_data.specs.Situation.{legs_of, reservations_of};
ghost use Rattle.desk_data.specs.Valid.{IsPlanFor};
ghost use Rattle.desk_data.specs.declared.broken.Broken.TheVariants as broken;
ghost use Rattle.desk_rules.specs.Least.{breaks, each_cabin, each_hour, least, least_rot, least_slots};
ghost use Rattle.desk_tasks.specs.Paths.{KeepPaths};

use crate::paths::are_paths_kept;
use crate::pieces::{Cuts, cuts_of};
use desk_data::{Broken, Instance, NoMem, Plan};
use full_check::full_check;
use plan_checks::{first_c10, first_c11, first_c12, least_pax, least_rot};
use rayon::{current_num_threads, join};
use std::alloc::Global;
use std::thread::Threads;

// From so many legs or reservations on a check is worth its threads.
const LEAST_LARGE: u32 = 2048;

/// Whether a day has so many legs or reservations, 2,048 of either, that a check of it is worth its threads.
pub fn is_large(inst: &Instance) -> bool
    ensures { result ≡ (nat_le 2048 (legs_of inst.now) || nat_le 2048 (reservations_of inst.now)) }
{
    inst.legs() >= LEAST_LARGE || inst.reservations() >= LEAST_LARGE
}

/// What a thread found: the first item of its rule, or of its rules, and whether the paths of its piece are kept.
#[derive(Drop)]
struct Found {
    first: Result<Option<Broken>, NoMem>,
    are_kept: bool,
}

/// What the threads found that do not count the departures.
#[derive(Drop)]
struct Others {
    arrivals: Result<Option<Broken>, NoMem>,
    rotations: Result<Option<Broken>, NoMem>,
    seats: Result<Option<Broken>, NoMem>,
    are_kept: bool,
}

/// The first item of C1 to C15 that the plan breaks, by rule and then by what the items name, or `None` where it breaks
/// none: what `full_check` answers, whatever the number of threads. On one processor, and where the day is not large, it
/// starts none. It waits for its own threads alone, and where a thread can't be started it does that one's work. The time of
/// all threads together is that of `full_check` of a plan that breaks no rule, and where a path breaks C13 to C15 that of a second walk
/// over the passengers. All rules are asked, where one that comes first is broken too.
/// The only error is out of memory.
pub fn par_check<R: Threads + Sync>(
    rt: &R,
    alloc: Global,
    inst: &Instance,
    plan: &Plan,
) -> Result<Option<Broken>, NoMem>
    requires { IsPlanFor inst.now plan.now }
    ensures { IfOk result (λ item. item ≡ least inst.now plan.now) }
{
    if !is_large(inst) || current_num_threads(rt) == 1 {
        return full_check(alloc, inst, plan);
    }
    let cuts = cuts_of(inst);
    let (departures, others) = join(
        rt,
        || -> Found
            requires { IsPlanFor inst.now plan.now }
            ensures first { IfOk result.first (λ item. item ≡ find (breaks inst.entry.now plan.entry.now) (each_hour inst.entry.now broken.C10)) }
            ensures kept { result.are_kept ≡ true → KeepPaths inst.entry.now plan.entry.now 0 cuts.departures }
        {
            Found {
                first: first_c10(alloc, inst, plan),
                are_kept: are_paths_kept(inst, plan, 0, cuts.departures),
            }
        },
        || -> Others
            requires { IsPlanFor inst.now plan.now }
            ensures arrivals { IfOk result.arrivals (λ item. item ≡ find (breaks inst.entry.now plan.entry.now) (each_hour inst.entry.now broken.C11)) }
            ensures rotations { IfOk result.rotations (λ item. item ≡ least_rot inst.entry.now plan.entry.now) }
            ensures seats { IfOk result.seats (λ item. item ≡ find (breaks inst.entry.now plan.entry.now) (each_cabin inst.entry.now broken.C12)) }
            ensures kept { result.are_kept ≡ true → KeepPaths inst.entry.now plan.entry.now cuts.departures (reservations_of inst.entry.now) }
        { found_by_others(rt, alloc, inst, plan, cuts) },
    );
    match others.rotations? {
        Some(item) => Ok(Some(item)),
        None => match first_of_hours(inst, plan, departures.first, others.arrivals)? {
            Some(slot) => Ok(Some(slot)),
            None if departures.are_kept && others.are_kept => others.seats,
            None => least_pax(alloc, inst, plan),
        },
    }
}

/// The first item of C10 and C11 that the plan breaks, given the first of each.
fn first_of_hours(
    inst: &Instance,
    plan: &Plan,
    departures: Result<Option<Broken>, NoMem>,
    arrivals: Result<Option<Broken>, NoMem>,
) -> Result<Option<Broken>, NoMem>
    requires departures { IfOk departures (λ item. item ≡ find (breaks inst.now plan.now) (each_hour inst.now broken.C10)) }
    requires arrivals { IfOk arrivals (λ item. item ≡ find (breaks inst.now plan.now) (each_hour inst.now broken.C11)) }
    ensures { IfOk result (λ item. item ≡ least_slots inst.now plan.now) }
{
    match departures? {
        Some(item) => Ok(Some(item)),
        None => arrivals,
    }
}

// The arrivals are counted in a thread, while others have the rotations and the seats.
fn found_by_others<R: Threads + Sync>(
    rt: &R,
    alloc: Global,
    inst: &Instance,
    plan: &Plan,
    cuts: Cuts,
) -> Others
    requires { IsPlanFor inst.now plan.now }
    ensures arrivals { IfOk result.arrivals (λ item. item ≡ find (breaks inst.now plan.now) (each_hour inst.now broken.C11)) }
    ensures rotations { IfOk result.rotations (λ item. item ≡ least_rot inst.now plan.now) }
    ensures seats { IfOk result.seats (λ item. item ≡ find (breaks inst.now plan.now) (each_cabin inst.now broken.C12)) }
    ensures kept { result.are_kept ≡ true → KeepPaths inst.now plan.now cuts.departures (reservations_of inst.now) }
{
    let (arrivals, (rotations, seats)) = join(
        rt,
        || -> Found
            requires { IsPlanFor inst.now plan.now }
            ensures first { IfOk result.first (λ item. item ≡ find (breaks inst.entry.now plan.entry.now) (each_hour inst.entry.now broken.C11)) }
            ensures kept { result.are_kept ≡ true → KeepPaths inst.entry.now plan.entry.now cuts.departures cuts.arrivals }
        {
            Found {
                first: first_c11(alloc, inst, plan),
                are_kept: are_paths_kept(inst, plan, cuts.departures, cuts.arrivals),
            }
        },
        || -> (Found, Found)
            requires { IsPlanFor inst.now plan.now }
            ensures rotations { IfOk result.0.first (λ item. item ≡ least_rot inst.entry.now plan.entry.now) }
            ensures seats { IfOk result.1.first (λ item. item ≡ find (breaks inst.entry.now plan.entry.now) (each_cabin inst.entry.now broken.C12)) }
            ensures front { result.0.are_kept ≡ true → KeepPaths inst.entry.now plan.entry.now cuts.arrivals cuts.rotations }
            ensures back { result.1.are_kept ≡ true → KeepPaths inst.entry.now plan.entry.now cuts.rotations (reservations_of inst.entry.now) }
        { rotations_and_seats(rt, alloc, inst, plan, cuts) },
    );
    Others {
        arrivals: arrivals.first,
        rotations: rotations.first,
        seats: seats.first,
        are_kept: arrivals.are_kept && rotations.are_kept && seats.are_kept,
    }
}

// The rotations in a thread, the seats in this one, and a piece of the paths in each.
fn rotations_and_seats<R: Threads + Sync>(
    rt: &R,
    alloc: Global,
    inst: &Instance,
    plan: &Plan,
    cuts: Cuts,
) -> (Found, Found)
    requires { IsPlanFor inst.now plan.now }
    ensures rotations { IfOk result.0.first (λ item. item ≡ least_rot inst.now plan.now) }
    ensures seats { IfOk result.1.first (λ item. item ≡ find (breaks inst.now plan.now) (each_cabin inst.now broken.C12)) }
    ensures front { result.0.are_kept ≡ true → KeepPaths inst.now plan.now cuts.arrivals cuts.rotations }
    ensures back { result.1.are_kept ≡ true → KeepPaths inst.now plan.now cuts.rotations (reservations_of inst.now) }
{
    join(
        rt,
        || -> Found
            requires { IsPlanFor inst.now plan.now }
            ensures first { IfOk result.first (λ item. item ≡ least_rot inst.entry.now plan.entry.now) }
            ensures kept { result.are_kept ≡ true → KeepPaths inst.entry.now plan.entry.now cuts.arrivals cuts.rotations }
        {
            Found {
                first: least_rot(alloc, inst, plan),
                are_kept: are_paths_kept(inst, plan, cuts.arrivals, cuts.rotations),
            }
        },
        || -> Found
            requires { IsPlanFor inst.now plan.now }
            ensures first { IfOk result.first (λ item. item ≡ find (breaks inst.entry.now plan.entry.now) (each_cabin inst.entry.now broken.C12)) }
            ensures kept { result.are_kept ≡ true → KeepPaths inst.entry.now plan.entry.now cuts.rotations (reservations_of inst.entry.now) }
        {
            Found {
                first: first_c12(alloc, inst, plan),
                are_kept: are_paths_kept(inst, plan, cuts.rotations, inst.reservations()),
            }
        },
    )
}
