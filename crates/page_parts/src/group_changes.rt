//! The passengers of whom something changed.

ghost use Rattle.std.specs.Prelude.{◌≡◌, ◌<◌, ◌++◌, IfOk, OnOk, find, option_map};
ghost use Rattle.desk_data.specs.Paths.{is_carried};
ghost use Rattle.desk_data.specs.PlanRows.{groups_at, same_path};
ghost use Rattle.desk_data.specs.Situation.{legs_of, reservations_of};
ghost use Rattle.desk_data.specs.Valid.{IsPathOf, IsPlanFor};
ghost use Rattle.desk_rules.specs.Passengers.{minutes_late};
ghost use Rattle.page_parts.specs.Groups.{changed_groups, changed_of, count_at, fate, has_changed, if_changed, legs_below, no_group, same_fate, told};

use desk_data::{Cabin, Group, Instance, Leg, NoMem, Plan, Res, same_path};
use plan_reads::{all_flown, arrival, is_carried};
use std::alloc::Global;

/// What becomes of passengers.
#[derive(Clone, Copy, PartialEq, Eq)]
pub enum Fate {
    /// They are not carried.
    NotCarried,
    /// A leg of their path is cancelled.
    Stranded,
    /// They arrive so many minutes after their booked arrival, 0 if not later.
    Arrives(u32),
}

/// A group of passengers to whose path somebody came, or of whom something else becomes.
#[derive(Clone, Copy)]
pub struct ChangedGroup {
    /// Their reservation.
    pub res: Res,
    /// The place of the group among those of the reservation, in the second plan.
    pub place: usize,
    /// How many they are.
    pub count: u32,
    /// How many of them were not on this path in the first plan.
    pub moved: u32,
    /// What became of those on this path in the first plan, whether there were any or not.
    pub was: Fate,
    /// What becomes of them in the second.
    pub fate: Fate,
    /// How many legs of their path are in a cabin below the highest that was booked.
    pub below: usize,
}

// What becomes of passengers of a reservation on a path.
#[tactic(auto, unfolding(desk_rules::specs::Passengers::minutes_late))]
fn fate_on(inst: &Instance, plan: &Plan, res: Res, path: &[(Leg, Cabin)]) -> Fate
    requires plan { IsPlanFor inst.now plan.now }
    requires res { res.0 < reservations_of inst.now }
    requires path { IsPathOf (legs_of inst.now) path.now }
    ensures { result ≡ fate inst.now plan.now res.0 path.now }
{
    if !is_carried(path) {
        return Fate::NotCarried;
    }
    if !all_flown(plan, path) {
        return Fate::Stranded;
    }
    let last = path[path.len() - 1].0;
    let late = arrival(inst, plan, last).saturating_sub(inst.booked(res).arrival.0);
    Fate::Arrives(late)
}

// Whether the same becomes of passengers.
fn same_fate(was: Fate, now: Fate) -> bool
    ensures { result ≡ same_fate was now }
{
    match was {
        Fate::NotCarried => match now {
            Fate::NotCarried => true,
            Fate::Stranded | Fate::Arrives(_) => false,
        },
        Fate::Stranded => match now {
            Fate::Stranded => true,
            Fate::NotCarried | Fate::Arrives(_) => false,
        },
        Fate::Arrives(late) => match now {
            Fate::Arrives(later) => late == later,
            Fate::NotCarried | Fate::Stranded => false,
        },
    }
}

// The group on a path.
fn group_at<'a>(path: &[(Leg, Cabin)], groups: &'a [Group]) -> Option<&'a Group>
    ensures { option_map (λ group. group.now) result ≡ find (λ group. same_path group.path path.now) groups.now }
{
    groups
        .iter()
        .find(|group| same_path(group.path.as_slice(), path))
}

// How many passengers are on a path.
fn count_at(path: &[(Leg, Cabin)], groups: &[Group]) -> u32
    ensures { result ≡ count_at path.now groups.now }
{
    match group_at(path, groups) {
        Some(group) => group.count,
        None => 0,
    }
}

// How many legs of a path are in a lower cabin.
fn legs_below(reference: Cabin, path: &[(Leg, Cabin)]) -> usize
    ensures { result ≡ legs_below reference path.now }
{
    path.iter()
        .filter(|pair| reference.rank() < pair.1.rank())
        .count()
}

// A group as it is told.
fn told(
    inst: &Instance,
    before: &Plan,
    now: &Plan,
    res: Res,
    place: usize,
    group: &Group,
) -> ChangedGroup
    requires before { IsPlanFor inst.now before.now }
    requires plan { IsPlanFor inst.now now.now }
    requires res { res.0 < reservations_of inst.now }
    requires group { IsPathOf (legs_of inst.now) group.now.path }
    ensures { result ≡ told inst.now before.now now.now res.0 place group.now }
{
    let path = group.path.as_slice();
    ChangedGroup {
        res,
        place,
        count: group.count,
        moved: group
            .count
            .saturating_sub(count_at(path, before.groups(res))),
        was: fate_on(inst, before, res, path),
        fate: fate_on(inst, now, res, path),
        below: legs_below(inst.booked(res).cabin, path),
    }
}

// Adds a group, if it changed.
fn push_if_changed(out: &mut Vec<ChangedGroup>, one: ChangedGroup) -> Result<(), NoMem>
    ensures { OnOk result (out.new.items ≡ out.old.items ++ if_changed one) }
{
    if one.moved == 0 && same_fate(one.was, one.fate) {
        return Ok(());
    }
    out.push(one)?;
    Ok(())
}

// Adds the groups of a reservation that changed.
fn push_changed(
    out: &mut Vec<ChangedGroup>,
    inst: &Instance,
    before: &Plan,
    now: &Plan,
    res: Res,
) -> Result<(), NoMem>
    requires before { IsPlanFor inst.now before.now }
    requires plan { IsPlanFor inst.now now.now }
    requires res { res.0 < reservations_of inst.now }
    ensures { OnOk result (out.new.items ≡ out.old.items ++ changed_of inst.now before.now now.now res.0) }
{
    let groups = now.groups(res);
    for place in 0..groups.len() {
        let one = told(inst, before, now, res, place, &groups[place]);
        push_if_changed(out, one)?;
    }
    Ok(())
}

/// The groups of the second plan to whose path somebody came since the first, or of whom something else becomes, by
/// reservation, in their order there. The only error is out of memory.
pub fn changed_groups(
    alloc: Global,
    inst: &Instance,
    before: &Plan,
    now: &Plan,
) -> Result<Vec<ChangedGroup>, NoMem>
    requires before { IsPlanFor inst.now before.now }
    requires plan { IsPlanFor inst.now now.now }
    ensures { IfOk result (λ list. list.items ≡ changed_groups inst.now before.now now.now (reservations_of inst.now)) }
{
    let mut out = Vec::new(alloc);
    for r in 0..inst.reservations() {
        push_changed(&mut out, inst, before, now, Res(r))?;
    }
    Ok(out)
}
