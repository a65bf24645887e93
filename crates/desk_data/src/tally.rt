//! How many passengers have flown which frozen legs.

ghost use Rattle.std.specs.Prelude.{◌≡◌, ◌<◌, ◌≤◌, ◌&&◌, [], is_some, length, map, filter, fold, sum_by, slice_index_or, IfOk, MatchOption};
ghost use Rattle.std.specs.List.{AllPairs, filter_map, insert, prefix_len};
ghost use Rattle.std.specs.declared.cmp.Ordering.TheVariants.{Less};
ghost use Rattle.desk_data.specs.Insides.{entries_in};
ghost use Rattle.desk_data.specs.Paths.{is_carried};
ghost use Rattle.desk_data.specs.PlanRows.{path_cmp, same_path};
ghost use Rattle.desk_data.specs.Progress.{with_list, count_then, entry_of, tally_then, tally_by};
ghost use Rattle.desk_data.specs.Situation.{all_waiting, reservations_of, gone_in, carried_gone, count_gone};
ghost use Rattle.desk_data.specs.Valid.{IsPlanFor};

use crate::info::ResInfo;
use crate::instance::Instance;
use crate::path::{Path, path_order, same_path};
use crate::plan::Plan;
use crate::row::{Group, Row};
use desk_units::{Cabin, Leg, List, NoMem, Res};
use std::alloc::Global;
use std::cmp::Ordering;
use std::slice;

/// How many passengers of a reservation have flown which frozen legs, in the order of paths.
#[derive(Drop)]
pub enum Tally {
    /// One entry stands by itself, and takes no list: so each day begins, and mostly all passengers of a reservation have
    /// flown the same legs.
    One((Path, u32)),
    /// A list of none, or of more than one.
    Several(Vec<(Path, u32)>),
}

impl Tally {
    /// Those of a list.
    fn of(entries: Vec<(Path, u32)>) -> Tally
        ensures { entries_in result ≡ entries.items }
    {
        let mut entries = entries;
        if entries.len() == 1 {
            if let Some(entry) = entries.pop() {
                return Tally::One(entry);
            }
        }
        Tally::Several(entries)
    }

    /// The entries, in the order of paths.
    pub(crate) fn as_slice(&self) -> &[(Path, u32)]
        ensures { result.now ≡ entries_in self.now }
    {
        match self {
            Tally::One(entry) => slice::from_ref(entry),
            Tally::Several(entries) => entries.as_slice(),
        }
    }
}

/// Before any moment is told: all passengers of each reservation have flown nothing yet.
pub fn all_waiting(alloc: Global, reservations: &[ResInfo]) -> Result<Vec<Tally>, NoMem>
    ensures { IfOk result (λ tally. map entries_in tally.items ≡ map all_waiting reservations.now) }
{
    let mut tally = Vec::with_capacity(alloc, reservations.len())?;
    for res in reservations {
        let nothing = Path {
            legs: List(Vec::new(alloc)),
        };
        tally.push(Tally::One((nothing, res.count)))?;
    }
    Ok(tally)
}

/// How many passengers of each reservation have flown which legs, once these rows are frozen.
pub fn tallies(
    alloc: Global,
    inst: &Instance,
    plan: &Plan,
    frozen: &[Option<Row>],
) -> Result<Vec<Tally>, NoMem>
    requires { IsPlanFor inst.now plan.now }
    ensures { IfOk result (λ tally. map entries_in tally.items ≡ tally_by inst.now plan.now frozen.now) }
{
    let count = inst.reservations();
    let mut tally = Vec::with_capacity(alloc, count as usize)?;
    for r in 0..count {
        let entries = tally_then(alloc, inst, plan, frozen, Res(r))?;
        tally.push(Tally::of(entries))?;
    }
    Ok(tally)
}

/// The longest beginning of a path whose legs are all among these frozen rows.
pub(crate) fn gone_in<'a>(frozen: &[Option<Row>], path: &'a [(Leg, Cabin)]) -> &'a [(Leg, Cabin)]
    ensures { result.now ≡ gone_in frozen.now path.now }
{
    let count = count_frozen(frozen, path);
    &path[..count]
}

/// How many passengers have flown just these legs, by the entries of a tally.
pub(crate) fn count_gone(entries: &[(Path, u32)], legs: &[(Leg, Cabin)]) -> u32
    ensures { result ≡ count_gone entries.now legs.now }
{
    for entry in entries {
        if same_path(entry.0.as_slice(), legs) {
            return entry.1;
        }
    }
    0
}

/// How many legs at the start of a path are all frozen.
fn count_frozen(frozen: &[Option<Row>], path: &[(Leg, Cabin)]) -> usize
    ensures count { result ≡ prefix_len (λ pair. is_some (slice_index_or frozen.now pair.0.0 None)) path.now }
    ensures limit { result ≤ length path.now }
{
    for (place, pair) in path.iter().enumerate() {
        if !is_frozen(frozen, pair.0) {
            return place;
        }
    }
    path.len()
}

/// Whether a leg is frozen by these rows; one that they don't have is not.
fn is_frozen(frozen: &[Option<Row>], leg: Leg) -> bool
    ensures { result ≡ is_some (slice_index_or frozen.now leg.0 None) }
{
    match frozen.get(leg.0 as usize) {
        Some(row) => row.is_some(),
        None => false,
    }
}

/// The tally of one reservation, once these rows are frozen.
fn tally_then(
    alloc: Global,
    inst: &Instance,
    plan: &Plan,
    frozen: &[Option<Row>],
    res: Res,
) -> Result<Vec<(Path, u32)>, NoMem>
    requires res { res.0 < reservations_of inst.now }
    requires plan { IsPlanFor inst.now plan.now }
    ensures { IfOk result (λ entries. entries.items ≡ tally_then inst.now plan.now frozen.now res.0) }
{
    let lists = lists_were(alloc, inst.tally(res))?;
    let lists = with_lists_left(lists, plan.groups(res), frozen)?;
    entries_of(alloc, inst, plan, frozen, res, lists.as_slice())
}

/// Of some lists of legs those that passengers of a reservation have then flown, and how many have.
fn entries_of(
    alloc: Global,
    inst: &Instance,
    plan: &Plan,
    frozen: &[Option<Row>],
    res: Res,
    lists: &[&[(Leg, Cabin)]],
) -> Result<Vec<(Path, u32)>, NoMem>
    requires res { res.0 < reservations_of inst.now }
    requires plan { IsPlanFor inst.now plan.now }
    ensures { IfOk result (λ entries. entries.items ≡ filter_map (λ legs. entry_of (count_then inst.now plan.now frozen.now res.0 legs) legs) (map (λ one. one.now) lists.now)) }
{
    // mostly all passengers of a reservation have flown the same legs
    let mut entries = Vec::with_capacity(alloc, 1)?;
    for legs in lists {
        let count = count_then(inst, plan, frozen, res, legs);
        if count >= 1 {
            entries.push((path_of(alloc, legs)?, count))?;
        }
    }
    Ok(entries)
}

/// How many passengers of a reservation have then flown just these legs: at most 2,000.
fn count_then(
    inst: &Instance,
    plan: &Plan,
    frozen: &[Option<Row>],
    res: Res,
    legs: &[(Leg, Cabin)],
) -> u32
    requires res { res.0 < reservations_of inst.now }
    requires plan { IsPlanFor inst.now plan.now }
    ensures { result ≡ count_then inst.now plan.now frozen.now res.0 legs.now }
{
    let _at_most_1000 = inst.res(res).count;
    let groups = plan.groups(res);
    let carried = carried_gone(inst.frozen_rows(), groups, legs);
    let before = count_gone(inst.tally(res), legs);
    carried_gone(frozen, groups, legs) + before.saturating_sub(carried)
}

/// Of some groups, the carried passengers for whom just these legs have left, by these frozen rows.
fn carried_gone(frozen: &[Option<Row>], groups: &[Group], legs: &[(Leg, Cabin)]) -> u32
    requires { sum_by (λ group. group.count) groups.now ≤ 1000 }
    ensures count { result ≡ carried_gone frozen.now groups.now legs.now }
    ensures limit { result ≤ 1000 }
{
    let mut count = 0u32;
    for group in groups {
        if is_gone(frozen, group, legs) {
            count += group.count;
        }
    }
    count
}

/// Whether a group is carried, and just these legs of its path have left.
pub(crate) fn is_gone(frozen: &[Option<Row>], group: &Group, legs: &[(Leg, Cabin)]) -> bool
    ensures { result ≡ (is_carried group.now.path && same_path (gone_in frozen.now group.now.path) legs.now) }
{
    let path = group.path.as_slice();
    !path.is_empty() && same_path(gone_in(frozen, path), legs)
}

/// The lists of legs that some passengers had flown, in the order of paths, each once.
fn lists_were<'a>(alloc: Global, tally: &'a [(Path, u32)]) -> Result<Vec<&'a [(Leg, Cabin)]>, NoMem>
    ensures { IfOk result (λ lists. map (λ one. one.now) lists.items ≡ fold with_list [] (map (λ entry. entry.0) tally.now)) }
{
    let mut lists = Vec::with_capacity(alloc, tally.len() + 1)?;
    for entry in tally {
        lists = put_list(lists, entry.0.as_slice())?;
    }
    Ok(lists)
}

/// Such lists, with those that have left of the paths on which groups are carried.
fn with_lists_left<'a>(
    lists: Vec<&'a [(Leg, Cabin)]>,
    groups: &'a [Group],
    frozen: &[Option<Row>],
) -> Result<Vec<&'a [(Leg, Cabin)]>, NoMem>
    requires { AllPairs (λ a b. path_cmp a b ≡ Less) (map (λ one. one.now) lists.items) }
    ensures { IfOk result (λ all. map (λ one. one.now) all.items ≡ fold with_list (map (λ one. one.now) lists.entry.items) (map (λ group. gone_in frozen.now group.path) (filter (λ group. is_carried group.path) groups.now))) }
{
    let mut lists = lists;
    for group in groups {
        let path = group.path.as_slice();
        if !path.is_empty() {
            lists = put_list(lists, gone_in(frozen, path))?;
        }
    }
    Ok(lists)
}

/// Some lists of pairs in the order of paths, with one among them.
fn put_list<'a>(
    lists: Vec<&'a [(Leg, Cabin)]>,
    one: &'a [(Leg, Cabin)],
) -> Result<Vec<&'a [(Leg, Cabin)]>, NoMem>
    requires { AllPairs (λ a b. path_cmp a b ≡ Less) (map (λ other. other.now) lists.items) }
    ensures { IfOk result (λ all. map (λ other. other.now) all.items ≡ with_list (map (λ other. other.now) lists.entry.items) one.now) }
{
    let mut lists = lists;
    match place_among(lists.as_slice(), one) {
        Some(place) => lists.insert(place, one)?,
        None => {}
    }
    Ok(lists)
}

/// Where a list of pairs goes among others that are in the order of paths; `None` where it is one of them.
fn place_among(lists: &[&[(Leg, Cabin)]], one: &[(Leg, Cabin)]) -> Option<usize>
    requires { AllPairs (λ a b. path_cmp a b ≡ Less) (map (λ other. other.now) lists.now) }
    ensures { MatchOption result (with_list (map (λ other. other.now) lists.now) one.now ≡ map (λ other. other.now) lists.now) (λ place. (place ≤ length lists.now) × (with_list (map (λ other. other.now) lists.now) one.now ≡ insert (map (λ other. other.now) lists.now) place one.now)) }
{
    for (place, other) in lists.iter().enumerate() {
        match path_order(other, one) {
            Ordering::Less => {}
            Ordering::Equal => return None,
            Ordering::Greater => return Some(place),
        }
    }
    Some(lists.len())
}

/// A path of these pairs.
fn path_of(alloc: Global, legs: &[(Leg, Cabin)]) -> Result<Path, NoMem>
    ensures { IfOk result (λ path. path ≡ legs.now) }
{
    let pairs = Vec::from_slice(alloc, legs)?;
    Ok(Path { legs: List(pairs) })
}
