//! The groups of reservations.

ghost use Rattle.std.specs.Prelude.{◌≡◌, ◌<◌, ◌-◌, ◌^◌, min, not, length, map, replicate, sum_by, slice_index_or, slice_set, [], IfOk, OnOk};
ghost use Rattle.std.specs.List.{list_all, zip};
ghost use Rattle.std.specs.BTreeMap.{insert_entry};
ghost use Rattle.desk_text.specs.Rows.{Gives};
ghost use Rattle.desk_data.specs.PlanRows.{path_cmp};
ghost use Rattle.desk_data.specs.Situation.{reservations_of};
ghost use Rattle.file_joins.specs.Stated.{stated_group};
ghost use Rattle.file_joins.specs.Statement.{Adds, cause_of};
ghost use Rattle.file_joins.specs.Groups.{all_groups, groups_in, statement_of_groups, has_path, is_whole, passengers_stated};
ghost use Rattle.file_joins.specs.Parties.{Tried};

use crate::DayNames;
use crate::party::Party;
use crate::stated::stated_group;
use desk_data::{Group, Instance, Res, ResInfo};
use desk_text::{ReadFault, RowFault};
use desk_units::NoMem;
use file_readers::PlannedGroup;
use file_rows::Cause;
use std::alloc::Global;

/// The passengers of each reservation by their paths, as the lines give them, or the first line that
/// is refused.
pub(crate) fn passengers_stated(
    alloc: Global,
    names: &DayNames<'_>,
    reservations: u32,
    lines: &[PlannedGroup],
) -> Result<Vec<Party>, ReadFault>
    requires { reservations ≡ reservations_of names.now }
    ensures { Gives (λ parties. parties.items) result (passengers_stated names.now lines.now) }
{
    let mut parties = no_parties(alloc, reservations)?;
    for line in lines {
        match put_line(alloc, names, line, parties.as_mut_slice()) {
            Ok(()) => {}
            Err(fault) => return Err(fault.at(line.line)),
        }
    }
    Ok(parties)
}

/// No passengers of so many reservations.
fn no_parties(alloc: Global, reservations: u32) -> Result<Vec<Party>, NoMem>
    ensures { IfOk result (λ parties. parties.items ≡ replicate reservations []) }
{
    let mut parties = Vec::with_capacity(alloc, reservations as usize)?;
    for _ in 0..reservations {
        parties.push(Party::new(alloc))?;
    }
    Ok(parties)
}

/// Adds the group of a line to those of its reservation, or says why the line is refused.
fn put_line(
    alloc: Global,
    names: &DayNames<'_>,
    line: &PlannedGroup,
    parties: &mut [Party],
) -> Result<(), RowFault>
    requires { length parties.old ≡ reservations_of names.now }
    ensures exact { Tried result (cause_of (λ stated. has_path stated.1.path (slice_index_or parties.old stated.0.0 [])) (stated_group names.now line.now)) }
    ensures put { OnOk result (Adds (statement_of_groups names.now) (stated_group names.now line.now) parties.old parties.new) }
{
    let (res, group) = stated_group(alloc, names, line)?;
    if put_group(res, group, parties)? {
        Ok(())
    } else {
        Err(RowFault::Refused(Cause::Twice))
    }
}

/// Adds a group to those of its reservation; false where there were passengers on its path.
fn put_group(res: Res, group: Group, parties: &mut [Party]) -> Result<bool, NoMem>
    requires { res.0 < length parties.old }
    ensures new { IfOk result (λ new. new ≡ not (has_path group.path (slice_index_or parties.old res.0 []))) }
    ensures put { OnOk result (parties.new ≡ slice_set parties.old res.0 (insert_entry path_cmp (slice_index_or parties.old res.0 []) group.path group.count)) }
{
    let Group { count, path } = group;
    parties[res.0 as usize].put(path, count)
}

/// The groups of all reservations.
pub(crate) fn groups_of(alloc: Global, parties: &[Party]) -> Result<Vec<Vec<Group>>, NoMem>
    ensures { IfOk result (λ groups. map (λ of. of.items) groups.items ≡ map groups_in parties.now) }
{
    let mut groups = Vec::with_capacity(alloc, parties.len())?;
    for passengers in parties {
        groups.push(passengers.groups(alloc)?)?;
    }
    Ok(groups)
}

/// Tries whether the groups of each reservation have all its passengers.
#[tactic(auto, unfolding(crate::specs::Groups::all_groups))]
pub(crate) fn all_groups(
    inst: &Instance,
    groups: Vec<Vec<Group>>,
) -> Result<Vec<Vec<Group>>, ReadFault>
    ensures { Gives (λ all. map (λ of. of.items) all.items) result (all_groups inst.now (map (λ of. of.items) groups.items)) }
{
    if are_whole(inst.parts().res.as_slice(), groups.as_slice()) {
        Ok(groups)
    } else {
        Err(ReadFault::at(0, Cause::Count))
    }
}

/// Whether the groups of each reservation have all its passengers.
fn are_whole(reservations: &[ResInfo], groups: &[Vec<Group>]) -> bool
    ensures { result ≡ list_all is_whole (zip reservations.now (map (λ of. of.items) groups.now)) }
{
    reservations
        .iter()
        .zip(groups.iter())
        .all(|(res, of)| is_whole(res, of.as_slice()))
}

/// Whether these groups have all passengers of a reservation.
fn is_whole(res: &ResInfo, groups: &[Group]) -> bool
    ensures { result ≡ is_whole (res.now, groups.now) }
{
    count_all(groups) == u64::from(res.count)
}

/// How many passengers there are in these groups; more than 2^64 - 1 are given as that many.
fn count_all(groups: &[Group]) -> u64
    ensures { result ≡ min (2 ^ 64 - 1) (sum_by (λ group. group.count) groups.now) }
{
    let mut all = 0u64;
    for group in groups {
        all = all.saturating_add(u64::from(group.count));
    }
    all
}
