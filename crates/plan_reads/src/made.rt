//! Groups that are made, and put after others.

ghost use Rattle.std.specs.Prelude.{◌≡◌, ◌++◌, filter, IfOk, OnOk};
ghost use Rattle.desk_model.specs.Rebook.{group_of, with_count};
ghost use Rattle.plan_reads.specs.Made.{is_on_side};

use crate::path_order::{is_after, is_before};
use desk_data::{Cabin, Group, Leg, List, NoMem, Path};
use std::alloc::Global;

/// Where paths stand in the order of paths, seen from one of them.
#[derive(Clone, Copy)]
pub(crate) enum Side {
    Before,
    After,
}

/// The groups with so many passengers on a path, between those before it and those after it. There
/// is no group on it where they are none.
pub(crate) fn with_count(
    alloc: Global,
    path: &[(Leg, Cabin)],
    count: u32,
    groups: &[Group],
) -> Result<Vec<Group>, NoMem>
    ensures { IfOk result (λ made. made.items ≡ with_count path.now count groups.now) }
{
    let mut made = Vec::with_capacity(alloc, groups.len())?;
    add_side(alloc, Side::Before, path, groups, &mut made)?;
    add_group(alloc, count, path, &mut made)?;
    add_side(alloc, Side::After, path, groups, &mut made)?;
    Ok(made)
}

/// Puts a group of passengers on a path after others, unless they are none.
pub(crate) fn add_group(
    alloc: Global,
    count: u32,
    path: &[(Leg, Cabin)],
    made: &mut Vec<Group>,
) -> Result<(), NoMem>
    ensures { OnOk result (made.new.items ≡ made.old.items ++ group_of count path.now) }
{
    if count == 0 {
        return Ok(());
    }
    let legs = List(Vec::from_slice(alloc, path)?);
    made.push(Group {
        count,
        path: Path { legs },
    })?;
    Ok(())
}

/// Puts copies of those groups after others that stand on one side of a path.
fn add_side(
    alloc: Global,
    side: Side,
    path: &[(Leg, Cabin)],
    groups: &[Group],
    made: &mut Vec<Group>,
) -> Result<(), NoMem>
    ensures { OnOk result (made.new.items ≡ made.old.items ++ filter (is_on_side side path.now) groups.now) }
{
    for group in groups {
        if is_on_side(side, path, group) {
            made.push(copied(alloc, group)?)?;
        }
    }
    Ok(())
}

/// Whether a group's path stands on this side of a path.
fn is_on_side(side: Side, path: &[(Leg, Cabin)], group: &Group) -> bool
    ensures { result ≡ is_on_side side path.now group.now }
{
    match side {
        Side::Before => is_before(path, group),
        Side::After => is_after(path, group),
    }
}

/// An equal group.
pub(crate) fn copied(alloc: Global, group: &Group) -> Result<Group, NoMem>
    ensures { IfOk result (λ copy. copy ≡ group.now) }
{
    let path = group.path.copy(alloc)?;
    Ok(Group {
        count: group.count,
        path,
    })
}
