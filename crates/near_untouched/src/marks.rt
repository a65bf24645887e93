//! Marks of legs.

ghost use Rattle.std.specs.Prelude.{◌≡◌, ◌<◌, length, All, IfOk, false, replicate, true};
ghost use Rattle.desk_data.specs.Valid.{IsPathOf};
ghost use Rattle.near_untouched.specs.Marks.{AreKept, AreLegsFree, AreLegsMarked, ArePathsFree, ArePathsMarked, is_marked};

use desk_data::{Cabin, Group, Leg, NoMem};
use std::alloc::Global;

/// So many marks, none of them set. The only error is out of memory.
pub(crate) fn unmarked(alloc: Global, count: usize) -> Result<Vec<bool>, NoMem>
    ensures { IfOk result (λ none. none.items ≡ replicate count false) }
{
    Ok(vec![in alloc; false; count]?)
}

/// Marks some legs.
pub(crate) fn mark_listed(legs: &[Leg], marks: &mut Vec<bool>)
    requires { All (λ x. x.0 < length marks.old.items) legs.now }
    ensures marks { length marks.new.items ≡ length marks.old.items }
    ensures kept { AreKept marks.old.items marks.new.items }
    ensures marked { All (λ x. is_marked marks.new.items x.0 ≡ true) legs.now }
{
    for leg in legs {
        marks[leg.0 as usize] = true;
    }
}

/// Marks the legs of the paths of some groups.
pub(crate) fn mark_paths(groups: &[Group], marks: &mut Vec<bool>)
    requires { All (λ group. IsPathOf (length marks.old.items) group.path) groups.now }
    ensures marks { length marks.new.items ≡ length marks.old.items }
    ensures kept { AreKept marks.old.items marks.new.items }
    ensures marked { ArePathsMarked marks.new.items groups.now }
{
    for group in groups {
        mark_path(group.path.as_slice(), marks);
    }
}

/// Marks the legs of a path.
pub(crate) fn mark_path(path: &[(Leg, Cabin)], marks: &mut Vec<bool>)
    requires { IsPathOf (length marks.old.items) path.now }
    ensures marks { length marks.new.items ≡ length marks.old.items }
    ensures kept { AreKept marks.old.items marks.new.items }
    ensures marked { AreLegsMarked marks.new.items path.now }
{
    for pair in path {
        marks[pair.0.0 as usize] = true;
    }
}

/// Whether no leg of the paths of some groups is marked.
pub(crate) fn are_paths_free(marks: &[bool], groups: &[Group]) -> bool
    requires { All (λ group. IsPathOf (length marks.now) group.path) groups.now }
    ensures { result ≡ true → ArePathsFree marks.now groups.now }
{
    for group in groups {
        if !is_path_free(marks, group.path.as_slice()) {
            return false;
        }
    }
    true
}

/// Whether no leg of a path is marked.
pub(crate) fn is_path_free(marks: &[bool], path: &[(Leg, Cabin)]) -> bool
    requires { IsPathOf (length marks.now) path.now }
    ensures { result ≡ true → AreLegsFree marks.now path.now }
{
    for pair in path {
        if marks[pair.0.0 as usize] {
            return false;
        }
    }
    true
}
