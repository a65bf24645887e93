//! How the path of a group stands to a path.

ghost use Rattle.std.specs.Prelude.{◌≡◌};
ghost use Rattle.desk_model.specs.Rebook.{is_before, is_after};

use desk_data::{Cabin, Group, Leg, path_order};

/// Whether a group's path comes before a path.
pub(crate) fn is_before(path: &[(Leg, Cabin)], group: &Group) -> bool
    ensures { result ≡ is_before path.now group.now }
{
    path_order(group.path.as_slice(), path).is_lt()
}

/// Whether a group's path comes after a path.
pub(crate) fn is_after(path: &[(Leg, Cabin)], group: &Group) -> bool
    ensures { result ≡ is_after path.now group.now }
{
    path_order(group.path.as_slice(), path).is_gt()
}
