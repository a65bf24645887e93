//! Whether plans have the same.

ghost use Rattle.std.specs.Prelude.{◌≡◌, true};

use desk_data::{Group, same_path};

/// Whether some groups are the same as others. It calls itself once for each group, of which a reservation has at most 1,000.
pub fn are_same_groups(some: &[Group], others: &[Group]) -> bool
    ensures yes { result ≡ true → others.now ≡ some.now }
    ensures no { others.now ≡ some.now → result ≡ true }
{
    match some {
        [] => others.is_empty(),
        [group, groups @ ..] => match others {
            [] => false,
            [other, rest @ ..] => is_same_group(group, other) && are_same_groups(groups, rest),
        },
    }
}

/// Whether a group is the same as another.
fn is_same_group(group: &Group, other: &Group) -> bool
    ensures yes { result ≡ true → other.now ≡ group.now }
    ensures no { other.now ≡ group.now → result ≡ true }
{
    group.count == other.count && same_path(group.path.as_slice(), other.path.as_slice())
}
