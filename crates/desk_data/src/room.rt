//! What passengers have flown, and for how many more of them a path keeps to it.

ghost use Rattle.std.specs.Prelude.{◌≡◌, ◌-◌, ◌<◌, ◌≤◌, Some, None, nat_le, ◌&&◌, if◌then◌else◌};
ghost use Rattle.desk_data.specs.Paths.{is_carried};
ghost use Rattle.desk_data.specs.PlanRows.{same_path};
ghost use Rattle.desk_data.specs.Situation.{reservations_of, tallied, gone, gone_in, carried_gone, has_room_behind};

use crate::instance::Instance;
use crate::path::Path;
use crate::row::{Group, Row};
use crate::tally::{count_gone, gone_in, is_gone};
use desk_units::{Cabin, Leg, Res};

impl Instance {
    /// How many more passengers of a reservation may take a path, beside its groups, so that no more are
    /// carried with just the legs of the path that have left than have flown just these: at most 1,000, and 0
    /// where as many are carried so, or more.
    pub fn room(&self, res: Res, groups: &[Group], path: &Path) -> u32
        requires { res.0 < reservations_of self.now }
        ensures room { result ≡ tallied self.now res.0 (gone self.now path.now) - carried_gone self.now.progress.frozen groups.now (gone self.now path.now) }
        ensures limit { result ≤ 1000 }
    {
        let frozen = self.frozen_rows();
        let gone = gone_in(frozen, path.as_slice());
        left_of(self.tallied(res, gone), groups, frozen, gone).unwrap_or(0)
    }

    /// Whether some passengers of a reservation have flown just those legs of a path that have left, and no
    /// more of its groups are carried so than have.
    pub(crate) fn has_room_behind(&self, res: Res, groups: &[Group], path: &Path) -> bool
        requires { res.0 < reservations_of self.now }
        ensures { result ≡ has_room_behind self.now res.0 groups.now path.now }
    {
        let frozen = self.frozen_rows();
        let gone = gone_in(frozen, path.as_slice());
        let tallied = self.tallied(res, gone);
        tallied >= 1 && left_of(tallied, groups, frozen, gone).is_some()
    }

    /// How many passengers of a reservation have flown just these legs.
    fn tallied(&self, res: Res, legs: &[(Leg, Cabin)]) -> u32
        requires { res.0 < reservations_of self.now }
        ensures count { result ≡ tallied self.now res.0 legs.now }
        ensures limit { result ≤ 1000 }
    {
        count_gone(self.tally(res), legs)
    }
}

/// What is left of so many passengers without those whom some groups carry with just these legs gone, by these
/// frozen rows; `None` where the groups carry more.
fn left_of(
    count: u32,
    groups: &[Group],
    frozen: &[Option<Row>],
    legs: &[(Leg, Cabin)],
) -> Option<u32>
    ensures { result ≡ (if nat_le (carried_gone frozen.now groups.now legs.now) count then Some (count - carried_gone frozen.now groups.now legs.now) else None) }
{
    let mut left = count;
    for group in groups {
        let carried = carried_by(group, frozen, legs);
        if left < carried {
            return None;
        }
        left -= carried;
    }
    Some(left)
}

/// How many passengers a group carries with just these legs gone, by these frozen rows.
fn carried_by(group: &Group, frozen: &[Option<Row>], legs: &[(Leg, Cabin)]) -> u32
    ensures { result ≡ (if is_carried group.now.path && same_path (gone_in frozen.now group.now.path) legs.now then group.now.count else 0) }
{
    if is_gone(frozen, group, legs) {
        group.count
    } else {
        0
    }
}
