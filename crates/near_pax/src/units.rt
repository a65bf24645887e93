//! The paths with passengers, reservation by reservation.

ghost use Rattle.std.specs.Prelude.{◌≡◌, ◌∷◌, ◌+◌, ◌^◌, ◌<◌, [], length, IsTrue, IfNone, IfSome};
ghost use Rattle.desk_data.specs.PlanRows.{groups_at};
ghost use Rattle.desk_data.specs.Situation.{reservations_of};
ghost use Rattle.desk_data.specs.Valid.{IsPlanFor};
ghost use Rattle.near_pax.specs.Units.{has_path, unit_at, left_units};

use desk_data::{Instance, Res};
use plan_pages::Pages;

/// The paths that are left: those of the reservation `res` from a place among its groups on, and those of
/// all later reservations whose number leaves `shard` when it is divided by `shards`.
#[derive(Drop)]
pub(crate) struct PaxUnits {
    pub(crate) shard: u32,
    pub(crate) shards: u32,
    pub(crate) res: u32,
    pub(crate) place: usize,
}

impl PaxUnits {
    /// The next path: its reservation, and its place among the groups of that reservation.
    pub(crate) fn next(&mut self, inst: &Instance, plan: &Pages) -> Option<(Res, usize)>
        requires plan { IsPlanFor inst.now plan.now }
        requires shards { 0 < self.old.shards }
        ensures shards { self.new.shards ≡ self.old.shards }
        ensures some { IfSome result (λ unit. left_units inst.now plan.now self.old ≡ unit_at plan.now unit.0.0 unit.1 ∷ left_units inst.now plan.now self.new) }
        ensures res { IfSome result (λ unit. unit.0.0 < reservations_of inst.now) }
        ensures place { IfSome result (λ unit. unit.1 < length (groups_at plan.now unit.0.0)) }
        ensures none { IfNone result (left_units inst.now plan.now self.old ≡ []) }
        ensures spent { IfNone result (left_units inst.now plan.now self.new ≡ []) }
    {
        for r in self.res..inst.reservations() {
            let res = Res(r);
            if self.has_path(plan, res) {
                let place = self.place;
                self.place = place + 1;
                return Some((res, place));
            }
            self.res = r + 1;
            self.place = 0;
        }
        None
    }

    /// Whether a reservation is of the shard, and has a path at the place.
    fn has_path(&self, plan: &Pages, res: Res) -> bool
        requires shards { 0 < self.now.shards }
        requires res { res.0 < length plan.now.groups }
        ensures path { result ≡ has_path plan.now self.now res.0 }
        ensures small { IsTrue result → self.now.place + 1 < 2 ^ 64 }
    {
        res.0 % self.shards == self.shard && self.place < plan.groups(res).len()
    }
}
