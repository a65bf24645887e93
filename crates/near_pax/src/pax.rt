//! The moves of passengers near a plan.

ghost use Rattle.std.specs.Prelude.{◌≡◌, ◌∷◌, ◌<◌, [], length, IfOk, IfNone, IfSome, OnErr};
ghost use Rattle.desk_data.specs.PlanRows.{groups_at};
ghost use Rattle.desk_data.specs.Situation.{reservations_of};
ghost use Rattle.desk_data.specs.Valid.{IsPlanFor};
ghost use Rattle.near_moves.specs.Near.{moves_of, of_shard, unit_moves};
ghost use Rattle.near_moves.specs.PassengerMoves.{rebooked_units};
ghost use Rattle.near_pax.specs.Units.{unit_at};
ghost use Rattle.near_pax.specs.Left.{Gives, IsOf, left, unit_left, units_left};

use crate::FlightNet;
use crate::unit::PaxUnit;
use crate::units::PaxUnits;
use desk_data::{Instance, NoMem, Res};
use plan_moves::Move;
use plan_pages::Pages;
use std::alloc::Global;

/// The moves of passengers near a plan that are left: of the reservations of a shard, in their order. It
/// holds the routes of one reservation at most.
pub struct PaxMoves {
    pub(crate) net: FlightNet,
    pub(crate) units: PaxUnits,
    pub(crate) unit: Option<PaxUnit>,
}

/// Taken apart in one place, so that whoever lets go of moves does not do it part by part.
impl Drop for PaxMoves {
    fn drop(self) {
        let PaxMoves {
            net: _,
            units: _,
            unit: _,
        } = self;
    }
}

impl PaxMoves {
    /// All of them, of the reservations whose number leaves `shard` when it is divided by `shards`. `shards`
    /// is at least 1, and `shard` below it. The only error is out of memory.
    pub fn of(
        alloc: Global,
        inst: &Instance,
        plan: &Pages,
        shard: u32,
        shards: u32,
    ) -> Result<PaxMoves, NoMem>
        requires plan { IsPlanFor inst.now plan.now }
        requires shard { shard < shards }
        ensures of { IfOk result (λ moves. IsOf inst.now plan.now moves) }
        ensures left { IfOk result (λ moves. left inst.now plan.now moves ≡ moves_of inst.now plan.now (of_shard shard shards (rebooked_units inst.now plan.now))) }
    {
        let net = FlightNet::of(alloc, inst, plan)?;
        let units = PaxUnits {
            shard,
            shards,
            res: 0,
            place: 0,
        };
        Ok(PaxMoves {
            net,
            units,
            unit: None,
        })
    }

    /// The next move, or `None` where none is left. After an error the moves that are left are as before. The
    /// only error is out of memory.
    pub fn next(
        &mut self,
        alloc: Global,
        inst: &Instance,
        plan: &Pages,
    ) -> Result<Option<Move>, NoMem>
        requires plan { IsPlanFor inst.now plan.now }
        requires of { IsOf inst.now plan.now self.old }
        ensures of { IsOf inst.now plan.now self.new }
        ensures ok { IfOk result (λ next. Gives next (left inst.now plan.now self.old) (left inst.now plan.now self.new)) }
        ensures err { OnErr result (left inst.now plan.now self.new ≡ left inst.now plan.now self.old) }
    {
        loop {
            if let Some(next) = self.next_in_unit(alloc, inst, plan)? {
                return Ok(Some(next));
            }
            if self.next_unit(inst, plan).is_none() {
                return Ok(None);
            }
        }
    }

    /// Goes on to the next path that has passengers, past what is left of the one at hand: its
    /// reservation, and its place among the groups of that. Its routes aren't made before a move is asked
    /// for.
    pub fn next_unit(&mut self, inst: &Instance, plan: &Pages) -> Option<(Res, usize)>
        requires plan { IsPlanFor inst.now plan.now }
        requires of { IsOf inst.now plan.now self.old }
        ensures of { IsOf inst.now plan.now self.new }
        ensures unit { IfSome result (λ unit. units_left inst.now plan.now self.old ≡ unit_at plan.now unit.0.0 unit.1 ∷ units_left inst.now plan.now self.new) }
        ensures moves { IfSome result (λ unit. unit_left inst.now plan.now self.new ≡ unit_moves inst.now plan.now (unit_at plan.now unit.0.0 unit.1)) }
        ensures res { IfSome result (λ unit. unit.0.0 < reservations_of inst.now) }
        ensures place { IfSome result (λ unit. unit.1 < length (groups_at plan.now unit.0.0)) }
        ensures none { IfNone result (units_left inst.now plan.now self.old ≡ []) }
        ensures spent { IfNone result (left inst.now plan.now self.new ≡ []) }
    {
        match self.units.next(inst, plan) {
            Some(unit) => {
                self.unit = Some(PaxUnit {
                    res: unit.0,
                    place: unit.1,
                    made: None,
                });
                Some(unit)
            }
            None => {
                self.unit = None;
                None
            }
        }
    }

    /// The next move off the path at hand; the paths after it stay. `None` where that path has none left. The
    /// only error is out of memory, and after it the moves that are left are as before.
    pub fn next_in_unit(
        &mut self,
        alloc: Global,
        inst: &Instance,
        plan: &Pages,
    ) -> Result<Option<Move>, NoMem>
        requires plan { IsPlanFor inst.now plan.now }
        requires of { IsOf inst.now plan.now self.old }
        ensures of { IsOf inst.now plan.now self.new }
        ensures units { units_left inst.now plan.now self.new ≡ units_left inst.now plan.now self.old }
        ensures ok { IfOk result (λ next. Gives next (unit_left inst.now plan.now self.old) (unit_left inst.now plan.now self.new)) }
        ensures err { OnErr result (unit_left inst.now plan.now self.new ≡ unit_left inst.now plan.now self.old) }
    {
        match &mut self.unit {
            Some(unit) => unit.next(alloc, inst, plan, &self.net),
            None => Ok(None),
        }
    }
}
