//! The walk over the moves of legs and aircraft near a plan.

ghost use Rattle.std.specs.Prelude.{◌≡◌, ◌<◌, ◌↔◌, ◌∷◌, [], IfOk, IsTrue, MatchOption, OnErr};
ghost use Rattle.std.specs.Option.{ForSome};
ghost use Rattle.desk_data.specs.Valid.{IsPlanFor};
ghost use Rattle.plan_moves.specs.Fits.{Fits};
ghost use Rattle.near_moves.specs.Near.{leg_units, moves_of, of_shard};
ghost use Rattle.near_legs.specs.Walk.{HasMade, IsOf, left};

use crate::walk::LegUnits;
use desk_data::{Instance, NoMem};
use plan_moves::Move;
use plan_pages::Pages;
use std::alloc::Global;
use std::marker::Model;

/// A walk over the moves of legs and aircraft near a plan, in one shard of them. It holds the moves of one
/// unit. Contracts see it as a walk over the units and the moves that are made. The instance and the plan
/// stay the same as long as one walks.
#[derive(Drop)]
pub struct LegMoves {
    units: LegUnits,
    /// The moves that are still to be given of the unit before, the last first.
    made: Vec<Move>,
}

impl Model for LegMoves {
    ghost use Rattle.std.specs.Prelude.{reverse};
    ghost use Rattle.near_legs.specs.Walk.{MoveWalk};

    ghost Value = { MoveWalk };

    ghost view = { λ m. record { units = m.units; made = reverse m.made.items } };
}

impl LegMoves {
    /// The walk over the moves of a shard: those whose owner's number, of the leg or of the first aircraft,
    /// leaves `shard` when it is divided by `shards`. The only error is out of memory.
    pub fn of(
        alloc: Global,
        inst: &Instance,
        plan: &Pages,
        shard: u32,
        shards: u32,
    ) -> Result<LegMoves, NoMem>
        requires plan { IsPlanFor inst.now plan.now }
        requires shard { shard < shards }
        ensures walk { IfOk result (IsOf inst.now plan.now) }
        ensures left { IfOk result (λ moves. left inst.now plan.now moves ≡ moves_of inst.now plan.now (of_shard shard shards (leg_units inst.now plan.now))) }
    {
        let units = LegUnits::of(alloc, inst, plan, shard, shards)?;
        Ok(LegMoves {
            units,
            made: Vec::new(alloc),
        })
    }

    /// The next move, or `None` where none is left. After an error, which is out of memory, the same moves
    /// are left as before.
    pub fn next(
        &mut self,
        alloc: Global,
        inst: &Instance,
        plan: &Pages,
    ) -> Result<Option<Move>, NoMem>
        requires plan { IsPlanFor inst.now plan.now }
        requires walk { IsOf inst.now plan.now self.old }
        ensures walk { IsOf inst.now plan.now self.new }
        ensures ok { IfOk result (λ m. MatchOption m ((left inst.now plan.now self.old ≡ []) × (left inst.now plan.now self.new ≡ [])) (λ next. left inst.now plan.now self.old ≡ next ∷ left inst.now plan.now self.new)) }
        ensures fits { IfOk result (λ m. ForSome m (Fits inst.now)) }
        ensures err { OnErr result (left inst.now plan.now self.new ≡ left inst.now plan.now self.old) }
    {
        'units: while self.is_empty() {
            if !self.make(alloc, inst, plan)? {
                return Ok(None);
            }
        }
        Ok(self.made.pop())
    }

    /// Whether no move is made and not given.
    fn is_empty(&self) -> bool
        ensures { IsTrue result ↔ (self.now.made ≡ []) }
    {
        self.made.is_empty()
    }

    /// Makes the moves of the next unit; `false` where none is left. No move is made and not given.
    fn make(&mut self, alloc: Global, inst: &Instance, plan: &Pages) -> Result<bool, NoMem>
        requires plan { IsPlanFor inst.now plan.now }
        requires walk { IsOf inst.now plan.now self.old }
        requires empty { self.old.made ≡ [] }
        ensures walk { IsOf inst.now plan.now self.new }
        ensures left { left inst.now plan.now self.new ≡ left inst.now plan.now self.old }
        ensures ok { IfOk result (HasMade inst.now plan.now self.old self.new) }
    {
        let Some(unit) = self.units.peek(alloc, inst, plan)? else {
            return Ok(false);
        };
        let mut made = self.units.moves(alloc, inst, plan, unit)?;
        self.units.skip();
        made.reverse();
        self.made = made;
        Ok(true)
    }
}
