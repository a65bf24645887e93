//! The walk over the units of legs and aircraft near a plan.

ghost use Rattle.std.specs.Prelude.{◌≡◌, ◌<◌, ◌≤◌, ◌↔◌, ◌∷◌, [], All, IfOk, IsTrue, MatchOption, OnErr, OnOk, drop, map, nat_le, option_to_list, take, false};
ghost use Rattle.desk_data.specs.Valid.{IsPlanFor};
ghost use Rattle.near_moves.specs.Near.{leg_units, of_shard, unit_moves};
ghost use Rattle.near_legs.specs.Choices.{IsLegUnit, unit_of};
ghost use Rattle.near_legs.specs.Walk.{IsNextUnit, IsUnitWalk, at_next_neighbourhood, is_at_end, owned_in, owners, places_left, units_left};

use crate::made::moves_of;
use crate::neighbourhood::Neighbourhood;
use crate::own::owned;
use crate::tables::LegTables;
use crate::unit::LegUnit;
use desk_data::{Instance, NoMem};
use plan_moves::Move;
use plan_pages::Pages;
use std::alloc::Global;
use std::marker::Model;

/// A walk over the units of legs and aircraft near a plan, in one shard of them. It holds the units of one
/// owner, an aircraft or a leg. Contracts see it as what it has worked out of the plan, the shard, the neighbourhood
/// and the owner that come next, and the units at hand. The instance and the plan stay the same as long as
/// one walks.
#[derive(Drop)]
pub struct LegUnits {
    tables: LegTables,
    shard: u32,
    shards: u32,
    neighbourhood: Neighbourhood,
    /// The next owner.
    owner: u32,
    /// The units of the owner before it that are still to be given, the last first.
    at_hand: Vec<LegUnit>,
}

impl Model for LegUnits {
    ghost use Rattle.std.specs.Prelude.{reverse};
    ghost use Rattle.near_legs.specs.Walk.{UnitWalk};

    ghost Value = { UnitWalk };

    ghost view = { λ u. record { lists = u.tables; shard = u.shard; shards = u.shards; neighbourhood = u.neighbourhood; owner = u.owner; at_hand = reverse u.at_hand.items } };
}

impl LegUnits {
    /// The walk over a shard of the units: those whose owner's number leaves `shard` when it is divided by
    /// `shards`. The only error is out of memory.
    pub fn of(
        alloc: Global,
        inst: &Instance,
        plan: &Pages,
        shard: u32,
        shards: u32,
    ) -> Result<LegUnits, NoMem>
        requires plan { IsPlanFor inst.now plan.now }
        requires shard { shard < shards }
        ensures walk { IfOk result (IsUnitWalk inst.now plan.now) }
        ensures left { IfOk result (λ units. units_left inst.now plan.now units ≡ of_shard shard shards (leg_units inst.now plan.now)) }
    {
        let tables = LegTables::of(alloc, inst, plan)?;
        Ok(LegUnits {
            tables,
            shard,
            shards,
            neighbourhood: Neighbourhood::Retimed,
            owner: 0,
            at_hand: Vec::new(alloc),
        })
    }

    /// The next unit, or `None` where none is left. After an error, which is out of memory, the same units
    /// are left as before.
    pub fn next(
        &mut self,
        alloc: Global,
        inst: &Instance,
        plan: &Pages,
    ) -> Result<Option<LegUnit>, NoMem>
        requires plan { IsPlanFor inst.now plan.now }
        requires walk { IsUnitWalk inst.now plan.now self.old }
        ensures walk { IsUnitWalk inst.now plan.now self.new }
        ensures ok { IfOk result (λ unit. MatchOption unit ((units_left inst.now plan.now self.old ≡ []) × (units_left inst.now plan.now self.new ≡ [])) (λ u. units_left inst.now plan.now self.old ≡ unit_of u ∷ units_left inst.now plan.now self.new)) }
        ensures unit { IfOk result (λ unit. MatchOption unit (Unit {0}) (IsLegUnit inst.now plan.now)) }
        ensures err { OnErr result (units_left inst.now plan.now self.new ≡ units_left inst.now plan.now self.old) }
    {
        let unit = self.peek(alloc, inst, plan)?;
        self.skip();
        Ok(unit)
    }

    /// The moves of a unit that the walk has given, in their order. The only error is out of memory.
    pub fn moves(
        &self,
        alloc: Global,
        inst: &Instance,
        plan: &Pages,
        unit: LegUnit,
    ) -> Result<Vec<Move>, NoMem>
        requires plan { IsPlanFor inst.now plan.now }
        requires walk { IsUnitWalk inst.now plan.now self.now }
        requires unit { IsLegUnit inst.now plan.now unit }
        ensures { IfOk result (λ moves. moves.items ≡ unit_moves inst.now plan.now (unit_of unit)) }
    {
        moves_of(alloc, inst, plan, &self.tables, unit)
    }

    /// The next unit, which stays, or `None` where none is left.
    pub(crate) fn peek(
        &mut self,
        alloc: Global,
        inst: &Instance,
        plan: &Pages,
    ) -> Result<Option<LegUnit>, NoMem>
        requires plan { IsPlanFor inst.now plan.now }
        requires walk { IsUnitWalk inst.now plan.now self.old }
        ensures walk { IsUnitWalk inst.now plan.now self.new }
        ensures left { units_left inst.now plan.now self.new ≡ units_left inst.now plan.now self.old }
        ensures ok { IfOk result (IsNextUnit inst.now plan.now self.new) }
    {
        while self.is_empty() && !self.is_at_end(inst) {
            self.take_owner(alloc, inst, plan)?;
        }
        Ok(self.first())
    }

    /// Passes over the unit at hand, if there is one.
    pub(crate) fn skip(&mut self)
        ensures { self.new ≡ record self.old { at_hand = drop 1 self.old.at_hand } }
    {
        let _unit = self.at_hand.pop();
    }

    /// The unit at hand.
    fn first(&self) -> Option<LegUnit>
        ensures { option_to_list result ≡ take 1 self.now.at_hand }
    {
        self.at_hand.last().copied()
    }

    /// Whether no unit is at hand.
    fn is_empty(&self) -> bool
        ensures { IsTrue result ↔ (self.now.at_hand ≡ []) }
    {
        self.at_hand.is_empty()
    }

    /// Whether no owner is left.
    fn is_at_end(&self, inst: &Instance) -> bool
        ensures { result ≡ is_at_end inst.now self.now }
    {
        self.is_after_owners(inst) && self.neighbourhood.next().is_none()
    }

    /// Whether no owner of the neighbourhood is left.
    fn is_after_owners(&self, inst: &Instance) -> bool
        ensures after { result ≡ nat_le (owners inst.now self.now.neighbourhood) self.now.owner }
        ensures limit { owners inst.now self.now.neighbourhood ≤ 20000 }
    {
        self.neighbourhood.owners(inst) <= self.owner
    }

    /// Goes on to the next neighbourhood, or takes the units of the next owner. No unit is at hand.
    fn take_owner(&mut self, alloc: Global, inst: &Instance, plan: &Pages) -> Result<(), NoMem>
        requires plan { IsPlanFor inst.now plan.now }
        requires walk { IsUnitWalk inst.now plan.now self.old }
        requires empty { self.old.at_hand ≡ [] }
        requires more { is_at_end inst.now self.old ≡ false }
        ensures walk { IsUnitWalk inst.now plan.now self.new }
        ensures left { units_left inst.now plan.now self.new ≡ units_left inst.now plan.now self.old }
        ensures nearer { OnOk result (places_left self.new < places_left self.old) }
    {
        if self.is_after_owners(inst) {
            self.take_neighbourhood();
            return Ok(());
        }
        let mut units = self.owned(alloc, inst, plan)?;
        units.reverse();
        self.at_hand = units;
        self.owner += 1;
        Ok(())
    }

    /// Goes on to the first owner of the next neighbourhood, if there is one.
    fn take_neighbourhood(&mut self)
        ensures { self.new ≡ at_next_neighbourhood self.old }
    {
        if let Some(neighbourhood) = self.neighbourhood.next() {
            self.neighbourhood = neighbourhood;
            self.owner = 0;
        }
    }

    /// The units of the next owner, if it is in the shard.
    fn owned(&self, alloc: Global, inst: &Instance, plan: &Pages) -> Result<Vec<LegUnit>, NoMem>
        requires plan { IsPlanFor inst.now plan.now }
        requires walk { IsUnitWalk inst.now plan.now self.now }
        requires owner { self.now.owner < owners inst.now self.now.neighbourhood }
        ensures units { IfOk result (λ units. map unit_of units.items ≡ owned_in inst.now plan.now self.now.shard self.now.shards self.now.neighbourhood self.now.owner) }
        ensures sound { IfOk result (λ units. All (IsLegUnit inst.now plan.now) units.items) }
    {
        if self.owner % self.shards != self.shard {
            return Ok(Vec::new(alloc));
        }
        owned(
            alloc,
            inst,
            plan,
            &self.tables,
            self.neighbourhood,
            self.owner,
        )
    }
}
