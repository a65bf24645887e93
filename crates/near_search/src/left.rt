//! Moves that are given one after another.

ghost use Rattle.std.specs.Prelude.{◌≡◌, [], ◌∷◌, List, IfOk, MatchOption, reverse};
ghost use Rattle.plan_moves.specs.declared.moves.Move.{Move as Asked};
ghost use Rattle.desk_data.specs.Situation.{Situation};
ghost use Rattle.desk_data.specs.PlanRows.{PlanRows};
ghost use Rattle.desk_data.specs.Valid.{IsPlanFor};
ghost use Rattle.near_moves.specs.Units.{MoveUnit};
ghost use Rattle.near_pax.specs.Left as passengers;

use desk_data::{Instance, NoMem};
use near_pax::PaxMoves;
use plan_moves::Move;
use plan_pages::Pages;
use std::alloc::Global;

/// Moves near a plan that are given one after another.
pub(crate) trait MovesLeft {
    /// Whether they are moves near this plan.
    ghost is_of: { Situation → PlanRows → Self → Type 0 };

    /// Those that are not given yet, in their order.
    ghost left: { Situation → PlanRows → Self → List Asked };

    /// The units after the one at hand: `next_left` gives none of their moves.
    ghost units_after: { Situation → PlanRows → Self → List MoveUnit };

    /// The next one, or `None` where all were given. The units that follow stay.
    fn next_left(
        &mut self,
        alloc: Global,
        inst: &Instance,
        plan: &Pages,
    ) -> Result<Option<Move>, NoMem>
        requires plan { IsPlanFor inst.now plan.now }
        requires of { is_of inst.now plan.now self.old }
        ensures of { is_of inst.now plan.now self.new }
        ensures units_after { units_after inst.now plan.now self.new ≡ units_after inst.now plan.now self.old }
        ensures next { IfOk result (λ given. MatchOption given (left inst.now plan.now self.old ≡ []) (λ m. left inst.now plan.now self.old ≡ m ∷ left inst.now plan.now self.new)) };
}

/// Moves that are made and not given yet.
#[derive(Drop)]
pub(crate) struct MadeMoves {
    /// The last first.
    moves: Vec<Move>,
}

impl MadeMoves {
    /// These, in their order.
    pub(crate) fn of(mut moves: Vec<Move>) -> MadeMoves
        ensures { reverse result.moves.items ≡ moves.items }
    {
        moves.reverse();
        MadeMoves { moves }
    }
}

impl MovesLeft for MadeMoves {
    ghost is_of = { λ I P made. Unit {0} };

    ghost left = { λ I P made. reverse made.moves.items };

    ghost units_after = { λ I P made. [] };

    fn next_left(
        &mut self,
        _alloc: Global,
        _inst: &Instance,
        _plan: &Pages,
    ) -> Result<Option<Move>, NoMem> {
        Ok(self.moves.pop())
    }
}

/// The moves of the path at hand, and after them the paths that are left.
impl MovesLeft for PaxMoves {
    ghost is_of = { passengers.IsOf };

    ghost left = { passengers.unit_left };

    ghost units_after = { passengers.units_left };

    fn next_left(
        &mut self,
        alloc: Global,
        inst: &Instance,
        plan: &Pages,
    ) -> Result<Option<Move>, NoMem> {
        self.next_in_unit(alloc, inst, plan)
    }
}
