//! The four boards of a plan, changed together.

ghost use Rattle.std.specs.Prelude.{◌≡◌, ◌<◌, List as Items, [], map, filter, not, All, IfOk};
ghost use Rattle.desk_data.specs.PlanRows.{PlanRows};
ghost use Rattle.desk_data.specs.Situation.{Situation, legs_of, reservations_of};
ghost use Rattle.desk_data.specs.Valid.{IsPlanFor};
ghost use Rattle.desk_rules.specs.Numbers.{numbers};
ghost use Rattle.desk_rules.specs.Least.{least};
ghost use Rattle.desk_rules.specs.Cost.{cost, grains};
ghost use Rattle.desk_model.specs.Push.{rotation};
ghost use Rattle.board_kit.specs.Boards.{HasNoPast};
ghost use Rattle.board_rot.specs.Boards.{planes_on};
ghost use Rattle.desk_eval.specs.Asked.{keeps_paths};
ghost use Rattle.desk_eval.specs.Boards.{AreBoardsOf, rotations_of, slots_of, seats_of, cost_board_of};

use crate::passengers::PassengerBoards;
use board_cost::CostBoard;
use board_kit::{Board, Both, SlotBoard};
use board_rot::RotBoard;
use board_seats::SeatBoard;
use desk_data::{Broken, Grains, Instance, Leg, NoMem, Plane, Res};
use plan_pages::Pages;
use plan_reads::RotationLeg;
use std::alloc::Global;

/// All boards of a plan as one: of its rotations and its hours, and of its seats and its cost.
pub(crate) type AllBoards = Both<Both<RotBoard, SlotBoard>, PassengerBoards>;

/// What is kept of a plan: its rotations, its hours, its seats and paths, and its cost.
pub(crate) struct Boards {
    /// All of them, which a change is made on.
    pub all: AllBoards,
}

/// Dropped in one call, so that a function that owns one proves it once, and not part by part.
impl Drop for Boards {
    fn drop(self) {
        let Boards { all: _ } = self;
    }
}

impl Boards {
    /// The boards of a plan, with no past.
    pub(crate) fn open(alloc: Global, inst: &Instance, plan: &Pages) -> Result<Boards, NoMem>
        requires { IsPlanFor inst.now plan.now }
        ensures { IfOk result (λ boards. AreBoardsOf inst.now plan.now [] boards.all) }
    {
        let rotations = RotBoard::open(alloc, inst, plan)?;
        let slots = SlotBoard::open(alloc, inst, plan)?;
        let seats = SeatBoard::open(alloc, inst, plan)?;
        let cost = CostBoard::open(alloc, inst, plan)?;
        Ok(Boards {
            all: Both {
                first: Both {
                    first: rotations,
                    second: slots,
                },
                second: PassengerBoards { seats, cost },
            },
        })
    }

    /// The boards of the same plan, with no past. Nothing is judged or worked out anew.
    pub(crate) fn copy(&self, alloc: Global) -> Result<Boards, NoMem>
        ensures { IfOk result (λ copy. HasNoPast AreBoardsOf self.now.all copy.all) }
    {
        let all = self.all.copy(alloc)?;
        Ok(Boards { all })
    }

    /// The board of rotations.
    pub(crate) fn rotations(&self) -> &RotBoard
        ensures { result.now ≡ rotations_of self.now.all }
    {
        &self.all.first.first
    }

    /// The board of hours.
    pub(crate) fn slots(&self) -> &SlotBoard
        ensures { result.now ≡ slots_of self.now.all }
    {
        &self.all.first.second
    }

    /// The board of seats and paths.
    pub(crate) fn seats(&self) -> &SeatBoard
        ensures { result.now ≡ seats_of self.now.all }
    {
        &self.all.second.seats
    }

    /// The board of the cost.
    fn costs(&self) -> &CostBoard
        ensures { result.now ≡ cost_board_of self.now.all }
    {
        &self.all.second.cost
    }

    /// The first item that the plan breaks.
    pub(crate) fn least(&self) -> Option<Broken>
        ensures { (I : Situation) (P : PlanRows) (Ps : Items PlanRows) → AreBoardsOf I P Ps self.now.all → result ≡ least I P }
    {
        match self.rotations().least() {
            Some(item) => Some(item),
            None => match self.slots().least() {
                Some(slot) => Some(slot),
                None => self.seats().least(),
            },
        }
    }

    /// What the plan costs.
    pub(crate) fn cost(&self) -> Grains
        ensures { (I : Situation) (P : PlanRows) (Ps : Items PlanRows) → AreBoardsOf I P Ps self.now.all → result ≡ grains (cost I P) }
    {
        self.costs().cost()
    }

    /// The legs that an aircraft flies, in their order.
    pub(crate) fn rotation(&self, alloc: Global, plane: Plane) -> Result<Vec<Leg>, NoMem>
        requires { plane.0 < planes_on (rotations_of self.now.all) }
        ensures order { (I : Situation) (P : PlanRows) (Ps : Items PlanRows) → IsPlanFor I P → AreBoardsOf I P Ps self.now.all → IfOk result (λ legs. map (λ leg. leg.0) legs.items ≡ rotation I P plane.0) }
        ensures within { (I : Situation) (P : PlanRows) (Ps : Items PlanRows) → IsPlanFor I P → AreBoardsOf I P Ps self.now.all → IfOk result (λ legs. All (λ leg. leg.0 < legs_of I) legs.items) }
    {
        legs_of_rotation(alloc, self.rotations().rotation_legs(plane))
    }

    /// The reservations that break C13, C14 or C15, ascending by number.
    pub(crate) fn broken_reservations(&self, alloc: Global) -> Result<Vec<Res>, NoMem>
        ensures { (I : Situation) (P : PlanRows) (Ps : Items PlanRows) → AreBoardsOf I P Ps self.now.all → IfOk result (λ all. map (λ res. res.0) all.items ≡ filter (λ r. not (keeps_paths I P r)) (numbers (reservations_of I))) }
    {
        self.seats().broken_reservations(alloc)
    }
}

/// Which legs some rotation legs are of.
fn legs_of_rotation(alloc: Global, rotation_legs: &[RotationLeg]) -> Result<Vec<Leg>, NoMem>
    ensures { IfOk result (λ legs. legs.items ≡ map (λ rotation_leg. rotation_leg.leg) rotation_legs.now) }
{
    let mut legs = Vec::with_capacity(alloc, rotation_legs.len())?;
    for rotation_leg in rotation_legs {
        legs.push(rotation_leg.leg)?;
    }
    Ok(legs)
}
