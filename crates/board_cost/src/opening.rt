//! The aircraft of a plan and the positions that want them, put together.

ghost use Rattle.std.specs.Prelude.{◌≡◌, ℕ, true, Option, length, OnOk, IfOk};
ghost use Rattle.desk_data.specs.PlanRows.{PlanRows};
ghost use Rattle.desk_data.specs.Situation.{Situation};
ghost use Rattle.desk_data.specs.Valid.{IsPlanFor};
ghost use Rattle.desk_rules.specs.Cost.{at_hand};
ghost use Rattle.board_cost.specs.RotationLegs.{IsPlacedSet};
ghost use Rattle.board_cost.specs.Positions.{AreRowsOf};
ghost use Rattle.board_cost.specs.Board.{AreRotationsOf, HasEdits, HasPlace, grounded};

use crate::positions::Positions;
use crate::rotation::Rotation;
use crate::rotation_leg::{Placed, placed_of};
use desk_data::{Instance, Leg, NoMem, Plane};
use plan_reads::ReadPlan;
use std::alloc::Global;

/// What the aircraft of a plan fly before the window's end, of which no edit can be taken back. The only
/// error is out of memory.
pub(crate) fn rotations_of<P: ReadPlan>(
    alloc: Global,
    inst: &Instance,
    plan: &P,
) -> Result<Vec<Rotation>, NoMem>
    requires { IsPlanFor inst.now (P.plan_of plan.now) }
    ensures rotations { IfOk result (λ made. AreRotationsOf inst.now (P.plan_of plan.now) made.items) }
    ensures edits { IfOk result (λ made. HasEdits (λ p. 0) made.items) }
{
    let mut rotations = standing(alloc, inst)?;
    for x in 0..inst.legs() {
        start(
            &mut rotations,
            placed_of(inst, Leg(x), plan.read_row(Leg(x))),
        )?;
    }
    Ok(rotations)
}

/// The aircraft where they stand at first, of which none flies.
fn standing(alloc: Global, inst: &Instance) -> Result<Vec<Rotation>, NoMem>
    ensures rotations { IfOk result (λ made. AreRotationsOf inst.now grounded made.items) }
    ensures edits { IfOk result (λ made. HasEdits (λ p. 0) made.items) }
{
    let mut rotations = Vec::new(alloc);
    for p in 0..inst.planes() {
        rotations.push(Rotation::new(alloc, inst.plane(Plane(p))))?;
    }
    Ok(rotations)
}

/// One rotation leg more, if there is one.
fn start(rotations: &mut Vec<Rotation>, placed: Option<Placed>) -> Result<(), NoMem>
    requires place { HasPlace (length rotations.old.items) placed }
    requires edits { HasEdits (λ p. 0) rotations.old.items }
    ensures rotations { OnOk result ((I : Situation) (P Q : PlanRows) → AreRotationsOf I P rotations.old.items → IsPlacedSet I P Q placed true → AreRotationsOf I Q rotations.new.items) }
    ensures edits { OnOk result (HasEdits (λ p. 0) rotations.new.items) }
    ensures planes { OnOk result (length rotations.new.items ≡ length rotations.old.items) }
{
    match placed {
        Some(placed) => rotations[placed.plane.0 as usize].start(placed.rotation_leg),
        None => Ok(()),
    }
}

/// The positions of a day, each with the aircraft that are at hand for it: each aircraft is counted once, where it
/// ends. The only error is out of memory.
pub(crate) fn positions_of(
    alloc: Global,
    inst: &Instance,
    rotations: &[Rotation],
) -> Result<Positions, NoMem>
    ensures { IfOk result (λ positions. (P : PlanRows) → AreRotationsOf inst.now P rotations.now → AreRowsOf inst.now (at_hand inst.now P) positions.rows) }
{
    let mut positions = Positions::open(alloc, inst)?;
    for rotation in rotations {
        positions.move_plane(&rotation.kind(), None, rotation.end());
    }
    Ok(positions)
}
