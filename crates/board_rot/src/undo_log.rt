//! A summary, and the log of its edits.

ghost use Rattle.std.specs.Prelude.{◌≡◌, ◌+◌, ◌-◌, ◌<◌, ◌≤◌, [], length, if◌then◌else◌, map, replicate, slice_index_or, ℕ, OnOk, OnErr, IfOk, IfSome, IsNone};
ghost use Rattle.board_rot.specs.declared.edit.Edit.TheVariants.{OfLeg, OfItem};
ghost use Rattle.board_rot.specs.Summaries.{LedTo, blank, with_edit, back_to, same_item, turned, marked};
ghost use Rattle.board_rot.specs.Kept.{seen, has_rotation_leg, has_item, no_rotation_legs, without_edits};
ghost use Rattle.board_rot.specs.Meaning.{AreInOrder, IsLeftOf, IsRightOf, summary_of};
ghost use Rattle.board_rot.specs.Changes.{IsMoved};
ghost use Rattle.desk_data.specs.Situation.{Situation};
ghost use Rattle.desk_data.specs.PlanRows.{PlanRows};
ghost use Rattle.desk_rules.specs.Least.{least_rot};

use crate::edit::Edit;
use crate::rotation::Rotation;
use board_kit::BrokenItems;
use desk_data::{Broken, NoMem, Plane};
use kept_set::NextItem;
use plan_reads::RotationLeg;
use std::alloc::Global;
use std::marker::Model;

/// Which legs the aircraft fly and what is broken, with a log of edits that can be taken back.
pub(crate) struct UndoLog {
    rotations: Vec<Rotation>,
    broken: BrokenItems,
    edits: Vec<Edit>,
}

/// Dropped in one call, so that a function that owns one proves it once, and not part by part.
impl Drop for UndoLog {
    fn drop(self) {
        let UndoLog {
            rotations: _,
            broken: _,
            edits: _,
        } = self;
    }
}

impl Model for UndoLog {
    ghost use Rattle.board_rot.specs.Kept.{Lists, IsLogged};

    ghost Value = { Lists };

    ghost view = { λ l. record { rotations = l.rotations.items; broken = l.broken.items; edits = l.edits.items } };

    ghost invariant = { λ l. IsLogged l.rotations.items l.broken l.edits.items };
}

impl UndoLog {
    /// A summary for so many aircraft, of which none flies, and on which nothing is broken. The only error is
    /// out of memory.
    pub(crate) fn blank(alloc: Global, planes: u32) -> Result<UndoLog, NoMem>
        ensures { IfOk result (λ made. seen made ≡ record { summary = blank; planes = planes; edits = [] }) }
    {
        let rotations = no_rotations(alloc, planes)?;
        Ok(UndoLog {
            rotations,
            broken: BrokenItems::new(alloc),
            edits: Vec::new(alloc),
        })
    }

    /// The same summary with no edits to take back. The only error is out of memory.
    pub(crate) fn copy(&self, alloc: Global) -> Result<UndoLog, NoMem>
        ensures { IfOk result (λ copy. seen copy ≡ record (seen self.now) { edits = [] }) }
    {
        let rotations = copied_rotations(alloc, self.rotations.as_slice())?;
        let broken = self.broken.copy(alloc)?;
        Ok(UndoLog {
            rotations,
            broken,
            edits: Vec::new(alloc),
        })
    }

    /// How many edits can be taken back.
    pub(crate) fn edits(&self) -> usize
        ensures { result ≡ length (seen self.now).edits }
    {
        self.edits.len()
    }

    /// Has an aircraft fly a rotation leg where it does not, and else not. After an error, which is out of
    /// memory, the summary is as before.
    pub(crate) fn toggle(&mut self, plane: Plane, rotation_leg: RotationLeg) -> Result<(), NoMem>
        requires { plane.0 < (seen self.old).planes }
        ensures ok { OnOk result (seen self.new ≡ with_edit (OfLeg plane rotation_leg) (seen self.old)) }
        ensures err { OnErr result (seen self.new ≡ seen self.old) }
    {
        self.broken.reserve(self.edits.len() + 2)?;
        self.edits.push(Edit::OfLeg(plane, rotation_leg))?;
        match self.rotations[plane.0 as usize].toggle(rotation_leg) {
            Ok(()) => Ok(()),
            Err(error) => {
                let _ = self.edits.pop();
                Err(error)
            }
        }
    }

    /// Has a rotation leg of an aircraft depart at another moment, where it keeps its place: gives the
    /// rotation leg after it. `None` where it does not keep it. Then, and after an error, which is out
    /// of memory, the summary is as before.
    pub(crate) fn retime(
        &mut self,
        plane: Plane,
        from: RotationLeg,
        to: RotationLeg,
    ) -> Result<Option<NextItem<RotationLeg>>, NoMem>
        requires { plane.0 < (seen self.old).planes }
        ensures some { IfOk result (λ moved. IfSome moved (λ next. IsMoved (seen self.old) (seen self.new) plane from to next.item)) }
        ensures none { IfOk result (λ moved. IsNone moved → seen self.new ≡ seen self.old) }
        ensures err { OnErr result (seen self.new ≡ seen self.old) }
    {
        self.broken.reserve(self.edits.len() + 3)?;
        self.edits.reserve(2)?;
        match self.rotations[plane.0 as usize].retime(from, to)? {
            Some(next) => {
                // there is room, so they are not refused
                let _from = self.edits.push(Edit::OfLeg(plane, from));
                let _to = self.edits.push(Edit::OfLeg(plane, to));
                Ok(Some(next))
            }
            None => Ok(None),
        }
    }

    /// Has an item among the broken ones, or not among them. After an error, which is out of memory,
    /// the summary is as before.
    pub(crate) fn mark(&mut self, item: Broken, is_broken: bool) -> Result<(), NoMem>
        ensures led { LedTo (seen self.old) (seen self.new) }
        ensures rotation_legs { (seen self.new).summary.rotation_legs ≡ (seen self.old).summary.rotation_legs }
        ensures broken { OnOk result ((seen self.new).summary.broken ≡ (λ other. if same_item other item then is_broken else (seen self.old).summary.broken other)) }
    {
        if self.broken.has(item) == is_broken {
            return Ok(());
        }
        self.broken.reserve(self.edits.len() + 2)?;
        self.edits.push(Edit::OfItem(item))?;
        self.broken.set(item, is_broken);
        Ok(())
    }

    /// The same for each of some items.
    pub(crate) fn mark_all(&mut self, marks: &[(Broken, bool)]) -> Result<(), NoMem>
        ensures led { LedTo (seen self.old) (seen self.new) }
        ensures rotation_legs { (seen self.new).summary.rotation_legs ≡ (seen self.old).summary.rotation_legs }
        ensures broken { OnOk result ((seen self.new).summary.broken ≡ marked marks.now (seen self.old).summary.broken) }
    {
        for (item, is_broken) in marks {
            self.mark(*item, *is_broken)?;
        }
        Ok(())
    }

    /// The rotation legs of an aircraft, in their order.
    pub(crate) fn rotation_legs(&self, plane: Plane) -> &[RotationLeg]
        requires { plane.0 < (seen self.now).planes }
        ensures rotation_legs { has_rotation_leg result.now ≡ (seen self.now).summary.rotation_legs plane.0 }
        ensures order { AreInOrder result.now }
    {
        self.rotations[plane.0 as usize].rotation_legs()
    }

    /// The last rotation leg of an aircraft before a rotation leg.
    pub(crate) fn left_of(&self, plane: Plane, rotation_leg: RotationLeg) -> Option<RotationLeg>
        requires { plane.0 < (seen self.now).planes }
        ensures { IsLeftOf ((seen self.now).summary.rotation_legs plane.0) rotation_leg result }
    {
        self.rotations[plane.0 as usize].left_of(rotation_leg)
    }

    /// The first rotation leg of an aircraft after a rotation leg.
    pub(crate) fn right_of(&self, plane: Plane, rotation_leg: RotationLeg) -> Option<RotationLeg>
        requires { plane.0 < (seen self.now).planes }
        ensures { IsRightOf ((seen self.now).summary.rotation_legs plane.0) rotation_leg result }
    {
        self.rotations[plane.0 as usize].right_of(rotation_leg)
    }

    /// The first broken item, in the order in which items are reported.
    pub(crate) fn first_broken(&self) -> Option<Broken>
        ensures { (I : Situation) (P : PlanRows) → (seen self.now).summary ≡ summary_of I P → result ≡ least_rot I P }
    {
        self.broken.first()
    }

    /// Takes the last edit back. It takes no memory.
    fn undo_last(&mut self)
        requires { 0 < length (seen self.old).edits }
        ensures { seen self.new ≡ back_to (length (seen self.old).edits - 1) (seen self.old) }
    {
        if let Some(edit) = self.edits.pop() {
            match edit {
                Edit::OfLeg(plane, rotation_leg) => self.rotations[plane.0 as usize].toggle_back(
                    rotation_leg,
                ),
                Edit::OfItem(item) => toggle(&mut self.broken, item),
            }
        }
    }

    /// Takes edits back, the last first, until so many are left. It takes no memory.
    pub(crate) fn undo_to(&mut self, left: usize)
        requires { left ≤ length (seen self.old).edits }
        ensures { seen self.new ≡ back_to left (seen self.old) }
    {
        for _ in left..self.edits.len() {
            self.undo_last();
        }
    }

    /// Gives up what could be taken back. It takes no memory.
    pub(crate) fn forget(&mut self)
        ensures { seen self.new ≡ record (seen self.old) { edits = [] } }
    {
        forget_all(&mut self.rotations);
        self.edits.clear();
    }
}

/// Gives up what could be taken back, of each aircraft.
fn forget_all(rotations: &mut Vec<Rotation>)
    ensures each { (p : ℕ) → slice_index_or rotations.new.items p no_rotation_legs ≡ record (slice_index_or rotations.old.items p no_rotation_legs) { edits = 0 } }
    ensures length { length rotations.new.items ≡ length rotations.old.items }
{
    for p in 0..rotations.len() {
        rotations[p].forget();
    }
}

/// The same rotation legs of each aircraft with no edits to take back.
fn copied_rotations(alloc: Global, rotations: &[Rotation]) -> Result<Vec<Rotation>, NoMem>
    ensures { IfOk result (λ copies. copies.items ≡ map without_edits rotations.now) }
{
    let mut copies = Vec::with_capacity(alloc, rotations.len())?;
    for rotation in rotations {
        copies.push(rotation.copy(alloc)?)?;
    }
    Ok(copies)
}

/// So many aircraft that fly nothing.
fn no_rotations(alloc: Global, planes: u32) -> Result<Vec<Rotation>, NoMem>
    ensures { IfOk result (λ made. made.items ≡ replicate planes no_rotation_legs) }
{
    let mut rotations = Vec::with_capacity(alloc, planes as usize)?;
    for _ in 0..planes {
        rotations.push(Rotation::new(alloc))?;
    }
    Ok(rotations)
}

fn toggle(items: &mut BrokenItems, item: Broken)
    requires { length items.old.items < items.old.room }
    ensures has { has_item items.new.items ≡ turned (λ other. same_item other item) (has_item items.old.items) }
    ensures length { length items.new.items ≤ length items.old.items + 1 }
    ensures room { items.old.room ≤ items.new.room }
{
    let is_broken = items.has(item);
    items.set(item, !is_broken);
}
