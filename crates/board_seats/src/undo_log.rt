//! A summary, and the log of its edits.

ghost use Rattle.std.specs.Prelude.{◌≡◌, ℕ, ◌+◌, ◌-◌, ◌<◌, ◌≤◌, ◌==◌, length, replicate, OnOk, IfOk, All, Bool, List as Items, [], find};
ghost use Rattle.std.specs.List.{AllPairs, list_any};
ghost use Rattle.desk_data.specs.declared.broken.Broken.{Broken as Item};
ghost use Rattle.desk_data.specs.PlanRows.{PlanRows};
ghost use Rattle.desk_rules.specs.Order.{ComesBefore};
ghost use Rattle.board_kit.specs.Items.{AreThose};
ghost use Rattle.board_kit.specs.Users.{HasUsers, has_user, users_at, with_user};
ghost use Rattle.board_seats.specs.PathFaults.{no_faults};
ghost use Rattle.board_seats.specs.Summaries.{LedTo, back_to, marked, marked_at, turned_at, with_at};
ghost use Rattle.board_seats.specs.Kept.{has_item, no_seats, seen};
ghost use Rattle.board_seats.specs.Named.{names};

use crate::edit::Edit;
use crate::faults::PathFaults;
use crate::named::named_reservations;
use board_kit::{BrokenItems, LegUsers};
use desk_data::{Broken, Leg, NoMem, Res, Seats};
use kept_set::KeptSet;
use std::alloc::Global;
use std::marker::Model;

/// The passengers aboard each leg, the faults of each reservation, what is broken and who uses which
/// leg, with a log of edits that can be taken back.
pub(crate) struct UndoLog {
    taken: Vec<Seats>,
    faults: Vec<PathFaults>,
    broken: BrokenItems,
    users: LegUsers,
    edits: Vec<Edit>,
}

/// Dropped in one call, so that a function that owns one proves it once, and not part by part.
impl Drop for UndoLog {
    fn drop(self) {
        let UndoLog {
            taken: _,
            faults: _,
            broken: _,
            users: _,
            edits: _,
        } = self;
    }
}

impl Model for UndoLog {
    ghost use Rattle.std.specs.Prelude.{◌≡◌, length};
    ghost use Rattle.board_seats.specs.Kept.{Lists, IsLogged};

    ghost Value = { Lists };

    ghost view = { λ l. record { taken = l.taken.items; faults = l.faults.items; broken = l.broken.items; users = l.users; edits = l.edits.items } };

    ghost invariant = { λ l. IsLogged (length l.taken.items) (length l.faults.items) l.broken l.edits.items × (length l.users ≡ length l.taken.items) };
}

impl UndoLog {
    /// A summary in which nobody is aboard, no reservation has faults and nothing is broken, with the
    /// users of each leg. The only error is out of memory.
    pub(crate) fn blank(
        alloc: Global,
        legs: u32,
        reservations: u32,
        users: LegUsers,
    ) -> Result<UndoLog, NoMem>
        requires { length users ≡ legs }
        ensures { IfOk result (λ made. made ≡ record { taken = replicate legs no_seats; faults = replicate reservations no_faults; broken = []; users = users; edits = [] }) }
    {
        let nobody = Seats { f: 0, b: 0, e: 0 };
        let taken = vec![in alloc; nobody; legs as usize]?;
        let faults = vec![in alloc; PathFaults::none(); reservations as usize]?;
        Ok(UndoLog {
            taken,
            faults,
            broken: BrokenItems::new(alloc),
            users,
            edits: Vec::new(alloc),
        })
    }

    /// The same summary with no edits to take back. The only error is out of memory.
    pub(crate) fn copy(&self, alloc: Global) -> Result<UndoLog, NoMem>
        ensures { IfOk result (λ copy. copy ≡ record self.now { edits = [] }) }
    {
        let taken = Vec::from_slice(alloc, self.taken.as_slice())?;
        let faults = Vec::from_slice(alloc, self.faults.as_slice())?;
        let broken = self.broken.copy(alloc)?;
        let users = self.users.copy(alloc)?;
        Ok(UndoLog {
            taken,
            faults,
            broken,
            users,
            edits: Vec::new(alloc),
        })
    }

    /// The first item in the order in which they are reported.
    pub(crate) fn first(&self) -> Option<Broken>
        ensures { (test : Item → Bool) (all : Items Item) → AllPairs ComesBefore all → AreThose test all self.now.broken → result ≡ find test all }
    {
        self.broken.first()
    }

    /// The reservations that the broken items name, ascending, each once.
    pub(crate) fn named_reservations(&self, alloc: Global) -> Result<KeptSet<Res>, NoMem>
        ensures { IfOk result (λ named. (r : ℕ) → list_any (λ res. res.0 == r) named.items ≡ list_any (names r) self.now.broken) }
    {
        named_reservations(alloc, &self.broken)
    }

    /// How many edits can be taken back.
    pub(crate) fn edits(&self) -> usize
        ensures { result ≡ length self.now.edits }
    {
        self.edits.len()
    }

    /// The seats that passengers take on a leg.
    pub(crate) fn taken(&self, leg: Leg) -> Seats
        requires { leg.0 < length self.now.taken }
        ensures { result ≡ (seen self.now).summary.taken leg.0 }
    {
        self.taken[leg.0 as usize]
    }

    /// The faults of a reservation.
    pub(crate) fn faults(&self, res: Res) -> PathFaults
        requires { res.0 < length self.now.faults }
        ensures { result ≡ (seen self.now).summary.faults res.0 }
    {
        self.faults[res.0 as usize]
    }

    /// The reservations that may use a leg, ascending, each once.
    pub(crate) fn users(&self, leg: Leg) -> &[Res]
        requires { leg.0 < length self.now.taken }
        ensures users { result.now ≡ users_at self.now.users leg.0 }
        ensures ascending { AllPairs (λ a b. a.0 < b.0) result.now }
        ensures within { (P : PlanRows) → HasUsers P (has_user self.now.users) → All (λ res. res.0 < length P.groups) result.now }
    {
        self.users.users(leg)
    }

    /// Which reservations may use each leg.
    pub(crate) fn leg_users(&self) -> &LegUsers
        ensures users { result.now ≡ self.now.users }
        ensures legs { length result.now ≡ length self.now.taken }
    {
        &self.users
    }

    /// Has passengers take other seats on a leg. After an error, which is out of memory, the summary is
    /// as before.
    pub(crate) fn put_taken(&mut self, leg: Leg, seats: Seats) -> Result<(), NoMem>
        requires { leg.0 < length self.old.taken }
        ensures led { LedTo (seen self.old) (seen self.new) }
        ensures taken { OnOk result ((seen self.new).summary.taken ≡ with_at leg.0 seats (seen self.old).summary.taken) }
        ensures faults { self.new.faults ≡ self.old.faults }
        ensures broken { self.new.broken ≡ self.old.broken }
        ensures users { self.new.users ≡ self.old.users }
    {
        self.broken.reserve(self.edits.len() + 2)?;
        self.edits
            .push(Edit::OfSeats(leg, self.taken[leg.0 as usize]))?;
        self.taken[leg.0 as usize] = seats;
        Ok(())
    }

    /// Gives a reservation other faults. After an error, which is out of memory, the summary is as before.
    pub(crate) fn put_faults(&mut self, res: Res, faults: PathFaults) -> Result<(), NoMem>
        requires { res.0 < length self.old.faults }
        ensures led { LedTo (seen self.old) (seen self.new) }
        ensures taken { self.new.taken ≡ self.old.taken }
        ensures faults { OnOk result ((seen self.new).summary.faults ≡ with_at res.0 faults (seen self.old).summary.faults) }
        ensures broken { self.new.broken ≡ self.old.broken }
        ensures users { self.new.users ≡ self.old.users }
    {
        self.broken.reserve(self.edits.len() + 2)?;
        self.edits
            .push(Edit::OfFaults(res, self.faults[res.0 as usize]))?;
        self.faults[res.0 as usize] = faults;
        Ok(())
    }

    /// Has an item among the broken ones, or not among them. After an error, which is out of memory,
    /// the summary is as before.
    pub(crate) fn mark(&mut self, item: Broken, is_broken: bool) -> Result<(), NoMem>
        ensures led { LedTo (seen self.old) (seen self.new) }
        ensures taken { self.new.taken ≡ self.old.taken }
        ensures faults { self.new.faults ≡ self.old.faults }
        ensures broken { OnOk result ((seen self.new).summary.broken ≡ marked_at item is_broken (seen self.old).summary.broken) }
        ensures users { self.new.users ≡ self.old.users }
    {
        if self.broken.has(item) == is_broken {
            return Ok(());
        }
        self.broken.reserve(self.edits.len() + 2)?;
        self.edits.push(Edit::OfItem(item))?;
        self.broken.set(item, is_broken);
        Ok(())
    }

    /// The same for each of some items, in their order.
    pub(crate) fn mark_all(&mut self, marks: &[(Broken, bool)]) -> Result<(), NoMem>
        ensures led { LedTo (seen self.old) (seen self.new) }
        ensures taken { self.new.taken ≡ self.old.taken }
        ensures faults { self.new.faults ≡ self.old.faults }
        ensures broken { OnOk result ((seen self.new).summary.broken ≡ marked marks.now (seen self.old).summary.broken) }
        ensures users { self.new.users ≡ self.old.users }
    {
        for (item, is_broken) in marks {
            self.mark(*item, *is_broken)?;
        }
        Ok(())
    }

    /// Has a leg used by a reservation, too. After an error, which is out of memory, the summary is as
    /// before.
    pub(crate) fn add_user(&mut self, leg: Leg, res: Res) -> Result<(), NoMem>
        requires { leg.0 < length self.old.taken }
        ensures led { LedTo (seen self.old) (seen self.new) }
        ensures taken { self.new.taken ≡ self.old.taken }
        ensures faults { self.new.faults ≡ self.old.faults }
        ensures broken { self.new.broken ≡ self.old.broken }
        ensures users { OnOk result ((seen self.new).summary.users ≡ with_user leg.0 res.0 (seen self.old).summary.users) }
    {
        self.broken.reserve(self.edits.len() + 2)?;
        self.edits.push(Edit::OfUser(leg, res))?;
        match self.users.add(leg, res) {
            Ok(true) => Ok(()),
            Ok(false) => {
                let _ = self.edits.pop();
                Ok(())
            }
            Err(error) => {
                let _ = self.edits.pop();
                Err(error)
            }
        }
    }

    /// Takes the last edit back. It takes no memory.
    fn undo_last(&mut self)
        requires { 0 < length self.old.edits }
        ensures { seen self.new ≡ back_to (length self.old.edits - 1) (seen self.old) }
    {
        if let Some(edit) = self.edits.pop() {
            match edit {
                Edit::OfSeats(leg, seats) => self.taken[leg.0 as usize] = seats,
                Edit::OfFaults(res, faults) => self.faults[res.0 as usize] = faults,
                Edit::OfItem(item) => toggle(&mut self.broken, item),
                Edit::OfUser(leg, res) => self.users.take(leg, res),
            }
        }
    }

    /// Takes edits back, the last first, until so many are left. It takes no memory.
    pub(crate) fn undo_to(&mut self, left: usize)
        requires { left ≤ length self.old.edits }
        ensures { seen self.new ≡ back_to left (seen self.old) }
    {
        for _ in left..self.edits.len() {
            self.undo_last();
        }
    }

    /// Gives up what could be taken back. It takes no memory.
    pub(crate) fn forget(&mut self)
        ensures { self.new ≡ record self.old { edits = [] } }
    {
        self.edits.clear();
    }
}

fn toggle(items: &mut BrokenItems, item: Broken)
    requires { length items.old.items < items.old.room }
    ensures has { has_item items.new.items ≡ turned_at item (has_item items.old.items) }
    ensures length { length items.new.items ≤ length items.old.items + 1 }
    ensures room { items.old.room ≤ items.new.room }
{
    let is_broken = items.has(item);
    items.set(item, !is_broken);
}
