//! What is noted at a plan.

ghost use Rattle.std.specs.Prelude.{◌≡◌, ◌<◌, length, slice_index_or, true};
ghost use Rattle.desk_data.specs.declared.row.Group.{Group};
ghost use Rattle.desk_data.specs.Situation.{Situation};
ghost use Rattle.desk_data.specs.PlanRows.{groups_at};
ghost use Rattle.near_notes.specs.DayNotes.{AreNotes, IsInVain};

use desk_data::{Res, Seats};
use plan_pages::Pages;

/// What is noted of a day at a plan of it that is feasible.
pub struct Notes {
    /// The plan.
    pub plan: Pages,
    /// How many are aboard each leg in each cabin, by leg.
    pub aboard: Vec<Seats>,
    /// For each reservation off how many of its paths no rebooking is better: the first so many of its groups.
    pub known: Vec<u32>,
}

/// Dropped in one call, so that a function that owns one proves it once, and not part by part.
impl Drop for Notes {
    fn drop(self) {
        let Notes {
            plan: _,
            aboard: _,
            known: _,
        } = self;
    }
}

impl Notes {
    /// Whether it is noted of a path of a reservation, that of the group at a place, that no rebooking off it is better.
    /// Where it says no, nothing is known.
    pub fn knows(&self, res: Res, place: usize) -> bool
        requires { res.0 < length self.now.known.items }
        ensures { (I : Situation) (none : Group) → AreNotes I self.now → result ≡ true → place < length (groups_at self.now.plan res.0) → IsInVain I self.now.plan res.0 (slice_index_or (groups_at self.now.plan res.0) place none) }
    {
        place < self.known[res.0 as usize] as usize
    }

    /// Notes of a path of a reservation, that of the group at a place, that no rebooking off it is better. Nothing is
    /// noted where the path before it is not.
    pub fn note(&mut self, res: Res, place: usize)
        requires { res.0 < length self.old.known.items }
        ensures plan { self.new.plan ≡ self.old.plan }
        ensures notes { (I : Situation) → AreNotes I self.old → ((none : Group) → IsInVain I self.old.plan res.0 (slice_index_or (groups_at self.old.plan res.0) place none)) → AreNotes I self.new }
    {
        let known = self.known[res.0 as usize];
        if known as usize == place && known < u32::MAX {
            self.known[res.0 as usize] = known + 1;
        }
    }
}
