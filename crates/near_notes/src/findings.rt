//! Units of legs that were found out, and when what they hang on was touched.

ghost use Rattle.std.specs.Prelude.{◌≡◌, ◌<◌, IfOk, OnOk, replicate};
ghost use Rattle.desk_data.specs.PlanRows.{row_at};
ghost use Rattle.desk_data.specs.Situation.{legs_of};
ghost use Rattle.desk_data.specs.Valid.{IsPlanFor};
ghost use Rattle.near_moves.specs.MoveParts.{flier};
ghost use Rattle.near_legs.specs.Choices.{IsLegUnit};
ghost use Rattle.near_notes.specs.Notes.{AreNone, IsNotedAt, is_before, is_noted, is_untouched_since};
ghost use Rattle.near_notes.specs.Places.{number_of};

use crate::NumberRows;
use crate::place::{Place, place_of};
use desk_data::{Instance, Leg, NoMem, Plane, Row};
use near_legs::LegUnit;
use plan_pages::Pages;
use std::alloc::Global;

/// How many pairs of a leg and an aircraft a day may have for its units to be noted: beyond these a table could take more
/// than some 310 MB, and nothing is noted.
const MOST_PAIRS: u32 = 8_000_000;

/// Which units were found out, for one kind of reason, and when what they hang on was touched.
pub struct Findings {
    /// For each aircraft the number of the last search after which units that refill its legs may have been touched, 0 where
    /// none was.
    pub planes: Vec<u32>,
    /// For each aircraft the same of its units that refill no leg.
    pub flown: Vec<u32>,
    /// For each leg that of the last search after which it might not be flown again as before.
    pub again: Vec<u32>,
    /// For each unit that of the search that found it out, 0 where none did.
    pub found: NumberRows,
}

/// Dropped in one call, so that a function that owns one proves it once, and not part by part.
impl Drop for Findings {
    fn drop(self) {
        let Findings {
            planes: _,
            flown: _,
            again: _,
            found: _,
        } = self;
    }
}

impl Findings {
    /// Nothing was found or touched yet. The only error is out of memory.
    pub(crate) fn none(alloc: Global, inst: &Instance) -> Result<Findings, NoMem>
        ensures { IfOk result (AreNone inst.now) }
    {
        let planes = zeros(alloc, inst.planes() as usize)?;
        let flown = zeros(alloc, inst.planes() as usize)?;
        let again = zeros(alloc, inst.legs() as usize)?;
        let found = NumberRows::zeros(alloc, rows_of(inst))?;
        Ok(Findings {
            planes,
            flown,
            again,
            found,
        })
    }

    /// Whether a unit was found out after all that it hangs on in a plan was touched.
    pub(crate) fn has(&self, inst: &Instance, plan: &Pages, unit: LegUnit) -> bool
        requires plan { IsPlanFor inst.now plan.now }
        requires unit { IsLegUnit inst.now plan.now unit }
        ensures { result ≡ is_noted plan.now self.now unit }
    {
        let found = self.number_of(unit);
        found != 0 && self.is_untouched_since(inst, plan, unit, found)
    }

    /// The number of the search that found a unit out, 0 where none did.
    fn number_of(&self, unit: LegUnit) -> u32
        ensures { result ≡ number_of self.now.found unit }
    {
        match place_of(unit) {
            Some(there) => self.found.at(there.row, there.column),
            None => 0,
        }
    }

    /// Puts the number of a search at a place, if the table has its row. The only error is out of memory, and then nothing is
    /// promised of the findings.
    pub(crate) fn put(&mut self, there: Place, search: u32) -> Result<(), NoMem>
        ensures { OnOk result (IsNotedAt self.old self.new there search) }
    {
        if self.found.rows() <= there.row {
            return Ok(());
        }
        self.found.put(there.row, there.column, search)
    }

    /// Whether all that a unit hangs on was last touched before a search.
    fn is_untouched_since(&self, inst: &Instance, plan: &Pages, unit: LegUnit, search: u32) -> bool
        requires plan { IsPlanFor inst.now plan.now }
        requires unit { IsLegUnit inst.now plan.now unit }
        ensures { result ≡ is_untouched_since plan.now self.now.planes.items self.now.flown.items self.now.again.items unit search }
    {
        let (planes, flown) = (self.planes.as_slice(), self.flown.as_slice());
        match unit {
            LegUnit::Retimed { leg } => is_flier_before(inst, plan, planes, leg, search),
            LegUnit::Swapped { first, second } => {
                is_below(flown, first.0, search) && is_below(flown, second.0, search)
            }
            LegUnit::Dropped { leg } => is_flier_before(inst, plan, flown, leg, search),
            LegUnit::Restored { leg, plane } => {
                is_below(planes, plane.0, search) && is_below(self.again.as_slice(), leg.0, search)
            }
            LegUnit::Handed { leg, plane, .. } => {
                is_flier_before(inst, plan, flown, leg, search) && is_below(flown, plane.0, search)
            }
        }
    }
}

/// Whether the number of the aircraft that flies a leg is below another one; that of aircraft 0 where none flies it.
fn is_flier_before(_inst: &Instance, plan: &Pages, numbers: &[u32], leg: Leg, search: u32) -> bool
    requires plan { IsPlanFor _inst.now plan.now }
    requires leg { leg.0 < legs_of _inst.now }
    ensures { result ≡ is_before numbers.now (flier (row_at plan.now leg.0)) search }
{
    match plan.read_row(leg) {
        Row::Flown { plane, .. } => is_below(numbers, plane.0, search),
        Row::Cancelled => is_below(numbers, Plane(0).0, search),
    }
}

/// Whether the number at a place, 0 past the end, is below another one.
fn is_below(numbers: &[u32], place: u32, number: u32) -> bool
    ensures { result ≡ is_before numbers.now place number }
{
    match numbers.get(place as usize) {
        Some(last) => *last < number,
        None => 0 < number,
    }
}

/// How many rows the table has: eight for each leg and each aircraft, and none on a day with too many pairs of these.
fn rows_of(inst: &Instance) -> usize {
    let (legs, planes) = (inst.legs(), inst.planes());
    if legs > MOST_PAIRS / planes.max(1) {
        0
    } else {
        8 * planes.max(legs) as usize
    }
}

/// So many times 0.
fn zeros(alloc: Global, count: usize) -> Result<Vec<u32>, NoMem>
    ensures { IfOk result (λ none. none.items ≡ replicate count 0) }
{
    Ok(vec![in alloc; 0; count]?)
}
