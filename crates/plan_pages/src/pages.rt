//! Pages: a plan that can be shared.

ghost use Rattle.std.specs.Prelude.{◌≡◌, ◌+◌, ◌<◌, [], map, length, IfOk, OnOk, OnErr};
ghost use Rattle.desk_data.specs.PlanRows.{IsRow, AreGroups, IsSound, row_at, groups_at, with_row, with_groups};
ghost use Rattle.desk_data.specs.Situation.{legs_of, reservations_of};
ghost use Rattle.desk_data.specs.Valid.{IsPlanFor};
ghost use Rattle.plan_pages.specs.Pages.{with_page, IsPageOf};

use crate::changed::{put_groups, put_rows};
use crate::page::{Page, What};
use desk_data::{Group, Instance, Leg, NoMem, Plan, Res, Row, Steps};
use paged_list::{PagedList, SharedItems};
use plan_reads::ReadPlan;
use std::alloc::Global;
use std::marker::Model;
use std::sync::ledger::Ledger;

/// A plan whose pages can be shared. Contracts see it as its rows and its groups, as a `Plan`. Pages that are
/// shared are in memory once; a change of one of two plans that share a page leaves the other as it was, since
/// it makes the page anew.
#[derive(Drop)]
pub struct Pages {
    rows: PagedList<Row>,
    /// The groups of each reservation, which a page points to: to make a page anew copies no group.
    groups: PagedList<SharedItems<Group>>,
}

impl Model for Pages {
    ghost use Rattle.desk_data.specs.PlanRows.{PlanRows, IsSound};

    ghost Value = { PlanRows };

    ghost view = { λ p. record { rows = p.rows; groups = p.groups } };

    ghost invariant = { λ p. IsSound (record { rows = p.rows; groups = p.groups }) };
}

impl Pages {
    /// The pages of an equal plan, which has groups for so many reservations. The only error is out of memory.
    pub fn of(alloc: Global, plan: &Plan, reservations: u32) -> Result<Pages, NoMem>
        requires { reservations ≡ length plan.now.groups }
        ensures { IfOk result (λ pages. pages ≡ plan.now) }
    {
        Pages::from_plan(alloc, plan.copy(alloc)?, reservations)
    }

    /// The pages of a plan that is handed in, and whose groups are not copied: it has groups for so many
    /// reservations. The only error is out of memory, after which the plan is given up.
    pub fn from_plan(alloc: Global, plan: Plan, reservations: u32) -> Result<Pages, NoMem>
        requires { reservations ≡ length plan.groups }
        ensures { IfOk result (λ pages. pages ≡ plan) }
    {
        let rows = PagedList::of(alloc, plan.rows())?;
        let groups = shared_groups(alloc, plan, reservations)?;
        let groups = PagedList::of(alloc, groups.as_slice())?;
        Ok(Pages { rows, groups })
    }

    /// Equal pages, which are the same ones in memory. No row and no group is copied. The only error is out of
    /// memory; that too many share a page already is told as that.
    pub fn share(&self, alloc: Global) -> Result<Pages, NoMem>
        ensures { IfOk result (λ shared. shared ≡ self.now) }
    {
        let rows = self.rows.share(alloc)?;
        let groups = self.groups.share(alloc)?;
        Ok(Pages { rows, groups })
    }

    /// The pages of another plan of the day, which is handed in. A page on which both plans have the same is shared, and
    /// so are the groups of each reservation that has the same in both; no group is copied. The only error is out of memory,
    /// told where too many share a page, too; after it the plan is given up.
    pub fn with_plan(&self, alloc: Global, inst: &Instance, plan: Plan) -> Result<Pages, NoMem>
        requires legs { length self.now.rows ≡ legs_of inst.now }
        requires reservations { length self.now.groups ≡ reservations_of inst.now }
        requires plan { IsPlanFor inst.now plan }
        ensures { IfOk result (λ pages. pages ≡ plan) }
    {
        let mut pages = self.share(alloc)?;
        put_rows(alloc, &mut pages, &plan, inst.legs())?;
        put_groups(alloc, &mut pages, plan, inst.reservations())?;
        Ok(pages)
    }

    /// An equal plan. The only error is out of memory, told where too many share a page, too.
    pub fn to_plan(&self, alloc: Global) -> Result<Plan, NoMem>
        ensures { IfOk result (λ plan. plan ≡ self.now) }
    {
        let rows = self.rows.to_vec(alloc)?;
        let shared = self.groups.to_vec(alloc)?;
        let groups = copies_of_all_groups(alloc, shared.as_slice())?;
        Ok(Plan::of(rows, groups))
    }

    /// The row of a leg. Counts one step.
    pub fn row<L: Ledger>(&self, leg: Leg, steps: &mut Steps<L>) -> Row
        requires { leg.0 < length self.now.rows }
        ensures row { result ≡ row_at self.now leg.0 }
        ensures departs { IsRow result }
        ensures steps { steps.new ≡ steps.old + 1 }
    {
        steps.tick();
        self.read_row(leg)
    }

    /// The row of a leg, for code that counts no steps.
    pub fn read_row(&self, leg: Leg) -> Row
        requires { leg.0 < length self.now.rows }
        ensures row { result ≡ row_at self.now leg.0 }
        ensures departs { IsRow result }
    {
        *self.rows.at(leg.0)
    }

    /// The groups of a reservation, ascending by path.
    pub fn groups(&self, res: Res) -> &[Group]
        requires { res.0 < length self.now.groups }
        ensures groups { result.now ≡ groups_at self.now res.0 }
        ensures sound { AreGroups result.now }
    {
        self.groups.at(res.0).as_slice()
    }

    /// Gives a leg another row, which departs before minute 52,500,000 where it is flown, and hands out what stood, for
    /// `put_back`. All else stays. The only error is out of memory, and after it nothing has changed.
    #[tactic(auto, unfolding(crate::specs::Pages::with_page, crate::specs::Pages::IsPageOf))]
    pub fn replace_row(&mut self, alloc: Global, leg: Leg, row: Row) -> Result<Page, NoMem>
        requires leg { leg.0 < length self.old.rows }
        requires row { IsRow row }
        ensures ok { OnOk result (self.new ≡ with_row self.old leg.0 row) }
        ensures back { IfOk result (λ page. with_page self.new page ≡ self.old) }
        ensures place { IfOk result (λ page. IsPageOf self.new page) }
        ensures err { OnErr result (self.new ≡ self.old) }
    {
        let page = self.rows.replace(alloc, leg.0, row)?;
        Ok(Page {
            what: What::Rows(page),
        })
    }

    /// Gives a reservation other groups, and hands out what stood, for `put_back`. All else stays. The only
    /// error is out of memory, told where too many share the groups of a reservation, too; after it nothing has changed but
    /// that the groups are given up.
    #[tactic(auto, unfolding(crate::specs::Pages::with_page, crate::specs::Pages::IsPageOf))]
    pub fn replace_groups(
        &mut self,
        alloc: Global,
        res: Res,
        groups: Vec<Group>,
    ) -> Result<Page, NoMem>
        requires res { res.0 < length self.old.groups }
        requires groups { AreGroups groups.items }
        ensures ok { OnOk result (self.new ≡ with_groups self.old res.0 groups.items) }
        ensures back { IfOk result (λ page. with_page self.new page ≡ self.old) }
        ensures place { IfOk result (λ page. IsPageOf self.new page) }
        ensures err { OnErr result (self.new ≡ self.old) }
    {
        let groups = SharedItems::of(alloc, groups)?;
        let page = self.groups.replace(alloc, res.0, groups)?;
        Ok(Page {
            what: What::Groups(page),
        })
    }

    /// Puts back what stood before a change, in the plan as it stood right after that. It takes no memory.
    #[tactic(auto, unfolding(crate::specs::Pages::with_page, crate::specs::Pages::IsPageOf))]
    pub fn put_back(&mut self, page: Page)
        requires { IsPageOf self.old page }
        ensures { self.new ≡ with_page self.old page }
    {
        match page.what {
            What::Rows(page) => self.rows.put_back(page),
            What::Groups(page) => self.groups.put_back(page),
        }
    }
}

impl ReadPlan for Pages {
    ghost plan_of = { λ pages. pages };

    fn read_row(&self, leg: Leg) -> Row {
        Pages::read_row(self, leg)
    }

    fn groups(&self, res: Res) -> &[Group] {
        Pages::groups(self, res)
    }
}

/// The groups of a plan, of so many reservations, which can be shared from now on. None is copied.
fn shared_groups(
    alloc: Global,
    plan: Plan,
    reservations: u32,
) -> Result<Vec<SharedItems<Group>>, NoMem>
    requires { reservations ≡ length plan.groups }
    ensures { IfOk result (λ shared. shared.items ≡ plan.groups) }
{
    let mut left = plan;
    let mut shared = Vec::with_capacity(alloc, reservations as usize)?;
    for r in 0..reservations {
        let groups = taken_groups(alloc, &mut left, Res(r));
        shared.push(SharedItems::of(alloc, groups)?)?;
    }
    Ok(shared)
}

/// The groups of a reservation, which are taken out of a plan; none are left in their place.
pub(crate) fn taken_groups(alloc: Global, plan: &mut Plan, res: Res) -> Vec<Group>
    requires { res.0 < length plan.old.groups }
    ensures taken { result.items ≡ groups_at plan.old res.0 }
    ensures left { plan.new ≡ with_groups plan.old res.0 [] }
{
    let mut groups = Vec::new(alloc);
    plan.swap_groups(res, &mut groups);
    groups
}

/// Equal groups, of each reservation.
fn copies_of_all_groups(
    alloc: Global,
    shared: &[SharedItems<Group>],
) -> Result<Vec<Vec<Group>>, NoMem>
    ensures { IfOk result (λ copies. map (λ copy. copy.items) copies.items ≡ shared.now) }
{
    let mut copies = Vec::with_capacity(alloc, shared.len())?;
    for groups in shared {
        copies.push(copied_groups(alloc, groups.as_slice())?)?;
    }
    Ok(copies)
}

/// Equal groups of one reservation. The only error is out of memory.
pub fn copied_groups(alloc: Global, groups: &[Group]) -> Result<Vec<Group>, NoMem>
    ensures { IfOk result (λ copy. copy.items ≡ groups.now) }
{
    let mut copy = Vec::with_capacity(alloc, groups.len())?;
    for group in groups {
        copy.push(Group {
            count: group.count,
            path: group.path.copy(alloc)?,
        })?;
    }
    Ok(copy)
}
