//! The evaluator.

ghost use Rattle.std.specs.Prelude.{◌≡◌, ◌+◌, ◌<◌, ◌≤◌, [], ◌∷◌, length, map, filter, not, All, IfOk, OnOk, OnErr};
ghost use Rattle.std.specs.Arc.{arc_value};
ghost use Rattle.desk_eval.specs.Asked.{AreBooked};

use crate::boards::Boards;
use crate::change::{change_groups, change_row};
use board_kit::{Board, LegUsers, SlotBoard};
use desk_data::{
    Airport, Broken, Cabin, Grains, Group, Instance, Leg, NoMem, Plan, Plane, Res, Row, Steps,
};
use hour_counts::KnowsHours;
use plan_pages::{Page, Pages, copied_groups};
use plan_reads::KnowsAboard;
use std::alloc::Global;
use std::marker::Model;
use std::sync::Arc;
use std::sync::ledger::Ledger;

/// A plan that changes place by place. At each moment it knows the first item that the plan breaks
/// and what the plan costs, as a check and a cost from scratch would say. It keeps its past, the
/// plans before each change, so that changes are taken back. Contracts see it as the instance, the
/// plan's rows and groups, and those of its past, the last first.
pub struct Evaluator {
    inst: Instance,
    pages: Pages,
    boards: Boards,
    /// Who is booked on each leg, which is that of the day: all its evaluators may share it.
    booked: Arc<LegUsers>,
    /// The pages that each change since the past was last empty took from the plan.
    past: Vec<Page>,
}

/// Dropped in one call, so that a function that owns one proves it once, and not part by part.
impl Drop for Evaluator {
    fn drop(self) {
        let Evaluator {
            inst: _,
            pages: _,
            boards: _,
            booked: _,
            past: _,
        } = self;
    }
}

impl Model for Evaluator {
    ghost use Rattle.std.specs.Prelude.{reverse};
    ghost use Rattle.desk_eval.specs.Asked.{AreBooked};
    ghost use Rattle.desk_eval.specs.Evaluated.{Evaluated};
    ghost use Rattle.desk_eval.specs.Past.{plans_before, IsEvaluator};
    ghost use Rattle.std.specs.Arc.{arc_value};

    ghost Value = { Evaluated };

    ghost view = { λ e. record { inst = e.inst; rows = e.pages; past = plans_before e.pages (reverse e.past.items) } };

    ghost invariant = { λ e. IsEvaluator e.inst e.pages e.boards.all e.past.items × AreBooked e.inst (arc_value e.booked) };
}

impl Evaluator {
    ghost use Rattle.desk_data.specs.Situation.{legs_of, planes_of, reservations_of, res_at};
    ghost use Rattle.desk_data.specs.PlanRows.{AreGroups, row_at, groups_at, with_row, with_groups};
    ghost use Rattle.desk_data.specs.Valid.{IsRowOf, AreGroupsOf, IsPlanFor};
    ghost use Rattle.desk_rules.specs.Least.{least};
    ghost use Rattle.desk_rules.specs.Cost.{cost, grains};
    ghost use Rattle.desk_rules.specs.Numbers.{numbers};
    ghost use Rattle.desk_model.specs.Push.{rotation};
    ghost use Rattle.desk_eval.specs.Asked.{keeps_paths};
    ghost use Rattle.std.specs.Prelude.{List as Items};
    ghost use Rattle.desk_data.specs.PlanRows.{PlanRows};
    ghost use Rattle.board_kit.specs.Board.{IsBoardOf};
    ghost use Rattle.board_kit.specs.Users.{is_booked_on};
    ghost use Rattle.desk_eval.specs.Boards.{AreBoardsOf};
    ghost use Rattle.desk_eval.specs.Evaluated.{after_change, row_reads, group_reads};

    /// The evaluator of a plan, with an empty past. The plan is one for the instance. The only error is
    /// out of memory.
    pub fn open(alloc: Global, inst: Instance, plan: &Plan) -> Result<Evaluator, NoMem>
        requires { IsPlanFor inst plan.now }
        ensures { IfOk result (λ opened. opened ≡ record { inst = inst; rows = plan.now; past = [] }) }
    {
        let pages = Pages::of(alloc, plan, inst.reservations())?;
        let booked = booked_of(alloc, &inst)?;
        Evaluator::of_pages(alloc, inst, pages, booked)
    }

    /// The evaluator of a plan that is handed in and whose groups are not copied, with an empty past. The plan is one for
    /// the instance. The only error is out of memory, after which the plan is given up.
    pub fn of_plan(alloc: Global, inst: Instance, plan: Plan) -> Result<Evaluator, NoMem>
        requires { IsPlanFor inst plan }
        ensures { IfOk result (λ opened. opened ≡ record { inst = inst; rows = plan; past = [] }) }
    {
        let pages = Pages::from_plan(alloc, plan, inst.reservations())?;
        let booked = booked_of(alloc, &inst)?;
        Evaluator::of_pages(alloc, inst, pages, booked)
    }

    /// The evaluator of another plan of the same day, which may have gone on and have more orders, with an
    /// empty past. The plan is handed in, and one for the instance that is handed in. What depends on the rows
    /// of the day alone is shared, and so are the pages on which both plans have the same. The only error is out of
    /// memory, told where too many share a page or the day, too; after it the plan is given up.
    pub fn of_same_day(&self, alloc: Global, inst: Instance, plan: Plan) -> Result<Evaluator, NoMem>
        requires day { inst.parts ≡ self.now.inst.parts }
        requires plan { IsPlanFor inst plan }
        ensures { IfOk result (λ opened. opened ≡ record { inst = inst; rows = plan; past = [] }) }
    {
        let pages = self.pages.with_plan(alloc, &inst, plan)?;
        let booked = self.booked.clone()?;
        Evaluator::of_pages(alloc, inst, pages, booked)
    }

    /// The evaluator of the plan of these pages, with an empty past, given who is booked on each leg.
    fn of_pages(
        alloc: Global,
        inst: Instance,
        pages: Pages,
        booked: Arc<LegUsers>,
    ) -> Result<Evaluator, NoMem>
        requires plan { IsPlanFor inst pages }
        requires booked { AreBooked inst (arc_value booked) }
        ensures { IfOk result (λ opened. opened ≡ record { inst = inst; rows = pages; past = [] }) }
    {
        let boards = Boards::open(alloc, &inst, &pages)?;
        Ok(Evaluator::of_boards(alloc, inst, pages, boards, booked))
    }

    /// The evaluator of the plan of these pages, with an empty past, given its boards and who is booked on each leg.
    fn of_boards(
        alloc: Global,
        inst: Instance,
        pages: Pages,
        boards: Boards,
        booked: Arc<LegUsers>,
    ) -> Evaluator
        requires plan { IsPlanFor inst pages }
        requires boards { AreBoardsOf inst pages [] boards.all }
        requires booked { AreBooked inst (arc_value booked) }
        ensures { result ≡ record { inst = inst; rows = pages; past = [] } }
    {
        Evaluator {
            inst,
            pages,
            boards,
            booked,
            past: Vec::new(alloc),
        }
    }

    /// The instance, which no change of the plan touches.
    pub fn instance(&self) -> &Instance
        ensures { result.now ≡ self.now.inst }
    {
        &self.inst
    }

    /// The plan as it stands.
    pub fn plan(&self) -> &Pages
        ensures rows { result.now ≡ self.now.rows }
        ensures valid { IsPlanFor self.now.inst result.now }
    {
        &self.pages
    }

    /// What the plan costs.
    pub fn cost(&self) -> Grains
        ensures { result ≡ grains (cost self.now.inst self.now.rows) }
    {
        self.boards.cost()
    }

    /// The first item that the plan breaks, by rule and then by what the items name, or `None` where
    /// it is feasible.
    pub fn least_broken(&self) -> Option<Broken>
        ensures { result ≡ least self.now.inst self.now.rows }
    {
        self.boards.least()
    }

    /// How many changes can be taken back: the length of the past, at most 2,000,000,000.
    pub fn depth(&self) -> u32
        ensures length { result ≡ length self.now.past }
        ensures limit { result ≤ 2000000000 }
    {
        self.past.len() as u32
    }

    /// Gives a leg another row, and answers the one that it had. The past, which has fewer than
    /// 2,000,000,000 changes, grows by one. Of the plan it and its boards read under `steps` at most 40
    /// rows, and 20 for each group whose path has the leg. After an error, which is out of memory, the
    /// evaluator is as before.
    pub fn set_row<L: Ledger>(
        &mut self,
        alloc: Global,
        leg: Leg,
        row: Row,
        steps: &mut Steps<L>,
    ) -> Result<Row, NoMem>
        requires leg { leg.0 < legs_of self.old.inst }
        requires row { IsRowOf (planes_of self.old.inst) row }
        requires depth { length self.old.past < 2000000000 }
        ensures answer { IfOk result (λ had. had ≡ row_at self.old.rows leg.0) }
        ensures ok { OnOk result (self.new ≡ after_change self.old (with_row self.old.rows leg.0 row)) }
        ensures err { OnErr result (self.new ≡ self.old) }
        ensures reads { steps.new ≤ steps.old + row_reads self.old.rows leg.0 }
    {
        let had = self.pages.row(leg, steps);
        self.past.reserve(1)?;
        let page = change_row(
            alloc,
            &self.inst,
            &mut self.pages,
            &mut self.boards.all,
            leg,
            row,
            steps,
        )?;
        // there is room: it was reserved above
        let _pushed = self.past.push(page);
        Ok(had)
    }

    /// Gives a reservation other groups, and answers those that it had. The past, which has fewer than
    /// 2,000,000,000 changes, grows by one. Of the plan it and its boards read under `steps` at most 20
    /// rows for each of the groups before and after. After an error, which is out of memory, the evaluator
    /// is as before, and the groups handed in are given up.
    pub fn set_groups<L: Ledger>(
        &mut self,
        alloc: Global,
        res: Res,
        groups: Vec<Group>,
        steps: &mut Steps<L>,
    ) -> Result<Vec<Group>, NoMem>
        requires res { res.0 < reservations_of self.old.inst }
        requires groups { AreGroups groups.items }
        requires passengers { AreGroupsOf (legs_of self.old.inst) (res_at self.old.inst res.0).count groups.items }
        requires depth { length self.old.past < 2000000000 }
        ensures answer { IfOk result (λ had. had.items ≡ groups_at self.old.rows res.0) }
        ensures ok { OnOk result (self.new ≡ after_change self.old (with_groups self.old.rows res.0 groups.items)) }
        ensures err { OnErr result (self.new ≡ self.old) }
        ensures reads { steps.new ≤ steps.old + group_reads (groups_at self.old.rows res.0) groups.items }
    {
        let had = copied_groups(alloc, self.pages.groups(res))?;
        self.past.reserve(1)?;
        let page = change_groups(
            alloc,
            &self.inst,
            &mut self.pages,
            &mut self.boards.all,
            res,
            groups,
            steps,
        )?;
        // there is room: it was reserved above
        let _pushed = self.past.push(page);
        Ok(had)
    }

    /// An evaluator of the same instance and plan, with an empty past. The pages of the plan are shared and the
    /// boards are copied as they stand, so that nothing is judged and no row is read. The only error is out of
    /// memory, told where too many share a page or the day, too.
    pub fn copy(&self, alloc: Global) -> Result<Evaluator, NoMem>
        ensures { IfOk result (λ copy. copy ≡ record self.now { past = [] }) }
    {
        let inst = self.inst.copy()?;
        let pages = self.pages.share(alloc)?;
        let boards = self.boards.copy(alloc)?;
        let booked = self.booked.clone()?;
        Ok(Evaluator::of_boards(alloc, inst, pages, boards, booked))
    }

    /// Takes the last change back: the plan and the past are those from before it. The past is not
    /// empty. It takes no memory.
    pub fn back(&mut self)
        requires { 0 < length self.old.past }
        ensures plan { self.new.rows ∷ self.new.past ≡ self.old.past }
        ensures inst { self.new.inst ≡ self.old.inst }
    {
        if let Some(page) = self.past.pop() {
            self.boards.all.back();
            self.pages.put_back(page);
        }
    }

    /// Empties the past, so that what was changed is not taken back any more. All else stays. It
    /// takes no memory.
    pub fn forget(&mut self)
        ensures { self.new ≡ record self.old { past = [] } }
    {
        self.boards.all.forget();
        self.past.clear();
    }

    /// How many legs take each slot of the plan.
    pub fn slots(&self) -> &SlotBoard
        ensures { (Ps : Items PlanRows) × IsBoardOf self.now.inst self.now.rows Ps result.now }
    {
        self.boards.slots()
    }

    /// The legs that an aircraft flies, in their order. No others are walked over. The only error is out of
    /// memory.
    pub fn rotation(&self, alloc: Global, plane: Plane) -> Result<Vec<Leg>, NoMem>
        requires { plane.0 < planes_of self.now.inst }
        ensures order { IfOk result (λ legs. map (λ leg. leg.0) legs.items ≡ rotation self.now.inst self.now.rows plane.0) }
        ensures within { IfOk result (λ legs. All (λ leg. leg.0 < legs_of self.now.inst) legs.items) }
    {
        self.boards.rotation(alloc, plane)
    }

    /// The reservations that break C13, C14 or C15, ascending by number. No others are walked over, and no row
    /// of the plan is read. The only error is out of memory.
    pub fn broken_reservations(&self, alloc: Global) -> Result<Vec<Res>, NoMem>
        ensures { IfOk result (λ all. map (λ res. res.0) all.items ≡ filter (λ r. not (keeps_paths self.now.inst self.now.rows r)) (numbers (reservations_of self.now.inst))) }
    {
        self.boards.broken_reservations(alloc)
    }

    /// The reservations whose scheduled path has a leg, ascending by number. No others are walked over. The only
    /// error is out of memory.
    pub fn booked_on(&self, alloc: Global, leg: Leg) -> Result<Vec<Res>, NoMem>
        requires { leg.0 < legs_of self.now.inst }
        ensures { IfOk result (λ all. map (λ res. res.0) all.items ≡ filter (is_booked_on self.now.inst leg.0) (numbers (reservations_of self.now.inst))) }
    {
        Ok(self.booked.users(leg).to_vec(alloc)?)
    }
}

/// Who is booked on each leg of a day.
fn booked_of(alloc: Global, inst: &Instance) -> Result<Arc<LegUsers>, NoMem>
    ensures { IfOk result (λ booked. AreBooked inst.now (arc_value booked)) }
{
    let booked = LegUsers::booked(alloc, inst)?;
    Ok(Arc::new(alloc, booked)?)
}

/// An evaluator knows the hours of its plan, with no walk.
impl KnowsHours for Evaluator {
    ghost use Rattle.std.specs.Prelude.{◌≡◌};

    ghost knows = { λ e I Q. (I ≡ e.inst) × (Q ≡ e.rows) };

    fn departures_beside(
        &self,
        inst: &Instance,
        leg: Leg,
        row: Row,
        airport: Airport,
        hour: u32,
    ) -> u32 {
        let slots = self.boards.slots();
        slots.departures_beside(inst, leg, row, airport, hour)
    }

    fn arrivals_beside(
        &self,
        inst: &Instance,
        leg: Leg,
        row: Row,
        airport: Airport,
        hour: u32,
    ) -> u32 {
        let slots = self.boards.slots();
        slots.arrivals_beside(inst, leg, row, airport, hour)
    }
}

/// An evaluator knows how many are aboard in its plan, with no walk.
impl KnowsAboard for Evaluator {
    ghost use Rattle.std.specs.Prelude.{◌≡◌};

    ghost knows = { λ e Q. Q ≡ e.rows };

    fn aboard(&self, leg: Leg, cabin: Cabin) -> u32 {
        if leg.0 < self.inst.legs() {
            self.boards.seats().aboard(leg, cabin)
        } else {
            0
        }
    }
}
