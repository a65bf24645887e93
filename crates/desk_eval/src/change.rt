//! Changes of a plan and its boards, and what they replaced.

ghost use Rattle.std.specs.Prelude.{◌≡◌, ◌+◌, ◌*◌, ◌<◌, ◌≤◌, length, IfOk, OnOk, OnErr};
ghost use Rattle.desk_data.specs.Situation.{legs_of, planes_of, reservations_of, res_at};
ghost use Rattle.desk_data.specs.PlanRows.{AreGroups, groups_at, with_row, with_groups};
ghost use Rattle.desk_data.specs.Valid.{IsRowOf, AreGroupsOf, IsPlanFor};
ghost use Rattle.board_kit.specs.Users.{users};
ghost use Rattle.plan_pages.specs.Pages.{IsPageOf, with_page};
ghost use Rattle.board_kit.specs.Boards.{IsReady, IsChanged, IsUnchanged};
ghost use Rattle.desk_eval.specs.Boards.{AreBoardsOf};

use crate::boards::AllBoards;
use board_kit::Board;
use desk_data::{Group, Instance, Leg, NoMem, Res, Row, Steps};
use plan_pages::{Page, Pages};
use std::alloc::Global;
use std::sync::ledger::Ledger;

/// Gives a leg another row, in the plan and on its boards, and hands out the page that stood. After an error
/// the plan is as before, and the boards are still those of it.
pub(crate) fn change_row<L: Ledger>(
    alloc: Global,
    inst: &Instance,
    pages: &mut Pages,
    boards: &mut AllBoards,
    leg: Leg,
    row: Row,
    steps: &mut Steps<L>,
) -> Result<Page, NoMem>
    requires plan { IsPlanFor inst.now pages.old }
    requires leg { leg.0 < legs_of inst.now }
    requires row { IsRowOf (planes_of inst.now) row }
    requires ready { IsReady (AreBoardsOf inst.now pages.old) boards.old }
    ensures rows { OnOk result (pages.new ≡ with_row pages.old leg.0 row) }
    ensures back { IfOk result (λ page. with_page pages.new page ≡ pages.old) }
    ensures place { IfOk result (λ page. IsPageOf pages.new page) }
    ensures ok { OnOk result (IsChanged AreBoardsOf inst.now pages.old (with_row pages.old leg.0 row) boards.old boards.new) }
    ensures kept { OnErr result (pages.new ≡ pages.old) }
    ensures err { OnErr result (IsUnchanged AreBoardsOf inst.now pages.old boards.old boards.new) }
    ensures reads { steps.new ≤ steps.old + 36 + 20 * users pages.old leg.0 }
{
    boards.set_row(alloc, inst, &*pages, leg, row, steps)?;
    match pages.replace_row(alloc, leg, row) {
        Ok(page) => Ok(page),
        Err(error) => {
            boards.back();
            Err(error)
        }
    }
}

/// Gives a reservation other groups, in the plan and on its boards, and hands out the page that stood. After
/// an error the plan is as before, and the boards are still those of it.
pub(crate) fn change_groups<L: Ledger>(
    alloc: Global,
    inst: &Instance,
    pages: &mut Pages,
    boards: &mut AllBoards,
    res: Res,
    groups: Vec<Group>,
    steps: &mut Steps<L>,
) -> Result<Page, NoMem>
    requires plan { IsPlanFor inst.now pages.old }
    requires res { res.0 < reservations_of inst.now }
    requires groups { AreGroups groups.items }
    requires passengers { AreGroupsOf (legs_of inst.now) (res_at inst.now res.0).count groups.items }
    requires ready { IsReady (AreBoardsOf inst.now pages.old) boards.old }
    ensures rows { OnOk result (pages.new ≡ with_groups pages.old res.0 groups.items) }
    ensures back { IfOk result (λ page. with_page pages.new page ≡ pages.old) }
    ensures place { IfOk result (λ page. IsPageOf pages.new page) }
    ensures ok { OnOk result (IsChanged AreBoardsOf inst.now pages.old (with_groups pages.old res.0 groups.items) boards.old boards.new) }
    ensures kept { OnErr result (pages.new ≡ pages.old) }
    ensures err { OnErr result (IsUnchanged AreBoardsOf inst.now pages.old boards.old boards.new) }
    ensures reads { steps.new ≤ steps.old + 20 * (length (groups_at pages.old res.0) + length groups.items) }
{
    boards.set_groups(alloc, inst, &*pages, res, groups.as_slice(), steps)?;
    match pages.replace_groups(alloc, res, groups) {
        Ok(page) => Ok(page),
        Err(error) => {
            boards.back();
            Err(error)
        }
    }
}
