//! One call on one of several plans, which may share pages, and the law that the others stay as they were, whatever was
//! done before, and in whatever order.

ghost use Rattle.std.specs.Prelude.{◌≡◌, ℕ, ◌<◌, List as Items, length, IfOk, OnOk, OnErr};
ghost use Rattle.desk_data.specs.PlanRows.{PlanRows, IsRow, AreGroups, with_row, with_groups};
ghost use Rattle.plan_pages.specs.Pages.{with_page, IsPageOf};
ghost use Rattle.plan_pages.specs.Versions.{AllLeaveAlone, VersionChange, after_version_change, after_version_changes, dropped, place_after_all, replaced, shared, version_at};

use crate::page::Page;
use crate::pages::Pages;
use desk_data::{Group, Leg, NoMem, Res, Row};
use std::alloc::Global;

/// One version more, which shares the pages of another, and stands last. All versions stay, after an error too, which is
/// out of memory, told where too many share a page, too.
pub fn share_version(alloc: Global, versions: &mut Vec<Pages>, which: usize) -> Result<(), NoMem>
    requires { which < length versions.old.items }
    ensures ok { OnOk result (versions.new.items ≡ after_version_change versions.old.items (shared which)) }
    ensures err { OnErr result (versions.new.items ≡ versions.old.items) }
{
    let shared = versions[which].share(alloc)?;
    versions.push(shared)?;
    Ok(())
}

/// Gives a leg another row in one version; where it is flown, it departs before minute 52,500,000. All others stay, and
/// all stay after an error, which is out of memory.
pub fn change_row_of(
    alloc: Global,
    versions: &mut [Pages],
    which: usize,
    leg: Leg,
    row: Row,
) -> Result<Page, NoMem>
    requires which { which < length versions.old }
    requires leg { leg.0 < length (version_at versions.old which).rows }
    requires row { IsRow row }
    ensures ok { OnOk result (versions.new ≡ after_version_change versions.old (replaced which (with_row (version_at versions.old which) leg.0 row))) }
    ensures back { IfOk result (λ page. with_page (version_at versions.new which) page ≡ version_at versions.old which) }
    ensures place { IfOk result (λ page. IsPageOf (version_at versions.new which) page) }
    ensures err { OnErr result (versions.new ≡ versions.old) }
{
    versions[which].replace_row(alloc, leg, row)
}

/// Gives a reservation other groups in one version. All others stay, and all stay after an error, which is out
/// of memory, told where too many share the groups of a reservation, too, and after which the groups are given up.
pub fn change_groups_of(
    alloc: Global,
    versions: &mut [Pages],
    which: usize,
    res: Res,
    groups: Vec<Group>,
) -> Result<Page, NoMem>
    requires which { which < length versions.old }
    requires res { res.0 < length (version_at versions.old which).groups }
    requires groups { AreGroups groups.items }
    ensures ok { OnOk result (versions.new ≡ after_version_change versions.old (replaced which (with_groups (version_at versions.old which) res.0 groups.items))) }
    ensures back { IfOk result (λ page. with_page (version_at versions.new which) page ≡ version_at versions.old which) }
    ensures place { IfOk result (λ page. IsPageOf (version_at versions.new which) page) }
    ensures err { OnErr result (versions.new ≡ versions.old) }
{
    versions[which].replace_groups(alloc, res, groups)
}

/// Puts a page back in one version. All others stay.
pub fn put_back_in(versions: &mut [Pages], which: usize, page: Page)
    requires which { which < length versions.old }
    requires page { IsPageOf (version_at versions.old which) page }
    ensures { versions.new ≡ after_version_change versions.old (replaced which (with_page (version_at versions.old which) page)) }
{
    versions[which].put_back(page);
}

/// Drops one version. All others stay, those after it one place further to the front.
pub fn drop_version(versions: &mut Vec<Pages>, which: usize)
    requires { which < length versions.old.items }
    ensures { versions.new.items ≡ after_version_change versions.old.items (dropped which) }
{
    let _dropped = versions.remove(which);
}

/// A version stays as it was, whatever is done with the others, and in whatever order: shared copies that are made of it
/// or of them, versions that are dropped, and rows, groups and pages that become others.
pub fn a_version_stays_whatever_is_done_with_others()
    ensures { (versions : Items PlanRows) (changes : Items VersionChange) (k : ℕ) → k < length versions → AllLeaveAlone k changes → version_at (after_version_changes versions changes) (place_after_all k changes) ≡ version_at versions k }
{}
