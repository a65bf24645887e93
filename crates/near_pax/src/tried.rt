//! Paths that are tried, one by one.

ghost use Rattle.std.specs.Prelude.{◌≡◌, ◌<◌, ◌≤◌, ◌++◌, ◌∷◌, [], IfOk, OnOk, length};
ghost use Rattle.desk_data.specs.Situation.{legs_of, reservations_of};
ghost use Rattle.desk_data.specs.Valid.{IsPathOf, IsPlanFor};
ghost use Rattle.near_moves.specs.Routes.{is_route};
ghost use Rattle.near_moves.specs.RouteParts.{scheduled_route, stands_among};
ghost use Rattle.near_pax.specs.Start.{IsStemPath};
ghost use Rattle.near_pax.specs.Tried.{new_routes};

use crate::start::Outset;
use desk_data::{Cabin, Instance, Leg, List, NoMem, Path, Res, same_path};
use plan_pages::Pages;
use plan_reads::{is_carried, is_fit_path};
use std::alloc::Global;

/// The scheduled path, where it is a route, and nothing else.
pub(crate) fn scheduled_route(
    alloc: Global,
    inst: &Instance,
    plan: &Pages,
    res: Res,
) -> Result<Vec<Path>, NoMem>
    requires plan { IsPlanFor inst.now plan.now }
    requires res { res.0 < reservations_of inst.now }
    ensures { IfOk result (λ routes. routes.items ≡ scheduled_route inst.now plan.now res.0) }
{
    let mut routes = Vec::new(alloc);
    let path = &inst.res(res).path;
    if is_route(inst, plan, res, path) {
        routes.push(path.copy(alloc)?)?;
    }
    Ok(routes)
}

/// Takes the path that is a stem and some legs after it, where it is a route that is not told yet.
pub(crate) fn take_after(
    alloc: Global,
    inst: &Instance,
    plan: &Pages,
    outset: &Outset,
    more: &[(Leg, Cabin)],
    found: &mut Vec<Path>,
) -> Result<(), NoMem>
    requires plan { IsPlanFor inst.now plan.now }
    requires res { outset.now.res.0 < reservations_of inst.now }
    requires stem { IsStemPath inst.now outset.now.stem.now }
    requires more { IsPathOf (legs_of inst.now) more.now }
    requires few { length more.now ≤ 2 }
    ensures { OnOk result (found.new.items ≡ found.old.items ++ new_routes inst.now plan.now outset.now.res.0 outset.now.told.now ((outset.now.stem.now ++ more.now) ∷ [])) }
{
    let path = joined(alloc, outset.stem, more)?;
    if is_route(inst, plan, outset.res, &path) && !stands_among(outset.told, &path) {
        found.push(path)?;
    }
    Ok(())
}

/// Two paths, the second after the first.
fn joined(alloc: Global, first: &[(Leg, Cabin)], second: &[(Leg, Cabin)]) -> Result<Path, NoMem>
    requires first { length first.now ≤ 8 }
    requires second { length second.now ≤ 2 }
    ensures { IfOk result (λ path. path ≡ first.now ++ second.now) }
{
    let mut legs = Vec::with_capacity(alloc, first.len() + second.len())?;
    legs.extend_from_slice(first)?;
    legs.extend_from_slice(second)?;
    Ok(Path { legs: List(legs) })
}

/// Whether a path stands among some paths.
fn stands_among(paths: &[Path], path: &Path) -> bool
    ensures { result ≡ stands_among paths.now path.now }
{
    paths
        .iter()
        .any(|other| same_path(other.as_slice(), path.as_slice()))
}

/// Whether a path is a route: it has 1 to 8 legs, and meets C13, C14 and C15.
#[tactic(auto, unfolding(near_moves::specs::Routes::is_route))]
fn is_route(inst: &Instance, plan: &Pages, res: Res, path: &Path) -> bool
    requires plan { IsPlanFor inst.now plan.now }
    requires res { res.0 < reservations_of inst.now }
    requires path { IsPathOf (legs_of inst.now) path.now }
    ensures { result ≡ is_route inst.now plan.now res.0 path.now }
{
    let pairs = path.as_slice();
    is_carried(pairs) && (pairs.len() <= 8 && is_fit_path(inst, plan, res, path))
}
