//! The moves that take passengers off a path.

ghost use Rattle.std.specs.Prelude.{◌≡◌, ◌<◌, ◌≤◌, IfOk, IfErr, OnErr, filter, length, not};
ghost use Rattle.desk_data.specs.PlanRows.{groups_at, same_path};
ghost use Rattle.desk_data.specs.Situation.{reservations_of};
ghost use Rattle.desk_data.specs.Valid.{IsPlanFor};
ghost use Rattle.near_pax.specs.Flights.{IsNetOf};
ghost use Rattle.near_moves.specs.Near.{move_of, unit_moves};
ghost use Rattle.near_moves.specs.PassengerMoves.{rebooking};
ghost use Rattle.near_pax.specs.Units.{path_at, unit_at};
ghost use Rattle.near_pax.specs.Left.{Gives, IsMade, IsUnit, left_of_unit, left_of_made, other_aims};

use crate::FlightNet;
use crate::counts::portions;
use desk_data::{Cabin, Instance, Leg, List, NoMem, Path, Res, same_path};
use plan_moves::{Move, Step};
use plan_pages::Pages;
use std::alloc::Global;

/// A path with passengers, by its reservation and its place among the groups of that, and what is left of
/// its moves, once they were asked for.
#[derive(Drop)]
pub(crate) struct PaxUnit {
    pub(crate) res: Res,
    pub(crate) place: usize,
    pub(crate) made: Option<Made>,
}

/// Where passengers of a path may go, how many at once, and which of these comes next.
#[derive(Drop)]
pub(crate) struct Made {
    pub(crate) aims: Vec<Path>,
    pub(crate) counts: Vec<u32>,
    pub(crate) aim: usize,
    pub(crate) count: usize,
}

impl PaxUnit {
    /// The next move. Makes the routes of the reservation where this is the first. After an error nothing
    /// has changed.
    pub(crate) fn next(
        &mut self,
        alloc: Global,
        inst: &Instance,
        plan: &Pages,
        net: &FlightNet,
    ) -> Result<Option<Move>, NoMem>
        requires plan { IsPlanFor inst.now plan.now }
        requires net { IsNetOf inst.now plan.now net.now }
        requires unit { IsUnit inst.now plan.now self.old }
        ensures unit { IsUnit inst.now plan.now self.new }
        ensures ok { IfOk result (λ next. Gives next (left_of_unit inst.now plan.now self.old) (left_of_unit inst.now plan.now self.new)) }
        ensures err { OnErr result (left_of_unit inst.now plan.now self.new ≡ left_of_unit inst.now plan.now self.old) }
    {
        let mut made = self.take_made(alloc, inst, plan, net)?;
        let path = &plan.groups(self.res)[self.place].path;
        let next = made.next(alloc, self.res, path);
        self.made = Some(made);
        next
    }

    /// Takes out what was made, or makes it.
    fn take_made(
        &mut self,
        alloc: Global,
        inst: &Instance,
        plan: &Pages,
        net: &FlightNet,
    ) -> Result<Made, NoMem>
        requires plan { IsPlanFor inst.now plan.now }
        requires net { IsNetOf inst.now plan.now net.now }
        requires unit { IsUnit inst.now plan.now self.old }
        ensures made { IfOk result (λ made. IsMade inst.now plan.now self.old.res.0 (path_at plan.now self.old.res.0 self.old.place) made) }
        ensures left { IfOk result (λ made. left_of_unit inst.now plan.now self.old ≡ left_of_made self.old.res.0 (path_at plan.now self.old.res.0 self.old.place) made) }
        ensures res { self.new.res ≡ self.old.res }
        ensures place { self.new.place ≡ self.old.place }
        ensures err { OnErr result (self.new ≡ self.old) }
    {
        match self.made.take() {
            Some(made) => Ok(made),
            None => Made::of(alloc, inst, plan, net, self.res, self.place),
        }
    }
}

impl Made {
    /// What is to be made for a path.
    fn of(
        alloc: Global,
        inst: &Instance,
        plan: &Pages,
        net: &FlightNet,
        res: Res,
        place: usize,
    ) -> Result<Made, NoMem>
        requires plan { IsPlanFor inst.now plan.now }
        requires net { IsNetOf inst.now plan.now net.now }
        requires res { res.0 < reservations_of inst.now }
        requires place { place < length (groups_at plan.now res.0) }
        ensures made { IfOk result (λ made. IsMade inst.now plan.now res.0 (path_at plan.now res.0 place) made) }
        ensures left { IfOk result (λ made. unit_moves inst.now plan.now (unit_at plan.now res.0 place) ≡ left_of_made res.0 (path_at plan.now res.0 place) made) }
    {
        let group = &plan.groups(res)[place];
        let aims = other_aims(alloc, inst, plan, net, res, &group.path)?;
        let counts = portions(alloc, group.count)?;
        Ok(Made {
            aims,
            counts,
            aim: 0,
            count: 0,
        })
    }

    /// The next move off the path.
    fn next(&mut self, alloc: Global, res: Res, path: &Path) -> Result<Option<Move>, NoMem>
        requires { self.old.count < length self.old.counts.items }
        ensures aims { self.new.aims ≡ self.old.aims }
        ensures counts { self.new.counts ≡ self.old.counts }
        ensures within { self.new.count < length self.new.counts.items }
        ensures ok { IfOk result (λ next. Gives next (left_of_made res.0 path.now self.old) (left_of_made res.0 path.now self.new)) }
        ensures err { OnErr result (self.new ≡ self.old) }
    {
        if self.aim >= self.aims.len() {
            return Ok(None);
        }
        let count = self.counts[self.count];
        let next = rebooking(alloc, res, path, &self.aims[self.aim], count)?;
        self.count += 1;
        if self.count == self.counts.len() {
            self.count = 0;
            self.aim += 1;
        }
        Ok(Some(next))
    }
}

/// The move of so many passengers from a path to another.
fn rebooking(alloc: Global, res: Res, path: &Path, aim: &Path, count: u32) -> Result<Move, NoMem>
    ensures { IfOk result (λ made. made ≡ move_of (rebooking res.0 path.now aim.now count)) }
{
    let step = Step::Rebook {
        res,
        path: path.copy(alloc)?,
        to: aim.copy(alloc)?,
        count,
    };
    Ok(Move {
        steps: List(vec![in alloc; step]?),
    })
}

/// Where passengers of a path may go: each other route, and then off all paths.
fn other_aims(
    alloc: Global,
    inst: &Instance,
    plan: &Pages,
    net: &FlightNet,
    res: Res,
    path: &Path,
) -> Result<Vec<Path>, NoMem>
    requires plan { IsPlanFor inst.now plan.now }
    requires net { IsNetOf inst.now plan.now net.now }
    requires res { res.0 < reservations_of inst.now }
    ensures { IfOk result (λ aims. aims.items ≡ other_aims inst.now plan.now res.0 path.now) }
{
    let mut aims = net.routes(alloc, inst, plan, res)?;
    aims.push(Path {
        legs: List(Vec::new(alloc)),
    })?;
    others(alloc, aims, path)
}

/// Those of some paths that aren't a path.
fn others(alloc: Global, paths: Vec<Path>, path: &Path) -> Result<Vec<Path>, NoMem>
    ensures { IfOk result (λ others. others.items ≡ filter (λ other. not (same_path path.now other)) paths.items) }
{
    let others = paths
        .into_iter()
        .filter(|other| is_other(path, other))
        .collect(alloc)?;
    Ok(others)
}

/// Whether a path isn't another.
fn is_other(path: &Path, aim: &Path) -> bool
    ensures { result ≡ not (same_path path.now aim.now) }
{
    !same_path(path.as_slice(), aim.as_slice())
}
