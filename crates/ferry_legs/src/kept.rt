//! What is kept while legs are added, and the next leg.

ghost use Rattle.std.specs.Prelude.{◌≡◌, ◌<◌, ◌||◌, false, ℕ, [], IfOk, List as Items, is_some, length, replicate, slice_index_or};
ghost use Rattle.std.specs.Option.{ForSome};
ghost use Rattle.desk_data.specs.PlanRows.{PlanRows};
ghost use Rattle.desk_data.specs.Situation.{Situation, airports_of, plane_at, planes_of};
ghost use Rattle.desk_data.specs.Valid.{IsPlanFor};
ghost use Rattle.desk_rules.specs.Cost.{grains};
ghost use Rattle.desk_rules.specs.Words.{IsFeasible};
ghost use Rattle.added_legs.specs.declared.added.Added.{Added as Extra};
ghost use Rattle.added_legs.specs.Added.{cost_added};
ghost use Rattle.added_legs.specs.Ferried.{next_added, with_added};
ghost use Rattle.added_legs.specs.Merged.{way_to};
ghost use Rattle.ferry_legs.specs.Steps.{IsMarked, IsKeptOf, IsNew, paying, paying_of};

use crate::{FerryPrices, FerryTimes};
use added_legs::Added;
use desk_data::{Airport, Grains, Instance, NoMem, Plan, Plane};
use std::alloc::Global;

/// What is kept of a plan and of the legs that are added so far.
pub(crate) struct Kept {
    /// Whether each aircraft has an added leg.
    taken: Vec<bool>,
    /// Whether one more leg pays.
    prices: FerryPrices,
    /// When one more leg may depart.
    times: FerryTimes,
}

/// Dropped in one call, so that a function that owns one proves it once, and not part by part.
impl Drop for Kept {
    fn drop(self) {
        let Kept {
            taken: _,
            prices: _,
            times: _,
        } = self;
    }
}

impl Kept {
    /// With no added leg. The only error is out of memory.
    pub(crate) fn of(alloc: Global, inst: &Instance, plan: &Plan) -> Result<Kept, NoMem>
        requires plan { IsPlanFor inst.now plan.now }
        requires feasible { IsFeasible inst.now plan.now }
        ensures { IfOk result (λ kept. IsKeptOf inst.now plan.now [] kept) }
    {
        let _rows = inst.parts();
        let taken = none_taken(alloc, inst.planes() as usize)?;
        let prices = FerryPrices::of(alloc, inst, plan)?;
        let times = FerryTimes::of(alloc, inst, plan)?;
        Ok(Kept {
            taken,
            prices,
            times,
        })
    }

    /// What the plan costs with the legs that are added.
    pub(crate) fn cost(&self) -> Grains
        ensures { (I : Situation) (P : PlanRows) (A : Items Extra) → IsKeptOf I P A self.now → result ≡ grains (cost_added I P A) }
    {
        self.prices.cost()
    }

    /// The next leg: the first candidate that lowers the cost, by aircraft and then by airport.
    pub(crate) fn next(&self, inst: &Instance, plan: &Plan) -> Option<Added>
        ghost added: { Items Extra }
        requires plan { IsPlanFor inst.now plan.now }
        requires kept { IsKeptOf inst.now plan.now added self.now }
        ensures next { result ≡ next_added inst.now plan.now added }
        ensures ranges { ForSome result (IsNew inst.now plan.now added) }
    {
        for p in 0..inst.planes() {
            if let Some(leg) = self.first_of_plane(inst, plan, Plane(p)) {
                return Some(leg);
            }
        }
        None
    }

    /// The first one of an aircraft. Surface transport has none, nor has an aircraft that has an added leg.
    fn first_of_plane(&self, inst: &Instance, plan: &Plan, plane: Plane) -> Option<Added>
        ghost added: { Items Extra }
        requires plan { IsPlanFor inst.now plan.now }
        requires kept { IsKeptOf inst.now plan.now added self.now }
        requires plane { plane.0 < planes_of inst.now }
        ensures next { result ≡ paying_of inst.now plan.now added plane.0 }
        ensures ranges { ForSome result (IsNew inst.now plan.now added) }
    {
        let stays = stays(inst, self.taken.as_slice(), plane);
        if stays {
            return None;
        }
        for d in 0..inst.airports() {
            if let Some(leg) = self.paying(inst, plan, plane, Airport(d)) {
                return Some(leg);
            }
        }
        None
    }

    /// The candidate of an aircraft and an airport, if there is one and it lowers the cost.
    fn paying(&self, inst: &Instance, plan: &Plan, plane: Plane, dest: Airport) -> Option<Added>
        ghost added: { Items Extra }
        requires plan { IsPlanFor inst.now plan.now }
        requires kept { IsKeptOf inst.now plan.now added self.now }
        requires plane { plane.0 < planes_of inst.now }
        requires air { (plane_at inst.now plane.0).surface ≡ false }
        requires free { slice_index_or self.now.taken.items plane.0 false ≡ false }
        requires dest { dest.0 < airports_of inst.now }
        ensures leg { result ≡ paying inst.now plan.now added plane.0 dest.0 }
        ensures ranges { ForSome result (IsNew inst.now plan.now added) }
    {
        let _rows = inst.parts();
        if !self.has_way(inst, plan, plane, dest) {
            return None;
        }
        let lower = self.prices.lowers(inst, plan, plane, dest);
        if !lower {
            return None;
        }
        match self.times.departure(inst, plan, plane, dest) {
            Some(dep) => Some(Added { plane, dest, dep }),
            None => None,
        }
    }

    /// Whether the day has a distance to an airport from where an aircraft ends.
    fn has_way(&self, inst: &Instance, plan: &Plan, plane: Plane, dest: Airport) -> bool
        ghost added: { Items Extra }
        requires kept { IsKeptOf inst.now plan.now added self.now }
        requires plane { plane.0 < planes_of inst.now }
        ensures { result ≡ is_some (way_to inst.now plan.now plane.0 dest) }
    {
        let from = self.prices.end(plane);
        inst.distance(from, dest).is_some()
    }

    /// Adds a leg.
    pub(crate) fn add(&mut self, inst: &Instance, plan: &Plan, leg: Added)
        ghost added: { Items Extra }
        requires plan { IsPlanFor inst.now plan.now }
        requires kept { IsKeptOf inst.now plan.now added self.old }
        requires leg { IsNew inst.now plan.now added leg }
        ensures kept { IsKeptOf inst.now plan.now (with_added added leg) self.new }
        ensures fewer { IsMarked self.old.taken.items self.new.taken.items leg.plane.0 }
    {
        self.prices.add(inst, plan, leg);
        self.times.add(inst, plan, leg);
        self.taken[leg.plane.0 as usize] = true;
    }
}

/// No aircraft has an added leg.
fn none_taken(alloc: Global, planes: usize) -> Result<Vec<bool>, NoMem>
    ensures { IfOk result (λ taken. taken.items ≡ replicate planes false) }
{
    Ok(vec![in alloc; false; planes]?)
}

/// Whether an aircraft may get no added leg: it is surface transport, or has one.
fn stays(inst: &Instance, taken: &[bool], plane: Plane) -> bool
    requires plane { plane.0 < planes_of inst.now }
    requires taken { length taken.now ≡ planes_of inst.now }
    ensures { result ≡ ((plane_at inst.now plane.0).surface || slice_index_or taken.now plane.0 false) }
{
    inst.plane(plane).surface || taken[plane.0 as usize]
}
