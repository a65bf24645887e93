//! What is kept of a plan with added legs.

ghost use Rattle.std.specs.Prelude.{◌≡◌, ◌+◌, ◌<◌, ◌≤◌, ◌^◌, ℕ, [], None, IfOk, List as Items, false, length, slice_index_or};
ghost use Rattle.desk_data.specs.PlanRows.{PlanRows};
ghost use Rattle.desk_data.specs.Situation.{Situation, airports_of, plane_at, planes_of};
ghost use Rattle.desk_data.specs.Valid.{IsPlanFor};
ghost use Rattle.desk_units.specs.declared.numbers.Minute.{Minute as Moment};
ghost use Rattle.desk_rules.specs.Cost.{grains};
ghost use Rattle.added_legs.specs.Added.{cost_added};
ghost use Rattle.added_legs.specs.Ferried.{added_leg, lowers, with_added};
ghost use Rattle.added_legs.specs.Merged.{IsAdded, added_for, plane_end};
ghost use Rattle.added_legs.specs.declared.added.Added.{Added as Extra};
ghost use Rattle.ferry_legs.specs.Prices.{IsInTime, IsPricesOf};

use crate::change::{Change, flying_cost, missing_cost};
use crate::ends::ends_of;
use crate::opening::positions_at_first;
use crate::positions::{come, gained, leave, lost};
use crate::wanted::Wanted;
use added_legs::Added;
use desk_data::{Airport, Grains, Instance, NoMem, Plan, Plane};
use plan_checks::full_cost;
use std::alloc::Global;
use std::marker::Model;

/// What a plan costs with a list of added legs, where each aircraft ends in the plan, and how many aircraft are at hand with
/// these legs for each position.
#[derive(Drop)]
pub struct FerryPrices {
    ends: Vec<Airport>,
    airports: Vec<Vec<Wanted>>,
    cost: Grains,
}

impl Model for FerryPrices {
    ghost use Rattle.std.specs.Prelude.{map};
    ghost use Rattle.ferry_legs.specs.Prices.{PriceRows};

    ghost Value = { PriceRows };

    ghost view = { λ p. record { ends = p.ends.items; airports = map (λ rows. rows.items) p.airports.items; cost = p.cost.0 } };
}

impl FerryPrices {
    /// Those of a plan with no added leg. The only error is out of memory.
    pub fn of(alloc: Global, inst: &Instance, plan: &Plan) -> Result<FerryPrices, NoMem>
        requires { IsPlanFor inst.now plan.now }
        ensures { IfOk result (IsPricesOf inst.now plan.now []) }
    {
        let _rows = inst.parts();
        let ends = ends_of(alloc, inst, plan)?;
        let airports = positions_at_first(alloc, inst, plan)?;
        let cost = full_cost(inst, plan);
        Ok(FerryPrices {
            ends,
            airports,
            cost,
        })
    }

    /// What the plan costs with its added legs.
    pub fn cost(&self) -> Grains
        ensures { (I : Situation) (P : PlanRows) (A : Items Extra) → IsPricesOf I P A self.now → result ≡ grains (cost_added I P A) }
    {
        self.cost
    }

    /// Where an aircraft ends in the plan, and where an added leg of it leaves.
    pub fn end(&self, plane: Plane) -> Airport
        requires { plane.0 < length self.now.ends }
        ensures { (I : Situation) (P : PlanRows) (A : Items Extra) → IsPricesOf I P A self.now → result ≡ plane_end I P plane.0 }
    {
        self.ends[plane.0 as usize]
    }

    /// Whether the cost is lower with one more added leg, of an aircraft that has none and is no surface transport: that does
    /// not depend on when it departs, once its aircraft is ready and before the window's end. Looks at the positions
    /// of two airports, and takes no memory.
    pub fn lowers(&self, inst: &Instance, plan: &Plan, plane: Plane, dest: Airport) -> bool
        ghost added: { Items Extra }
        requires plan { IsPlanFor inst.now plan.now }
        requires prices { IsPricesOf inst.now plan.now added self.now }
        requires plane { plane.0 < planes_of inst.now }
        requires air { (plane_at inst.now plane.0).surface ≡ false }
        requires dest { dest.0 < airports_of inst.now }
        requires none { added_for added plane.0 ≡ None }
        ensures exact { (at : Moment) → IsInTime inst.now plan.now plane.0 at.0 → result ≡ lowers inst.now plan.now added (added_leg plane.0 dest.0 at) }
    {
        let change = self.change(inst, plan, plane, dest);
        change.more.0 < change.less.0
    }

    /// One more leg is added, of an aircraft that has none: it departs once its aircraft is ready, and before the window's end.
    /// Looks at the positions of two airports, and takes no memory.
    pub fn add(&mut self, inst: &Instance, plan: &Plan, leg: Added)
        ghost added: { Items Extra }
        requires plan { IsPlanFor inst.now plan.now }
        requires prices { IsPricesOf inst.now plan.now added self.old }
        requires leg { IsAdded inst.now plan.now leg }
        requires none { added_for added leg.plane.0 ≡ None }
        requires time { IsInTime inst.now plan.now leg.plane.0 leg.dep.0 }
        ensures { IsPricesOf inst.now plan.now (with_added added leg) self.new }
    {
        // the day is a valid one: what a plan costs is bounded
        let _rows = inst.parts();
        let change = self.change(inst, plan, leg.plane, leg.dest);
        let from = self.ends[leg.plane.0 as usize];
        let plane = inst.plane(leg.plane);
        leave(&mut self.airports, plane, from);
        come(&mut self.airports, plane, leg.dest);
        self.cost = Grains(self.cost.0 + change.more.0 - change.less.0);
    }

    /// What one more added leg changes of the cost.
    fn change(&self, inst: &Instance, plan: &Plan, plane: Plane, dest: Airport) -> Change
        ghost added: { Items Extra }
        requires plan { IsPlanFor inst.now plan.now }
        requires prices { IsPricesOf inst.now plan.now added self.now }
        requires plane { plane.0 < planes_of inst.now }
        requires air { (plane_at inst.now plane.0).surface ≡ false }
        requires dest { dest.0 < airports_of inst.now }
        requires none { added_for added plane.0 ≡ None }
        ensures change { (at : Moment) → IsInTime inst.now plan.now plane.0 at.0 → cost_added inst.now plan.now (with_added added (added_leg plane.0 dest.0 at)) + result.less.0 ≡ cost_added inst.now plan.now added + result.more.0 }
        ensures limit { result.more.0 ≤ 10 ^ 34 }
    {
        // only the contract speaks of the plan; the day is a valid one: its positions are few
        let _ = plan;
        let _rows = inst.parts();
        let from = self.ends[plane.0 as usize];
        let minutes = inst.distance(from, dest).unwrap_or(0);
        let flying = flying_cost(inst, plane, minutes);
        if from == dest {
            return Change {
                more: flying,
                less: Grains(0),
            };
        }
        let info = inst.plane(plane);
        let lost = lost(info, self.positions(from));
        let gained = gained(info, self.positions(dest));
        Change {
            more: flying.plus(missing_cost(inst, lost)),
            less: missing_cost(inst, gained),
        }
    }

    /// The positions of an airport.
    fn positions(&self, airport: Airport) -> &[Wanted]
        requires { airport.0 < length self.now.airports }
        ensures { result.now ≡ slice_index_or self.now.airports airport.0 [] }
    {
        self.airports[airport.0 as usize].as_slice()
    }
}
