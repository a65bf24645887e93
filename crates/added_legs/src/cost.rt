//! What a plan costs with added legs.

ghost use Rattle.std.specs.Prelude.{◌≡◌, ◌<◌, ◌^◌, length};
ghost use Rattle.desk_data.specs.Situation.{planes_of};
ghost use Rattle.desk_data.specs.Valid.{IsPlanFor};
ghost use Rattle.desk_rules.specs.Cost.{grains};
ghost use Rattle.added_legs.specs.Merged.{AreAdded};
ghost use Rattle.added_legs.specs.Added.{cost_added};

use crate::Added;
use crate::flight::{Flight, clear, put_flights};
use crate::operating::flights_cost;
use crate::position::position_cost;
use crate::stands::put_ends;
use desk_data::{Airport, Grains, Instance, Leg, Plan};
use plan_checks::full_cost;
use plan_reads::put_lasts;

/// The most aircraft that a day has.
const PLANES: usize = 1_000;

/// What the plan costs with added legs, at most one for an aircraft: the operating term has their minutes too, and aircraft
/// end where these leave them; the other terms are those of the plan. It takes no memory. Its time is that of `full_cost`,
/// and a walk over all aircraft for each position.
pub fn cost_added(inst: &Instance, plan: &Plan, added: &[Added]) -> Grains
    requires plan { IsPlanFor inst.now plan.now }
    requires added { AreAdded inst.now plan.now added.now }
    ensures cost { result ≡ grains (cost_added inst.now plan.now added.now) }
    ensures limit { result.0 < 10 ^ 38 }
{
    let mut lasts = [None; PLANES];
    let mut flights = [None; PLANES];
    let mut stands = [None; PLANES];
    let planes = inst.planes() as usize;
    cost_with(
        inst,
        plan,
        added,
        &mut lasts[..planes],
        &mut flights[..planes],
        &mut stands[..planes],
    )
}

/// The same, with room for the last leg, the added leg and the end of each aircraft. In the cost of the plan the aircraft end
/// where its own legs leave them.
fn cost_with(
    inst: &Instance,
    plan: &Plan,
    added: &[Added],
    lasts: &mut [Option<Leg>],
    flights: &mut [Option<Flight>],
    stands: &mut [Option<Airport>],
) -> Grains
    requires plan { IsPlanFor inst.now plan.now }
    requires added { AreAdded inst.now plan.now added.now }
    requires lasts { length lasts.old ≡ planes_of inst.now }
    requires flights { length flights.old ≡ planes_of inst.now }
    requires stands { length stands.old ≡ planes_of inst.now }
    ensures cost { result ≡ grains (cost_added inst.now plan.now added.now) }
    ensures limit { result.0 < 10 ^ 38 }
{
    let _rows = inst.parts();
    clear(flights);
    put_lasts(&inst.window().1, inst, plan, lasts);
    put_ends(inst, plan, lasts, flights, stands);
    let before = position_cost(inst, stands);
    put_flights(inst, plan, added, lasts, flights);
    put_lasts(&inst.window().1, inst, plan, lasts);
    put_ends(inst, plan, lasts, flights, stands);
    let after = position_cost(inst, stands);
    let others = Grains(full_cost(inst, plan).0 - before.0);
    others.plus(flights_cost(inst, flights)).plus(after)
}
