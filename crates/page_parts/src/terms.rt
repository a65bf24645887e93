//! The six terms of a plan's cost.

ghost use Rattle.std.specs.Prelude.{◌≡◌, ◌+◌};
ghost use Rattle.desk_data.specs.Situation.{legs_of};
ghost use Rattle.desk_data.specs.Valid.{IsPlanFor};
ghost use Rattle.desk_rules.specs.Cost.{cancellation_cost, cost, delay_cost, downgrade_cost, grains, legal_cost, operating_cost, position_cost};

use crate::amounts::PassengerTerm;
use crate::passenger_terms::passenger_term;
use desk_data::{Grains, Instance, Leg};
use plan_checks::{flight_cost, full_cost};
use plan_reads::ReadPlan;

/// What a plan costs, term by term, in grains: 600,000,000 to one unit of money. Each is below 10^38, and so is their sum.
#[derive(Clone, Copy)]
pub struct CostTerms {
    /// The hours that aircraft fly.
    pub operating: Grains,
    /// The hours by which passengers arrive late.
    pub delay: Grains,
    /// Passengers who are not carried.
    pub cancellation: Grains,
    /// Legs in a cabin below the highest that was booked.
    pub downgrade: Grains,
    /// What is owed by law, and the prices of journeys that are not made.
    pub legal: Grains,
    /// Aircraft that are not where they are needed when the window ends.
    pub position: Grains,
}

// Operating: what the legs cost that are flown.
#[tactic(auto, unfolding(desk_rules::specs::Cost::operating_cost))]
fn operating_cost<P: ReadPlan>(inst: &Instance, plan: &P) -> Grains
    requires { IsPlanFor inst.now (P.plan_of plan.now) }
    ensures { result.0 ≡ operating_cost inst.now (P.plan_of plan.now) }
{
    let _rows = inst.parts();
    let mut total = Grains(0);
    for x in 0..inst.legs() {
        let row = plan.read_row(Leg(x));
        total = total.plus(flight_cost(inst, Leg(x), row));
    }
    total
}

/// The terms of a plan's cost. It takes no memory; its time is about that of six walks over the legs and the passengers.
pub fn cost_terms<P: ReadPlan>(inst: &Instance, plan: &P) -> CostTerms
    requires { IsPlanFor inst.now (P.plan_of plan.now) }
    ensures operating { result.operating ≡ grains (operating_cost inst.now (P.plan_of plan.now)) }
    ensures delay { result.delay ≡ grains (delay_cost inst.now (P.plan_of plan.now)) }
    ensures cancellation { result.cancellation ≡ grains (cancellation_cost inst.now (P.plan_of plan.now)) }
    ensures downgrade { result.downgrade ≡ grains (downgrade_cost inst.now (P.plan_of plan.now)) }
    ensures legal { result.legal ≡ grains (legal_cost inst.now (P.plan_of plan.now)) }
    ensures position { result.position ≡ grains (position_cost inst.now (P.plan_of plan.now)) }
    ensures sum { result.operating.0 + result.delay.0 + result.cancellation.0 + result.downgrade.0 + result.legal.0 + result.position.0
        ≡ cost inst.now (P.plan_of plan.now) }
{
    let operating = operating_cost(inst, plan);
    let delay = passenger_term(inst, plan, PassengerTerm::Delay);
    let cancellation = passenger_term(inst, plan, PassengerTerm::Cancellation);
    let downgrade = passenger_term(inst, plan, PassengerTerm::Downgrade);
    let legal = passenger_term(inst, plan, PassengerTerm::Legal);
    let all = full_cost(inst, plan).0;
    let position = all - operating.0 - delay.0 - cancellation.0 - downgrade.0 - legal.0;
    CostTerms {
        operating,
        delay,
        cancellation,
        downgrade,
        legal,
        position: Grains(position),
    }
}
