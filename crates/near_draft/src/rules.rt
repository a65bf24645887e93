//! The rules of one leg, asked of the legs of an aircraft in a draft.

ghost use Rattle.std.specs.Prelude.{◌≡◌, ◌<◌, ℕ, true, length, All};
ghost use Rattle.std.specs.Option.{ForSome};
ghost use Rattle.desk_data.specs.Situation.{legs_of, planes_of};
ghost use Rattle.desk_data.specs.Valid.{IsPlanFor, IsRowOf};
ghost use Rattle.desk_model.specs.Push.{rotation};
ghost use Rattle.plan_reads.specs.AfterLeg.{IsRotationLegOf};
ghost use Rattle.near_draft.specs.Legs.{numbers_of};
ghost use Rattle.near_draft.specs.LegRules.{BreaksOf, IsLeft, leg_rules_after};

use desk_data::{Instance, Leg, Row};
use plan_reads::{
    ReadPlan, RotationLeg, c2_in_time, c4_range, c5_location, c6_ground_time, c7_service,
    with_departure,
};

/// Whether a leg of an aircraft breaks C2 or one of C4 to C7 in a plan. The legs of the aircraft are handed in, in
/// their order.
pub(crate) fn break_leg_rules<P: ReadPlan>(inst: &Instance, plan: &P, legs: &[Leg]) -> bool
    requires plan { IsPlanFor inst.now (P.plan_of plan.now) }
    requires within { All (λ leg. leg.0 < legs_of inst.now) legs.now }
    ensures { (p : ℕ) → numbers_of legs.now ≡ rotation inst.now (P.plan_of plan.now) p → result ≡ true → BreaksOf inst.now (P.plan_of plan.now) p }
{
    for k in 0..legs.len() {
        if breaks_leg_rules(inst, plan, legs, k) {
            return true;
        }
    }
    false
}

/// Whether the leg at a place does.
fn breaks_leg_rules<P: ReadPlan>(inst: &Instance, plan: &P, legs: &[Leg], k: usize) -> bool
    requires plan { IsPlanFor inst.now (P.plan_of plan.now) }
    requires within { All (λ leg. leg.0 < legs_of inst.now) legs.now }
    requires place { k < length legs.now }
    ensures { (p : ℕ) → numbers_of legs.now ≡ rotation inst.now (P.plan_of plan.now) p → result ≡ true → BreaksOf inst.now (P.plan_of plan.now) p }
{
    // there are as many rows as legs
    let _ = inst.legs();
    let leg = legs[k];
    let earlier = left(legs, k);
    let before = with_departure(plan, earlier);
    let row = plan.read_row(leg);
    let keeps = keeps_leg_rules(inst, leg, row, before);
    !keeps
}

/// The leg to the left of a place, if there is one.
fn left(legs: &[Leg], k: usize) -> Option<Leg>
    requires { k < length legs.now }
    ensures left { IsLeft (numbers_of legs.now) k result }
    ensures within { (n : ℕ) → All (λ leg. leg.0 < n) legs.now → ForSome result (λ leg. leg.0 < n) }
{
    if k == 0 { None } else { Some(legs[k - 1]) }
}

/// Whether a leg with a row keeps C2 and C4 to C7, given the leg before it on its aircraft.
fn keeps_leg_rules(inst: &Instance, leg: Leg, row: Row, before: Option<RotationLeg>) -> bool
    requires leg { leg.0 < legs_of inst.now }
    requires row { IsRowOf (planes_of inst.now) row }
    requires before { ForSome before (IsRotationLegOf (legs_of inst.now)) }
    ensures { result ≡ leg_rules_after inst.now leg.0 before row }
{
    c5_location(inst, leg, row, before)
        && c6_ground_time(inst, leg, row, before)
        && c2_in_time(inst, leg, row)
        && c4_range(inst, leg, row)
        && c7_service(inst, leg, row)
}
