//! The legs that a Push places.

ghost use Rattle.std.specs.Prelude.{◌≡◌, ℕ, ◌<◌, IfOk, All, map, length};
ghost use Rattle.std.specs.Option.{ForSome};
ghost use Rattle.desk_data.specs.Situation.{legs_of};
ghost use Rattle.desk_data.specs.Valid.{IsPlanFor};
ghost use Rattle.desk_rules.specs.Rotations.{comes_before, is_earlier};
ghost use Rattle.desk_model.specs.Push.{comes_after, pushed_legs, rotation};
ghost use Rattle.hour_counts.specs.Placings.{IsPlacing, is_placed};

use desk_data::{Instance, Leg, Minute, NoMem, Row};
use plan_reads::ReadPlan;
use std::alloc::Global;

/// A leg that a Push places, and the leg that stands before it on its aircraft at the step's start.
#[derive(Clone, Copy)]
pub struct Placing {
    pub leg: Leg,
    /// `None` where the leg is the aircraft's first.
    pub before: Option<Leg>,
}

/// The legs that a Push of an aircraft places, in their order: the movable legs that it flies, after
/// the leg `after` where one is named. None is after a leg that the aircraft does not fly. All legs that
/// it flies are handed in, in their order; no others are walked over. The only error is out of memory.
pub fn placings<P: ReadPlan>(
    alloc: Global,
    inst: &Instance,
    plan: &P,
    legs: &[Leg],
    after: Option<Leg>,
) -> Result<Vec<Placing>, NoMem>
    requires plan { IsPlanFor inst.now (P.plan_of plan.now) }
    requires within { All (λ leg. leg.0 < legs_of inst.now) legs.now }
    requires after { ForSome after (λ leg. leg.0 < legs_of inst.now) }
    ensures legs { (p : ℕ) → map (λ leg. leg.0) legs.now ≡ rotation inst.now (P.plan_of plan.now) p → IfOk result (λ all. map (λ placing. placing.leg.0) all.items ≡ pushed_legs inst.now (P.plan_of plan.now) p after) }
    ensures before { (p : ℕ) → map (λ leg. leg.0) legs.now ≡ rotation inst.now (P.plan_of plan.now) p → IfOk result (λ all. All (IsPlacing inst.now (P.plan_of plan.now)) all.items) }
{
    let mut all = Vec::new(alloc);
    let mut before = None;
    for k in 0..legs.len() {
        let leg = legs[k];
        if is_placed(inst, plan, after, leg) {
            all.push(Placing { leg, before })?;
        }
        before = Some(leg);
    }
    Ok(all)
}

/// Whether a leg of the aircraft is placed: it is movable, and after the leg `after` where one is named.
fn is_placed<P: ReadPlan>(inst: &Instance, plan: &P, after: Option<Leg>, leg: Leg) -> bool
    requires plan { IsPlanFor inst.now (P.plan_of plan.now) }
    requires after { ForSome after (λ earlier. earlier.0 < legs_of inst.now) }
    requires leg { leg.0 < legs_of inst.now }
    ensures { result ≡ is_placed inst.now (P.plan_of plan.now) after leg.0 }
{
    !inst.fixed(leg) && comes_after(plan, after, leg)
}

/// Whether a leg comes after another on its aircraft; after none each does.
fn comes_after<P: ReadPlan>(plan: &P, after: Option<Leg>, leg: Leg) -> bool
    requires after { ForSome after (λ earlier. earlier.0 < length (P.plan_of plan.now).rows) }
    requires leg { leg.0 < length (P.plan_of plan.now).rows }
    ensures { result ≡ comes_after (P.plan_of plan.now) after leg.0 }
{
    match after {
        Some(earlier) => comes_before(earlier, plan.read_row(earlier), leg, plan.read_row(leg)),
        None => true,
    }
}

/// Whether one aircraft flies both legs, the first before the second.
fn comes_before(leg: Leg, row: Row, next: Leg, next_row: Row) -> bool
    ensures { result ≡ comes_before leg.0 row next.0 next_row }
{
    match (row, next_row) {
        (
            Row::Flown { plane, dep },
            Row::Flown {
                plane: other,
                dep: later,
            },
        ) => { plane.0 == other.0 && is_earlier(leg, dep, next, later) }
        _ => false,
    }
}

/// By departure, then by leg.
fn is_earlier(leg: Leg, dep: Minute, next: Leg, later: Minute) -> bool
    ensures { result ≡ is_earlier leg.0 dep.0 next.0 later.0 }
{
    dep.0 < later.0 || dep.0 == later.0 && leg.0 < next.0
}
