//! The legs that each aircraft flies.

ghost use Rattle.std.specs.Prelude.{◌≡◌, ◌+◌, ◌<◌, [], ◌∷◌, ◌++◌, All, IfOk, OnOk, length, map, replicate, slice_index_or, slice_set};
ghost use Rattle.desk_data.specs.Situation.{legs_of, planes_of};
ghost use Rattle.desk_data.specs.Valid.{IsPlanFor};
ghost use Rattle.desk_model.specs.Push.{rotation};
ghost use Rattle.hour_counts.specs.Flown.{AreFlown, AreFlownOfFirst};

use crate::rotation_legs::{legs_of, sorted_rotation_legs};
use desk_data::{Instance, Leg, NoMem, Plane, Row};
use plan_reads::ReadPlan;
use std::alloc::Global;
use std::marker::Model;

/// The legs that each aircraft flies, by leg. They stay so while legs depart at other moments and no leg
/// changes its aircraft: a Push of any aircraft leaves them.
#[derive(Drop)]
pub struct FlownLegs {
    legs: Vec<Vec<Leg>>,
}

impl Model for FlownLegs {
    ghost use Rattle.std.specs.Prelude.{List, map};
    ghost use Rattle.desk_units.specs.declared.numbers.Leg.{Leg};

    ghost Value = { List (List Leg) };

    ghost view = { λ f. map (λ l. l.items) f.legs.items };
}

impl FlownLegs {
    /// Those of a plan, in one walk over its legs. The only error is out of memory.
    pub fn of<P: ReadPlan>(alloc: Global, inst: &Instance, plan: &P) -> Result<FlownLegs, NoMem>
        requires { IsPlanFor inst.now (P.plan_of plan.now) }
        ensures { IfOk result (λ flown. AreFlown inst.now (P.plan_of plan.now) flown) }
    {
        let mut legs = no_legs(alloc, inst.planes() as usize)?;
        for x in 0..inst.legs() {
            take_leg(inst, plan, Leg(x), &mut legs)?;
        }
        Ok(FlownLegs { legs })
    }

    /// Those of an aircraft in their order. They are sorted, and no others are walked over. The only
    /// error is out of memory.
    pub fn rotation<P: ReadPlan>(
        &self,
        alloc: Global,
        inst: &Instance,
        plan: &P,
        plane: Plane,
    ) -> Result<Vec<Leg>, NoMem>
        requires plan { IsPlanFor inst.now (P.plan_of plan.now) }
        requires flown { AreFlown inst.now (P.plan_of plan.now) self.now }
        requires plane { plane.0 < planes_of inst.now }
        ensures order { IfOk result (λ legs. map (λ leg. leg.0) legs.items ≡ rotation inst.now (P.plan_of plan.now) plane.0) }
        ensures within { IfOk result (λ legs. All (λ leg. leg.0 < legs_of inst.now) legs.items) }
    {
        // there are as many rows as legs
        let _ = inst.legs();
        let rotation_legs = sorted_rotation_legs(alloc, plan, self.legs(plane))?;
        legs_of(alloc, rotation_legs.as_slice())
    }

    /// Those of an aircraft, by leg.
    fn legs(&self, plane: Plane) -> &[Leg]
        requires { plane.0 < length self.now }
        ensures { result.now ≡ slice_index_or self.now plane.0 [] }
    {
        self.legs[plane.0 as usize].as_slice()
    }
}

/// No legs, of so many aircraft.
fn no_legs(alloc: Global, count: usize) -> Result<Vec<Vec<Leg>>, NoMem>
    ensures { IfOk result (λ legs. map (λ l. l.items) legs.items ≡ replicate count []) }
{
    let mut legs = Vec::with_capacity(alloc, count)?;
    for _ in 0..count {
        legs.push(Vec::new(alloc))?;
    }
    Ok(legs)
}

/// Takes one more leg into account.
fn take_leg<P: ReadPlan>(
    inst: &Instance,
    plan: &P,
    leg: Leg,
    legs: &mut Vec<Vec<Leg>>,
) -> Result<(), NoMem>
    requires plan { IsPlanFor inst.now (P.plan_of plan.now) }
    requires leg { leg.0 < legs_of inst.now }
    requires so_far { AreFlownOfFirst leg.0 inst.now (P.plan_of plan.now) (map (λ l. l.items) legs.old.items) }
    ensures { OnOk result (AreFlownOfFirst (leg.0 + 1) inst.now (P.plan_of plan.now) (map (λ l. l.items) legs.new.items)) }
{
    match plan.read_row(leg) {
        Row::Flown { plane, .. } => push_leg(legs, plane, leg),
        Row::Cancelled => Ok(()),
    }
}

/// Adds a leg to those of an aircraft.
fn push_leg(legs: &mut Vec<Vec<Leg>>, plane: Plane, leg: Leg) -> Result<(), NoMem>
    requires { plane.0 < length legs.old.items }
    ensures { OnOk result (map (λ l. l.items) legs.new.items ≡ slice_set (map (λ l. l.items) legs.old.items) plane.0 (slice_index_or (map (λ l. l.items) legs.old.items) plane.0 [] ++ leg ∷ [])) }
{
    legs[plane.0 as usize].push(leg)?;
    Ok(())
}
