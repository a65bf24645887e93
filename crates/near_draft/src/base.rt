//! What a draft stands on: a plan, how many legs take its slots, and the legs of its aircraft.

ghost use Rattle.std.specs.Prelude.{◌≡◌, ◌<◌, All, IfOk, map};
ghost use Rattle.desk_data.specs.Situation.{legs_of, planes_of};
ghost use Rattle.desk_data.specs.Valid.{IsPlanFor};
ghost use Rattle.desk_model.specs.Push.{rotation};
ghost use Rattle.near_draft.specs.Bases.{IsBase};

use board_kit::SlotBoard;
use desk_data::{Airport, Instance, Leg, NoMem, Plane, Row};
use hour_counts::KnowsHours;
use plan_pages::Pages;
use std::alloc::Global;
use std::marker::Model;

/// A plan for a day, with what a draft over it asks. Contracts see it as the day and the plan.
#[derive(Drop)]
pub struct Base<'a> {
    inst: &'a Instance,
    plan: &'a Pages,
    slots: &'a SlotBoard,
    /// The legs of each aircraft, in their order.
    legs: &'a [Vec<Leg>],
}

impl<'a> Model for Base<'a> {
    ghost use Rattle.near_draft.specs.Bases.{Based, IsBase};

    ghost Value = { Based };

    ghost view = { λ b. record { inst = b.inst.now; rows = b.plan.now } };

    ghost invariant = { λ b. IsBase b.inst.now b.plan.now b.slots.now b.legs.now };
}

impl<'a> Base<'a> {
    /// A plan for a day, with the board of its slots, and of each aircraft the legs that it flies, in their order.
    pub fn of(
        inst: &'a Instance,
        plan: &'a Pages,
        slots: &'a SlotBoard,
        legs: &'a [Vec<Leg>],
    ) -> Base<'a>
        requires { IsBase inst.now plan.now slots.now legs.now }
        ensures { result ≡ record { inst = inst.now; rows = plan.now } }
    {
        Base {
            inst,
            plan,
            slots,
            legs,
        }
    }

    /// The day.
    pub fn instance(&self) -> &Instance
        ensures { result.now ≡ self.now.inst }
    {
        self.inst
    }

    /// The plan.
    pub fn plan(&self) -> &Pages
        ensures rows { result.now ≡ self.now.rows }
        ensures valid { IsPlanFor self.now.inst result.now }
    {
        self.plan
    }

    /// The legs that an aircraft flies, in their order. The only error is out of memory.
    pub fn rotation(&self, alloc: Global, plane: Plane) -> Result<Vec<Leg>, NoMem>
        requires { plane.0 < planes_of self.now.inst }
        ensures order { IfOk result (λ legs. map (λ leg. leg.0) legs.items ≡ rotation self.now.inst self.now.rows plane.0) }
        ensures within { IfOk result (λ legs. All (λ leg. leg.0 < legs_of self.now.inst) legs.items) }
    {
        Ok(self.legs_of(plane).to_vec(alloc)?)
    }

    /// The same, lent.
    fn legs_of(&self, plane: Plane) -> &[Leg]
        requires { plane.0 < planes_of self.now.inst }
        ensures order { map (λ leg. leg.0) result.now ≡ rotation self.now.inst self.now.rows plane.0 }
        ensures within { All (λ leg. leg.0 < legs_of self.now.inst) result.now }
    {
        // an aircraft of the day has legs at its place
        self.legs[plane.0 as usize].as_slice()
    }
}

/// It knows the hours of its plan, with no walk.
impl<'a> KnowsHours for Base<'a> {
    ghost use Rattle.std.specs.Prelude.{◌≡◌};

    ghost knows = { λ b I Q. (I ≡ b.inst) × (Q ≡ b.rows) };

    fn departures_beside(
        &self,
        inst: &Instance,
        leg: Leg,
        row: Row,
        airport: Airport,
        hour: u32,
    ) -> u32 {
        self.slots.departures_beside(inst, leg, row, airport, hour)
    }

    fn arrivals_beside(
        &self,
        inst: &Instance,
        leg: Leg,
        row: Row,
        airport: Airport,
        hour: u32,
    ) -> u32 {
        self.slots.arrivals_beside(inst, leg, row, airport, hour)
    }
}
