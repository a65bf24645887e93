//! What can be asked how many legs depart from an airport in an hour, and arrive there.

ghost use Rattle.std.specs.Prelude.{◌≡◌, ◌<◌};
ghost use Rattle.desk_data.specs.PlanRows.{PlanRows, row_at};
ghost use Rattle.desk_data.specs.Situation.{Situation, legs_of, planes_of};
ghost use Rattle.desk_data.specs.Valid.{IsRowOf};
ghost use Rattle.desk_model.specs.Push.{arrivals_beside, departures_beside};

use desk_data::{Airport, Instance, Leg, Row};

/// What knows how many legs of a plan depart from each airport in each hour, and arrive there, of those
/// that are flown and whose scheduled aircraft is no surface transport.
pub trait KnowsHours {
    /// Whether what it knows is that of a plan of an instance.
    ghost knows: { Self → Situation → PlanRows → Type 0 };

    /// How many legs depart from an airport in an hour, the leg itself, which has this row, left out.
    fn departures_beside(
        &self,
        inst: &Instance,
        leg: Leg,
        row: Row,
        airport: Airport,
        hour: u32,
    ) -> u32
        requires leg { leg.0 < legs_of inst.now }
        requires row { IsRowOf (planes_of inst.now) row }
        ensures { (Q : PlanRows) → row_at Q leg.0 ≡ row → knows self.now inst.now Q → result ≡ departures_beside inst.now Q leg.0 airport.0 hour };

    /// How many legs arrive at an airport in an hour, the leg itself, which has this row, left out.
    fn arrivals_beside(
        &self,
        inst: &Instance,
        leg: Leg,
        row: Row,
        airport: Airport,
        hour: u32,
    ) -> u32
        requires leg { leg.0 < legs_of inst.now }
        requires row { IsRowOf (planes_of inst.now) row }
        ensures { (Q : PlanRows) → row_at Q leg.0 ≡ row → knows self.now inst.now Q → result ≡ arrivals_beside inst.now Q leg.0 airport.0 hour };
}
