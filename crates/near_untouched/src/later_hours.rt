//! The hours of a plan, where another one has the same rows.

use desk_data::{Airport, Instance, Leg, Row};
use hour_counts::KnowsHours;
use plan_pages::Pages;

/// What knows the hours of a plan, asked about another one with the same rows: hours hang on rows alone.
#[derive(Drop)]
pub(crate) struct SameHours<'a, H: KnowsHours> {
    pub hours: &'a H,
    pub plan: &'a Pages,
}

impl<H: KnowsHours> KnowsHours for SameHours<'_, H> {
    ghost use Rattle.std.specs.Prelude.{◌≡◌};

    ghost knows = { λ s I Q. (H.knows s.hours.now I s.plan.now) × (Q.rows ≡ s.plan.now.rows) };

    fn departures_beside(
        &self,
        inst: &Instance,
        leg: Leg,
        row: Row,
        airport: Airport,
        hour: u32,
    ) -> u32 {
        self.hours.departures_beside(inst, leg, row, airport, hour)
    }

    fn arrivals_beside(
        &self,
        inst: &Instance,
        leg: Leg,
        row: Row,
        airport: Airport,
        hour: u32,
    ) -> u32 {
        self.hours.arrivals_beside(inst, leg, row, airport, hour)
    }
}
