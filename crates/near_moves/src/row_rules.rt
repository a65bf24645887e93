//! Which rules ask rows alone, and which steps leave rows as they are.

ghost use Rattle.std.specs.Prelude.{◌≡◌, ◌&&◌, nat_lt};
ghost use Rattle.desk_data.specs.Situation.{airports_of};
ghost use Rattle.desk_rules.specs.Least.{all_hours};
ghost use Rattle.near_moves.specs.RowRules.{is_of_rows, keeps_rows};

use desk_data::{Airport, Broken, Instance};
use plan_moves::Step;

/// The hours of the years 2000 to 2099, in which a plan's legs leave and arrive.
const ALL_HOURS: u32 = 876_600;

/// Whether a step leaves each leg its row: a Rebook, a Tidy and a Refill do.
pub fn keeps_rows(step: &Step) -> bool
    ensures { result ≡ keeps_rows step.now }
{
    match step {
        Step::Set { .. } | Step::Push { .. } | Step::Swap { .. } => false,
        Step::Rebook { .. } | Step::Tidy | Step::Refill { .. } => true,
    }
}

/// Whether an item is one that a plan for the day can break, and its rule asks rows alone: C1 to C7 of a leg, C8 and
/// C9 of an aircraft, or C10 and C11 of an hour of an airport.
pub fn is_of_rows(inst: &Instance, item: Broken) -> bool
    ensures { result ≡ is_of_rows inst.now item }
{
    match item {
        Broken::C1(leg)
        | Broken::C2(leg)
        | Broken::C3(leg)
        | Broken::C4(leg)
        | Broken::C5(leg)
        | Broken::C6(leg)
        | Broken::C7(leg) => leg.0 < inst.legs(),
        Broken::C8(plane) | Broken::C9(plane) => plane.0 < inst.planes(),
        Broken::C10(airport, hour) | Broken::C11(airport, hour) => { is_hour(inst, airport, hour) }
        Broken::C12(..) | Broken::C13(..) | Broken::C14(..) | Broken::C15(..) => false,
    }
}

/// Whether an airport and an hour are of the day.
#[tactic(auto, unfolding(desk_rules::specs::Least::all_hours))]
fn is_hour(inst: &Instance, airport: Airport, hour: u32) -> bool
    ensures { result ≡ nat_lt airport.0 (airports_of inst.now) && nat_lt hour all_hours }
{
    airport.0 < inst.airports() && hour < ALL_HOURS
}
