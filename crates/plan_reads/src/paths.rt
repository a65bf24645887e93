//! Paths of passengers: whether they have a leg, and whether they are flown.

ghost use Rattle.std.specs.Prelude.{◌≡◌, ◌<◌, ◌≤◌, IsTrue, length};
ghost use Rattle.desk_data.specs.Valid.{IsPathOf};
ghost use Rattle.desk_rules.specs.Passengers.{all_flown, is_flown, takes};
ghost use Rattle.desk_data.specs.Paths.{is_carried};

use crate::reads::ReadPlan;
use desk_data::{Cabin, Leg, Row};

/// Whether passengers on a path are carried: they are unless it is empty.
pub fn is_carried(path: &[(Leg, Cabin)]) -> bool
    ensures carried { result ≡ is_carried path.now }
    ensures some { IsTrue result → 1 ≤ length path.now }
{
    !path.is_empty()
}

/// Whether a path has a leg, in this cabin.
pub fn has_leg(path: &[(Leg, Cabin)], leg: Leg, cabin: Cabin) -> bool
    ensures { result ≡ takes leg.0 cabin path.now }
{
    path.iter()
        .any(|pair| pair.0.0 == leg.0 && pair.1.rank() == cabin.rank())
}

/// Whether all legs of a path are flown; those of the empty path are.
#[tactic(auto, unfolding(desk_rules::specs::Passengers::all_flown))]
pub fn all_flown<P: ReadPlan>(plan: &P, path: &[(Leg, Cabin)]) -> bool
    requires { IsPathOf (length (P.plan_of plan.now).rows) path.now }
    ensures { result ≡ all_flown (P.plan_of plan.now) path.now }
{
    path.iter().all(|pair| is_flown(plan.read_row(pair.0)))
}

/// Whether a row is flown.
pub fn is_flown(row: Row) -> bool
    ensures { result ≡ is_flown row }
{
    match row {
        Row::Flown { .. } => true,
        Row::Cancelled => false,
    }
}
