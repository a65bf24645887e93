//! What one more added leg changes of the cost.

ghost use Rattle.std.specs.Prelude.{◌≡◌, ◌<◌, ◌≤◌, ◌^◌, length};
ghost use Rattle.desk_data.specs.Situation.{plane_at, planes_of};
ghost use Rattle.ferry_legs.specs.Positions.{gained, lost};
ghost use Rattle.ferry_legs.specs.Prices.{flying_cost, missing_cost};

use crate::positions::{gained, lost};
use crate::wanted::Wanted;
use desk_data::{Airport, Grains, Instance, Plane, Term};
use desk_units::{per_hour, per_item};

/// What the cost is more by one more added leg, and what it is less.
#[derive(Clone, Copy)]
pub(crate) struct Change {
    pub(crate) more: Grains,
    pub(crate) less: Grains,
}

/// What so many minutes of an aircraft cost.
pub(crate) fn flying_cost(inst: &Instance, plane: Plane, minutes: u32) -> Grains
    requires plane { plane.0 < planes_of inst.now }
    ensures cost { result.0 ≡ flying_cost inst.now plane.0 minutes }
    ensures limit { result.0 ≤ 10 ^ 33 }
{
    let weight = inst.prices().weight(Term::Operating);
    per_hour(inst.plane(plane).hourly, weight, u64::from(minutes))
}

/// What so many missing aircraft cost.
pub(crate) fn missing_cost(inst: &Instance, aircraft: usize) -> Grains
    requires { aircraft ≤ 10000 }
    ensures cost { result.0 ≡ missing_cost inst.now aircraft }
    ensures limit { result.0 ≤ 10 ^ 33 }
{
    let weight = inst.prices().weight(Term::Position);
    per_item(inst.prices().position(), weight, aircraft as u64)
}
