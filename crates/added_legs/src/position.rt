//! What the aircraft cost that are missing where the window ends.

ghost use Rattle.std.specs.Prelude.{◌≡◌, ◌≤◌, ◌^◌, length};
ghost use Rattle.desk_data.specs.Situation.{planes_of};
ghost use Rattle.desk_rules.specs.Cost.{grains, is_wanted};
ghost use Rattle.plan_checks.specs.Stands.{is_there};
ghost use Rattle.added_legs.specs.Stands.{hand_by, position_by};

use desk_data::{Airport, Grains, Instance, Plane, PlaneInfo, PositionInfo, Term};
use desk_units::per_item;
use plan_reads::same_seats;

/// What the aircraft cost that are missing, given where each aircraft ends. All aircraft are walked once for each position.
#[tactic(auto, unfolding(crate::specs::Stands::position_by))]
pub(crate) fn position_cost(inst: &Instance, stands: &[Option<Airport>]) -> Grains
    requires { length stands.now ≡ planes_of inst.now }
    ensures cost { result ≡ grains (position_by inst.now stands.now) }
    ensures limit { result.0 ≤ 10 ^ 31 }
{
    let weight = inst.prices().weight(Term::Position);
    let price = inst.prices().position();
    let _rows = inst.parts();
    let mut total = Grains(0);
    for position in inst.positions() {
        let missing = position
            .count
            .saturating_sub(at_hand(inst, stands, position));
        total = total.plus(per_item(price, weight, u64::from(missing)));
    }
    total
}

/// How many of the wanted aircraft end at a position.
fn at_hand(inst: &Instance, stands: &[Option<Airport>], position: &PositionInfo) -> u32
    requires { length stands.now ≡ planes_of inst.now }
    ensures { result ≡ hand_by inst.now stands.now position.now (planes_of inst.now) }
{
    let mut count = 0;
    for p in 0..inst.planes() {
        if is_wanted(position, inst.plane(Plane(p)))
            && is_there(stands[p as usize], position.airport)
        {
            count += 1;
        }
    }
    count
}

/// Whether an aircraft ends at an airport.
fn is_there(stand: Option<Airport>, airport: Airport) -> bool
    ensures { result ≡ is_there stand airport.0 }
{
    match stand {
        Some(there) => there.0 == airport.0,
        None => false,
    }
}

/// Whether an aircraft has the model and the seats of a position.
pub(crate) fn is_wanted(position: &PositionInfo, plane: &PlaneInfo) -> bool
    ensures { result ≡ is_wanted position.now plane.now }
{
    position.model.as_slice() == plane.model.as_slice() && same_seats(position.seats, plane.seats)
}
