//! Position: aircraft that are not where they are needed when the window ends.

ghost use Rattle.std.specs.Prelude.{◌≡◌, ◌<◌, ◌≤◌, ◌^◌, length, All};
ghost use Rattle.desk_data.specs.Situation.{planes_of};
ghost use Rattle.desk_data.specs.Valid.{IsPlanFor};
ghost use Rattle.desk_rules.specs.Cost.{position_cost, is_wanted, grains};
ghost use Rattle.plan_checks.specs.Stands.{is_there, AreHere, count_of_wanted};

use crate::stands::put_stands;
use crate::weights::weight_of;
use desk_data::{Airport, Grains, Instance, Leg, Plane, PlaneInfo, PositionInfo, Term};
use desk_units::per_item;
use plan_reads::{ReadPlan, same_seats};

/// The most aircraft that a day has.
const PLANES: usize = 1_000;

/// The aircraft that end at one airport: the first `count` of a row of numbers kept beside it.
#[derive(Clone, Copy)]
struct Gathered {
    airport: Airport,
    count: usize,
}

/// What the aircraft cost that are missing where the window ends.
pub(crate) fn position_cost<P: ReadPlan>(inst: &Instance, plan: &P) -> Grains
    requires { IsPlanFor inst.now (P.plan_of plan.now) }
    ensures cost { result ≡ grains (position_cost inst.now (P.plan_of plan.now)) }
    ensures limit { result.0 ≤ 10 ^ 32 }
{
    let mut lasts = [None; PLANES];
    let mut stands = [None; PLANES];
    let mut here = [0; PLANES];
    let planes = inst.planes() as usize;
    missing_cost(
        inst,
        plan,
        &mut lasts[..planes],
        &mut stands[..planes],
        &mut here[..planes],
    )
}

/// What the missing aircraft cost, with room for the last leg, the stand and the number of each
/// aircraft. The groups of one line of the file stand one after another, so the aircraft that end at
/// an airport are gathered once for all groups of a line.
#[tactic(auto, unfolding(desk_rules::specs::Cost::position_cost))]
fn missing_cost<P: ReadPlan>(
    inst: &Instance,
    plan: &P,
    lasts: &mut [Option<Leg>],
    stands: &mut [Option<Airport>],
    here: &mut [u32],
) -> Grains
    requires plan { IsPlanFor inst.now (P.plan_of plan.now) }
    requires lasts { length lasts.old ≡ planes_of inst.now }
    requires stands { length stands.old ≡ planes_of inst.now }
    requires here { length here.old ≡ planes_of inst.now }
    ensures cost { result ≡ grains (position_cost inst.now (P.plan_of plan.now)) }
    ensures limit { result.0 ≤ 10 ^ 32 }
{
    put_stands(inst, plan, lasts, stands);
    let weight = weight_of(inst, Term::Position);
    let price = inst.prices().position();
    let _rows = inst.parts();
    let mut total = Grains(0);
    let mut gathered = gather(inst, stands, Airport(0), here);
    for position in inst.positions() {
        gathered = gather_at(inst, stands, gathered, position.airport, here);
        let missing = (position.count as usize).saturating_sub(at_hand(
            inst,
            position,
            &here[..gathered.count],
        ));
        total = total.plus(per_item(price, weight, missing as u64));
    }
    total
}

/// The aircraft of an airport, gathered anew only if those of another one were gathered last.
fn gather_at(
    inst: &Instance,
    stands: &[Option<Airport>],
    last: Gathered,
    airport: Airport,
    here: &mut [u32],
) -> Gathered
    requires stands { length stands.now ≡ planes_of inst.now }
    requires last { AreHere inst.now stands.now last.airport.0 last.count here.old }
    ensures airport { result.airport ≡ airport }
    ensures here { AreHere inst.now stands.now airport.0 result.count here.new }
{
    if last.airport == airport {
        return last;
    }
    gather(inst, stands, airport, here)
}

/// Writes the numbers of the aircraft that end at an airport, in order.
fn gather(
    inst: &Instance,
    stands: &[Option<Airport>],
    airport: Airport,
    here: &mut [u32],
) -> Gathered
    requires stands { length stands.now ≡ planes_of inst.now }
    requires here { length here.old ≡ planes_of inst.now }
    ensures airport { result.airport ≡ airport }
    ensures here { AreHere inst.now stands.now airport.0 result.count here.new }
{
    let mut count = 0;
    for p in 0..inst.planes() {
        if is_at(stands[p as usize], airport) {
            here[count] = p;
            count += 1;
        }
    }
    Gathered { airport, count }
}

/// How many of some aircraft are of a position's model and seats.
fn at_hand(inst: &Instance, position: &PositionInfo, here: &[u32]) -> usize
    requires { All (λ p. p < planes_of inst.now) here.now }
    ensures { result ≡ count_of_wanted inst.now position.now here.now }
{
    let mut count = 0;
    for p in here {
        if is_wanted(position, inst.plane(Plane(*p))) {
            count += 1;
        }
    }
    count
}

fn is_at(stand: Option<Airport>, airport: Airport) -> bool
    ensures { result ≡ is_there stand airport.0 }
{
    match stand {
        Some(there) => there.0 == airport.0,
        None => false,
    }
}

/// Whether an aircraft has the model and the seats of a position.
fn is_wanted(position: &PositionInfo, plane: &PlaneInfo) -> bool
    ensures { result ≡ is_wanted position.now plane.now }
{
    position.model.as_slice() == plane.model.as_slice() && same_seats(position.seats, plane.seats)
}
