//! C12: passengers have seats.

ghost use Rattle.std.specs.Prelude.{◌≡◌, ◌<◌, [], ◌∷◌, find, IfOk};
ghost use Rattle.desk_units.specs.declared.numbers.Cabin.{Cabin};
ghost use Rattle.desk_data.specs.Situation.{legs_of};
ghost use Rattle.desk_data.specs.Valid.{IsPlanFor};
ghost use Rattle.desk_data.specs.declared.broken.Broken.TheVariants as broken;
ghost use Rattle.desk_rules.specs.Least.{breaks, each_cabin};
ghost use Rattle.desk_rules.specs.Passengers.{aboard, seats_in};

use crate::taken::taken_seats;
use desk_data::{Broken, Cabin, Instance, Leg, NoMem, Plan, Row, Seats};
use std::alloc::Global;

/// The first leg that breaks C12, and its first cabin that does. The time is linear in the legs and the groups of
/// passengers. The only error is out of memory.
pub fn first_c12(alloc: Global, inst: &Instance, plan: &Plan) -> Result<Option<Broken>, NoMem>
    requires { IsPlanFor inst.now plan.now }
    ensures { IfOk result (λ item. item ≡ find (breaks inst.now plan.now) (each_cabin inst.now broken.C12)) }
{
    let taken = taken_seats(alloc, inst, plan)?;
    for x in 0..inst.legs() {
        if let Some(item) = first_of_leg(inst, plan, Leg(x), taken[x as usize]) {
            return Ok(Some(item));
        }
    }
    Ok(None)
}

/// The first cabin of a leg that breaks C12, given the seats that passengers take.
#[tactic(auto, unfolding(desk_rules::specs::Least::breaks, desk_rules::specs::Carriage::keeps_c12))]
fn first_of_leg(inst: &Instance, plan: &Plan, leg: Leg, taken: Seats) -> Option<Broken>
    requires plan { IsPlanFor inst.now plan.now }
    requires leg { leg.0 < legs_of inst.now }
    requires taken { (c : Cabin) → seats_in taken c ≡ aboard plan.now leg.0 c }
    ensures { result ≡ find (breaks inst.now plan.now) (broken.C12 leg Cabin.F ∷ broken.C12 leg Cabin.B ∷ broken.C12 leg Cabin.E ∷ []) }
{
    let Row::Flown { plane, .. } = plan.read_row(leg) else {
        return None;
    };
    let seats = inst.plane(plane).seats;
    if seats.f < taken.f {
        Some(Broken::C12(leg, Cabin::F))
    } else if seats.b < taken.b {
        Some(Broken::C12(leg, Cabin::B))
    } else if seats.e < taken.e {
        Some(Broken::C12(leg, Cabin::E))
    } else {
        None
    }
}
