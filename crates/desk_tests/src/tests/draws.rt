//! What a walk draws: numbers, rows and paths.

ghost use Rattle.std.specs.Prelude.{◌≡◌, ◌<◌, IfOk};
ghost use Rattle.desk_data.specs.Situation.{legs_of, planes_of, reservations_of};
ghost use Rattle.desk_data.specs.Valid.{IsRowOf};
ghost use Rattle.plan_moves.specs.Fits.{IsPathIn};

use desk_data::{Cabin, Instance, Leg, List, Minute, NoMem, Path, Plane, Res, Row};
use std::alloc::Global;

/// Numbers that follow from a seed.
#[derive(Drop)]
pub(super) struct Draws {
    pub state: u64,
}

impl Draws {
    /// A number below this one.
    pub(super) fn below(&mut self, most: u32) -> u32
        requires { 0 < most }
        ensures { result < most }
    {
        let next = self.state.wrapping_mul(6_364_136_223_846_793_005);
        self.state = next.wrapping_add(1_442_695_040_888_963_407);
        let drawn = (self.state >> 33) as u32;
        drawn % most
    }
}

/// The row of a leg that keeps C1 and C2: the one that is due, or else by its own aircraft, as early as it may, or cancelled where it
/// is called off.
fn usual_row(inst: &Instance, leg: Leg) -> Row
    requires { leg.0 < legs_of inst.now }
    ensures { IsRowOf (planes_of inst.now) result }
{
    if let Some(row) = inst.due(leg) {
        return row;
    }
    if inst.called_off(leg) {
        return Row::Cancelled;
    }
    Row::Flown {
        plane: inst.leg(leg).plane,
        dep: inst.earliest(leg),
    }
}

/// A row that is drawn: mostly the usual one, so that a plan breaks few rules at a time. Else the leg is cancelled, departs up to three
/// hours later, by its own aircraft or by any, or most of a day later.
pub(super) fn drawn_row(inst: &Instance, leg: Leg, draws: &mut Draws) -> Row
    requires { leg.0 < legs_of inst.now }
    ensures { IsRowOf (planes_of inst.now) result }
{
    let own = inst.leg(leg).plane;
    let dep = inst.earliest(leg);
    let later = Minute(dep.0 + draws.below(180));
    let any = Plane(draws.below(inst.planes()));
    let (plane, dep) = match draws.below(24) {
        0 => return Row::Cancelled,
        1 | 2 => (any, later),
        3 | 4 => (own, later),
        5 | 6 => (own, Minute(dep.0 + 900 + draws.below(600))),
        7 => (any, dep),
        _ => return usual_row(inst, leg),
    };
    Row::Flown { plane, dep }
}

fn path_of(alloc: Global, legs: &[(Leg, Cabin)]) -> Result<Path, NoMem>
    ensures { IfOk result (λ path. path ≡ legs.now) }
{
    Ok(Path {
        legs: List(Vec::from_slice(alloc, legs)?),
    })
}

/// A path that is drawn: none, of a leg, of two legs, or the scheduled one.
pub(super) fn drawn_path(
    alloc: Global,
    inst: &Instance,
    res: Res,
    draws: &mut Draws,
) -> Result<Path, NoMem>
    requires legs { 0 < legs_of inst.now }
    requires res { res.0 < reservations_of inst.now }
    ensures { IfOk result (IsPathIn (legs_of inst.now)) }
{
    let first = (Leg(draws.below(inst.legs())), Cabin::E);
    let second = (Leg(draws.below(inst.legs())), Cabin::B);
    match draws.below(12) {
        0..=3 => path_of(alloc, &[]),
        4 | 5 => path_of(alloc, &[first]),
        6 => path_of(alloc, &[first, second]),
        _ => inst.res(res).path.copy(alloc),
    }
}
