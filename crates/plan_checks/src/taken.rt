//! The seats that passengers take, in each cabin of each leg, counted in one pass over all groups.

ghost use Rattle.std.specs.Prelude.{◌≡◌, ℕ, ◌+◌, ◌<◌, ◌^◌, if◌then◌else◌, ◌==◌, IfOk, All, length};
ghost use Rattle.desk_units.specs.Ranks.{cabin_rank};
ghost use Rattle.desk_units.specs.declared.numbers.Cabin.{Cabin};
ghost use Rattle.desk_data.specs.Situation.{reservations_of};
ghost use Rattle.desk_data.specs.Valid.{IsPathOf, IsPlanFor};
ghost use Rattle.desk_rules.specs.Passengers.{aboard_of, seats_in, takes};
ghost use Rattle.plan_checks.specs.TakenSeats.{AreTaken, all_of, seats_at};

use desk_data::{Cabin, Group, Instance, Leg, NoMem, Plan, Res, Seats};
use plan_reads::has_leg;
use std::alloc::Global;

/// The seats that the passengers of a plan take, by leg.
pub(crate) fn taken_seats(alloc: Global, inst: &Instance, plan: &Plan) -> Result<Vec<Seats>, NoMem>
    requires { IsPlanFor inst.now plan.now }
    ensures { IfOk result (λ taken. AreTaken inst.now plan.now (reservations_of inst.now) taken.items) }
{
    let none = Seats { f: 0, b: 0, e: 0 };
    let mut taken = vec![in alloc; none; inst.legs() as usize]?;
    for r in 0..inst.reservations() {
        seat_reservation(inst, plan, Res(r), taken.as_mut_slice());
    }
    Ok(taken)
}

/// Seats the passengers of one more reservation.
fn seat_reservation(inst: &Instance, plan: &Plan, res: Res, taken: &mut [Seats])
    requires plan { IsPlanFor inst.now plan.now }
    requires res { res.0 < reservations_of inst.now }
    requires so_far { AreTaken inst.now plan.now res.0 taken.old }
    ensures { AreTaken inst.now plan.now (res.0 + 1) taken.new }
{
    // there are at most 100,000 reservations of 1,000 passengers, so the seats fit
    prove!(inst.reservations() <= 100_000);
    prove!(inst.res(res).count <= 1_000);
    seat_groups(plan.groups(res), taken);
}

/// Seats the passengers of some groups, too.
fn seat_groups(groups: &[Group], taken: &mut [Seats])
    requires paths { All (λ group. IsPathOf (length taken.old) group.path) groups.now }
    requires room { (x : ℕ) (c : Cabin) → seats_at taken.old x c + all_of groups.now < 2 ^ 32 }
    ensures { (x : ℕ) (c : Cabin) → seats_at taken.new x c ≡ seats_at taken.old x c + aboard_of x c groups.now }
{
    for group in groups {
        seat_path(group.path.as_slice(), group.count, taken);
    }
}

/// Seats some passengers on a path, too: once in each cabin of each leg that stands in it.
fn seat_path(path: &[(Leg, Cabin)], count: u32, taken: &mut [Seats])
    requires legs { IsPathOf (length taken.old) path.now }
    requires room { (x : ℕ) (c : Cabin) → seats_at taken.old x c + count < 2 ^ 32 }
    ensures { (x : ℕ) (c : Cabin) → seats_at taken.new x c ≡ seats_at taken.old x c + (if takes x c path.now then count else 0) }
{
    for k in 0..path.len() {
        let (leg, cabin) = path[k];
        if !has_leg(&path[..k], leg, cabin) {
            let seats = taken[leg.0 as usize];
            taken[leg.0 as usize] = with_seated(seats, cabin, count);
        }
    }
}

/// The seats that are taken when more passengers sit in a cabin.
fn with_seated(taken: Seats, cabin: Cabin, count: u32) -> Seats
    requires { seats_in taken cabin + count < 2 ^ 32 }
    ensures { (c : Cabin) → seats_in result c ≡ seats_in taken c + (if cabin_rank cabin == cabin_rank c then count else 0) }
{
    match cabin {
        Cabin::F => Seats {
            f: taken.f + count,
            ..taken
        },
        Cabin::B => Seats {
            b: taken.b + count,
            ..taken
        },
        Cabin::E => Seats {
            e: taken.e + count,
            ..taken
        },
    }
}
