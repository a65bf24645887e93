//! What those pay who are on each leg of a plan, who they are, and where its aircraft end.

ghost use Rattle.std.specs.Prelude.{◌≡◌, IfOk, replicate};
ghost use Rattle.desk_data.specs.Situation.{reservations_of};
ghost use Rattle.desk_data.specs.Valid.{IsPlanFor};
ghost use Rattle.near_priced.specs.Payers.{AreCosts};
ghost use Rattle.near_priced.specs.Tables.{ArePayments};

use crate::hands::hands_of;
use crate::paid::put_paid;
use board_kit::LegUsers;
use desk_data::{Grains, Instance, Leg, NoMem};
use plan_pages::Pages;
use plan_reads::put_lasts;
use std::alloc::Global;

/// What is to be known of a plan to hold what a move costs more against what those pay whom it touches. Amounts are in
/// grains.
pub struct Payments {
    /// For each leg what the passengers of those reservations cost that have somebody on it, or more.
    pub(crate) on: Vec<u128>,
    /// The same of those reservations that are booked on it.
    pub(crate) booked: Vec<u128>,
    /// What the passengers of each reservation cost, by its number.
    pub(crate) costs: Vec<Grains>,
    /// For each leg the reservations that have somebody on it.
    pub(crate) users: LegUsers,
    /// For each aircraft its last leg before the window's end, if there is one.
    pub(crate) lasts: Vec<Option<Leg>>,
    /// For each position how many aircraft are at hand; empty where there are too many positions.
    pub(crate) hands: Vec<u32>,
}

/// Dropped in one call, so that a function that owns one proves it once, and not part by part.
impl Drop for Payments {
    fn drop(self) {
        let Payments {
            on: _,
            booked: _,
            costs: _,
            users: _,
            lasts: _,
            hands: _,
        } = self;
    }
}

impl Payments {
    /// Those at a plan, which is one for the instance, given what each reservation costs
    /// (`reservation_costs`): one walk over the reservations and the paths of those that cost something, one over all paths, one over
    /// the legs, and for each position one over the aircraft. The only error is out of memory.
    pub fn of(
        alloc: Global,
        inst: &Instance,
        plan: &Pages,
        costs: &[Grains],
    ) -> Result<Payments, NoMem>
        requires plan { IsPlanFor inst.now plan.now }
        requires costs { AreCosts inst.now plan.now costs.now (reservations_of inst.now) }
        ensures { IfOk result (ArePayments inst.now plan.now) }
    {
        let mut on = zeros(alloc, inst.legs() as usize)?;
        let mut booked = zeros(alloc, inst.legs() as usize)?;
        put_paid(inst, plan, costs, &mut on, &mut booked);
        let users = LegUsers::open(alloc, inst, plan)?;
        let costs = Vec::from_slice(alloc, costs)?;
        let mut lasts = vec![in alloc; None; inst.planes() as usize]?;
        let end = inst.window().1;
        put_lasts(&end, inst, plan, lasts.as_mut_slice());
        let hands = hands_of(alloc, inst, plan, lasts.as_slice())?;
        Ok(Payments {
            on,
            booked,
            costs,
            users,
            lasts,
            hands,
        })
    }

    /// For each leg what the passengers of those reservations cost, in grains, that have somebody on it, or more.
    pub fn on(&self) -> &[u128]
        ensures { result.now ≡ self.now.on.items }
    {
        self.on.as_slice()
    }

    /// The same of those reservations that are booked on it.
    pub fn booked(&self) -> &[u128]
        ensures { result.now ≡ self.now.booked.items }
    {
        self.booked.as_slice()
    }

    /// For each position how many aircraft are at hand; empty where there are too many positions.
    pub fn hands(&self) -> &[u32]
        ensures { result.now ≡ self.now.hands.items }
    {
        self.hands.as_slice()
    }
}

/// So many times 0.
fn zeros(alloc: Global, count: usize) -> Result<Vec<u128>, NoMem>
    ensures { IfOk result (λ none. none.items ≡ replicate count 0) }
{
    Ok(vec![in alloc; 0; count]?)
}
