//! The prices of a tariff.

ghost use Rattle.std.specs.Prelude.{◌≡◌, ◌≤◌, List, IfOk, All};
ghost use Rattle.tariff_prices.specs.Rows.{AreTariffRows, IsPrice};
ghost use Rattle.tariff_prices.specs.Prices.{weight_of, delay_price, cancel_price, downgrade_price, position_price, uncarried_care, uncarried_compensation, owed_at, care_price, compensation_price};
ghost use Rattle.tariff_prices.specs.PriceTables.{AreSteps};
ghost use Rattle.tariff_prices.specs.declared.purpose.Step.{Step};

use crate::purpose::Step;
use crate::tables::PriceTables;
use desk_units::{Cabin, Haul, NoMem, Price, Tariff, TariffRow, Term, Weight};
use std::alloc::Global;
use std::marker::Model;

/// The prices and weights of a tariff. Contracts see them as the rows of the tariff.
#[derive(Drop)]
pub struct Prices {
    rows: Vec<TariffRow>,
    tables: PriceTables,
}

impl Model for Prices {
    ghost use Rattle.std.specs.Prelude.{List as Items};
    ghost use Rattle.desk_units.specs.declared.tariff.TariffRow.{TariffRow as Priced};
    ghost use Rattle.tariff_prices.specs.Rows.{AreTariffRows};
    ghost use Rattle.tariff_prices.specs.PriceTables.{AreTables};

    ghost Value = { Items Priced };

    ghost view = { λ p. p.rows.items };

    ghost invariant = { λ p. AreTariffRows p.rows.items × AreTables p.rows.items p.tables };
}

impl Prices {
    /// The prices of a tariff. The only error is out of memory.
    pub fn of(alloc: Global, tariff: &Tariff) -> Result<Prices, NoMem>
        requires { AreTariffRows tariff.now.rows }
        ensures { IfOk result (λ prices. prices ≡ tariff.now.rows) }
    {
        let rows = Vec::from_slice(alloc, tariff.rows.as_slice())?;
        let tables = PriceTables::of(alloc, tariff.rows.as_slice())?;
        Ok(Prices { rows, tables })
    }

    /// The weight of a cost term, 1 where the tariff gives none.
    pub fn weight(&self, term: Term) -> Weight
        ensures weight { result.0 ≡ weight_of self.now term }
        ensures limit { result.0 ≤ 999999999 }
    {
        *self.tables.weights.at(term)
    }

    /// What an hour of a passenger's delay costs, by the haul and the highest cabin of the
    /// reservation; 0 where the tariff gives none, as each price below.
    #[tactic(auto, unfolding(crate::specs::Prices::delay_price))]
    pub fn delay(&self, haul: Haul, cabin: Cabin) -> Price
        ensures price { result.0 ≡ delay_price self.now haul cabin }
        ensures limit { IsPrice result.0 }
    {
        *self.tables.delays.at(haul).at(cabin)
    }

    /// What a passenger who is not carried costs, by the haul and the highest cabin of the
    /// reservation.
    #[tactic(auto, unfolding(crate::specs::Prices::cancel_price))]
    pub fn cancel(&self, haul: Haul, cabin: Cabin) -> Price
        ensures price { result.0 ≡ cancel_price self.now haul cabin }
        ensures limit { IsPrice result.0 }
    {
        *self.tables.cancels.at(haul).at(cabin)
    }

    /// What a leg of this haul costs for each passenger who booked cabin `reference` and flies it in
    /// cabin `below`.
    #[tactic(auto, unfolding(crate::specs::Prices::downgrade_price))]
    pub fn downgrade(&self, haul: Haul, reference: Cabin, below: Cabin) -> Price
        ensures price { result.0 ≡ downgrade_price self.now haul reference below }
        ensures limit { IsPrice result.0 }
    {
        *self.tables.downgrades.at(haul).at(reference).at(below)
    }

    /// What each missing aircraft costs where the window ends.
    #[tactic(auto, unfolding(crate::specs::Prices::position_price))]
    pub fn position(&self) -> Price
        ensures price { result.0 ≡ position_price self.now }
        ensures limit { IsPrice result.0 }
    {
        self.tables.position
    }

    /// What care costs for a passenger who arrives this many minutes late: the price of the greatest
    /// threshold that the delay reaches.
    #[tactic(auto, unfolding(crate::specs::Prices::care_price))]
    pub fn care(&self, haul: Haul, delay: u32) -> Price
        ensures price { result.0 ≡ care_price self.now haul delay }
        ensures limit { IsPrice result.0 }
    {
        price_at(self.tables.care.at(haul).as_slice(), delay)
    }

    /// What compensation is owed to a passenger who arrives this many minutes late: the price of the
    /// greatest threshold that the delay reaches.
    #[tactic(auto, unfolding(crate::specs::Prices::compensation_price))]
    pub fn compensation(&self, haul: Haul, delay: u32) -> Price
        ensures price { result.0 ≡ compensation_price self.now haul delay }
        ensures limit { IsPrice result.0 }
    {
        price_at(self.tables.compensation.at(haul).as_slice(), delay)
    }

    /// What care costs for a passenger who is not carried.
    #[tactic(auto, unfolding(crate::specs::Prices::uncarried_care))]
    pub fn uncarried_care(&self, haul: Haul) -> Price
        ensures price { result.0 ≡ uncarried_care self.now haul }
        ensures limit { IsPrice result.0 }
    {
        *self.tables.uncarried_care.at(haul)
    }

    /// What compensation is owed to a passenger who is not carried.
    #[tactic(auto, unfolding(crate::specs::Prices::uncarried_compensation))]
    pub fn uncarried_compensation(&self, haul: Haul) -> Price
        ensures price { result.0 ≡ uncarried_compensation self.now haul }
        ensures limit { IsPrice result.0 }
    {
        *self.tables.uncarried_compensation.at(haul)
    }
}

/// The price of the last step that a delay reaches, or 0.
fn price_at(steps: &[Step], delay: u32) -> Price
    ensures price { (all : List Step) → AreSteps all steps.now → result.0 ≡ owed_at delay all }
    ensures limit { All (λ step. IsPrice step.price.0) steps.now → IsPrice result.0 }
{
    let reached = steps.partition_point(|step| step.from <= delay);
    if reached == 0 {
        Price(0)
    } else {
        steps[reached - 1].price
    }
}
