//! What is kept of a tariff, so that a look-up takes no walk over its rows.

ghost use Rattle.std.specs.Prelude.{◌≡◌, ◌≤◌, IfOk, All};
ghost use Rattle.desk_units.specs.declared.numbers.Cabin.{Cabin};
ghost use Rattle.desk_units.specs.declared.numbers.Haul.{Haul};
ghost use Rattle.desk_units.specs.declared.tariff.Term.{Term};
ghost use Rattle.tariff_prices.specs.Rows.{IsTariffRow, AreTariffRows, IsPrice};
ghost use Rattle.tariff_prices.specs.Prices.{first_rate, amount_for, weight_of, price_by, steps_by};
ghost use Rattle.tariff_prices.specs.PriceTables.{at_cabin, at_haul, at_term, IsWeightOf, IsPriceOf, AreStepsOf, AreTables};

use crate::by::{ByCabin, ByHaul, ByTerm};
use crate::purpose::{Ladder, Purpose, Rate, Step, same_purpose};
use desk_units::{Cabin, Haul, NoMem, Price, TariffRow, Term, Weight};
use std::alloc::Global;

/// The tables of a tariff.
pub struct PriceTables {
    pub weights: ByTerm<Weight>,
    pub delays: ByHaul<ByCabin<Price>>,
    pub cancels: ByHaul<ByCabin<Price>>,
    /// By haul, by the cabin that was booked and by the one that is flown.
    pub downgrades: ByHaul<ByCabin<ByCabin<Price>>>,
    pub position: Price,
    pub uncarried_care: ByHaul<Price>,
    pub uncarried_compensation: ByHaul<Price>,
    /// The steps of each haul, from the least threshold on.
    pub care: ByHaul<Vec<Step>>,
    pub compensation: ByHaul<Vec<Step>>,
}

/// Dropped in one call, so that a function that owns one proves it once, and not part by part.
impl Drop for PriceTables {
    fn drop(self) {
        let PriceTables {
            weights: _,
            delays: _,
            cancels: _,
            downgrades: _,
            position: _,
            uncarried_care: _,
            uncarried_compensation: _,
            care: _,
            compensation: _,
        } = self;
    }
}

/// The first rate of the rows that is for this.
fn first_rate(rows: &[TariffRow], purpose: Purpose) -> Option<Rate>
    ensures { result ≡ first_rate purpose rows.now }
{
    rows.iter()
        .filter_map(|row| Rate::of(row))
        .find(|rate| same_purpose(rate.purpose, purpose))
}

/// How much that is.
#[tactic(auto, unfolding(crate::specs::Prices::amount_for))]
fn amount_for(rows: &[TariffRow], purpose: Purpose) -> Option<u64>
    ensures { result ≡ amount_for purpose rows.now }
{
    first_rate(rows, purpose).map(|rate| rate.amount)
}

/// The weight of a term, 1 where no row gives it.
#[tactic(auto, unfolding(crate::specs::Prices::weight_of), using(crate::proofs::RateLemmas::weight_within))]
fn weight_of(rows: &[TariffRow], term: Term) -> Weight
    requires { All IsTariffRow rows.now }
    ensures weight { result.0 ≡ weight_of rows.now term }
    ensures limit { result.0 ≤ 999999999 }
{
    let amount = amount_for(rows, Purpose::Weight(term)).unwrap_or(1_000);
    Weight(amount as u32)
}

/// The price of what is asked, 0 where no row gives it.
#[tactic(auto, unfolding(crate::specs::Prices::price_by), using(crate::proofs::RateLemmas::price_within))]
fn price_of(rows: &[TariffRow], purpose: Purpose) -> Price
    requires { All IsTariffRow rows.now }
    ensures price { result.0 ≡ price_by purpose rows.now }
    ensures limit { IsPrice result.0 }
{
    Price(amount_for(rows, purpose).unwrap_or(0))
}

fn weights(rows: &[TariffRow]) -> ByTerm<Weight>
    requires { All IsTariffRow rows.now }
    ensures { (term : Term) → IsWeightOf rows.now term (at_term result term) }
{
    ByTerm {
        operating: weight_of(rows, Term::Operating),
        delay: weight_of(rows, Term::Delay),
        cancellation: weight_of(rows, Term::Cancellation),
        downgrade: weight_of(rows, Term::Downgrade),
        legal: weight_of(rows, Term::Legal),
        position: weight_of(rows, Term::Position),
    }
}

fn delays_of(rows: &[TariffRow], haul: Haul) -> ByCabin<Price>
    requires { All IsTariffRow rows.now }
    ensures { (cabin : Cabin) → IsPriceOf rows.now (Purpose.Delay haul cabin) (at_cabin result cabin) }
{
    ByCabin {
        f: price_of(rows, Purpose::Delay(haul, Cabin::F)),
        b: price_of(rows, Purpose::Delay(haul, Cabin::B)),
        e: price_of(rows, Purpose::Delay(haul, Cabin::E)),
    }
}

fn delays(rows: &[TariffRow]) -> ByHaul<ByCabin<Price>>
    requires { All IsTariffRow rows.now }
    ensures { (haul : Haul) (cabin : Cabin) → IsPriceOf rows.now (Purpose.Delay haul cabin) (at_cabin (at_haul result haul) cabin) }
{
    ByHaul {
        d: delays_of(rows, Haul::D),
        c: delays_of(rows, Haul::C),
        i: delays_of(rows, Haul::I),
    }
}

fn cancels_of(rows: &[TariffRow], haul: Haul) -> ByCabin<Price>
    requires { All IsTariffRow rows.now }
    ensures { (cabin : Cabin) → IsPriceOf rows.now (Purpose.Cancel haul cabin) (at_cabin result cabin) }
{
    ByCabin {
        f: price_of(rows, Purpose::Cancel(haul, Cabin::F)),
        b: price_of(rows, Purpose::Cancel(haul, Cabin::B)),
        e: price_of(rows, Purpose::Cancel(haul, Cabin::E)),
    }
}

fn cancels(rows: &[TariffRow]) -> ByHaul<ByCabin<Price>>
    requires { All IsTariffRow rows.now }
    ensures { (haul : Haul) (cabin : Cabin) → IsPriceOf rows.now (Purpose.Cancel haul cabin) (at_cabin (at_haul result haul) cabin) }
{
    ByHaul {
        d: cancels_of(rows, Haul::D),
        c: cancels_of(rows, Haul::C),
        i: cancels_of(rows, Haul::I),
    }
}

fn downgrades_from(rows: &[TariffRow], haul: Haul, reference: Cabin) -> ByCabin<Price>
    requires { All IsTariffRow rows.now }
    ensures { (below : Cabin) → IsPriceOf rows.now (Purpose.Downgrade haul reference below) (at_cabin result below) }
{
    ByCabin {
        f: price_of(rows, Purpose::Downgrade(haul, reference, Cabin::F)),
        b: price_of(rows, Purpose::Downgrade(haul, reference, Cabin::B)),
        e: price_of(rows, Purpose::Downgrade(haul, reference, Cabin::E)),
    }
}

fn downgrades_of(rows: &[TariffRow], haul: Haul) -> ByCabin<ByCabin<Price>>
    requires { All IsTariffRow rows.now }
    ensures { (reference below : Cabin) → IsPriceOf rows.now (Purpose.Downgrade haul reference below) (at_cabin (at_cabin result reference) below) }
{
    ByCabin {
        f: downgrades_from(rows, haul, Cabin::F),
        b: downgrades_from(rows, haul, Cabin::B),
        e: downgrades_from(rows, haul, Cabin::E),
    }
}

fn downgrades(rows: &[TariffRow]) -> ByHaul<ByCabin<ByCabin<Price>>>
    requires { All IsTariffRow rows.now }
    ensures { (haul : Haul) (reference below : Cabin) → IsPriceOf rows.now (Purpose.Downgrade haul reference below) (at_cabin (at_cabin (at_haul result haul) reference) below) }
{
    ByHaul {
        d: downgrades_of(rows, Haul::D),
        c: downgrades_of(rows, Haul::C),
        i: downgrades_of(rows, Haul::I),
    }
}

fn uncarried_care(rows: &[TariffRow]) -> ByHaul<Price>
    requires { All IsTariffRow rows.now }
    ensures { (haul : Haul) → IsPriceOf rows.now (Purpose.Legal (Ladder.Care haul) None) (at_haul result haul) }
{
    ByHaul {
        d: price_of(rows, Purpose::Legal(Ladder::Care(Haul::D), None)),
        c: price_of(rows, Purpose::Legal(Ladder::Care(Haul::C), None)),
        i: price_of(rows, Purpose::Legal(Ladder::Care(Haul::I), None)),
    }
}

fn uncarried_compensation(rows: &[TariffRow]) -> ByHaul<Price>
    requires { All IsTariffRow rows.now }
    ensures { (haul : Haul) → IsPriceOf rows.now (Purpose.Legal (Ladder.Compensation haul) None) (at_haul result haul) }
{
    ByHaul {
        d: price_of(rows, Purpose::Legal(Ladder::Compensation(Haul::D), None)),
        c: price_of(rows, Purpose::Legal(Ladder::Compensation(Haul::C), None)),
        i: price_of(rows, Purpose::Legal(Ladder::Compensation(Haul::I), None)),
    }
}

/// The steps of a ladder, in the order of the rows.
#[tactic(auto, unfolding(crate::specs::Prices::steps_by))]
fn steps_by(alloc: Global, rows: &[TariffRow], ladder: Ladder) -> Result<Vec<Step>, NoMem>
    ensures { IfOk result (λ steps. steps.items ≡ steps_by ladder rows.now) }
{
    let steps = rows
        .iter()
        .filter_map(|row| Rate::of(row))
        .filter_map(|rate| rate.step_on(ladder))
        .collect(alloc)?;
    Ok(steps)
}

/// The steps of a ladder, from the least threshold on.
fn steps_of(alloc: Global, rows: &[TariffRow], ladder: Ladder) -> Result<Vec<Step>, NoMem>
    requires { AreTariffRows rows.now }
    ensures { IfOk result (λ steps. AreStepsOf rows.now ladder steps.items) }
{
    let mut steps = steps_by(alloc, rows, ladder)?;
    steps.sort_by_key(|step| step.from)?;
    Ok(steps)
}

fn care(alloc: Global, rows: &[TariffRow]) -> Result<ByHaul<Vec<Step>>, NoMem>
    requires { AreTariffRows rows.now }
    ensures { IfOk result (λ care. (haul : Haul) → AreStepsOf rows.now (Ladder.Care haul) (at_haul care haul).items) }
{
    Ok(ByHaul {
        d: steps_of(alloc, rows, Ladder::Care(Haul::D))?,
        c: steps_of(alloc, rows, Ladder::Care(Haul::C))?,
        i: steps_of(alloc, rows, Ladder::Care(Haul::I))?,
    })
}

fn compensation(alloc: Global, rows: &[TariffRow]) -> Result<ByHaul<Vec<Step>>, NoMem>
    requires { AreTariffRows rows.now }
    ensures { IfOk result (λ compensation. (haul : Haul) → AreStepsOf rows.now (Ladder.Compensation haul) (at_haul compensation haul).items) }
{
    Ok(ByHaul {
        d: steps_of(alloc, rows, Ladder::Compensation(Haul::D))?,
        c: steps_of(alloc, rows, Ladder::Compensation(Haul::C))?,
        i: steps_of(alloc, rows, Ladder::Compensation(Haul::I))?,
    })
}

impl PriceTables {
    /// The tables of these rows. The only error is out of memory.
    pub fn of(alloc: Global, rows: &[TariffRow]) -> Result<PriceTables, NoMem>
        requires { AreTariffRows rows.now }
        ensures { IfOk result (λ tables. AreTables rows.now tables) }
    {
        Ok(PriceTables {
            weights: weights(rows),
            delays: delays(rows),
            cancels: cancels(rows),
            downgrades: downgrades(rows),
            position: price_of(rows, Purpose::Position),
            uncarried_care: uncarried_care(rows),
            uncarried_compensation: uncarried_compensation(rows),
            care: care(alloc, rows)?,
            compensation: compensation(alloc, rows)?,
        })
    }
}
