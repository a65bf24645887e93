//! The rate that a row of a tariff gives: a price or a weight, and what it is for.

ghost use Rattle.std.specs.Prelude.{◌≡◌};
ghost use Rattle.tariff_prices.specs.Purposes.{rate_of, same_haul, same_cabin, same_term, same_threshold, same_ladder, same_purpose};
ghost use Rattle.tariff_prices.specs.Prices.{step_on};

use desk_units::{Cabin, Haul, Price, TariffRow, Term};

/// What passengers are owed who are late or not carried, by the haul of their reservation.
#[derive(Clone, Copy)]
pub enum Ladder {
    Care(Haul),
    Compensation(Haul),
}

/// What a row of a tariff gives a price or a weight for.
#[derive(Clone, Copy)]
pub enum Purpose {
    /// The weight of a cost term.
    Weight(Term),
    /// An hour of delay, by the haul and the highest cabin of the reservation.
    Delay(Haul, Cabin),
    /// A passenger who is not carried, by the haul and the highest cabin of the reservation.
    Cancel(Haul, Cabin),
    /// A leg, by its haul, the cabin that was booked and the one below that is flown.
    Downgrade(Haul, Cabin, Cabin),
    /// What is owed from so many minutes of delay on; with `None`, to those who are not carried.
    Legal(Ladder, Option<u32>),
    /// An aircraft that is missing where the window ends.
    Position,
}

/// A price or a weight, and what it is for.
#[derive(Clone, Copy)]
pub struct Rate {
    pub purpose: Purpose,
    /// A price in ten-thousandths of a unit of money, or a weight in thousandths.
    pub amount: u64,
}

/// A price that is owed from a threshold on, in minutes.
#[derive(Clone, Copy)]
pub struct Step {
    pub from: u32,
    pub price: Price,
}

fn same_haul(a: Haul, b: Haul) -> bool
    ensures { result ≡ same_haul a b }
{
    a.rank() == b.rank()
}

fn same_cabin(a: Cabin, b: Cabin) -> bool
    ensures { result ≡ same_cabin a b }
{
    a.rank() == b.rank()
}

fn same_term(a: Term, b: Term) -> bool
    ensures { result ≡ same_term a b }
{
    a.rank() == b.rank()
}

fn same_threshold(a: Option<u32>, b: Option<u32>) -> bool
    ensures { result ≡ same_threshold a b }
{
    match (a, b) {
        (Some(minutes), Some(other)) => minutes == other,
        (None, None) => true,
        _ => false,
    }
}

fn same_ladder(a: Ladder, b: Ladder) -> bool
    ensures { result ≡ same_ladder a b }
{
    match (a, b) {
        (Ladder::Care(haul), Ladder::Care(other)) => same_haul(haul, other),
        (Ladder::Compensation(haul), Ladder::Compensation(other)) => same_haul(haul, other),
        _ => false,
    }
}

/// Whether two purposes are the same.
#[tactic(auto, unfolding(crate::specs::Purposes::same_purpose))]
pub fn same_purpose(a: Purpose, b: Purpose) -> bool
    ensures { result ≡ same_purpose a b }
{
    match (a, b) {
        (Purpose::Weight(term), Purpose::Weight(other)) => same_term(term, other),
        (Purpose::Delay(haul, cabin), Purpose::Delay(other, class))
        | (Purpose::Cancel(haul, cabin), Purpose::Cancel(other, class)) => {
            same_haul(haul, other) && same_cabin(cabin, class)
        }
        (Purpose::Downgrade(haul, reference, below), Purpose::Downgrade(other, booked, flown)) => {
            same_haul(haul, other) && same_cabin(reference, booked) && same_cabin(below, flown)
        }
        (Purpose::Legal(ladder, threshold), Purpose::Legal(other, minutes)) => {
            same_ladder(ladder, other) && same_threshold(threshold, minutes)
        }
        (Purpose::Position, Purpose::Position) => true,
        _ => false,
    }
}

fn price_rate(purpose: Purpose, price: Price) -> Rate
    ensures { result ≡ record { purpose = purpose; amount = price.0 } }
{
    Rate {
        purpose,
        amount: price.0,
    }
}

impl Rate {
    /// The rate of a row; a family of surface transport has none.
    #[tactic(auto, unfolding(crate::specs::Purposes::rate_of))]
    pub fn of(row: &TariffRow) -> Option<Rate>
        ensures { result ≡ rate_of row.now }
    {
        let rate = match row {
            TariffRow::Surface { .. } => return None,
            TariffRow::Weight { term, weight } => Rate {
                purpose: Purpose::Weight(*term),
                amount: weight.0 as u64,
            },
            TariffRow::Delay { haul, cabin, price } => {
                price_rate(Purpose::Delay(*haul, *cabin), *price)
            }
            TariffRow::Cancel { haul, cabin, price } => {
                price_rate(Purpose::Cancel(*haul, *cabin), *price)
            }
            TariffRow::Downgrade {
                haul,
                reference,
                below,
                price,
            } => price_rate(Purpose::Downgrade(*haul, *reference, *below), *price),
            TariffRow::Care {
                haul,
                threshold,
                price,
            } => price_rate(Purpose::Legal(Ladder::Care(*haul), *threshold), *price),
            TariffRow::Compensation {
                haul,
                threshold,
                price,
            } => price_rate(
                Purpose::Legal(Ladder::Compensation(*haul), *threshold),
                *price,
            ),
            TariffRow::Position { price } => price_rate(Purpose::Position, *price),
        };
        Some(rate)
    }

    /// The step of a ladder that this is, where it is one.
    #[tactic(auto, unfolding(crate::specs::Prices::step_on))]
    pub fn step_on(self, ladder: Ladder) -> Option<Step>
        ensures { result ≡ step_on ladder self }
    {
        match self.purpose {
            Purpose::Legal(other, Some(from)) if same_ladder(other, ladder) => Some(Step {
                from,
                price: Price(self.amount),
            }),
            _ => None,
        }
    }
}
