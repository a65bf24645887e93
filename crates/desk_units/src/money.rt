//! Prices, weights and sums of money, all of them exact.

ghost use Rattle.std.specs.Prelude.{◌≡◌, ◌+◌, ◌*◌, ◌^◌, ◌≤◌};

/// A price in ten-thousandths of a unit of money: 12.5 is 125,000.
#[derive(Clone, Copy, PartialEq, Eq)]
pub struct Price(pub u64);

/// The weight of a cost term in thousandths: 1 is 1,000.
#[derive(Clone, Copy)]
pub struct Weight(pub u32);

/// A sum of money in grains, 600,000,000 to one unit of money.
#[derive(Clone, Copy, Debug, PartialEq, Eq)]
pub struct Grains(pub u128);

impl Grains {
    /// The sum of both.
    pub fn plus(self, other: Grains) -> Grains
        requires { self.0 + other.0 ≤ 10 ^ 38 }
        ensures { result.0 ≡ self.0 + other.0 }
    {
        Grains(self.0 + other.0)
    }
}

/// What `items` items cost at a price for each, weighted: 60 times weight, price and number.
pub fn per_item(price: Price, weight: Weight, items: u64) -> Grains
    requires price { price.0 ≤ 9999999999999 }
    requires weight { weight.0 ≤ 999999999 }
    requires items { items ≤ 10 ^ 9 }
    ensures { result.0 ≡ 60 * weight.0 * price.0 * items }
{
    let weighted = u128::from(weight.0) * u128::from(price.0);
    Grains(60 * weighted * u128::from(items))
}

/// What `minutes` minutes cost at a price for an hour, weighted: weight times price times minutes.
pub fn per_hour(price: Price, weight: Weight, minutes: u64) -> Grains
    requires price { price.0 ≤ 9999999999999 }
    requires weight { weight.0 ≤ 999999999 }
    requires minutes { minutes ≤ 10 ^ 16 }
    ensures { result.0 ≡ weight.0 * price.0 * minutes }
{
    let weighted = u128::from(weight.0) * u128::from(price.0);
    Grains(weighted * u128::from(minutes))
}
