//! Tables by haul, by cabin and by term.

ghost use Rattle.std.specs.Prelude.{◌≡◌};
ghost use Rattle.tariff_prices.specs.PriceTables.{at_cabin, at_haul, at_term};

use desk_units::{Cabin, Haul, Term};

/// One of them for each cabin.
pub struct ByCabin<T> {
    pub f: T,
    pub b: T,
    pub e: T,
}

/// One of them for each haul.
pub struct ByHaul<T> {
    pub d: T,
    pub c: T,
    pub i: T,
}

/// One of them for each cost term.
pub struct ByTerm<T> {
    pub operating: T,
    pub delay: T,
    pub cancellation: T,
    pub downgrade: T,
    pub legal: T,
    pub position: T,
}

/// Dropped in one call, so that a function that owns one proves it once, and not part by part.
impl<T: Drop> Drop for ByCabin<T> {
    fn drop(self) {
        let ByCabin { f: _, b: _, e: _ } = self;
    }
}

impl<T: Drop> Drop for ByHaul<T> {
    fn drop(self) {
        let ByHaul { d: _, c: _, i: _ } = self;
    }
}

impl<T: Drop> Drop for ByTerm<T> {
    fn drop(self) {
        let ByTerm {
            operating: _,
            delay: _,
            cancellation: _,
            downgrade: _,
            legal: _,
            position: _,
        } = self;
    }
}

impl<T> ByCabin<T> {
    /// That of a cabin.
    pub fn at(&self, cabin: Cabin) -> &T
        ensures { result.now ≡ at_cabin self.now cabin }
    {
        match cabin {
            Cabin::F => &self.f,
            Cabin::B => &self.b,
            Cabin::E => &self.e,
        }
    }
}

impl<T> ByHaul<T> {
    /// That of a haul.
    pub fn at(&self, haul: Haul) -> &T
        ensures { result.now ≡ at_haul self.now haul }
    {
        match haul {
            Haul::D => &self.d,
            Haul::C => &self.c,
            Haul::I => &self.i,
        }
    }
}

impl<T> ByTerm<T> {
    /// That of a cost term.
    pub fn at(&self, term: Term) -> &T
        ensures { result.now ≡ at_term self.now term }
    {
        match term {
            Term::Operating => &self.operating,
            Term::Delay => &self.delay,
            Term::Cancellation => &self.cancellation,
            Term::Downgrade => &self.downgrade,
            Term::Legal => &self.legal,
            Term::Position => &self.position,
        }
    }
}
