//! The prices and weights of a tariff, found by what they are for.
//!
//! Each row of a tariff is for one purpose (`Purpose`: a term's weight, or the price of a delay, a
//! passenger not carried, a downgrade, care, compensation or a missing aircraft) and gives it an
//! amount. Keys, look-ups and tables depend on that one enum.
//!
//!     let prices = Prices::of(alloc, &tariff)?;                // tables, made once for a day
//!     prices.delay(Haul::D, Cabin::E)                          // for an hour; 0 where no row gives it
//!     prices.care(Haul::I, 130)                                // by the greatest threshold reached
//!
//! `are_tariff_rows` says whether no two rows are for the same, and `same_key` whether two are.
//! Proved: each look-up is the definition over the rows (`specs/Prices`), and, as the law
//! `each_row_of_a_tariff_decides`, that each row of a tariff counts. It depends on `desk_units`.
#![tactic(auto)]

mod by;
mod laws;
mod prices;
mod purpose;
mod tables;
mod validity;

pub use desk_units::{Cabin, Haul, NoMem, Price, Tariff, TariffRow, Term, Weight};
pub use laws::each_row_of_a_tariff_decides;
pub use prices::Prices;
pub use validity::{are_tariff_rows, same_key};
