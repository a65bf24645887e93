//! Numbers, names, money and memory of a day, and how far a recovery of it has come.
//!
//! # Units
//!
//! The desk's units: moments, money, numbers of legs and the like, names and lists.
//!
//! A moment is a whole number of minutes since 2000-01-01 00:00. Prices have four decimals and
//! weights have three; money is counted in grains, 600,000,000 to one unit of money, so that each
//! cost of the desk is a whole number. An item at a price of p ten-thousandths with a weight of w
//! thousandths costs 60 * w * p grains, and a minute at a price for each hour w * p:
//!
//!     per_item(Price(10_000), Weight(1_000), 1)      // one unit of money: 600,000,000 grains
//!     per_hour(Price(600_000), Weight(1_000), 60)    // an hour at 60 units: 36,000,000,000 grains
//!
//! `Name::of` takes 1 to 32 bytes and keeps them in place. `Steps` counts rows that are read, and
//! takes no room when it runs. Nearly every crate of the desk depends on this one, and it on none. Proved:
//! the two sums, that `Grains::plus` keeps below its limit, and that a name is the bytes it was made of.
//!
//! # How far a recovery has come
//!
//! How far a recovery has come, as it is told while it runs, and who is told.
//!
//!     listener.reached(Headway { batch: 0, changes: 3, cost });   // the book stands so now
//!     listener.tried();                                           // a move more is tried near its plan
//!
//! A search and a recovery take any `Listener`, and promise the same for each of them: what is found, answered and
//! written depends on no listener. `Nobody` hears nothing and costs nothing.
#![tactic(auto)]

mod headway;
mod list;
mod listener;
mod memory;
mod money;
mod name;
mod numbers;
mod steps;
mod tariff;

pub use headway::Headway;
pub use list::List;
pub use listener::{Listener, Nobody};
pub use memory::NoMem;
pub use money::{Grains, Price, Weight, per_hour, per_item};
pub use name::Name;
pub use numbers::{Airport, Cabin, Haul, Leg, Minute, Plane, Res, Seats};
pub use steps::Steps;
pub use tariff::{Tariff, TariffRow, Term};
