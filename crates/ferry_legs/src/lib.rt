//! Which legs `ferry` adds to a plan, so that aircraft end the day where they are wanted.
//!
//! # Whether one more leg pays
//!
//! Whether one more added leg pays: what is kept of a plan with added legs, so that no walk over its legs is needed for each.
//!
//!     let mut prices = FerryPrices::of(alloc, &inst, &plan)?;    // with no added leg
//!     prices.lowers(&inst, &plan, plane, dest)                   // whether the cost is lower with one more; takes no memory
//!     prices.add(&inst, &plan, leg);                             // it is added
//!     prices.cost()                                              // what the plan costs then
//!
//! One more leg changes the minutes that its aircraft flies, and where the aircraft ends. So kept are the cost, where each aircraft
//! ends, and by airport its positions, each with how many of its aircraft are at hand there: what a leg loses is read off
//! the positions of the airport that it leaves, and what it gains off those of its destination.
//!
//! Proved: `cost` is `cost_added` of added_legs, `lowers` is its `lowers`, for each moment at which such a leg may depart.
//!
//! # When it may depart
//!
//! When one more added leg may depart: the first moment with which the longer list breaks no rule, kept up to date while legs are added.
//!
//!     let mut times = FerryTimes::of(alloc, &inst, &plan)?;               // of no added legs; a few walks over the legs
//!     let at = times.departure(&inst, &plan, plane, dest);                // takes no memory
//!     times.add(&inst, &plan, Added { plane, dest, dep });                // takes no memory
//!
//! With a list of added legs that breaks nothing, a longer list breaks nothing exactly where the new leg keeps its aircraft's range,
//! meets no span out of service, leaves its aircraft's maintenance as it must be, and finds room in the hours in which it departs
//! and arrives. What does not depend on the list is worked out once, in `of`: the last leg of each aircraft, what its legs say
//! of its maintenance, and how many legs of the plan depart and arrive in each hour.
//!
//! The search jumps to the end of a span, of the maintenance, or of an hour that is full; it asks the counts of an hour only
//! where that has a cap, and then walks over the added legs. No clause says so.
//!
//! Proved: the answer is the departure of `candidate` of added_legs.
//!
//! # Which legs are added
//!
//!     for added in ferry(alloc, &inst, &plan)?.as_slice() {
//!         // added.leg, and added.cost: what the plan costs with it and with those before it
//!     }
//!
//! As long as there is one, the first candidate is added that lowers the cost. Candidates are tried by aircraft and then by
//! airport: first whether one lowers the cost, which does not depend on when it departs (`FerryPrices`), and only then
//! when it may depart (`FerryTimes`). Both are kept up to date while legs are added, so no candidate is a walk over the legs.
//!
//! Proved: the legs are those of `IsFerried` of added_legs, and each cost is `cost_added`.
#![tactic(auto)]

mod adding;
mod change;
mod departs;
mod ends;
mod ferried;
mod kept;
mod lasts;
mod opening;
mod positions;
mod prices;
mod room;
mod ruled_out;
mod table;
mod times;
mod wanted;
mod way;

pub use added_legs::Added;
pub use adding::ferry;
pub use ferried::Ferried;
pub use prices::FerryPrices;
pub use times::FerryTimes;
