//! Whether rows make a day, and whether a day can take orders.
//!
//! These are the tests of what `desk_data` asks of its callers. The program makes its days from files,
//! whose join sees to it; whoever makes one in another way, as the tests do, asks here:
//!
//!     if are_parts(alloc, &parts)? { let inst = Instance::of(alloc, parts)?; .. }
//!     if can_add(&inst, &batch) { inst.add(alloc, &plan, &batch)?; }
//!
//! Proved: both answer exactly whether the condition holds. No crate of the program depends on it.
#![tactic(auto)]

mod orders;
mod parts;

pub use orders::can_add;
pub use parts::are_parts;
